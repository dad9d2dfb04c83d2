//! An inbox that is watched.

ghost use Rattle.std.specs.Prelude.{◌≡◌, ◌≤◌, false};
ghost use Rattle.watched_ports.specs.Counts.{IsNoted};
ghost use Rattle.watched_ports.specs.Gains.{Keeps};
ghost use Rattle.watched_ports.specs.Pasts.{IsInbox};

use crate::lent::LentInbox;
use crate::past::Past;
use bt_base::{Inbox, PortFault};
use std::marker::PhantomData;

/// An inbox that counts the objects that it stores, and notes whether it found no memory. All that it had stored stays in front.
#[derive(Drop)]
pub struct WatchedInbox<I: LentInbox, P: Past> {
    /// The inbox.
    pub inbox: I,
    /// How many objects it stored. The count stands still at 2^32 - 1.
    pub kept: u32,
    /// Whether it found no memory.
    pub short: bool,
    of: PhantomData<P>,
    pub ghost same: { I.name inbox ≡ P.inbox.name },
    pub ghost faults: { P.inbox.faults ≤ I.faults inbox },
    pub ghost shortages: { IsNoted P.inbox.shortages (I.shortages inbox) short },
    pub ghost keeps: { Keeps P.inbox.content kept (I.content inbox) },
}

impl<I: LentInbox, P: Past> WatchedInbox<I, P> {
    /// An inbox that is watched from now on.
    pub fn new(inbox: I) -> WatchedInbox<I, P>
        requires { IsInbox P.inbox (I.name inbox) (I.content inbox) (I.faults inbox) (I.shortages inbox) }
        ensures inbox { result.inbox ≡ inbox }
        ensures noted { result.short ≡ false }
    {
        WatchedInbox {
            inbox,
            kept: 0,
            short: false,
            of: PhantomData,
        }
    }
}

impl<I: LentInbox, P: Past> Inbox for WatchedInbox<I, P> {
    ghost content = { λ watched. I.content watched.inbox };

    ghost is_pending = { λ watched. I.is_pending watched.inbox };

    ghost faults = { λ watched. I.faults watched.inbox };

    ghost shortages = { λ watched. I.shortages watched.inbox };

    ghost told = { λ watched. I.told watched.inbox };

    fn begin(&mut self, name: &[u16]) -> Result<(), PortFault> {
        match self.inbox.begin(name) {
            Ok(()) => Ok(()),
            Err(PortFault::Failed) => Err(PortFault::Failed),
            Err(PortFault::NoMemory) => {
                self.short = true;
                Err(PortFault::NoMemory)
            }
        }
    }

    fn append(&mut self, piece: &[u8]) -> Result<(), PortFault> {
        match self.inbox.append(piece) {
            Ok(()) => Ok(()),
            Err(PortFault::Failed) => Err(PortFault::Failed),
            Err(PortFault::NoMemory) => {
                self.short = true;
                Err(PortFault::NoMemory)
            }
        }
    }

    fn commit(&mut self) -> Result<(), PortFault> {
        match self.inbox.commit() {
            Ok(()) => {
                self.kept = self.kept.saturating_add(1);
                Ok(())
            }
            Err(PortFault::Failed) => Err(PortFault::Failed),
            Err(PortFault::NoMemory) => {
                self.short = true;
                Err(PortFault::NoMemory)
            }
        }
    }

    fn abort(&mut self) -> Result<(), PortFault> {
        match self.inbox.abort() {
            Ok(()) => Ok(()),
            Err(PortFault::Failed) => Err(PortFault::Failed),
            Err(PortFault::NoMemory) => {
                self.short = true;
                Err(PortFault::NoMemory)
            }
        }
    }
}
