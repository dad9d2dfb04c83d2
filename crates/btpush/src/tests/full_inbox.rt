//! An inbox that finds no memory.

ghost use Rattle.std.specs.Prelude.{◌≡◌, ◌≤◌, ◌<◌, ◌⊎◌, false, None, Err};

use bt_base::{Inbox, PortFault};

/// An inbox that finds no memory. An object that is pending is dropped then.
#[derive(Drop)]
pub(crate) struct FullInbox {
    pending: bool,
    shortages: u64,
}

impl FullInbox {
    /// One of which nothing was asked.
    pub(crate) fn new() -> FullInbox
        ensures { result.pending ≡ false }
    {
        FullInbox {
            pending: false,
            shortages: 0,
        }
    }

    /// How often it found no memory.
    pub(crate) fn shortages(&self) -> u64 {
        self.shortages
    }

    /// It finds no memory once more.
    fn short(&mut self) -> Result<(), PortFault>
        ensures dropped { self.new.pending ≡ false }
        ensures count { (self.old.shortages < self.new.shortages) ⊎ (18446744073709551615 ≤ self.old.shortages) }
        ensures stays { self.old.shortages ≤ self.new.shortages }
        ensures answer { result ≡ Err PortFault.NoMemory }
    {
        self.pending = false;
        self.shortages = self.shortages.saturating_add(1);
        Err(PortFault::NoMemory)
    }
}

impl Inbox for FullInbox {
    ghost content = { λ _. None };

    ghost is_pending = { λ inbox. inbox.pending };

    ghost faults = { λ _. 0 };

    ghost shortages = { λ inbox. inbox.shortages };

    fn begin(&mut self, _name: &[u16]) -> Result<(), PortFault> {
        self.short()
    }

    fn append(&mut self, _piece: &[u8]) -> Result<(), PortFault> {
        self.short()
    }

    fn commit(&mut self) -> Result<(), PortFault> {
        self.short()
    }

    fn abort(&mut self) -> Result<(), PortFault> {
        self.pending = false;
        Ok(())
    }

    ghost told = { λ _. tt };
}
