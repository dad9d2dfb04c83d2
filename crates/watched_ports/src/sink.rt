//! A sink that is watched.

ghost use Rattle.std.specs.Prelude.{◌≡◌, ◌&&◌, false};
ghost use Rattle.watched_ports.specs.Counts.{IsNoted};
ghost use Rattle.watched_ports.specs.Pasts.{IsSink};

use crate::lent::LentSink;
use crate::past::Past;
use bt_base::{PortFault, Sink};
use std::marker::PhantomData;

/// A sink that notes its first refusal, answers that one again from then on, and writes no more.
#[derive(Drop)]
pub struct WatchedSink<K: LentSink, P: Past> {
    /// The sink.
    pub sink: K,
    /// Whether it failed.
    pub failed: bool,
    /// Whether it found no memory.
    pub short: bool,
    of: PhantomData<P>,
    pub ghost same: { K.name sink ≡ P.sink.name },
    pub ghost once: { (failed && short) ≡ false },
    pub ghost faults: { IsNoted P.sink.faults (K.faults sink) failed },
    pub ghost shortages: { IsNoted P.sink.shortages (K.shortages sink) short },
}

impl<K: LentSink, P: Past> WatchedSink<K, P> {
    /// A sink that is watched from now on.
    pub fn new(sink: K) -> WatchedSink<K, P>
        requires { IsSink P.sink (K.name sink) (K.faults sink) (K.shortages sink) }
        ensures sink { result.sink ≡ sink }
        ensures noted { (result.failed ≡ false) × (result.short ≡ false) }
    {
        WatchedSink {
            sink,
            failed: false,
            short: false,
            of: PhantomData,
        }
    }
}

impl<K: LentSink, P: Past> Sink for WatchedSink<K, P> {
    ghost use Rattle.watched_ports.specs.Counts.{count_behind};

    ghost content = { λ watched. K.content watched.sink };

    ghost faults = { λ watched. count_behind watched.failed (K.faults watched.sink) };

    ghost shortages = { λ watched. count_behind watched.short (K.shortages watched.sink) };

    fn put(&mut self, piece: &[u8]) -> Result<(), PortFault> {
        if self.failed {
            return Err(PortFault::Failed);
        }
        if self.short {
            return Err(PortFault::NoMemory);
        }
        match self.sink.put(piece) {
            Ok(()) => Ok(()),
            Err(PortFault::Failed) => {
                self.failed = true;
                Err(PortFault::Failed)
            }
            Err(PortFault::NoMemory) => {
                self.short = true;
                Err(PortFault::NoMemory)
            }
        }
    }
}
