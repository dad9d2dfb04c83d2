//! A shelf that is watched.

ghost use Rattle.std.specs.Prelude.{◌≡◌, ◌≤◌, false};
ghost use Rattle.watched_ports.specs.Counts.{IsNoted};
ghost use Rattle.watched_ports.specs.Pasts.{IsShelf};

use crate::lent::LentShelf;
use crate::past::Past;
use bt_base::{PortFault, Shelf};
use std::marker::PhantomData;

/// A shelf that notes whether it found no memory. What it has stays.
#[derive(Drop)]
pub struct WatchedShelf<F: LentShelf, P: Past> {
    /// The shelf.
    pub shelf: F,
    /// Whether it found no memory.
    pub short: bool,
    of: PhantomData<P>,
    pub ghost same: { F.name shelf ≡ P.shelf.name },
    pub ghost content: { F.content shelf ≡ P.shelf.content },
    pub ghost faults: { P.shelf.faults ≤ F.faults shelf },
    pub ghost absences: { P.shelf.absences ≤ F.absences shelf },
    pub ghost shortages: { IsNoted P.shelf.shortages (F.shortages shelf) short },
}

impl<F: LentShelf, P: Past> WatchedShelf<F, P> {
    /// A shelf that is watched from now on.
    pub fn new(shelf: F) -> WatchedShelf<F, P>
        requires { IsShelf P.shelf (F.name shelf) (F.content shelf) (F.faults shelf) (F.shortages shelf) (F.absences shelf) }
        ensures shelf { result.shelf ≡ shelf }
        ensures noted { result.short ≡ false }
    {
        WatchedShelf {
            shelf,
            short: false,
            of: PhantomData,
        }
    }
}

impl<F: LentShelf, P: Past> Shelf for WatchedShelf<F, P> {
    ghost content = { λ watched. F.content watched.shelf };

    ghost faults = { λ watched. F.faults watched.shelf };

    ghost shortages = { λ watched. F.shortages watched.shelf };

    ghost absences = { λ watched. F.absences watched.shelf };

    fn size(&mut self, name: &str) -> Result<u32, PortFault> {
        match self.shelf.size(name) {
            Ok(size) => Ok(size),
            Err(PortFault::Failed) => Err(PortFault::Failed),
            Err(PortFault::NoMemory) => {
                self.short = true;
                Err(PortFault::NoMemory)
            }
        }
    }

    fn fill(&mut self, name: &str, at: u32, into: &mut [u8]) -> Result<(), PortFault> {
        match self.shelf.fill(name, at, into) {
            Ok(()) => Ok(()),
            Err(PortFault::Failed) => Err(PortFault::Failed),
            Err(PortFault::NoMemory) => {
                self.short = true;
                Err(PortFault::NoMemory)
            }
        }
    }
}
