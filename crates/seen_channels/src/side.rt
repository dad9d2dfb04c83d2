//! What is known of one direction of a link.

ghost use Rattle.std.specs.Prelude.{◌≡◌, ◌∷◌, ℕ, List, OnOk};
ghost use Rattle.seen_channels.specs.declared.direction.Direction.{Direction};
ghost use Rattle.seen_channels.specs.Tables.{HasRequests, HasPlaces, IsEmpty};

use crate::channel::Request;
use bt_base::NoMemory;
use std::alloc::Global;
use std::collections::HashMap;

/// One direction of a link: the last request of each identifier that goes there, and the place of
/// the last channel of each number that PDUs carry there.
#[derive(Drop)]
pub(crate) struct Side {
    pub(crate) requests: HashMap<u8, Request>,
    pub(crate) places: HashMap<u16, usize>,
}

impl Side {
    pub(crate) fn new(alloc: Global) -> Side
        ensures { IsEmpty result }
    {
        Side {
            requests: HashMap::new(alloc),
            places: HashMap::new(alloc),
        }
    }

    /// Keeps a request, in place of an earlier one with its identifier.
    pub(crate) fn ask(&mut self, identifier: u8, request: Request) -> Result<(), NoMemory>
        ensures requests { OnOk result ((asked : List (ℕ × Request)) → HasRequests asked self.old → HasRequests ((identifier, request) ∷ asked) self.new) }
        ensures places { OnOk result (self.new.places ≡ self.old.places) }
    {
        self.requests.insert(identifier, request)?;
        Ok(())
    }
}
