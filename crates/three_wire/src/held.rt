//! Units that are kept until they are acknowledged.

ghost use Rattle.std.specs.Prelude.{◌≡◌, ◌≤◌, IfOk, All, length, vec_len, vec_capacity};
ghost use Rattle.three_wire.specs.Held.{unit_of, HasRoom};

use bt_base::NoMemory;
use std::alloc::Global;

/// The greatest number of octets of a unit.
pub(crate) const LONGEST: usize = 4095;

/// A unit that is kept, or room for one.
#[derive(Drop)]
pub(crate) struct Held {
    pub(crate) kind: u8,
    pub(crate) octets: Vec<u8>,
}

impl Held {
    /// Keeps a unit in place of what was kept.
    pub(crate) fn refill(&mut self, kind: u8, octets: &[u8])
        requires room { HasRoom self.old }
        requires fits { length octets.now ≤ 4095 }
        ensures unit { unit_of self.new ≡ record { kind = kind; octets = octets.now } }
        ensures room { HasRoom self.new }
    {
        self.kind = kind;
        self.octets.clear();
        let _room_was_reserved = self.octets.extend_from_slice(octets);
    }
}

/// Room for so many units.
pub(crate) fn new_room(alloc: Global, count: u8) -> Result<Vec<Held>, NoMemory>
    ensures count { IfOk result (λ rooms. vec_len rooms ≡ count) }
    ensures room { IfOk result (λ rooms. All HasRoom rooms.items) }
{
    let mut rooms = Vec::new(alloc);
    for _ in 0..count {
        let octets = Vec::with_capacity(alloc, LONGEST)?;
        rooms.push(Held { kind: 0, octets })?;
    }
    Ok(rooms)
}
