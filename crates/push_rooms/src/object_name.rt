//! The name of the object that is pushed.

ghost use Rattle.std.specs.Prelude.{◌≡◌, ◌≤◌, [], length, IfOk};
ghost use Rattle.obex_session.specs.PutPackets.{units_in};

use bt_base::NoMemory;
use std::alloc::Global;
use std::marker::Model;

/// A name of at most 100 UTF-16 units has no more octets than this: each unit has at most three in UTF-8.
const LONGEST_NAME: usize = 300;

/// A name of at most 100 UTF-16 units, in memory that is had at the start. A clause sees its octets.
#[derive(Drop)]
pub struct ObjectName {
    text: String,
}

impl Model for ObjectName {
    ghost use Rattle.std.specs.Prelude.{◌≤◌, ℕ, List, length, string_bytes, string_capacity};
    ghost use Rattle.obex_session.specs.PutPackets.{units_in};

    ghost Value = { List ℕ };

    ghost view = { λ name. string_bytes name.text };

    ghost invariant = { λ name. (300 ≤ string_capacity name.text) × (length (units_in (string_bytes name.text)) ≤ 100) };
}

impl ObjectName {
    /// An empty name, with room for any. `NoMemory` where it cannot be had.
    pub fn new(alloc: Global) -> Result<ObjectName, NoMemory>
        ensures { IfOk result (λ name. name ≡ []) }
    {
        let text = String::with_capacity(alloc, LONGEST_NAME)?;
        Ok(ObjectName { text })
    }

    /// Puts a name in place of the last one.
    pub fn set(&mut self, text: &str)
        requires { length (units_in text.now) ≤ 100 }
        ensures { self.new ≡ text.now }
    {
        self.text.clear();
        let _room_was_reserved = self.text.push_str(text);
    }

    /// The name.
    pub fn text(&self) -> &str
        ensures text { result.now ≡ self.now }
        ensures few { length (units_in result.now) ≤ 100 }
    {
        self.text.as_str()
    }
}
