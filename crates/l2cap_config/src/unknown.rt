//! The types of options that nobody here knows.

ghost use Rattle.std.specs.Prelude.{◌≡◌, ◌≤◌, ◌==◌, List, ℕ, [], ◌∷◌, length, IsTrue};
ghost use Rattle.std.specs.List.{list_any};
ghost use Rattle.l2cap_config.specs.Types.{AreUnknown, is_unknown, joined_types, with_type};

use arrayvec::ArrayVec;
use std::marker::Model;

/// The types of unknown options, each once, in the order in which they first appeared. A clause sees
/// the list of them.
#[derive(Debug, Drop)]
pub struct UnknownTypes {
    // There are 123 types below 128 beside the five known ones.
    types: ArrayVec<u8, 123>,
}

impl Model for UnknownTypes {
    ghost Value = { List ℕ };

    ghost view = { λ unknown. unknown.types.items };

    ghost invariant = { λ unknown. AreUnknown unknown.types.items };
}

impl UnknownTypes {
    /// No types.
    pub fn new() -> UnknownTypes
        ensures { result ≡ [] }
    {
        UnknownTypes {
            types: ArrayVec::new(),
        }
    }

    /// The types, in the order in which they first appeared. They are at most 123.
    pub fn as_slice(&self) -> &[u8]
        ensures types { result.now ≡ self.now }
        ensures unknown { AreUnknown self.now }
        ensures bound { length self.now ≤ 123 }
    {
        self.types.as_slice()
    }

    /// Whether there are none.
    pub fn is_empty(&self) -> bool
        ensures { result ≡ (length self.now == 0) }
    {
        self.types.is_empty()
    }

    /// The same types again.
    pub fn copied(&self) -> UnknownTypes
        ensures { result ≡ self.now }
    {
        let mut types = ArrayVec::new();
        for octet in self.types.as_slice() {
            types.push(*octet);
        }
        UnknownTypes { types }
    }

    /// Puts a type behind the others, unless it is among them.
    pub(crate) fn add(&mut self, octet: u8)
        requires { IsTrue (is_unknown octet) }
        ensures { self.new ≡ with_type self.old octet }
    {
        if !self.types.as_slice().contains(&octet) {
            self.types.push(octet);
        }
    }

    /// Adds each type of another list in turn.
    pub(crate) fn join(&mut self, later: &UnknownTypes)
        ensures { self.new ≡ joined_types self.old later.now }
    {
        for octet in later.as_slice() {
            self.add(*octet);
        }
    }
}
