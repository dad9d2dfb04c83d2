//! Ports that are lent: behind a `&mut` they do what the ports do, and stay the ports that they are.

ghost use Rattle.std.specs.Prelude.{◌≡◌, ◌+◌, List, ℕ, Bool, true, false, length, Option, Some, is_ok, is_some, IfOk, OnOk, IfSome};
ghost use Rattle.std.specs.Option.{option_map};
ghost use Rattle.bt_base.specs.Counts.{HasCause};
ghost use Rattle.bt_base.specs.Objects.{Object, Contents, octets_of, HasAt, HasLooked, begun, appended, committed, aborted, stepped};
ghost use Rattle.bt_base.specs.Streams.{IsPut};

use bt_base::{Inbox, PortFault, Shelf, Sink};

/// A sink that is lent. Each call does what the sink does.
pub trait LentSink: Drop {
    /// Which sink it is.
    ghost name: { Self → ℕ };

    /// What was written, where the sink tells it.
    ghost content: { Self → Option (List ℕ) };

    /// How often the sink has failed.
    ghost faults: { Self → ℕ };

    /// How often the sink has found no memory.
    ghost shortages: { Self → ℕ };

    /// Writes the piece at the end. A fault may have written a front of it.
    fn put(&mut self, piece: &[u8]) -> Result<(), PortFault>
        ensures name { name self.new ≡ name self.old }
        ensures put { IsPut (content self.old) (content self.new) piece.now result }
        ensures cause { HasCause (faults self.old) (faults self.new) (shortages self.old) (shortages self.new) result };
}

impl<K: Sink> LentSink for &mut K {
    ghost name = { λ sink. sink.ghost_name };

    ghost content = { λ sink. K.content sink.now };

    ghost faults = { λ sink. K.faults sink.now };

    ghost shortages = { λ sink. K.shortages sink.now };

    fn put(&mut self, piece: &[u8]) -> Result<(), PortFault> {
        (**self).put(piece)
    }
}

/// A shelf that is lent. Each call does what the shelf does.
pub trait LentShelf: Drop {
    /// Which shelf it is.
    ghost name: { Self → ℕ };

    /// The objects, where the shelf tells them.
    ghost content: { Self → Option (List Object) };

    /// How often the shelf has failed.
    ghost faults: { Self → ℕ };

    /// How often the shelf has found no memory.
    ghost shortages: { Self → ℕ };

    /// How often the shelf was asked for what it does not have.
    ghost absences: { Self → ℕ };

    /// How many octets the object of that name has.
    fn size(&mut self, object: &str) -> Result<u32, PortFault>
        ensures name { name self.new ≡ name self.old }
        ensures size { IfOk result (λ size. IfSome (content self.old) (λ objects. option_map length (octets_of object.now objects) ≡ Some size)) }
        ensures content { content self.new ≡ content self.old }
        ensures absence { HasLooked (content self.old) object.now 0 (faults self.old) (faults self.new) (absences self.old) (absences self.new) result }
        ensures cause { HasCause (faults self.old) (faults self.new) (shortages self.old) (shortages self.new) result };

    /// Fills the whole of `into` with the octets of the object of that name from place `at` on.
    fn fill(&mut self, object: &str, at: u32, into: &mut [u8]) -> Result<(), PortFault>
        ensures name { name self.new ≡ name self.old }
        ensures filled { OnOk result (IfSome (content self.old) (λ objects. HasAt at into.new (octets_of object.now objects))) }
        ensures content { content self.new ≡ content self.old }
        ensures absence { HasLooked (content self.old) object.now (at + length into.old) (faults self.old) (faults self.new) (absences self.old) (absences self.new) result }
        ensures cause { HasCause (faults self.old) (faults self.new) (shortages self.old) (shortages self.new) result };
}

impl<F: Shelf> LentShelf for &mut F {
    ghost name = { λ shelf. shelf.ghost_name };

    ghost content = { λ shelf. F.content shelf.now };

    ghost faults = { λ shelf. F.faults shelf.now };

    ghost shortages = { λ shelf. F.shortages shelf.now };

    ghost absences = { λ shelf. F.absences shelf.now };

    fn size(&mut self, object: &str) -> Result<u32, PortFault> {
        (**self).size(object)
    }

    fn fill(&mut self, object: &str, at: u32, into: &mut [u8]) -> Result<(), PortFault> {
        (**self).fill(object, at, into)
    }
}

/// An inbox that is lent. Each call does what the inbox does.
pub trait LentInbox: Drop {
    /// Which inbox it is.
    ghost name: { Self → ℕ };

    /// The stored objects and the pending one, where the inbox tells them.
    ghost content: { Self → Option Contents };

    /// Whether an object is pending.
    ghost is_pending: { Self → Bool };

    /// How often the inbox has failed.
    ghost faults: { Self → ℕ };

    /// How often the inbox has found no memory.
    ghost shortages: { Self → ℕ };

    /// Begins an object of that name, in UTF-16 units. None may be pending.
    fn begin(&mut self, object: &[u16]) -> Result<(), PortFault>
        requires { is_pending self.old ≡ false }
        ensures name { name self.new ≡ name self.old }
        ensures content { content self.new ≡ stepped result (begun object.now) (content self.old) }
        ensures pending { is_pending self.new ≡ is_ok result }
        ensures cause { HasCause (faults self.old) (faults self.new) (shortages self.old) (shortages self.new) result };

    /// Appends the piece to the pending object.
    fn append(&mut self, piece: &[u8]) -> Result<(), PortFault>
        requires { is_pending self.old ≡ true }
        ensures name { name self.new ≡ name self.old }
        ensures content { content self.new ≡ stepped result (appended piece.now) (content self.old) }
        ensures pending { is_pending self.new ≡ is_ok result }
        ensures cause { HasCause (faults self.old) (faults self.new) (shortages self.old) (shortages self.new) result };

    /// Stores the pending object at the end of the list.
    fn commit(&mut self) -> Result<(), PortFault>
        requires { is_pending self.old ≡ true }
        ensures name { name self.new ≡ name self.old }
        ensures content { content self.new ≡ stepped result committed (content self.old) }
        ensures pending { is_pending self.new ≡ false }
        ensures cause { HasCause (faults self.old) (faults self.new) (shortages self.old) (shortages self.new) result };

    /// Drops the pending object, if there is one.
    fn abort(&mut self) -> Result<(), PortFault>
        ensures name { name self.new ≡ name self.old }
        ensures content { content self.new ≡ option_map aborted (content self.old) }
        ensures pending { is_pending self.new ≡ false }
        ensures cause { HasCause (faults self.old) (faults self.new) (shortages self.old) (shortages self.new) result };

    /// An inbox that tells its content tells whether one is pending by it.
    ghost told: { (inbox : Self) → IfSome (content inbox) (λ contents. is_some contents.pending ≡ is_pending inbox) };
}

impl<I: Inbox> LentInbox for &mut I {
    ghost name = { λ inbox. inbox.ghost_name };

    ghost content = { λ inbox. I.content inbox.now };

    ghost is_pending = { λ inbox. I.is_pending inbox.now };

    ghost faults = { λ inbox. I.faults inbox.now };

    ghost shortages = { λ inbox. I.shortages inbox.now };

    ghost told = { λ inbox. I.told inbox.now };

    fn begin(&mut self, object: &[u16]) -> Result<(), PortFault> {
        (**self).begin(object)
    }

    fn append(&mut self, piece: &[u8]) -> Result<(), PortFault> {
        (**self).append(piece)
    }

    fn commit(&mut self) -> Result<(), PortFault> {
        (**self).commit()
    }

    fn abort(&mut self) -> Result<(), PortFault> {
        (**self).abort()
    }
}
