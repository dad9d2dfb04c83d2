//! The ports through which the stack reaches the outside: where octets come from and go to, where
//! objects are read and where they are stored.
//!
//! Each port keeps a count of its faults and one of its shortages of memory, and may tell its
//! content. What a clause says of a content holds where it is told: ports over memory tell it,
//! ports over files and standard streams do not.

ghost use Rattle.std.specs.Prelude.{◌≡◌, ◌+◌, List, ℕ, Bool, true, false, length, Option, Some, is_ok, is_some, IfOk, OnOk, IfSome};
ghost use Rattle.std.specs.Option.{option_map};
ghost use Rattle.bt_base.specs.Counts.{HasCause};
ghost use Rattle.bt_base.specs.Objects.{Object, Contents, octets_of, HasAt, HasLooked, begun, appended, committed, aborted, stepped};
ghost use Rattle.bt_base.specs.Streams.{IsRead, IsPut};

/// Why a port did not do what it was asked to.
#[derive(Clone, Copy, Debug, PartialEq, Eq)]
pub enum PortFault {
    /// The port failed; its count of faults rose, or stands at its last value.
    Failed,
    /// The port found no memory; its count of shortages rose, or stands at its last value.
    NoMemory,
}

/// Where octets come from. Its content is what is left to read.
pub trait Source {
    /// The octets that are left, where the source tells them.
    ghost content: { Self → Option (List ℕ) };

    /// How often the source has failed.
    ghost faults: { Self → ℕ };

    /// How often the source has found no memory.
    ghost shortages: { Self → ℕ };

    /// Reads the next octets to the front of `into`, and answers how many, at most its length. None
    /// in an `into` that is not empty is the end of the input. A fault takes nothing.
    fn read(&mut self, into: &mut [u8]) -> Result<usize, PortFault>
        ensures read { IsRead (content self.old) (content self.new) into.old into.new result }
        ensures cause { HasCause (faults self.old) (faults self.new) (shortages self.old) (shortages self.new) result };
}

/// Where octets go to. Its content is what was written.
pub trait Sink {
    /// The octets that were written, where the sink tells them.
    ghost content: { Self → Option (List ℕ) };

    /// How often the sink has failed.
    ghost faults: { Self → ℕ };

    /// How often the sink has found no memory.
    ghost shortages: { Self → ℕ };

    /// Writes the piece at the end. A fault may have written a front of it.
    fn put(&mut self, piece: &[u8]) -> Result<(), PortFault>
        ensures put { IsPut (content self.old) (content self.new) piece.now result }
        ensures cause { HasCause (faults self.old) (faults self.new) (shortages self.old) (shortages self.new) result };
}

/// Where objects are read. Its content is a finite map from names to octets, and never changes.
///
/// A name that is absent, or octets past an object's end, raise the count of faults and that of
/// absences and answer `Failed`.
pub trait Shelf {
    /// The objects, where the shelf tells them. The first of a name counts.
    ghost content: { Self → Option (List Object) };

    /// How often the shelf has failed.
    ghost faults: { Self → ℕ };

    /// How often the shelf has found no memory.
    ghost shortages: { Self → ℕ };

    /// How often the shelf was asked for what it does not have.
    ghost absences: { Self → ℕ };

    /// How many octets the object of that name has.
    fn size(&mut self, name: &str) -> Result<u32, PortFault>
        ensures size { IfOk result (λ size. IfSome (content self.old) (λ objects. option_map length (octets_of name.now objects) ≡ Some size)) }
        ensures content { content self.new ≡ content self.old }
        ensures absence { HasLooked (content self.old) name.now 0 (faults self.old) (faults self.new) (absences self.old) (absences self.new) result }
        ensures cause { HasCause (faults self.old) (faults self.new) (shortages self.old) (shortages self.new) result };

    /// Fills the whole of `into` with the octets of the object of that name from place `at` on.
    fn fill(&mut self, name: &str, at: u32, into: &mut [u8]) -> Result<(), PortFault>
        ensures filled { OnOk result (IfSome (content self.old) (λ objects. HasAt at into.new (octets_of name.now objects))) }
        ensures content { content self.new ≡ content self.old }
        ensures absence { HasLooked (content self.old) name.now (at + length into.old) (faults self.old) (faults self.new) (absences self.old) (absences self.new) result }
        ensures cause { HasCause (faults self.old) (faults self.new) (shortages self.old) (shortages self.new) result };
}

/// Where objects are stored. Its content is the list of stored objects and the pending object, if
/// there is one; whether one is pending is always told.
///
/// After any fault none is pending and the list is as before.
pub trait Inbox {
    /// The stored objects and the pending one, where the inbox tells them.
    ghost content: { Self → Option Contents };

    /// Whether an object is pending.
    ghost is_pending: { Self → Bool };

    /// How often the inbox has failed.
    ghost faults: { Self → ℕ };

    /// How often the inbox has found no memory.
    ghost shortages: { Self → ℕ };

    /// Begins an object of that name, in UTF-16 units. None may be pending.
    fn begin(&mut self, name: &[u16]) -> Result<(), PortFault>
        requires { is_pending self.old ≡ false }
        ensures content { content self.new ≡ stepped result (begun name.now) (content self.old) }
        ensures pending { is_pending self.new ≡ is_ok result }
        ensures cause { HasCause (faults self.old) (faults self.new) (shortages self.old) (shortages self.new) result };

    /// Appends the piece to the pending object.
    fn append(&mut self, piece: &[u8]) -> Result<(), PortFault>
        requires { is_pending self.old ≡ true }
        ensures content { content self.new ≡ stepped result (appended piece.now) (content self.old) }
        ensures pending { is_pending self.new ≡ is_ok result }
        ensures cause { HasCause (faults self.old) (faults self.new) (shortages self.old) (shortages self.new) result };

    /// Stores the pending object at the end of the list.
    fn commit(&mut self) -> Result<(), PortFault>
        requires { is_pending self.old ≡ true }
        ensures content { content self.new ≡ stepped result committed (content self.old) }
        ensures pending { is_pending self.new ≡ false }
        ensures cause { HasCause (faults self.old) (faults self.new) (shortages self.old) (shortages self.new) result };

    /// Drops the pending object, if there is one.
    fn abort(&mut self) -> Result<(), PortFault>
        ensures content { content self.new ≡ option_map aborted (content self.old) }
        ensures pending { is_pending self.new ≡ false }
        ensures cause { HasCause (faults self.old) (faults self.new) (shortages self.old) (shortages self.new) result };

    /// An inbox that tells its content tells whether one is pending by it.
    ghost told: { (inbox : Self) → IfSome (content inbox) (λ contents. is_some contents.pending ≡ is_pending inbox) };
}
