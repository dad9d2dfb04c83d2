//! Records out of a btsnoop file that comes in pieces.

use crate::fields::{LONGEST_RECORD, Part, fault_in, record_of, told_length};
use crate::gathering::{Gathered, gather, refill};
use crate::record::Record;
use crate::refusal::SnoopRefusal;
use bt_base::NoMemory;
use std::alloc::Global;
use std::marker::Model;

/// What a reader makes of a piece.
#[derive(Clone, Copy, Debug)]
pub enum SnoopTaken<'a> {
    /// The file header, and how many octets of the piece were used.
    Header(usize),
    /// A whole record, and how many octets of the piece were used. It lies in the piece, or in the
    /// reader where it was cut.
    Record(Record<'a>, usize),
    /// The whole piece was used, and nothing is whole yet.
    More,
    /// The octets are no btsnoop file. The place is counted from the first octet ever fed, and
    /// stands still at the greatest number.
    Refused(SnoopRefusal, u64),
}

/// Reads the records of a btsnoop file (RFC 1761, with datalink 1002), in whatever pieces it comes.
/// Where a record lies whole in a piece it is lent from there; only what was cut is copied.
///
/// A clause sees a reader by what stands next, the octets fed before those that it holds, those that
/// it holds, and its refusal.
#[derive(Drop)]
pub struct Reader {
    part: Part,
    before: u64,
    buffer: Vec<u8>,
    held: usize,
    fault: Option<(SnoopRefusal, u64)>,
}

impl Model for Reader {
    ghost use Rattle.btsnoop.specs.Taking.{Progress};

    ghost Value = { Progress };

    ghost use Rattle.std.specs.Prelude.{◌≤◌, take, vec_len, vec_capacity};
    ghost use Rattle.btsnoop.specs.Fields.{IsUnfinished};

    ghost view = { λ reader. record { part = reader.part; before = reader.before; held = take reader.held reader.buffer.items; fault = reader.fault } };

    ghost invariant = { λ reader. (65564 ≤ vec_capacity reader.buffer) × (reader.held ≤ vec_len reader.buffer) × IsUnfinished reader.part (take reader.held reader.buffer.items) };
}

impl Reader {
    ghost use Rattle.std.specs.Prelude.{◌≡◌, ◌≢◌, [], None, IfOk, ⊤};
    ghost use Rattle.std.specs.Borrow.{sem};
    ghost use Rattle.btsnoop.specs.contracts.reader.Reader.{the_row};
    ghost use mathlib.Core.Option.{none};
    ghost use denote.Follow.{follows_so};
    ghost use Rattle.btsnoop.specs.Taking.{no_progress, Takes, EndsWith};

    /// A reader at the beginning of a file. It reserves all that it ever needs.
    pub fn new(alloc: Global) -> Result<Reader, NoMemory>
        ensures { IfOk result (λ reader. reader ≡ no_progress) }
    {
        let buffer = Vec::with_capacity(alloc, LONGEST_RECORD)?;
        Ok(Reader {
            part: Part::Header,
            before: 0,
            buffer,
            held: 0,
            fault: None,
        })
    }

    /// Takes of the piece what the file header or the next record wants. After a refusal it answers
    /// that refusal for good: `BadMagic`, `BadVersion` and `BadLink` with the place of the field,
    /// `BadLength` with that of the record.
    pub fn take<'a>(&'a mut self, piece: &'a [u8]) -> SnoopTaken<'a>
        ensures* { sem 𝓛 (follows_so the_row the_row self.entry.ghost_name none (λ _ _. ⊤) (λ new. Takes self.old piece.now result new)) }
    {
        if let Some((refusal, place)) = self.fault {
            return SnoopTaken::Refused(refusal, place);
        }
        if self.held == 0 {
            self.take_leading(piece)
        } else {
            self.take_held(piece)
        }
    }

    /// `take` where nothing is held.
    fn take_leading<'a>(&'a mut self, piece: &'a [u8]) -> SnoopTaken<'a>
        requires sound { self.old.fault ≡ None }
        requires empty { self.old.held ≡ [] }
        ensures* { sem 𝓛 (follows_so the_row the_row self.entry.ghost_name none (λ _ _. ⊤) (λ new. Takes self.old piece.now result new)) }
    {
        if let Some((refusal, place)) = fault_in(self.part, piece) {
            let place = self.before.saturating_add(place as u64);
            self.fault = Some((refusal, place));
            return SnoopTaken::Refused(refusal, place);
        }
        let length = told_length(self.part, piece);
        if piece.len() < length {
            refill(&mut self.buffer, piece);
            self.held = piece.len();
            return SnoopTaken::More;
        }
        self.before = self.before.saturating_add(length as u64);
        match self.part {
            Part::Header => {
                self.part = Part::Body;
                SnoopTaken::Header(length)
            }
            Part::Body => SnoopTaken::Record(record_of(&piece[..length]), length),
        }
    }

    /// `take` where something was cut.
    fn take_held<'a>(&'a mut self, piece: &'a [u8]) -> SnoopTaken<'a>
        requires sound { self.old.fault ≡ None }
        requires cut { self.old.held ≢ [] }
        ensures* { sem 𝓛 (follows_so the_row the_row self.entry.ghost_name none (λ _ _. ⊤) (λ new. Takes self.old piece.now result new)) }
    {
        self.buffer.truncate(self.held);
        match gather(self.part, &mut self.buffer, piece) {
            Gathered::Whole(used) => {
                self.before = self.before.saturating_add(self.buffer.len() as u64);
                self.held = 0;
                match self.part {
                    Part::Header => {
                        self.part = Part::Body;
                        SnoopTaken::Header(used)
                    }
                    Part::Body => SnoopTaken::Record(record_of(&self.buffer), used),
                }
            }
            Gathered::More => {
                self.held = self.buffer.len();
                SnoopTaken::More
            }
            Gathered::Refused(refusal, place) => {
                let place = self.before.saturating_add(place as u64);
                self.fault = Some((refusal, place));
                SnoopTaken::Refused(refusal, place)
            }
        }
    }

    /// What the end of the file means here: `Truncated`, with the place of its first octet, exactly
    /// where the file header or a record is not whole. After a refusal it answers that refusal.
    pub fn end(&self) -> Result<(), (SnoopRefusal, u64)>
        ensures { EndsWith self.now result }
    {
        match (self.fault, self.part) {
            (Some(fault), _) => Err(fault),
            (None, Part::Body) if self.held == 0 => Ok(()),
            (None, _) => Err((SnoopRefusal::Truncated, self.before)),
        }
    }

    /// Where the next record begins: how many octets were fed before those that are held. It stands
    /// still at the greatest number.
    pub fn place(&self) -> u64
        ensures { result ≡ self.now.before }
    {
        self.before
    }
}
