//! Joining pieces.

ghost use Rattle.std.specs.Prelude.{◌≡◌, ◌+◌, ◌≤◌, ◌++◌, length, take, vec_len, vec_capacity};
ghost use Rattle.acl_fragments.specs.Pieces.{pdu_length, channel_of};
ghost use Rattle.acl_fragments.specs.Steps.{IsStartStep, IsNextStep};

use crate::joined::{DropReason, Got, Joined};
use bt_base::NoMemory;
use byteorder::{ByteOrder, LittleEndian};
use hci_packets::Boundary;
use std::alloc::Global;
use std::marker::Model;

/// Joins the pieces of one link and direction. A clause sees the longest PDU that is joined, and
/// the octets of the group that is open.
#[derive(Debug, Drop)]
pub struct Joiner {
    limit: u32,
    buffer: Vec<u8>,
    /// How many octets of the buffer belong to the group that is open; none where it is 0.
    held: usize,
}

impl Model for Joiner {
    ghost use Rattle.std.specs.Prelude.{◌≡◌, ◌≤◌, ◌<◌, take, vec_len, vec_capacity};
    ghost use Rattle.acl_fragments.specs.Joiners.{Held};
    ghost use Rattle.acl_fragments.specs.Buffers.{IsBuffer};

    ghost Value = { Held };

    ghost view = { λ joiner. record { limit = joiner.limit; octets = take joiner.held joiner.buffer.items } };

    ghost invariant = { λ joiner. IsBuffer joiner.limit (vec_capacity joiner.buffer) joiner.held joiner.buffer.items };
}

/// What is to be done with a piece.
#[derive(Clone, Copy)]
enum Step {
    /// It ends a PDU.
    Whole,
    /// More octets are wanted.
    More,
    Drop(DropReason),
}

/// What a start wants, judged by itself.
fn start_step(limit: u32, piece: &[u8]) -> Step
    ensures { IsStartStep limit piece.now result }
{
    if piece.len() < 4 {
        return Step::Drop(DropReason::ShortStart);
    }
    let whole = length_of(piece);
    if whole < piece.len() {
        Step::Drop(DropReason::Overrun)
    } else if whole > limit as usize {
        Step::Drop(DropReason::AboveLimit)
    } else if whole == piece.len() {
        Step::Whole
    } else {
        Step::More
    }
}

/// What a continuation wants, after the octets that are held.
fn next_step(held: &[u8], piece: &[u8]) -> Step
    requires { 4 ≤ length held.now }
    ensures { IsNextStep held.now piece.now result }
{
    let whole = length_of(held);
    let length = held.len() + piece.len();
    if whole < length {
        Step::Drop(DropReason::Overrun)
    } else if whole == length {
        Step::Whole
    } else {
        Step::More
    }
}

/// The length of the PDU that begins so, its header included.
fn length_of(octets: &[u8]) -> usize
    requires { 2 ≤ length octets.now }
    ensures { result ≡ pdu_length octets.now }
{
    4 + usize::from(LittleEndian::read_u16(octets))
}

/// The channel identifier of the PDU that begins so.
fn channel_of(octets: &[u8]) -> u16
    requires { 4 ≤ length octets.now }
    ensures { result ≡ channel_of octets.now }
{
    LittleEndian::read_u16(&octets[2..])
}

/// Copies a piece behind what is held.
fn append(buffer: &mut Vec<u8>, held: usize, piece: &[u8])
    requires room { held + length piece.now ≤ vec_capacity buffer.old }
    requires within { held ≤ vec_len buffer.old }
    ensures items { buffer.new.items ≡ take held buffer.old.items ++ piece.now }
    ensures capacity { vec_capacity buffer.old ≤ vec_capacity buffer.new }
{
    buffer.truncate(held);
    let _room_was_reserved = buffer.extend_from_slice(piece);
}

impl Joiner {
    ghost use Rattle.std.specs.Prelude.{◌≡◌, [], IfOk, ⊤, Bool, true, false};
    ghost use Rattle.std.specs.Borrow.{sem};
    ghost use mathlib.Core.Option.{none};
    ghost use denote.Follow.{follows_so};
    ghost use Rattle.acl_fragments.specs.contracts.joiner.Joiner.{the_row};
    ghost use Rattle.acl_fragments.specs.Joiners.{Takes, Joins};

    /// A joiner of PDUs of at most `limit` octets, for which it reserves all the memory that it
    /// needs. `NoMemory` where that cannot be had.
    pub fn new(alloc: Global, limit: u32) -> Result<Joiner, NoMemory>
        ensures { IfOk result (λ joiner. joiner ≡ record { limit = limit; octets = [] }) }
    {
        let buffer = Vec::with_capacity(alloc, limit as usize)?;
        Ok(Joiner {
            limit,
            buffer,
            held: 0,
        })
    }

    /// Makes the joiner one that holds no group, with the same limit. It takes no memory.
    pub fn forget(&mut self)
        ensures { self.new ≡ record { limit = self.old.limit; octets = [] } }
    {
        self.held = 0;
    }

    /// Takes the next piece of the link and the direction.
    ///
    /// A start is judged by itself: `ShortStart` without the whole header, then `Overrun` where it
    /// is longer than its PDU, then `AboveLimit`. A continuation is `StrayContinuation` where no
    /// group is open, and `Overrun` where it makes the group longer than its PDU. A group that was
    /// dropped or is whole is open no more.
    ///
    /// A PDU that comes in one piece is lent from it; one that was cut, from the joiner.
    pub fn take<'a>(&'a mut self, boundary: Boundary, piece: &'a [u8]) -> Joined<'a>
        ensures* { sem 𝓛 (follows_so the_row the_row self.entry.ghost_name none (λ _ _. ⊤) (λ new. Joins self.old boundary piece.now result new)) }
    {
        match boundary {
            Boundary::First | Boundary::FirstFromController => self.start(piece),
            Boundary::Continuing => self.go_on(piece),
        }
    }

    fn start<'a>(&mut self, piece: &'a [u8]) -> Joined<'a>
        ensures { Takes self.old true piece.now result self.new }
    {
        let unfinished = self.held > 0;
        self.held = 0;
        let got = match start_step(self.limit, piece) {
            Step::Whole => Got::Pdu(channel_of(piece), piece),
            Step::More => {
                append(&mut self.buffer, 0, piece);
                self.held = piece.len();
                Got::More
            }
            Step::Drop(reason) => Got::Dropped(reason),
        };
        Joined { unfinished, got }
    }

    fn go_on<'a>(&'a mut self, piece: &[u8]) -> Joined<'a>
        ensures* { sem 𝓛 (follows_so the_row the_row self.entry.ghost_name none (λ _ _. ⊤) (λ new. Takes self.old false piece.now result new)) }
    {
        if self.held == 0 {
            return Joined {
                unfinished: false,
                got: Got::Dropped(DropReason::StrayContinuation),
            };
        }
        let got = match next_step(&self.buffer[..self.held], piece) {
            Step::Whole => {
                append(&mut self.buffer, self.held, piece);
                self.held = 0;
                Got::Pdu(channel_of(&self.buffer), &self.buffer)
            }
            Step::More => {
                append(&mut self.buffer, self.held, piece);
                self.held = self.buffer.len();
                Got::More
            }
            Step::Drop(reason) => {
                self.held = 0;
                Got::Dropped(reason)
            }
        };
        Joined {
            unfinished: false,
            got,
        }
    }
}
