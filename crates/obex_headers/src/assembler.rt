//! Packets out of a stream of octets, cut into pieces in any way.

ghost use Rattle.std.specs.Prelude.{◌≡◌, ◌+◌, ◌≤◌, ◌<◌, ◌++◌, length, take, slice_index, vec_len, vec_capacity};
ghost use Rattle.obex_headers.specs.Assembling.{stated_len, IsPartial};
ghost use Rattle.obex_headers.specs.Assembled.{IsStep};

use crate::fault::ObexRefusal;
use bt_base::NoMemory;
use std::alloc::Global;
use std::marker::Model;

/// What an assembler answers.
#[derive(Clone, Copy, Debug)]
pub enum Assembled<'a> {
    /// A whole packet by its length, and how many octets of the piece were used.
    Packet(&'a [u8], usize),
    /// The whole piece was used.
    More,
    /// The octets begin no packet: `BadLength` or `AboveMaximum`.
    Refused(ObexRefusal),
}

/// Finds the packets of a stream by the lengths that they state (IrOBEX 1.5, 2.2). A packet is lent
/// from the piece where it lies in it, and from the assembler's own octets where it was cut.
#[derive(Drop)]
pub struct Assembler {
    maximum: u16,
    held: usize,
    buffer: Vec<u8>,
    refusal: Option<ObexRefusal>,
}

impl Model for Assembler {
    ghost use Rattle.std.specs.Prelude.{◌≤◌, take, vec_len, vec_capacity};
    ghost use Rattle.obex_headers.specs.Assembling.{Assembling, IsPartial};

    ghost Value = { Assembling };

    ghost view = { λ a. record { maximum = a.maximum; held = take a.held a.buffer.items; refusal = a.refusal } };

    ghost invariant = { λ a. (3 ≤ vec_capacity a.buffer) × (a.maximum ≤ vec_capacity a.buffer) × (a.held ≤ vec_len a.buffer) × IsPartial a.maximum (take a.held a.buffer.items) };
}

/// Where the next packet lies.
#[derive(Clone, Copy)]
enum Step {
    /// In the first octets of the piece, nothing being held.
    Inside(usize),
    /// In what is held and the first octets of the piece.
    Joined(usize),
    /// It is not whole yet.
    More,
    /// There is none.
    Refused(ObexRefusal),
}

/// The octet at a place in what is held and the piece.
fn octet(held: &[u8], piece: &[u8], i: usize) -> u8
    requires { i < length held.now + length piece.now }
    ensures { result ≡ slice_index (held.now ++ piece.now) i }
{
    if i < held.len() {
        held[i]
    } else {
        piece[i - held.len()]
    }
}

/// The length that what is held and the piece state.
fn stated(held: &[u8], piece: &[u8]) -> usize
    requires { 3 ≤ length held.now + length piece.now }
    ensures { result ≡ stated_len (held.now ++ piece.now) }
{
    usize::from(u16::from_be_bytes([octet(held, piece, 1), octet(held, piece, 2)]))
}

fn next_step(maximum: u16, held: &[u8], piece: &[u8]) -> Step
    requires { IsPartial maximum held.now }
    ensures { IsStep maximum held.now piece.now result }
{
    let total = held.len() + piece.len();
    if total < 3 {
        return Step::More;
    }
    let whole = stated(held, piece);
    if whole > usize::from(maximum) {
        return Step::Refused(ObexRefusal::AboveMaximum);
    }
    if whole < 3 {
        return Step::Refused(ObexRefusal::BadLength);
    }
    if total < whole {
        return Step::More;
    }
    let used = whole - held.len();
    if held.is_empty() {
        Step::Inside(used)
    } else {
        Step::Joined(used)
    }
}

/// Puts octets behind those that are held.
fn join(buffer: &mut Vec<u8>, held: usize, piece: &[u8])
    requires room { held + length piece.now ≤ vec_capacity buffer.old }
    requires within { held ≤ vec_len buffer.old }
    ensures items { buffer.new.items ≡ take held buffer.old.items ++ piece.now }
    ensures capacity { vec_capacity buffer.old ≤ vec_capacity buffer.new }
{
    buffer.truncate(held);
    let _room_was_reserved = buffer.extend_from_slice(piece);
}

impl Assembler {
    ghost use Rattle.std.specs.Prelude.{◌≡◌, ⊤, IfOk};
    ghost use Rattle.std.specs.Borrow.{sem};
    ghost use Rattle.obex_headers.specs.contracts.assembler.Assembler.{the_row};
    ghost use mathlib.Core.Option.{none};
    ghost use denote.Follow.{follows_so};
    ghost use Rattle.obex_headers.specs.Assembling.{fresh, Answers};
    ghost use Rattle.obex_headers.specs.Assembled.{answer_of};

    /// An assembler for packets of at most `maximum` octets. It reserves all that it ever needs;
    /// `NoMemory` is answered for want of memory alone.
    pub fn new(alloc: Global, maximum: u16) -> Result<Assembler, NoMemory>
        ensures { IfOk result (λ assembler. assembler ≡ fresh maximum) }
    {
        let buffer = Vec::with_capacity(alloc, usize::from(maximum).max(3))?;
        Ok(Assembler {
            maximum,
            held: 0,
            buffer,
            refusal: None,
        })
    }

    /// Makes the assembler one that heard nothing, with the same maximum. It takes no memory.
    pub fn reset(&mut self)
        ensures { self.new ≡ fresh self.old.maximum }
    {
        self.held = 0;
        self.refusal = None;
    }

    /// The octets of a packet that is not whole yet.
    pub fn held(&self) -> &[u8]
        ensures { result.now ≡ self.now.held }
    {
        &self.buffer[..self.held]
    }

    /// Takes of the piece what the next packet wants.
    ///
    /// `Packet` gives the whole packet and how many octets of the piece were used: the next call is
    /// given the rest. After `More` the whole piece was used. From the third octet of a packet on
    /// its length is judged: first `AboveMaximum`, then `BadLength` for a length below 3. Such a
    /// refusal is given for good.
    pub fn take<'a>(&'a mut self, piece: &'a [u8]) -> Assembled<'a>
        ensures* { sem 𝓛 (follows_so the_row the_row self.entry.ghost_name none (λ _ _. ⊤) (λ new. Answers self.old piece.now (answer_of result) new)) }
    {
        if let Some(refusal) = self.refusal {
            return Assembled::Refused(refusal);
        }
        match next_step(self.maximum, &self.buffer[..self.held], piece) {
            Step::Inside(used) => Assembled::Packet(&piece[..used], used),
            Step::Joined(used) => {
                join(&mut self.buffer, self.held, &piece[..used]);
                self.held = 0;
                Assembled::Packet(&self.buffer, used)
            }
            Step::More => {
                join(&mut self.buffer, self.held, piece);
                self.held = self.buffer.len();
                Assembled::More
            }
            Step::Refused(refusal) => {
                self.refusal = Some(refusal);
                Assembled::Refused(refusal)
            }
        }
    }
}
