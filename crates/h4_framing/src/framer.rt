//! Packets out of a stream that comes in pieces.

use crate::extent::least_length;
use crate::gathering::{Gathered, gather, refill};
use crate::leading::{Leading, first, unit_of};
use crate::refusal::H4Refusal;
use crate::unit::Unit;
use bt_base::NoMemory;
use std::alloc::Global;
use std::marker::Model;

/// What a framer makes of a piece.
#[derive(Clone, Copy, Debug)]
pub enum Taken<'a> {
    /// A whole packet, and how many octets of the piece were used. It lies in the piece, or in the
    /// framer where it was cut.
    Whole(Unit<'a>, usize),
    /// The whole piece was used, and no packet is whole yet.
    More,
    /// The stream is no stream of packets. The place is counted from the first octet ever fed, and
    /// stands still at the greatest number.
    Refused(H4Refusal, u64),
}

/// Reads the packets of a stream, in whatever pieces it comes. Where a packet lies whole in a piece
/// it is lent from there; only what was cut is copied.
///
/// A clause sees a framer by its limit, the octets fed before those that it holds, those that it
/// holds, and its refusal.
#[derive(Drop)]
pub struct Framer {
    limit: u16,
    before: u64,
    buffer: Vec<u8>,
    held: usize,
    fault: Option<(H4Refusal, u64)>,
}

impl Model for Framer {
    ghost use Rattle.h4_framing.specs.Framing.{Framing};

    ghost Value = { Framing };

    ghost use Rattle.std.specs.Prelude.{◌+◌, ◌≤◌, take, vec_len, vec_capacity};
    ghost use Rattle.h4_framing.specs.Stream.{IsUnfinished};

    ghost view = { λ framer. record { limit = framer.limit; before = framer.before; held = take framer.held framer.buffer.items; fault = framer.fault } };

    ghost invariant = { λ framer. (255 ≤ framer.limit) × (5 + framer.limit ≤ vec_capacity framer.buffer) × (framer.held ≤ vec_len framer.buffer) × IsUnfinished framer.limit (take framer.held framer.buffer.items) };
}

impl Framer {
    ghost use Rattle.std.specs.Prelude.{◌≡◌, ◌≢◌, ◌≤◌, [], None, IfOk, ⊤};
    ghost use Rattle.std.specs.Borrow.{sem};
    ghost use Rattle.h4_framing.specs.contracts.framer.Framer.{the_row};
    ghost use mathlib.Core.Option.{none};
    ghost use denote.Follow.{follows_so};
    ghost use Rattle.h4_framing.specs.Stream.{IsLeastLength};
    ghost use Rattle.h4_framing.specs.Taking.{Takes, EndsWith};

    /// A framer at the beginning of a stream, that refuses an ACL packet of more than `limit`
    /// octets, at least 255. It reserves all that it ever needs.
    pub fn new(alloc: Global, limit: u16) -> Result<Framer, NoMemory>
        requires { 255 ≤ limit }
        ensures { IfOk result (λ framer. framer ≡ record { limit = limit; before = 0; held = []; fault = None }) }
    {
        let buffer = Vec::with_capacity(alloc, 5 + limit as usize)?;
        Ok(Framer {
            limit,
            before: 0,
            buffer,
            held: 0,
            fault: None,
        })
    }

    /// Takes of the piece what the next packet wants. After a refusal it answers that refusal for
    /// good.
    pub fn take<'a>(&'a mut self, piece: &'a [u8]) -> Taken<'a>
        ensures* { sem 𝓛 (follows_so the_row the_row self.entry.ghost_name none (λ _ _. ⊤) (λ new. Takes self.old piece.now result new)) }
    {
        if let Some((refusal, place)) = self.fault {
            return Taken::Refused(refusal, place);
        }
        if self.held == 0 {
            self.take_leading(piece)
        } else {
            self.take_held(piece)
        }
    }

    /// `take` where nothing is held.
    fn take_leading<'a>(&'a mut self, piece: &'a [u8]) -> Taken<'a>
        requires sound { self.old.fault ≡ None }
        requires empty { self.old.held ≡ [] }
        ensures* { sem 𝓛 (follows_so the_row the_row self.entry.ghost_name none (λ _ _. ⊤) (λ new. Takes self.old piece.now result new)) }
    {
        match first(piece, self.limit) {
            Leading::Whole(unit, used) => {
                self.before = self.before.saturating_add(used as u64);
                Taken::Whole(unit, used)
            }
            Leading::Partial => {
                refill(&mut self.buffer, piece);
                self.held = piece.len();
                Taken::More
            }
            Leading::Refused(refusal, place) => {
                let place = self.before.saturating_add(place as u64);
                self.fault = Some((refusal, place));
                Taken::Refused(refusal, place)
            }
        }
    }

    /// `take` where a packet was cut.
    fn take_held<'a>(&'a mut self, piece: &'a [u8]) -> Taken<'a>
        requires sound { self.old.fault ≡ None }
        requires cut { self.old.held ≢ [] }
        ensures* { sem 𝓛 (follows_so the_row the_row self.entry.ghost_name none (λ _ _. ⊤) (λ new. Takes self.old piece.now result new)) }
    {
        self.buffer.truncate(self.held);
        match gather(&mut self.buffer, piece, self.limit) {
            Gathered::Whole(used) => {
                self.before = self.before.saturating_add(self.buffer.len() as u64);
                self.held = 0;
                Taken::Whole(unit_of(&self.buffer), used)
            }
            Gathered::More => {
                self.held = self.buffer.len();
                Taken::More
            }
            Gathered::Refused(refusal, place) => {
                let place = self.before.saturating_add(place as u64);
                self.fault = Some((refusal, place));
                Taken::Refused(refusal, place)
            }
        }
    }

    /// What the end of the stream means here: `Truncated`, with the place of its indicator, exactly
    /// where a packet is not whole. After a refusal it answers that refusal.
    pub fn end(&self) -> Result<(), (H4Refusal, u64)>
        ensures { EndsWith self.now result }
    {
        match self.fault {
            Some(fault) => Err(fault),
            None if self.held > 0 => Err((H4Refusal::Truncated, self.before)),
            None => Ok(()),
        }
    }

    /// Where the next packet begins: how many octets were fed before those that are held. It stands
    /// still at the greatest number.
    pub fn place(&self) -> u64
        ensures { result ≡ self.now.before }
    {
        self.before
    }

    /// The fewest octets of a packet that begins with those that are held, with its indicator:
    /// octets of its length that have not come yet are read as 0.
    pub fn least_length(&self) -> usize
        ensures { IsLeastLength self.now.limit self.now.held result }
    {
        least_length(&self.buffer[..self.held], self.limit)
    }
}
