//! Packets out of a stream that comes in pieces.

use crate::refusal::WireRefusal;
use crate::stepping::{Advanced, LONGEST, Place, advance};
use bt_base::NoMemory;
use std::alloc::Global;
use std::marker::Model;

/// What a decoder makes of a piece.
#[derive(Clone, Copy, Debug)]
pub enum SlipTaken<'a> {
    /// The octets of a packet, without their escapes, and how many octets of the piece were used.
    Packet(&'a [u8], usize),
    /// What stands there is no packet, as was seen at the last of so many octets of the piece:
    /// `BadEscape` at an escape that stands for nothing, `BadLength` at the 4,100th octet of a
    /// packet. What follows is skipped up to the next delimiter.
    Bad(WireRefusal, usize),
    /// The whole piece was used, and no packet is whole yet.
    More,
}

/// Reads the packets of a stream, in whatever pieces it comes (Core 5.1, Volume 4 Part D, section
/// 3.2). A delimiter ends a packet and may begin the next. Packets without octets are passed over.
///
/// A clause sees a decoder by its place in the stream and the octets that it has of the packet there.
#[derive(Drop)]
pub struct Slip {
    place: Place,
    buffer: Vec<u8>,
    held: usize,
}

impl Model for Slip {
    ghost use Rattle.wire_packets.specs.Stepping.{Slipping, standing};

    ghost Value = { Slipping };

    ghost use Rattle.std.specs.Prelude.{◌≤◌, take, vec_len, vec_capacity};
    ghost use Rattle.wire_packets.specs.Slip.{longest};

    ghost view = { λ slip. standing slip.place (take slip.held slip.buffer.items) };

    ghost invariant = { λ slip. (longest ≤ vec_capacity slip.buffer) × (slip.held ≤ vec_len slip.buffer) × (slip.held ≤ longest) };
}

impl Slip {
    ghost use Rattle.std.specs.Prelude.{◌≡◌, [], IfOk, ⊤};
    ghost use Rattle.std.specs.Borrow.{sem};
    ghost use Rattle.wire_packets.specs.contracts.slip.Slip.{the_row};
    ghost use mathlib.Core.Option.{none};
    ghost use denote.Follow.{follows_so};
    ghost use Rattle.wire_packets.specs.Stepping.{standing, Takes};

    /// A decoder at the beginning of a stream. It reserves all that it ever needs.
    pub fn new(alloc: Global) -> Result<Slip, NoMemory>
        ensures { IfOk result (λ slip. slip ≡ standing Place.Outside []) }
    {
        let buffer = Vec::with_capacity(alloc, LONGEST)?;
        Ok(Slip {
            place: Place::Outside,
            buffer,
            held: 0,
        })
    }

    /// Takes of the piece what leads up to the next packet or fault.
    pub fn take<'a>(&'a mut self, piece: &'a [u8]) -> SlipTaken<'a>
        ensures* { sem 𝓛 (follows_so the_row the_row self.entry.ghost_name none (λ _ _. ⊤) (λ new. Takes self.old piece.now result new)) }
    {
        self.buffer.truncate(self.held);
        match advance(&mut self.buffer, self.place, piece) {
            Advanced::Packet(used) => {
                self.place = Place::Inside;
                self.held = 0;
                SlipTaken::Packet(&self.buffer, used)
            }
            Advanced::Bad(refusal, used, place) => {
                self.place = place;
                self.held = 0;
                SlipTaken::Bad(refusal, used)
            }
            Advanced::More(place) => {
                self.place = place;
                self.held = self.buffer.len();
                SlipTaken::More
            }
        }
    }
}
