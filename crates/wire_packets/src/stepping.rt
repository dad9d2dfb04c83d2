//! How a decoder goes through a piece of the stream.

ghost use Rattle.std.specs.Prelude.{◌≤◌, vec_len, vec_capacity};
ghost use Rattle.wire_packets.specs.Slip.{longest};
ghost use Rattle.wire_packets.specs.Stepping.{Steps, Goes, Grows};

use crate::refusal::WireRefusal;

/// The delimiter of packets (Core 5.1, Volume 4 Part D, section 3.1).
const DELIMITER: u8 = 0xC0;

/// The octet that begins an escape.
const ESCAPE: u8 = 0xDB;

/// The greatest length of a packet: its header and 4,095 octets.
pub(crate) const LONGEST: usize = 4099;

/// Where a decoder stands in the stream.
#[derive(Clone, Copy, Debug, PartialEq, Eq)]
pub enum Place {
    /// Behind a fault, or before the first delimiter: all octets up to the next delimiter are
    /// skipped.
    Outside,
    /// Behind a delimiter and what came of a packet.
    Inside,
    /// There, behind the first octet of an escape.
    Escaping,
}

/// What an octet made of the octets that were held.
#[derive(Clone, Copy)]
pub(crate) enum Stepped {
    /// They go on, at that place.
    On(Place),
    /// They are a packet.
    Packet,
    /// They are no packet, and the decoder stands at that place.
    Bad(WireRefusal, Place),
}

/// What a piece made of the octets that were held.
#[derive(Clone, Copy)]
pub(crate) enum Advanced {
    /// With so many octets of the piece they are a packet.
    Packet(usize),
    /// With so many octets of the piece they are no packet, and the decoder stands at that place.
    Bad(WireRefusal, usize, Place),
    /// They go on behind the piece, at that place.
    More(Place),
}

/// Goes through a piece up to the first packet or fault.
pub(crate) fn advance(buffer: &mut Vec<u8>, place: Place, piece: &[u8]) -> Advanced
    requires room { longest ≤ vec_capacity buffer.old }
    requires fits { vec_len buffer.old ≤ longest }
    ensures goes { Goes place buffer.old.items piece.now result buffer.new.items }
    ensures fits { vec_len buffer.new ≤ longest }
    ensures capacity { vec_capacity buffer.old ≤ vec_capacity buffer.new }
{
    let mut place = place;
    for (i, octet) in piece.iter().enumerate() {
        match step(buffer, place, *octet) {
            Stepped::On(next) => place = next,
            Stepped::Packet => return Advanced::Packet(i + 1),
            Stepped::Bad(refusal, next) => return Advanced::Bad(refusal, i + 1, next),
        }
    }
    Advanced::More(place)
}

/// One octet of the stream.
fn step(buffer: &mut Vec<u8>, place: Place, octet: u8) -> Stepped
    requires room { longest ≤ vec_capacity buffer.old }
    requires fits { vec_len buffer.old ≤ longest }
    ensures steps { Steps place buffer.old.items octet result buffer.new.items }
    ensures fits { vec_len buffer.new ≤ longest }
    ensures capacity { vec_capacity buffer.old ≤ vec_capacity buffer.new }
{
    match place {
        Place::Outside => {
            buffer.clear();
            if octet == DELIMITER {
                Stepped::On(Place::Inside)
            } else {
                Stepped::On(Place::Outside)
            }
        }
        Place::Inside => step_inside(buffer, octet),
        Place::Escaping => step_escaping(buffer, octet),
    }
}

/// One octet behind a delimiter and what came of a packet.
fn step_inside(buffer: &mut Vec<u8>, octet: u8) -> Stepped
    requires room { longest ≤ vec_capacity buffer.old }
    requires fits { vec_len buffer.old ≤ longest }
    ensures steps { Steps Place.Inside buffer.old.items octet result buffer.new.items }
    ensures fits { vec_len buffer.new ≤ longest }
    ensures capacity { vec_capacity buffer.old ≤ vec_capacity buffer.new }
{
    match octet {
        DELIMITER if buffer.is_empty() => Stepped::On(Place::Inside),
        DELIMITER => Stepped::Packet,
        ESCAPE => Stepped::On(Place::Escaping),
        _ => grow(buffer, octet),
    }
}

/// The octet behind that which begins an escape.
fn step_escaping(buffer: &mut Vec<u8>, octet: u8) -> Stepped
    requires room { longest ≤ vec_capacity buffer.old }
    requires fits { vec_len buffer.old ≤ longest }
    ensures steps { Steps Place.Escaping buffer.old.items octet result buffer.new.items }
    ensures fits { vec_len buffer.new ≤ longest }
    ensures capacity { vec_capacity buffer.old ≤ vec_capacity buffer.new }
{
    match octet {
        0xDC => grow(buffer, DELIMITER),
        0xDD => grow(buffer, ESCAPE),
        DELIMITER => Stepped::Bad(WireRefusal::BadEscape, Place::Inside),
        _ => Stepped::Bad(WireRefusal::BadEscape, Place::Outside),
    }
}

/// One more octet of the packet.
fn grow(buffer: &mut Vec<u8>, octet: u8) -> Stepped
    requires room { longest ≤ vec_capacity buffer.old }
    requires fits { vec_len buffer.old ≤ longest }
    ensures grown { Grows buffer.old.items octet result buffer.new.items }
    ensures fits { vec_len buffer.new ≤ longest }
    ensures capacity { vec_capacity buffer.old ≤ vec_capacity buffer.new }
{
    if buffer.len() >= LONGEST {
        return Stepped::Bad(WireRefusal::BadLength, Place::Outside);
    }
    let _room_was_reserved = buffer.push(octet);
    Stepped::On(Place::Inside)
}
