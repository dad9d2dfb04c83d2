//! Putting together a packet that came in pieces.

ghost use Rattle.std.specs.Prelude.{ℕ, ◌≡◌, ◌+◌, ◌-◌, ◌<◌, ◌≤◌, ◌++◌, length, take, min, vec_len, vec_capacity};
ghost use Rattle.h4_framing.specs.Stream.{IsUnfinished};
ghost use Rattle.h4_framing.specs.Extents.{extent};
ghost use Rattle.h4_framing.specs.declared.extent.Extent.TheVariants.{AtLeast, Known};
ghost use Rattle.h4_framing.specs.Gathering.{Gathers};

use crate::extent::{Extent, extent_of};
use crate::refusal::H4Refusal;

/// What a piece made of the octets that were held.
#[derive(Clone, Copy)]
pub(crate) enum Gathered {
    /// They are a packet with so many octets of the piece.
    Whole(usize),
    /// They are not a packet yet.
    More,
    /// No packet has that octet at that place.
    Refused(H4Refusal, usize),
}

/// Puts the octets into the buffer, in place of those that it had.
pub(crate) fn refill(buffer: &mut Vec<u8>, octets: &[u8])
    requires { length octets.now ≤ vec_capacity buffer.old }
    ensures items { buffer.new.items ≡ octets.now }
    ensures capacity { vec_capacity buffer.old ≤ vec_capacity buffer.new }
{
    buffer.clear();
    let _room_was_reserved = buffer.extend_from_slice(octets);
}

/// Copies of the piece what the packet in the buffer wants.
pub(crate) fn gather(buffer: &mut Vec<u8>, piece: &[u8], limit: u16) -> Gathered
    requires limit { 255 ≤ limit }
    requires room { 5 + limit ≤ vec_capacity buffer.old }
    requires begun { 0 < vec_len buffer.old }
    requires unfinished { IsUnfinished limit buffer.old.items }
    ensures gathered { Gathers limit buffer.old.items piece.now result buffer.new.items }
    ensures capacity { vec_capacity buffer.old ≤ vec_capacity buffer.new }
{
    let used = gather_head(buffer, piece, limit);
    match extent_of(buffer, limit) {
        Extent::Known(length) => {
            let rest = top_up(buffer, &piece[used..], length);
            if buffer.len() < length {
                Gathered::More
            } else {
                Gathered::Whole(used + rest)
            }
        }
        Extent::AtLeast(_) => Gathered::More,
        Extent::Refused(refusal, place) => Gathered::Refused(refusal, place),
    }
}

/// Copies of the piece what leads up to the length of the packet in the buffer, and answers how
/// many octets that was.
fn gather_head(buffer: &mut Vec<u8>, piece: &[u8], limit: u16) -> usize
    requires limit { 255 ≤ limit }
    requires room { 5 + limit ≤ vec_capacity buffer.old }
    requires begun { 0 < vec_len buffer.old }
    requires unfinished { IsUnfinished limit buffer.old.items }
    ensures count { result ≤ length piece.now }
    ensures items { buffer.new.items ≡ buffer.old.items ++ take result piece.now }
    // The length stays unknown only where the piece has no more octets.
    ensures all { (n : ℕ) → extent limit buffer.new.items ≡ AtLeast n → result ≡ length piece.now }
    // No octet of what stands behind the packet is copied.
    ensures within { (n : ℕ) → extent limit buffer.new.items ≡ Known n → vec_len buffer.new ≤ n × (result ≡ 0 → vec_len buffer.new < n) }
    ensures capacity { vec_capacity buffer.old ≤ vec_capacity buffer.new }
{
    match extent_of(buffer, limit) {
        Extent::AtLeast(length) => top_up(buffer, piece, length),
        Extent::Known(_) => 0,
        Extent::Refused(_, _) => 0,
    }
}

/// Copies from the front of the piece until the buffer has `wanted` octets or the piece has no
/// more, and answers how many it copied.
fn top_up(buffer: &mut Vec<u8>, piece: &[u8], wanted: usize) -> usize
    requires within { vec_len buffer.old ≤ wanted }
    requires room { wanted ≤ vec_capacity buffer.old }
    ensures count { result ≡ min (wanted - vec_len buffer.old) (length piece.now) }
    ensures items { buffer.new.items ≡ buffer.old.items ++ take result piece.now }
    ensures capacity { vec_capacity buffer.old ≤ vec_capacity buffer.new }
{
    let count = piece.len().min(wanted - buffer.len());
    let _room_was_reserved = buffer.extend_from_slice(&piece[..count]);
    count
}
