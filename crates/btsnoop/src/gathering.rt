//! Putting together a file header or a record that came in pieces.

ghost use Rattle.std.specs.Prelude.{◌≡◌, ◌+◌, ◌-◌, ◌≤◌, ◌++◌, length, take, min, vec_len, vec_capacity};
ghost use Rattle.btsnoop.specs.Fields.{IsUnfinished};
ghost use Rattle.btsnoop.specs.Gathering.{Gathers};

use crate::fields::{Part, fault_in, told_length};
use crate::refusal::SnoopRefusal;

/// What a piece made of the octets that were held.
#[derive(Clone, Copy)]
pub(crate) enum Gathered {
    /// All of what they begin, with so many octets of the piece.
    Whole(usize),
    /// Less than that.
    More,
    /// A field at that place is wrong.
    Refused(SnoopRefusal, usize),
}

/// Puts the octets into the buffer, in place of those that it had.
pub(crate) fn refill(buffer: &mut Vec<u8>, octets: &[u8])
    requires { length octets.now ≤ vec_capacity buffer.old }
    ensures items { buffer.new.items ≡ octets.now }
    ensures capacity { vec_capacity buffer.old ≤ vec_capacity buffer.new }
{
    buffer.clear();
    let _room_was_reserved = buffer.extend_from_slice(octets);
}

/// Copies of the piece what the buffer wants: up to the end of what is told of the length, and once
/// more where that told more.
pub(crate) fn gather(part: Part, buffer: &mut Vec<u8>, piece: &[u8]) -> Gathered
    requires room { 65564 ≤ vec_capacity buffer.old }
    requires unfinished { IsUnfinished part buffer.old.items }
    ensures gathered { Gathers part buffer.old.items piece.now result buffer.new.items }
    ensures capacity { vec_capacity buffer.old ≤ vec_capacity buffer.new }
{
    let told = told_length(part, buffer);
    let used = top_up(buffer, piece, told);
    if let Some((refusal, place)) = fault_in(part, buffer) {
        return Gathered::Refused(refusal, place);
    }
    let length = told_length(part, buffer);
    let rest = top_up(buffer, &piece[used..], length);
    if buffer.len() < length {
        Gathered::More
    } else {
        Gathered::Whole(used + rest)
    }
}

/// Copies from the front of the piece until the buffer has `wanted` octets or the piece has no
/// more, and answers how many it copied.
fn top_up(buffer: &mut Vec<u8>, piece: &[u8], wanted: usize) -> usize
    requires within { vec_len buffer.old ≤ wanted }
    requires room { wanted ≤ vec_capacity buffer.old }
    ensures count { result ≡ min (wanted - vec_len buffer.old) (length piece.now) }
    ensures items { buffer.new.items ≡ buffer.old.items ++ take result piece.now }
    ensures capacity { vec_capacity buffer.old ≤ vec_capacity buffer.new }
{
    let count = piece.len().min(wanted - buffer.len());
    let _room_was_reserved = buffer.extend_from_slice(&piece[..count]);
    count
}
