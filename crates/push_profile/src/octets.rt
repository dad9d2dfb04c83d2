//! Octets that wait, in room of a fixed size.

ghost use Rattle.std.specs.Prelude.{◌≡◌, ◌+◌, ◌≤◌, ◌<◌, ◌++◌, length, take, drop, slice_index};

use arrayvec::ArrayVec;

/// Puts octets in place of those that wait.
pub(crate) fn put<const N: usize>(waiting: &mut ArrayVec<u8, N>, octets: &[u8])
    requires { length octets.now ≤ N }
    ensures { waiting.new.items ≡ octets.now }
{
    waiting.clear();
    let _there_is_room = waiting.try_extend_from_slice(octets);
}

/// Takes so many octets away from the front of those that wait.
pub(crate) fn cut<const N: usize>(waiting: &mut ArrayVec<u8, N>, count: usize)
    requires { count ≤ length waiting.old.items }
    ensures { waiting.new.items ≡ drop count waiting.old.items }
{
    let _those_taken = waiting.drain(..count);
}

/// The octet at a place in what is held and the piece.
fn octet(held: &[u8], piece: &[u8], i: usize) -> u8
    requires { i < length held.now + length piece.now }
    ensures { result ≡ slice_index (held.now ++ piece.now) i }
{
    if i < held.len() {
        held[i]
    } else {
        piece[i - held.len()]
    }
}

/// The first three octets of what is held and the piece.
pub(crate) fn first_three(held: &[u8], piece: &[u8]) -> [u8; 3]
    requires { 3 ≤ length held.now + length piece.now }
    ensures { result ≡ take 3 (held.now ++ piece.now) }
{
    [
        octet(held, piece, 0),
        octet(held, piece, 1),
        octet(held, piece, 2),
    ]
}
