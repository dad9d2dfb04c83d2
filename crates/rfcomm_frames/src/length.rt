//! The length fields of frames and of control messages.

ghost use Rattle.std.specs.Prelude.{◌≡◌, ◌≢◌, ◌≤◌, ◌<◌, ◌+◌, ◌^◌, ◌++◌, ℕ, List, length, take, drop, IfSome, IfNone};
ghost use Rattle.rfcomm_frames.specs.Lengths.{States, shortest};

use crate::pieces::put;

/// The number that the length field at the front of octets states, and the octets behind the field
/// (TS 07.10, 5.2.1.5). None where no length field is there whole.
pub(crate) fn split_length(octets: &[u8]) -> Option<(usize, &[u8])>
    ensures some { IfSome result (λ found. (field : List ℕ) × States field found.0 × (octets.now ≡ field ++ found.1.now)) }
    ensures none { IfNone result ((field behind : List ℕ) (n : ℕ) → States field n → octets.now ≢ field ++ behind) }
{
    let (first, behind) = octets.split_first()?;
    if first % 2 == 1 {
        return Some((usize::from(first / 2), behind));
    }
    let (second, behind) = behind.split_first()?;
    Some((usize::from(first / 2) + 128 * usize::from(*second), behind))
}

/// Writes the shortest length field that states `count`, from `at` on, and answers the place behind
/// it.
pub(crate) fn put_length(count: usize, at: usize, into: &mut [u8]) -> usize
    requires few { count < 2 ^ 15 }
    requires room { at + length (shortest count) ≤ length into.old }
    ensures end { result ≡ at + length (shortest count) }
    ensures written { into.new ≡ take at into.old ++ (shortest count ++ drop result into.old) }
{
    if count < 128 {
        put(&[(0x01 + 2 * count) as u8], at, into)
    } else {
        put(&[(2 * (count % 128)) as u8, (count / 128) as u8], at, into)
    }
}
