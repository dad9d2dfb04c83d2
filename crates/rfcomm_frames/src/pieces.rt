//! Octets written one piece behind the other.

ghost use Rattle.std.specs.Prelude.{◌≡◌, ◌≤◌, ◌+◌, ◌++◌, length, take, drop};

/// Writes octets from `at` on, and answers the place behind them.
pub(crate) fn put(octets: &[u8], at: usize, into: &mut [u8]) -> usize
    requires { at + length octets.now ≤ length into.old }
    ensures end { result ≡ at + length octets.now }
    ensures written { into.new ≡ take at into.old ++ (octets.now ++ drop result into.old) }
{
    let end = at + octets.len();
    into[at..end].copy_from_slice(octets);
    end
}
