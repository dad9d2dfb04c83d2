//! Texts of headers.

ghost use Rattle.std.specs.Prelude.{◌≡◌, ◌<◌, ◌≤◌, ◌++◌, length, drop, MatchOption};
ghost use Rattle.obex_headers.specs.Packets.{units_of, IsText};
ghost use Rattle.obex_headers.specs.Reading.{is_text};

use byteorder::{BigEndian, ByteOrder};

/// Whether the octets are none, or UTF-16 units that end with a zero unit.
pub fn is_text(octets: &[u8]) -> bool
    ensures { result ≡ is_text octets.now }
{
    match octets {
        [] => true,
        [.., 0, 0] => octets.len() % 2 == 0,
        _ => false,
    }
}

/// Writes the units of a text but for the zero that ends it, and answers how many they are. It is
/// `None` exactly where they do not fit, and then nothing is written.
///
/// It needs a text as a header of a packet has it: no octets, or UTF-16 units, the high octet
/// first, with a zero unit at the end (IrOBEX 1.5, 2.1).
pub fn name_units(text: &[u8], into: &mut [u16]) -> Option<usize>
    requires { IsText text.now }
    ensures fits { MatchOption result (length into.old < length (units_of text.now)) (λ n. n ≡ length (units_of text.now)) }
    ensures units { MatchOption result (into.new ≡ into.old) (λ n. into.new ≡ units_of text.now ++ drop n into.old) }
{
    let count = (text.len() / 2).saturating_sub(1);
    if into.len() < count {
        return None;
    }
    BigEndian::read_u16_into(&text[..2 * count], &mut into[..count]);
    Some(count)
}
