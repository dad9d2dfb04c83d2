//! Writing whole H4 units.

ghost use Rattle.std.specs.Prelude.{◌≡◌, ◌+◌, ◌<◌, ◌≤◌, ◌∷◌, ◌++◌, length, take, drop};
ghost use Rattle.bt_base.specs.Octets.{le16};
ghost use Rattle.hci_packets.specs.Units.{Writes};

use byteorder::{ByteOrder, LittleEndian};

/// Writes a unit: its head, how many octets of parameters there are, and these in two parts.
/// Answers how many octets it wrote.
pub fn put_unit(into: &mut [u8], head: &[u8], first: &[u8], rest: &[u8]) -> usize
    requires few { length first.now + length rest.now < 256 }
    requires room { length head.now + 1 + length first.now + length rest.now ≤ length into.old }
    ensures { Writes into.old into.new result (head.now ++ ((length first.now + length rest.now) ∷ (first.now ++ rest.now))) }
{
    let at = put(into, 0, head);
    let at = put(into, at, &[(first.len() + rest.len()) as u8]);
    let at = put(into, at, first);
    put(into, at, rest)
}

/// Writes octets at a place, and answers the place behind them.
fn put(into: &mut [u8], at: usize, octets: &[u8]) -> usize
    requires { at + length octets.now ≤ length into.old }
    ensures end { result ≡ at + length octets.now }
    ensures written { into.new ≡ take at into.old ++ (octets.now ++ drop (at + length octets.now) into.old) }
{
    let end = at + octets.len();
    into[at..end].copy_from_slice(octets);
    end
}

/// The two octets of a number, the low octet first.
pub fn octets_of(number: u16) -> [u8; 2]
    ensures { result ≡ le16 number }
{
    let mut octets = [0; 2];
    LittleEndian::write_u16(&mut octets, number);
    octets
}
