//! A packet as octets.

ghost use Rattle.std.specs.Prelude.{◌≡◌, ◌+◌, ◌≤◌, ◌++◌, length, drop};
ghost use Rattle.h4_framing.specs.Packets.{packet, spelling, FitsLengthField};

use crate::unit::Unit;

/// Writes the packet from the first octet of `into` on, and answers how many octets it has. The
/// octets behind it stay as they are.
pub fn write_unit(unit: &Unit<'_>, into: &mut [u8]) -> usize
    requires length_field { FitsLengthField (packet unit.now) }
    requires room { length (spelling (packet unit.now)) ≤ length into.old }
    ensures count { result ≡ length (spelling (packet unit.now)) }
    ensures written { into.new ≡ spelling (packet unit.now) ++ drop result into.old }
{
    match *unit {
        Unit::Command { opcode, params } => {
            let [low, high] = opcode.to_le_bytes();
            write_parts(&[1, low, high, params.len() as u8], params, into)
        }
        Unit::Acl { word, octets } => {
            let [low, high] = word.to_le_bytes();
            let [short, long] = (octets.len() as u16).to_le_bytes();
            write_parts(&[2, low, high, short, long], octets, into)
        }
        Unit::Sync { word, octets } => {
            let [low, high] = word.to_le_bytes();
            write_parts(&[3, low, high, octets.len() as u8], octets, into)
        }
        Unit::Event { code, params } => write_parts(&[4, code, params.len() as u8], params, into),
    }
}

/// Writes both parts, one after the other, from the first octet on.
fn write_parts(head: &[u8], octets: &[u8], into: &mut [u8]) -> usize
    requires { length head.now + length octets.now ≤ length into.old }
    ensures count { result ≡ length head.now + length octets.now }
    ensures written { into.new ≡ head.now ++ octets.now ++ drop result into.old }
{
    let start = head.len();
    let end = start + octets.len();
    into[..start].copy_from_slice(head);
    into[start..end].copy_from_slice(octets);
    end
}
