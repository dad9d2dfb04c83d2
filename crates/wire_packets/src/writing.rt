//! A packet as octets, and octets on the line.

ghost use Rattle.std.specs.Prelude.{◌≡◌, ◌≤◌, ◌+◌, ◌∷◌, ◌++◌, length, take, drop};
ghost use Rattle.wire_packets.specs.Packets.{plain, spelling, bit, IsPacket};
ghost use Rattle.wire_packets.specs.Slip.{slip, escaped};

use crate::packet::WirePacket;

/// Writes the packet's header and payload from the front of `into`, and answers how many octets they
/// have. The octets behind them stay as they are.
///
/// It needs room, numbers up to 7, a type that is spoken and at most 4,095 octets.
pub fn put_packet(packet: &WirePacket<'_>, into: &mut [u8]) -> usize
    requires fits { IsPacket (plain packet.now) }
    requires room { 4 + length packet.now.payload.now ≤ length into.old }
    ensures count { result ≡ 4 + length packet.now.payload.now }
    ensures written { into.new ≡ spelling (plain packet.now) ++ drop result into.old }
{
    let count = packet.payload.len();
    let first = packet.seq + 8 * packet.ack + 128 * bit(packet.reliable);
    let second = packet.kind + 16 * (count % 16) as u8;
    let third = (count / 16) as u8;
    let sum = first as u16 + second as u16 + third as u16;
    let check = 255 - (sum % 256) as u8;
    into[..4].copy_from_slice(&[first, second, third, check]);
    into[4..4 + count].copy_from_slice(packet.payload);
    4 + count
}

fn bit(flag: bool) -> u8
    ensures { result ≡ bit flag }
{
    if flag { 1 } else { 0 }
}

/// Writes the octets of a packet as they stand on the line from the front of `into`, and answers how
/// many that are: between two delimiters, and escaped (Core 5.1, Volume 4 Part D, section 3). The
/// octets behind them stay as they are. It needs room.
pub fn put_slip(bytes: &[u8], into: &mut [u8]) -> usize
    requires { length (slip bytes.now) ≤ length into.old }
    ensures count { result ≡ length (slip bytes.now) }
    ensures written { into.new ≡ slip bytes.now ++ drop result into.old }
{
    into[0] = 0xC0;
    let mut at = 1;
    for octet in bytes {
        at = put_escaped(*octet, at, into);
    }
    into[at] = 0xC0;
    at + 1
}

/// Writes one octet of a packet from `at` on, and answers the place behind it.
fn put_escaped(octet: u8, at: usize, into: &mut [u8]) -> usize
    requires { at + length (escaped octet) ≤ length into.old }
    ensures count { result ≡ at + length (escaped octet) }
    ensures written { into.new ≡ take at into.old ++ (escaped octet ++ drop result into.old) }
{
    match octet {
        0xC0 => put_pair(0xDC, at, into),
        0xDB => put_pair(0xDD, at, into),
        _ => {
            into[at] = octet;
            at + 1
        }
    }
}

/// Writes an escape and what stands behind it, and answers the place behind both.
fn put_pair(second: u8, at: usize, into: &mut [u8]) -> usize
    requires { at + 2 ≤ length into.old }
    ensures count { result ≡ at + 2 }
    ensures written { into.new ≡ take at into.old ++ (0xDB ∷ second ∷ drop result into.old) }
{
    into[at] = 0xDB;
    into[at + 1] = second;
    at + 2
}
