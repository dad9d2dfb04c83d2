//! Octets as a packet.

ghost use Rattle.std.specs.Prelude.{◌≡◌, ◌↔◌, IsTrue};
ghost use Rattle.wire_packets.specs.Packets.{IsKind};
ghost use Rattle.wire_packets.specs.Answers.{answer, IsAnswer};

use crate::packet::WirePacket;
use crate::refusal::WireRefusal;

/// The packet that octets spell, without their SLIP layer (Core 5.1, Volume 4 Part D, section 4).
///
/// In this order: `Short` below four octets, `BadChecksum` where the header does not add up to FF
/// modulo 256, `Checked` where bit 6 of the first octet is set, `BadLength` where the payload has
/// another length than the header states, `BadKind` for a type other than 0 to 4 and 15.
pub fn packet_of<'a>(bytes: &'a [u8]) -> Result<WirePacket<'a>, WireRefusal>
    ensures { IsAnswer bytes.now (answer result) }
{
    let [first, second, third, check, payload @ ..] = bytes else {
        return Err(WireRefusal::Short);
    };
    let sum = *first as u16 + *second as u16 + *third as u16 + *check as u16;
    if sum % 256 != 0xFF {
        return Err(WireRefusal::BadChecksum);
    }
    if *first / 0x40 % 2 == 1 {
        return Err(WireRefusal::Checked);
    }
    if payload.len() != *second as usize / 0x10 + 0x10 * *third as usize {
        return Err(WireRefusal::BadLength);
    }
    let kind = *second % 0x10;
    if !is_kind(kind) {
        return Err(WireRefusal::BadKind);
    }
    Ok(WirePacket {
        seq: *first % 8,
        ack: *first / 8 % 8,
        reliable: *first / 0x80 == 1,
        kind,
        payload,
    })
}

/// Whether packets of that type are spoken here.
fn is_kind(kind: u8) -> bool
    ensures { IsTrue result ↔ IsKind kind }
{
    kind <= 4 || kind == 15
}
