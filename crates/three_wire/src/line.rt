//! Link control messages and numbers, and packets as they stand on the line.

ghost use Rattle.std.specs.Prelude.{◌≡◌, ◌≤◌, ◌<◌, length};
ghost use Rattle.wire_packets.specs.Packets.{plain, IsPacket};
ghost use Rattle.wire_model.specs.Machine.{message_of, window_in, lesser, past, link_packet, control_packet, unit_packet, ack_packet};
ghost use Rattle.three_wire.specs.Held.{IsUnit};
ghost use Rattle.three_wire.specs.Wire.{Puts};

use wire_model::LinkMessage;
use wire_packets::{WirePacket, put_packet, put_slip};

/// The type of link control packets (Core 5.1, Volume 4 Part D, section 4.5).
pub(crate) const LINK_CONTROL: u8 = 15;

/// The message that the payload of a link control packet is (8.4 to 8.7).
pub(crate) fn message_of(payload: &[u8]) -> Option<LinkMessage>
    ensures { result ≡ message_of payload.now }
{
    match payload {
        [0x01, 0x7E] => Some(LinkMessage::Sync),
        [0x02, 0x7D] => Some(LinkMessage::SyncResponse),
        [0x03, 0xFC, field @ ..] => Some(LinkMessage::Config(window_in(field))),
        [0x04, 0x7B, field @ ..] => Some(LinkMessage::ConfigResponse(window_in(field))),
        _ => None,
    }
}

/// The window of a configuration field (8.8), 1 where there is none.
fn window_in(field: &[u8]) -> u8
    ensures { result ≡ window_in field.now }
{
    match field {
        [] => 1,
        [octet, ..] => *octet % 8,
    }
}

/// The lesser of two windows, 0 counting as 1.
pub(crate) fn lesser(own: u8, field: u8) -> u8
    ensures { result ≡ lesser own field }
{
    own.min(field.max(1))
}

/// How many steps a number modulo 8 lies past another.
pub(crate) fn past(from: u8, to: u8) -> u8
    requires { from < 8 }
    ensures { result ≡ past from to }
{
    ((to as u16 + 8 - from as u16) % 8) as u8
}

/// Writes a packet as it stands on the line, and answers how many octets it has.
pub(crate) fn put_line(packet: &WirePacket<'_>, scratch: &mut [u8], into: &mut [u8]) -> usize
    requires fits { IsPacket (plain packet.now) }
    requires scratch { length scratch.old ≡ 4099 }
    requires room { 8200 ≤ length into.old }
    ensures { Puts (plain packet.now) into.old into.new result }
{
    let n = put_packet(packet, scratch);
    put_slip(&scratch[..n], into)
}

/// Writes a link control message as it stands on the line, and answers how many octets it has.
pub(crate) fn put_message(message: LinkMessage, scratch: &mut [u8], into: &mut [u8]) -> usize
    requires scratch { length scratch.old ≡ 4099 }
    requires room { 8200 ≤ length into.old }
    ensures { Puts (link_packet message) into.old into.new result }
{
    match message {
        LinkMessage::Sync => put_control(&[0x01, 0x7E], scratch, into),
        LinkMessage::SyncResponse => put_control(&[0x02, 0x7D], scratch, into),
        LinkMessage::Config(window) => put_control(&[0x03, 0xFC, window], scratch, into),
        LinkMessage::ConfigResponse(window) => put_control(&[0x04, 0x7B, window], scratch, into),
    }
}

/// Writes a link control packet with that payload as it stands on the line.
fn put_control(payload: &[u8], scratch: &mut [u8], into: &mut [u8]) -> usize
    requires short { length payload.now ≤ 4095 }
    requires scratch { length scratch.old ≡ 4099 }
    requires room { 8200 ≤ length into.old }
    ensures { Puts (control_packet payload.now) into.old into.new result }
{
    let packet = WirePacket {
        seq: 0,
        ack: 0,
        reliable: false,
        kind: LINK_CONTROL,
        payload,
    };
    put_line(&packet, scratch, into)
}

/// Writes the packet of a unit as it stands on the line, and answers how many octets it has. The
/// numbers are SeqNo and AckNo.
pub(crate) fn put_unit(
    numbers: (u8, u8),
    kind: u8,
    octets: &[u8],
    scratch: &mut [u8],
    into: &mut [u8],
) -> usize
    requires seq { numbers.0 < 8 }
    requires ack { numbers.1 < 8 }
    requires unit { IsUnit (record { kind = kind; octets = octets.now }) }
    requires scratch { length scratch.old ≡ 4099 }
    requires room { 8200 ≤ length into.old }
    ensures { Puts (unit_packet numbers.0 numbers.1 (record { kind = kind; octets = octets.now })) into.old into.new result }
{
    let packet = WirePacket {
        seq: numbers.0,
        ack: numbers.1,
        reliable: true,
        kind,
        payload: octets,
    };
    put_line(&packet, scratch, into)
}

/// Writes an acknowledgement as it stands on the line, and answers how many octets it has.
pub(crate) fn put_ack(ack: u8, scratch: &mut [u8], into: &mut [u8]) -> usize
    requires ack { ack < 8 }
    requires scratch { length scratch.old ≡ 4099 }
    requires room { 8200 ≤ length into.old }
    ensures { Puts (ack_packet ack) into.old into.new result }
{
    let packet = WirePacket {
        seq: 0,
        ack,
        reliable: false,
        kind: 0,
        payload: &[],
    };
    put_line(&packet, scratch, into)
}
