//! Writing packets, header by header.

ghost use Rattle.std.specs.Prelude.{◌≡◌, ℕ, ◌+◌, ◌-◌, ◌<◌, ◌≤◌, ◌^◌, ◌++◌, length, take, drop};
ghost use Rattle.bt_base.specs.Octets.{be16};
ghost use Rattle.obex_headers.specs.declared.packet.Phase.{Phase};
ghost use Rattle.obex_headers.specs.Packets.{PlainPacket, Octets, HasForm, HasFields, IsHeader, value_octets, header_octets, packet_octets, plain_value, plain_header, bare, with_header, grown};

use crate::header::{Header, HeaderValue};
use byteorder::{BigEndian, ByteOrder};

/// Writes a packet without headers, and answers how many octets it has (IrOBEX 1.5, 2.2).
///
/// It needs room, and fields that a packet of this code has in some phase.
pub fn start_packet(code: u8, extra: &[u8], into: &mut [u8]) -> usize
    requires fields { (phase : Phase) × HasFields phase code extra.now }
    requires room { 3 + length extra.now ≤ length into.old }
    ensures len { result ≡ 3 + length extra.now }
    ensures written { into.new ≡ packet_octets (bare code extra.now) ++ drop result into.old }
{
    let end = 3 + extra.len();
    into[0] = code;
    into[3..end].copy_from_slice(extra);
    put_length(end, into);
    end
}

fn put_sized(octets: &[u8], into: &mut [u8]) -> usize
    requires fits { 3 + length octets.now < 2 ^ 16 }
    requires room { 2 + length octets.now ≤ length into.old }
    ensures len { result ≡ 2 + length octets.now }
    ensures written { into.new ≡ (be16 (3 + length octets.now) ++ octets.now) ++ drop result into.old }
{
    let end = 2 + octets.len();
    BigEndian::write_u16(into, (1 + end) as u16);
    into[2..end].copy_from_slice(octets);
    end
}

fn put_value(value: &HeaderValue<'_>, into: &mut [u8]) -> usize
    requires fits { length (value_octets (plain_value value.now)) < 2 ^ 16 - 1 }
    requires room { length (value_octets (plain_value value.now)) ≤ length into.old }
    ensures len { result ≡ length (value_octets (plain_value value.now)) }
    ensures written { into.new ≡ value_octets (plain_value value.now) ++ drop result into.old }
{
    match *value {
        HeaderValue::Text(octets) | HeaderValue::Octets(octets) => put_sized(octets, into),
        HeaderValue::One(octet) => {
            into[0] = octet;
            1
        }
        HeaderValue::Four(number) => {
            BigEndian::write_u32(into, number);
            4
        }
    }
}

fn put_header(header: &Header<'_>, at: usize, into: &mut [u8]) -> usize
    requires sound { IsHeader (plain_header header.now) }
    requires room { at + length (header_octets (plain_header header.now)) ≤ length into.old }
    ensures len { result ≡ at + length (header_octets (plain_header header.now)) }
    ensures written { into.new ≡ take at into.old ++ (header_octets (plain_header header.now) ++ drop result into.old) }
{
    into[at] = header.id;
    at + 1 + put_value(&header.value, &mut into[at + 1..])
}

fn put_length(end: usize, into: &mut [u8])
    requires fits { end < 2 ^ 16 }
    requires room { 3 ≤ length into.old }
    ensures { into.new ≡ take 1 into.old ++ (be16 end ++ drop 3 into.old) }
{
    BigEndian::write_u16(&mut into[1..], end as u16);
}

/// Writes one more header behind the packet that stands in the first `at` octets, and the new
/// length into octets 1 and 2. It answers the new length of the packet, and all other octets stay.
///
/// It needs `at` to be at least 3, a header whose value has the form that its identifier names,
/// room, and a new length of at most 65,535.
pub fn add_header(header: &Header<'_>, at: usize, into: &mut [u8]) -> usize
    requires sound { IsHeader (plain_header header.now) }
    requires started { 3 ≤ at }
    requires room { at + length (header_octets (plain_header header.now)) ≤ length into.old }
    requires fits { at + length (header_octets (plain_header header.now)) < 2 ^ 16 }
    ensures len { result ≡ at + length (header_octets (plain_header header.now)) }
    ensures written { into.new ≡ grown (take at into.old) (header_octets (plain_header header.now)) ++ drop result into.old }
    // Where a packet stood, the packet with this header at its end stands.
    ensures packet { (packet : PlainPacket) → take at into.old ≡ packet_octets packet →
        take result into.new ≡ packet_octets (with_header packet (plain_header header.now)) }
{
    let end = put_header(header, at, into);
    put_length(end, into);
    end
}

fn put_front(id: u8, n: usize, at: usize, into: &mut [u8]) -> usize
    requires room { at + 3 + n ≤ length into.old }
    requires fits { at + 3 + n < 2 ^ 16 }
    ensures len { result ≡ at + 3 + n }
    ensures written { into.new ≡ take at into.old ++ (header_octets (record { id = id; value = Octets (take n (drop (at + 3) into.old)) }) ++ drop result into.old) }
{
    into[at] = id;
    BigEndian::write_u16(&mut into[at + 1..], (3 + n) as u16);
    at + 3 + n
}

/// The same for a header of octets whose `n` octets stand in `into` already, from place `at + 3` on.
///
/// It needs `at` to be at least 3, an identifier of the octets form, the `n` octets to be there, and
/// a new length of at most 65,535.
pub fn add_placed(id: u8, n: usize, at: usize, into: &mut [u8]) -> usize
    requires form { (0x40 ≤ id) × (id < 0x80) }
    requires started { 3 ≤ at }
    requires room { at + 3 + n ≤ length into.old }
    requires fits { at + 3 + n < 2 ^ 16 }
    ensures len { result ≡ at + 3 + n }
    ensures written { into.new ≡ grown (take at into.old) (header_octets (record { id = id; value = Octets (take n (drop (at + 3) into.old)) })) ++ drop result into.old }
    // Where a packet stood, the packet with this header at its end stands.
    ensures packet { (packet : PlainPacket) → take at into.old ≡ packet_octets packet →
        take result into.new ≡ packet_octets (with_header packet (record { id = id; value = Octets (take n (drop (at + 3) into.old)) })) }
{
    let end = put_front(id, n, at, into);
    put_length(end, into);
    end
}
