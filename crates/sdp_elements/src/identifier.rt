//! Identifiers of services and protocols (Core 5.1, Volume 3 Part B, 2.5.1).

ghost use Rattle.std.specs.Prelude.{◌≡◌, ◌⊎◌, length, drop};
ghost use Rattle.std.specs.Str.{bytes_eq};
ghost use Rattle.sdp_elements.specs.Elements.{short_uuid, uuid_in, base_end};

use byteorder::{BigEndian, ByteOrder};
use uuid::Uuid;

// 00000000-0000-1000-8000-00805F9B34FB
const BASE: [u8; 16] = [
    0x00, 0x00, 0x00, 0x00, 0x00, 0x00, 0x10, 0x00, 0x80, 0x00, 0x00, 0x80, 0x5F, 0x9B, 0x34, 0xFB,
];

/// A short identifier in its place in the Base UUID, the first four octets.
pub fn uuid_of(short: u32) -> Uuid
    ensures { result ≡ short_uuid short }
{
    let mut octets = BASE;
    BigEndian::write_u32(&mut octets, short);
    Uuid::from_bytes(octets)
}

/// The identifier that two, four or sixteen octets are.
pub fn uuid_in(content: &[u8]) -> Uuid
    requires { (length content.now ≡ 2) ⊎ (length content.now ≡ 4) ⊎ (length content.now ≡ 16) }
    ensures { result ≡ uuid_in content.now }
{
    if content.len() == 16 {
        let mut octets = BASE;
        octets.copy_from_slice(content);
        return Uuid::from_bytes(octets);
    }
    uuid_of(BigEndian::read_uint(content, content.len()) as u32)
}

/// Whether an identifier is the Base UUID but for its first four octets.
pub fn is_short(octets: &[u8]) -> bool
    requires { length octets.now ≡ 16 }
    ensures { result ≡ bytes_eq (drop 4 octets.now) base_end }
{
    octets[4..] == BASE[4..]
}
