//! Numbers read from the front of octets.

ghost use Rattle.std.specs.Prelude.{◌≡◌, ◌≤◌, length, take};
ghost use Rattle.bt_base.specs.Octets.{le16, be16, be32};

use byteorder::{BigEndian, ByteOrder, LittleEndian};

/// The number in the first two octets, the low octet first.
pub fn read_le16(octets: &[u8]) -> u16
    requires { 2 ≤ length octets.now }
    ensures { le16 result ≡ take 2 octets.now }
{
    LittleEndian::read_u16(octets)
}

/// The number in the first two octets, the high octet first.
pub fn read_be16(octets: &[u8]) -> u16
    requires { 2 ≤ length octets.now }
    ensures { be16 result ≡ take 2 octets.now }
{
    BigEndian::read_u16(octets)
}

/// The number in the first four octets, the highest octet first.
pub fn read_be32(octets: &[u8]) -> u32
    requires { 4 ≤ length octets.now }
    ensures { be32 result ≡ take 4 octets.now }
{
    BigEndian::read_u32(octets)
}
