//! The class of a device, a number of three octets.

ghost use Rattle.std.specs.Prelude.{◌≡◌, ◌<◌, ◌≤◌, ◌^◌, length, take};
ghost use Rattle.hci_packets.specs.Events.{le24};

use byteorder::{ByteOrder, LittleEndian};

/// The class in the first three octets, the low octet first.
pub fn class_of(octets: &[u8]) -> u32
    requires { 3 ≤ length octets.now }
    ensures octets { le24 result ≡ take 3 octets.now }
    ensures small { result < 2 ^ 24 }
{
    LittleEndian::read_u24(octets)
}

/// The three octets of a class, the low octet first.
pub fn class_octets(class: u32) -> [u8; 3]
    requires { class < 2 ^ 24 }
    ensures { result ≡ le24 class }
{
    let mut octets = [0; 3];
    LittleEndian::write_u24(&mut octets, class);
    octets
}
