//! The PDUs of the protocol (Core 5.1, Volume 3 Part B, 4.2).

ghost use Rattle.std.specs.Prelude.{◌≡◌, option_map};
ghost use Rattle.sdp_elements.specs.Pdus.{plain_pdu, pdu_in};

use byteorder::{BigEndian, ByteOrder};

/// A PDU. Its parameters lie in the octets that it was read from.
#[derive(Clone, Copy, Debug)]
pub struct Pdu<'a> {
    pub identifier: u8,
    pub transaction: u16,
    pub parameters: &'a [u8],
}

/// The PDU that the octets are: identifier, transaction, the length of the parameters, parameters.
/// `None` below five octets, and where the length is another than that of the octets behind it.
pub fn pdu_of(octets: &[u8]) -> Option<Pdu<'_>>
    ensures { option_map plain_pdu result ≡ pdu_in octets.now }
{
    if octets.len() < 5 {
        return None;
    }
    let length = BigEndian::read_u16(&octets[3..]);
    if usize::from(length) != octets.len() - 5 {
        return None;
    }
    Some(Pdu {
        identifier: octets[0],
        transaction: BigEndian::read_u16(&octets[1..]),
        parameters: &octets[5..],
    })
}
