//! Replies to a search for attributes.

ghost use Rattle.std.specs.Prelude.{◌≡◌, option_map};
ghost use Rattle.sdp_client.specs.Replies.{plain_part, plain_said, part_in, said_in, is_of_another};

use crate::said::{Part, Said};
use byteorder::{BigEndian, ByteOrder};
use sdp_elements::{continuation_in, pdu_of};

/// The part of an answer that parameters are: the count of its octets, the octets, the continuation
/// state; `None` where they are not these (Core 5.1, Volume 3 Part B, 4.7.2). A part without octets is
/// the last.
pub fn part_in(parameters: &[u8]) -> Option<Part<'_>>
    ensures { option_map plain_part result ≡ part_in parameters.now }
{
    if parameters.len() < 2 {
        return None;
    }
    let count = usize::from(BigEndian::read_u16(parameters));
    if parameters.len() - 2 < count {
        return None;
    }
    let end = 2 + count;
    let continuation = continuation_in(&parameters[end..])?;
    if count == 0 && !continuation.is_empty() {
        return None;
    }
    Some(Part {
        octets: &parameters[2..end],
        continuation,
    })
}

/// What the octets of a reply say.
pub(crate) fn said_in(reply: &[u8]) -> Said<'_>
    ensures { plain_said result ≡ said_in reply.now }
{
    let Some(pdu) = pdu_of(reply) else {
        return Said::Nothing;
    };
    match pdu.identifier {
        0x01 if pdu.parameters.len() == 2 => Said::Failed(BigEndian::read_u16(pdu.parameters)),
        0x07 => match part_in(pdu.parameters) {
            Some(part) => Said::Part(part),
            None => Said::Nothing,
        },
        _ => Said::Nothing,
    }
}

/// Whether a reply is that to another request. One that is too short to have a transaction is not.
pub fn is_of_another(reply: &[u8], transaction: u16) -> bool
    ensures { result ≡ is_of_another reply.now transaction }
{
    3 <= reply.len() && BigEndian::read_u16(&reply[1..]) != transaction
}
