//! The requests of the protocol.

ghost use Rattle.std.specs.Prelude.{◌≡◌, ℕ, ◌≤◌, option_map, IfSome, Some, None};
ghost use Rattle.sdp_elements.specs.Optional.{GivesAs};
ghost use Rattle.sdp_server.specs.Requests.{number_at, request_in, handles_request, attributes_request, search_request};
ghost use Rattle.sdp_server.specs.Asking.{Asks, GivesRequest};

use crate::list::{AttributeList, list_at};
use crate::pattern::{Pattern, pattern_at};
use byteorder::{BigEndian, ByteOrder};
use sdp_elements::continuation_in;

/// How many handles a request asks for at least (Core 5.1, Volume 3 Part B, 4.5.1).
const LEAST_HANDLES: u16 = 1;

/// How many octets a request asks for at least (4.6.1 and 4.7.1).
const LEAST_OCTETS: u16 = 7;

/// What a request asks for.
#[derive(Clone, Copy, Debug)]
pub enum Question<'a> {
    /// The handles of the service records that a pattern finds.
    Handles(Pattern<'a>),
    /// The listed attributes of the service record with this handle.
    Attributes(u32, AttributeList<'a>),
    /// The listed attributes of each service record that a pattern finds.
    Search(Pattern<'a>, AttributeList<'a>),
}

/// A request, with the most handles or octets that a reply may carry.
#[derive(Clone, Copy, Debug)]
pub struct Request<'a> {
    pub(crate) question: Question<'a>,
    pub(crate) most: u16,
    pub(crate) continuation: &'a [u8],
}

/// The most that a reply may carry, where it is at least so much, and the octets behind it.
fn most_at(least: u16, octets: &[u8]) -> Option<(u16, &[u8])>
    ensures value { option_map (λ x. (x.0, x.1.now)) result ≡ number_at 2 least octets.now }
    ensures least { IfSome result (λ x. least ≤ x.0) }
{
    if octets.len() < 2 {
        return None;
    }
    let most = BigEndian::read_u16(octets);
    if most < least {
        return None;
    }
    Some((most, &octets[2..]))
}

fn handle_at(octets: &[u8]) -> Option<(u32, &[u8])>
    ensures { option_map (λ x. (x.0, x.1.now)) result ≡ number_at 4 0 octets.now }
{
    if octets.len() < 4 {
        return None;
    }
    Some((BigEndian::read_u32(octets), &octets[4..]))
}

fn handles_request(parameters: &[u8]) -> Option<Request<'_>>
    ensures { GivesRequest 1 result (handles_request parameters.now) }
{
    let (pattern, rest) = pattern_at(parameters)?;
    let (most, rest) = most_at(LEAST_HANDLES, rest)?;
    let continuation = continuation_in(rest)?;
    Some(Request {
        question: Question::Handles(pattern),
        most,
        continuation,
    })
}

fn attributes_request(parameters: &[u8]) -> Option<Request<'_>>
    ensures { GivesRequest 7 result (attributes_request parameters.now) }
{
    let (handle, rest) = handle_at(parameters)?;
    let (most, rest) = most_at(LEAST_OCTETS, rest)?;
    let (list, rest) = list_at(rest)?;
    let continuation = continuation_in(rest)?;
    Some(Request {
        question: Question::Attributes(handle, list),
        most,
        continuation,
    })
}

fn search_request(parameters: &[u8]) -> Option<Request<'_>>
    ensures { GivesRequest 7 result (search_request parameters.now) }
{
    let (pattern, rest) = pattern_at(parameters)?;
    let (most, rest) = most_at(LEAST_OCTETS, rest)?;
    let (list, rest) = list_at(rest)?;
    let continuation = continuation_in(rest)?;
    Some(Request {
        question: Question::Search(pattern, list),
        most,
        continuation,
    })
}

/// The request that a PDU with this identifier and these parameters is. `None` where it is none.
pub(crate) fn request_of(identifier: u8, parameters: &[u8]) -> Option<Request<'_>>
    ensures { GivesRequest 1 result (request_in identifier parameters.now) }
{
    match identifier {
        0x02 => handles_request(parameters),
        0x04 => attributes_request(parameters),
        0x06 => search_request(parameters),
        _ => None,
    }
}
