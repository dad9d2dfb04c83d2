//! Responses, and how they are written.

ghost use Rattle.std.specs.Prelude.{◌≡◌, ◌≤◌, ◌<◌, ◌+◌, ◌++◌, length, take, drop};
ghost use Rattle.obex_headers.specs.Packets.{header_octets, grown};
ghost use Rattle.obex_session.specs.Responses.{connect_fields, is_connect, single_header, response_octets, confirmation_octets};
ghost use Rattle.obex_session.specs.Serving.{Says};
ghost use Rattle.obex_session.specs.Turns.{said_open, said_whole, said_after};

use crate::course::{Course, Verdict};
use crate::marks::Kind;
use crate::server::Reply;
use bt_base::PortFault;
use obex_headers::identifiers::{ENABLED, SINGLE_RESPONSE};
use obex_headers::{Code, Header, HeaderValue, add_header, start_packet};

/// What a server says of a packet.
#[derive(Clone, Copy, Debug)]
pub(crate) enum Saying {
    /// A response with this code.
    Response(Code),
    /// A response to a PUT that confirms single response mode.
    Confirmation(Code),
    /// Nothing, as single response mode has it.
    Silence,
    /// Nothing, since the inbox found no memory.
    NoMemory,
}

/// The fields of CONNECT, and of a response to it: version 1.0, no flags, and the own maximum.
pub(crate) fn connect_fields(maximum: u16) -> [u8; 4]
    ensures { result ≡ connect_fields maximum }
{
    let [high, low] = maximum.to_be_bytes();
    [0x10, 0x00, high, low]
}

/// Whether the octets begin as a CONNECT does.
fn is_connect(packet: &[u8]) -> bool
    ensures { result ≡ is_connect packet.now }
{
    match packet {
        [code, ..] => *code == Code::Connect.octet(),
        [] => false,
    }
}

/// Writes the response to a packet, and answers how many octets it has.
fn respond(packet: &[u8], maximum: u16, code: Code, into: &mut [u8]) -> usize
    requires sound { 255 ≤ maximum }
    requires room { 7 ≤ length into.old }
    ensures len { result ≡ length (response_octets packet.now maximum code) }
    ensures written { into.new ≡ response_octets packet.now maximum code ++ drop result into.old }
{
    if is_connect(packet) {
        start_packet(code.octet(), &connect_fields(maximum), into)
    } else {
        start_packet(code.octet(), &[], into)
    }
}

/// Writes the header that enables single response mode behind a packet.
pub(crate) fn add_single(at: usize, into: &mut [u8]) -> usize
    requires started { 3 ≤ at }
    requires room { at + 2 ≤ length into.old }
    requires fits { at < 32768 }
    ensures len { result ≡ at + 2 }
    ensures written { into.new ≡ grown (take at into.old) (header_octets single_header) ++ drop result into.old }
{
    let header = Header {
        id: SINGLE_RESPONSE,
        value: HeaderValue::One(ENABLED),
    };
    add_header(&header, at, into)
}

/// Writes a response to a PUT that confirms single response mode.
fn confirm(code: Code, into: &mut [u8]) -> usize
    requires room { 7 ≤ length into.old }
    ensures len { result ≡ length (confirmation_octets code) }
    ensures written { into.new ≡ confirmation_octets code ++ drop result into.old }
{
    let at = start_packet(code.octet(), &[], into);
    add_single(at, into)
}

/// Writes what is said of a packet.
pub(crate) fn say(saying: Saying, packet: &[u8], maximum: u16, into: &mut [u8]) -> Reply
    requires sound { 255 ≤ maximum }
    requires room { 7 ≤ length into.old }
    ensures { Says packet.now maximum saying into.old into.new result }
{
    match saying {
        Saying::Response(code) => Reply::Respond(respond(packet, maximum, code, into)),
        Saying::Confirmation(code) => Reply::Respond(confirm(code, into)),
        Saying::Silence => Reply::Silent,
        Saying::NoMemory => Reply::NoMemory,
    }
}

/// What is said of a PUT with which its object goes on.
fn said_open(is_first: bool, single: bool) -> Saying
    ensures { result ≡ said_open is_first single }
{
    match (single, is_first) {
        (true, true) => Saying::Confirmation(Code::Continue),
        (true, false) => Saying::Silence,
        (false, _) => Saying::Response(Code::Continue),
    }
}

/// What is said of a PUT with which its object is whole.
fn said_whole(is_first: bool, single: bool) -> Saying
    ensures { result ≡ said_whole is_first single }
{
    if is_first && single {
        Saying::Confirmation(Code::Success)
    } else {
        Saying::Response(Code::Success)
    }
}

/// What is said of a packet of which this came.
pub(crate) fn said_after(
    offered: bool,
    course: Course,
    kind: Kind,
    outcome: Result<Verdict, PortFault>,
) -> Saying
    ensures { result ≡ said_after offered course kind outcome }
{
    match outcome {
        Ok(Verdict::Open(_)) => said_open(course.is_first(), course.is_single(offered, kind)),
        Ok(Verdict::Whole) => said_whole(course.is_first(), course.is_single(offered, kind)),
        Ok(Verdict::Ended(code)) => Saying::Response(code),
        Ok(Verdict::PassedOver(_)) => Saying::Silence,
        Err(PortFault::Failed) => Saying::Response(Code::InternalError),
        Err(PortFault::NoMemory) => Saying::NoMemory,
    }
}
