//! Requests that have no response yet.

ghost use Rattle.std.specs.Prelude.{◌≡◌};
ghost use Rattle.obex_headers.specs.Packets.{HasFields};
ghost use Rattle.obex_session.specs.Asking.{phase_of, awaited_code, success_of, limit_by, single_by};
ghost use Rattle.obex_session.specs.NextPut.{is_waiting, put_request};

use crate::client::Answered;
use crate::marks::Marks;
use byteorder::{BigEndian, ByteOrder};
use obex_headers::{Code, Packet, Phase};

/// A request that has no response yet.
#[derive(Clone, Copy, Debug)]
pub(crate) enum Request {
    /// CONNECT.
    Connect,
    /// The first PUT of an object, which is not final.
    FirstPut,
    /// A further PUT that is not final.
    Put,
    /// PUTs behind the first in single response mode, and none of them final: more follow before the
    /// response.
    Stream,
    /// A final PUT; in single response mode those behind the first, with the final one.
    FinalPut,
    /// ABORT.
    Abort,
    /// DISCONNECT.
    Disconnect,
}

impl Request {
    /// A PUT: the final one, the first, or one between.
    pub(crate) fn of_put(is_first: bool, is_final: bool, single: bool) -> Request
        ensures { result ≡ put_request is_first is_final single }
    {
        if is_final {
            Request::FinalPut
        } else if is_first {
            Request::FirstPut
        } else if single {
            Request::Stream
        } else {
            Request::Put
        }
    }

    /// Where its response stands.
    pub(crate) fn phase(self) -> Phase
        ensures { result ≡ phase_of self }
    {
        match self {
            Request::Connect => Phase::ConnectResponse,
            _ => Phase::Response,
        }
    }

    /// The code of the response that it waits for.
    pub(crate) fn awaited_code(self) -> u8
        ensures { result ≡ awaited_code self }
    {
        match self {
            Request::FirstPut | Request::Put => Code::Continue.octet(),
            _ => Code::Success.octet(),
        }
    }

    /// What the awaited response says.
    pub(crate) fn success(self) -> Answered
        ensures { result ≡ success_of self }
    {
        match self {
            Request::FinalPut => Answered::Done,
            _ => Answered::Go,
        }
    }

    /// Whether the object is in single response mode after a response with these marks.
    pub(crate) fn single_by(self, wanted: bool, single: bool, marks: Marks) -> bool
        ensures { result ≡ single_by self wanted single marks }
    {
        match self {
            Request::FirstPut => wanted && marks.single,
            _ => single,
        }
    }
}

/// Whether nothing may be put before a response comes.
pub(crate) fn is_waiting(awaited: Option<Request>) -> bool
    ensures { result ≡ is_waiting awaited }
{
    match awaited {
        None | Some(Request::Stream) => false,
        Some(_) => true,
    }
}

/// The greatest length of a packet that is sent after a response, which bounds it where it answers
/// CONNECT.
pub(crate) fn limit_by(request: Request, response: &Packet<'_>, limit: u16) -> u16
    requires fields { HasFields (phase_of request) response.now.code response.now.extra.now }
    ensures { result ≡ limit_by request limit response.now.extra.now }
{
    match request {
        Request::Connect => limit.min(BigEndian::read_u16(&response.extra[2..])),
        _ => limit,
    }
}
