//! What the headers of a packet mark, whatever their order.

ghost use Rattle.std.specs.Prelude.{◌≡◌, ◌==◌, ◌||◌, List, Ok};
ghost use Rattle.std.specs.List.{AllByRecursion};
ghost use Rattle.obex_headers.specs.Packets.{PlainHeader, PlainPacket, IsHeader, headers_octets, plain_header, Shows};
ghost use Rattle.obex_session.specs.Marks.{is_name, is_body, is_single, is_parameters, marks_of, kind_of};

use obex_headers::identifiers::{
    BODY, ENABLED, END_OF_BODY, NAME, SINGLE_RESPONSE, SINGLE_RESPONSE_PARAMETERS,
};
use obex_headers::{Code, Header, HeaderValue, Packet, headers_of, is_put};

/// Which headers a packet has.
#[derive(Clone, Copy, Debug)]
pub(crate) struct Marks {
    /// A Name.
    pub(crate) name: bool,
    /// A Body, or an End of Body.
    pub(crate) body: bool,
    /// The header that enables single response mode.
    pub(crate) single: bool,
    /// Parameters of single response mode.
    pub(crate) parameters: bool,
}

/// What a packet is to a server.
#[derive(Clone, Copy, Debug)]
pub(crate) enum Kind {
    /// The octets are no packet.
    Refused,
    /// A PUT; whether it is final, and which headers it has.
    Put(bool, Marks),
    /// A packet with another code.
    Other(u8),
}

fn is_name(header: &Header<'_>) -> bool
    ensures { result ≡ is_name (plain_header header.now) }
{
    matches!(header.value, HeaderValue::Text(_)) && header.id == NAME
}

fn is_body(header: &Header<'_>) -> bool
    ensures { result ≡ is_body (plain_header header.now) }
{
    matches!(header.value, HeaderValue::Octets(_))
        && (header.id == BODY || header.id == END_OF_BODY)
}

fn is_single(header: &Header<'_>) -> bool
    ensures { result ≡ is_single (plain_header header.now) }
{
    match header.value {
        HeaderValue::One(value) => header.id == SINGLE_RESPONSE && value == ENABLED,
        _ => false,
    }
}

impl Marks {
    /// The marks with those of one header more.
    fn with(self, header: &Header<'_>) -> Marks
        ensures { result ≡ record {
          name = self.name || is_name (plain_header header.now);
          body = self.body || is_body (plain_header header.now);
          single = self.single || is_single (plain_header header.now);
          parameters = self.parameters || is_parameters (plain_header header.now);
        } }
    {
        Marks {
            name: self.name || is_name(header),
            body: self.body || is_body(header),
            single: self.single || is_single(header),
            parameters: self.parameters || header.id == SINGLE_RESPONSE_PARAMETERS,
        }
    }
}

/// What the headers of a packet mark.
pub(crate) fn marks_of(packet: &Packet<'_>) -> Marks
    ensures { (headers : List PlainHeader) → AllByRecursion IsHeader headers → packet.now.headers.now ≡ headers_octets headers → result ≡ marks_of headers }
{
    let mut marks = Marks {
        name: false,
        body: false,
        single: false,
        parameters: false,
    };
    let mut left = headers_of(packet);
    while let Some(header) = left.next() {
        marks = marks.with(&header);
    }
    marks
}

/// What a packet is to a server.
pub(crate) fn kind_of(packet: &Packet<'_>) -> Kind
    ensures { (plain : PlainPacket) → AllByRecursion IsHeader plain.headers → Shows packet.now plain → result ≡ kind_of (Ok plain) }
{
    if is_put(packet.code) {
        Kind::Put(packet.code == Code::FinalPut.octet(), marks_of(packet))
    } else {
        Kind::Other(packet.code)
    }
}
