//! The headers of a packet, one by one.

ghost use Rattle.std.specs.Prelude.{◌≡◌, ℕ, List, ◌++◌, IfSome, IfNone, IsSomeAnd};
ghost use Rattle.obex_headers.specs.Packets.{PlainHeader, IsHeader, header_octets, plain_header};

use crate::header::Header;
use crate::packet::Packet;
use crate::reading::header;
use std::marker::Model;

/// The headers that are left of a packet. A clause sees the octets that are left.
#[derive(Debug, Drop)]
pub struct Headers<'a> {
    left: &'a [u8],
}

impl<'a> Model for Headers<'a> {
    ghost Value = { List ℕ };

    ghost view = { λ headers. headers.left.now };
}

impl<'a> Headers<'a> {
    /// The next header, lent from the packet. It is `None` at the end, and where the octets that
    /// are left begin with no header, which a packet from `packet_of` never has; the octets stay
    /// then, so that each later call is `None` too.
    pub fn next(&mut self) -> Option<Header<'a>>
        // What is given stood in front.
        ensures found { IfSome result (λ header. IsHeader (plain_header header) × (self.old ≡ header_octets (plain_header header) ++ self.new)) }
        // A header that stands in front is given.
        ensures only { (header : PlainHeader) (rest : List ℕ) → IsHeader header → self.old ≡ header_octets header ++ rest →
            IsSomeAnd result (λ found. plain_header found ≡ header) × (self.new ≡ rest) }
        ensures none { IfNone result (self.new ≡ self.old) }
    {
        let (found, rest) = header(self.left).ok()?;
        self.left = rest;
        Some(found)
    }
}

/// The headers of a packet, from the first on.
pub fn headers_of<'a>(packet: &Packet<'a>) -> Headers<'a>
    ensures { result ≡ packet.now.headers.now }
{
    Headers {
        left: packet.headers,
    }
}
