//! A channel and what it carries.

ghost use Rattle.std.specs.Prelude.{◌≡◌};
ghost use Rattle.seen_channels.specs.Tellings.{channel_of, is_same, protocol_of};

use crate::direction::Direction;

/// A connection request: the protocol that it asks for, and the asker's own number of the channel
/// (Core 5.1, Volume 3 Part A, 4.2).
#[derive(Clone, Copy, Debug, PartialEq, Eq)]
pub struct Request {
    pub psm: u16,
    pub source: u16,
}

/// A channel that a request and its response made.
#[derive(Clone, Copy, Debug, PartialEq, Eq)]
pub struct Channel {
    /// The identifier of the request and the response.
    pub identifier: u8,
    pub psm: u16,
    /// The number that PDUs from the host carry.
    pub far: u16,
    /// The number that PDUs to the host carry.
    pub near: u16,
    /// Whether the latest mode that was asked for is enhanced retransmission.
    pub enhanced: bool,
}

/// How the PDUs of a channel are read.
#[derive(Clone, Copy, Debug, PartialEq, Eq)]
pub enum Protocol {
    /// Service discovery, on PSM 0001.
    Sdp,
    /// RFCOMM, on PSM 0003.
    Rfcomm,
    /// The frames of enhanced retransmission mode, on any other PSM.
    Enhanced,
    /// Octets of which nothing is known.
    Data,
}

impl Channel {
    /// The channel of a request and its response, which goes that way and names the answerer's own
    /// number of it.
    pub(crate) fn made(
        answered: Direction,
        identifier: u8,
        request: Request,
        destination: u16,
    ) -> Channel
        ensures { result ≡ channel_of answered identifier request destination }
    {
        let (far, near) = match answered {
            Direction::Out => (request.source, destination),
            Direction::In => (destination, request.source),
        };
        Channel {
            identifier,
            psm: request.psm,
            far,
            near,
            enhanced: false,
        }
    }

    /// Whether both are one channel, whatever their modes.
    pub(crate) fn is_same(&self, other: &Channel) -> bool
        ensures { result ≡ is_same self.now other.now }
    {
        self.identifier == other.identifier
            && self.psm == other.psm
            && self.far == other.far
            && self.near == other.near
    }

    /// How its PDUs are read.
    pub(crate) fn protocol(&self) -> Protocol
        ensures { result ≡ protocol_of self.now }
    {
        match self.psm {
            0x0001 => Protocol::Sdp,
            0x0003 => Protocol::Rfcomm,
            _ if self.enhanced => Protocol::Enhanced,
            _ => Protocol::Data,
        }
    }
}
