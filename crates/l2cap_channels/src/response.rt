//! What a host answers to its peer.

ghost use Rattle.std.specs.Prelude.{◌≡◌, ◌≤◌, [], length};
ghost use Rattle.l2cap_signal.specs.Commands.{content, rest_of};
ghost use Rattle.l2cap_channels.specs.Heads.{said};

use l2cap_signal::SignalKind;

/// The longest variable part of a response, in octets: that of the answer to an echo of which the whole
/// command has 672 octets.
pub(crate) const LONGEST: usize = 668;

/// The numbers of a response.
#[derive(Clone, Copy)]
pub(crate) enum Head {
    Reject {
        reason: u16,
    },
    Connection {
        destination: u16,
        source: u16,
        answer: u16,
    },
    Configuration {
        source: u16,
        flags: u16,
        answer: u16,
    },
    Disconnection {
        destination: u16,
        source: u16,
    },
    Echo,
    Information {
        kind: u16,
        answer: u16,
    },
}

/// A response that waits or is remembered: its numbers, and so many of these octets behind them.
#[derive(Clone, Copy)]
pub(crate) struct Response {
    pub(crate) head: Head,
    pub(crate) size: usize,
    pub(crate) octets: [u8; LONGEST],
    ghost within: { size ≤ 668 },
}

impl Response {
    ghost use Rattle.l2cap_channels.specs.Responses.{response_value};

    /// A response of numbers alone.
    pub(crate) fn plain(head: Head) -> Response
        ensures { response_value result ≡ said head [] }
    {
        Response {
            head,
            size: 0,
            octets: [0; LONGEST],
        }
    }

    /// A response with octets behind its numbers.
    pub(crate) fn with_octets(head: Head, rest: &[u8]) -> Response
        requires { length rest.now ≤ 668 }
        ensures { response_value result ≡ said head rest.now }
    {
        let mut octets = [0; LONGEST];
        octets[..rest.len()].copy_from_slice(rest);
        Response {
            head,
            size: rest.len(),
            octets,
        }
    }

    /// What it says.
    pub(crate) fn kind(&self) -> SignalKind<'_>
        ensures says { content result ≡ response_value self.now }
        ensures short { length (rest_of (content result)) ≤ 668 }
    {
        let rest = &self.octets[..self.size];
        match self.head {
            Head::Reject { reason } => SignalKind::Reject { reason, rest },
            Head::Connection {
                destination,
                source,
                answer,
            } => SignalKind::ConnectionResponse {
                destination,
                source,
                result: answer,
                status: 0,
            },
            Head::Configuration {
                source,
                flags,
                answer,
            } => SignalKind::ConfigurationResponse {
                source,
                flags,
                result: answer,
                options: rest,
            },
            Head::Disconnection {
                destination,
                source,
            } => SignalKind::DisconnectionResponse {
                destination,
                source,
            },
            Head::Echo => SignalKind::EchoResponse { octets: rest },
            Head::Information { kind, answer } => SignalKind::InformationResponse {
                kind,
                result: answer,
                rest,
            },
        }
    }
}
