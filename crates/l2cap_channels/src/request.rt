//! Own requests that wait for their responses.

ghost use Rattle.std.specs.Prelude.{◌≡◌};
ghost use Rattle.channel_model.specs.Giving.{one_more};

use crate::identifier::Identifier;

/// An own request that waits for its response.
#[derive(Clone, Copy)]
pub(crate) struct Request {
    pub(crate) identifier: Identifier,
    /// How often it was given.
    pub(crate) given: u8,
}

impl Request {
    ghost use Rattle.l2cap_channels.specs.Parts.{request_value};

    /// One that was not given yet.
    pub(crate) fn new(identifier: Identifier) -> Request
        ensures { request_value result ≡ record { identifier = identifier; given = 0 } }
    {
        Request {
            identifier,
            given: 0,
        }
    }

    /// It is given once more.
    pub(crate) fn once_more(&self) -> Request
        ensures { request_value result ≡ one_more (request_value self.now) }
    {
        Request {
            identifier: self.identifier,
            given: self.given.saturating_add(1),
        }
    }
}
