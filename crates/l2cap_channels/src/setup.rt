//! How far two sides are with the options of a channel.

use crate::request::Request;
use l2cap_config::Options;

/// The host's own request for options.
#[derive(Drop)]
pub(crate) enum Own {
    /// It was not made yet.
    Unasked,
    /// It waits for its response, with the options that it asks for.
    Asking(Request, Options),
    /// It was accepted.
    Granted,
}

/// How far the two sides are with the options of a channel.
#[derive(Drop)]
pub(crate) struct Setup {
    /// The options of the parts so far of a request that comes in parts.
    pub(crate) parts: Options,
    pub(crate) own: Own,
    /// How many requests of the peer were answered as unacceptable.
    pub(crate) refused: u8,
    /// How many own requests were so answered by the peer.
    pub(crate) renewed: u8,
}

impl Own {
    ghost use Rattle.std.specs.Prelude.{◌≡◌};
    ghost use Rattle.channel_model.specs.Changing.{is_granted, is_stated};
    ghost use Rattle.channel_model.specs.Giving.{own_given};
    ghost use Rattle.l2cap_channels.specs.Places.{own_value};

    /// Whether it was accepted.
    pub(crate) fn is_granted(&self) -> bool
        ensures { result ≡ is_granted (own_value self.now) }
    {
        matches!(self, Own::Granted)
    }

    /// Whether it was made.
    pub(crate) fn is_stated(&self) -> bool
        ensures { result ≡ is_stated (own_value self.now) }
    {
        !matches!(self, Own::Unasked)
    }

    /// It was given once more.
    pub(crate) fn count(&mut self)
        ensures { own_value self.new ≡ own_given (own_value self.old) }
    {
        match self {
            Own::Asking(request, _) => *request = request.once_more(),
            Own::Unasked => {}
            Own::Granted => {}
        }
    }
}

impl Setup {
    ghost use Rattle.std.specs.Prelude.{◌≡◌, None};
    ghost use Rattle.channel_model.specs.Value.{no_setup};
    ghost use Rattle.l2cap_channels.specs.Places.{setup_value};

    /// Nothing was asked for on either side.
    pub(crate) fn new() -> Setup
        ensures new { setup_value result None ≡ no_setup }
        ensures refused { result.refused ≡ 0 }
        ensures renewed { result.renewed ≡ 0 }
    {
        Setup {
            parts: Options::none(),
            own: Own::Unasked,
            refused: 0,
            renewed: 0,
        }
    }
}
