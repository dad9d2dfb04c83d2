//! What is done to the options of a channel.

ghost use Rattle.std.specs.Prelude.{◌≡◌, ◌≤◌, ◌<◌, false};
ghost use Rattle.channel_model.specs.Changing.{setup_of};
ghost use Rattle.channel_model.specs.Configuring.{granted_setup, refused_setup};
ghost use Rattle.l2cap_channels.specs.Lines.{IsFor};
ghost use Rattle.l2cap_channels.specs.Parts.{request_value};
ghost use Rattle.l2cap_channels.specs.Steps.{asking_stage, with_change, noted, accepted, asked_anew, refused_on, is_past_asking, carries_on, acceptance_on, verdict_value, IsJudgedBy};
ghost use Rattle.channel_model.specs.Configuring.{judged_stage};

use crate::place::Place;
use crate::request::Request;
use crate::setup::{Own, Setup};
use crate::stage::Stage;
use crate::verdict::{Verdict, judged};
use bt_base::Cid;
use l2cap_config::{Agreed, Options, Wish};

/// How often requests for options may be answered as unacceptable; once more closes the channel (this
/// project's own).
pub(crate) const MOST_REFUSALS: u8 = 2;

/// What the host does once it accepted the peer's options.
#[derive(Clone, Copy)]
pub(crate) enum Acceptance {
    /// It asks for its own for the first time.
    Asks,
    /// Its own request waits for its response.
    Waits,
    /// Its own were accepted already, so the channel is open.
    Opens,
}

impl Place {
    /// The peer granted it, with this endpoint, and its options are asked for.
    pub(crate) fn connect(&mut self, peer: Cid, request: Request, options: Options)
        ensures { self.new ≡ record self.old { stage = asking_stage peer (request_value request) options } }
    {
        self.stage = Stage::Connected(peer);
        self.setup = Setup::new();
        self.setup.own = Own::Asking(request, options);
        self.line.clear();
    }

    /// These are the options of the parts so far of a request of the peer.
    pub(crate) fn note(&mut self, options: Options)
        ensures { self.new ≡ record self.old { stage = with_change (noted options) self.old.stage } }
    {
        self.setup.parts = options;
    }

    /// How many requests of the peer were answered as unacceptable.
    pub(crate) fn refused(&self) -> u8
        ensures { result ≡ refused_on (setup_of self.now.stage) }
    {
        if self.is_there() {
            self.setup.refused
        } else {
            0
        }
    }

    /// A request of the peer is answered as unacceptable.
    pub(crate) fn refuse(&mut self)
        requires { refused_on (setup_of self.old.stage) < 2 }
        ensures { self.new ≡ record self.old { stage = with_change refused_setup self.old.stage } }
    {
        if self.is_there() {
            self.setup.parts = Options::none();
            self.setup.refused += 1;
        }
    }

    /// Whether it asks for no other options: the host asked for its end, or the peer answered own requests
    /// as unacceptable as often as may be.
    pub(crate) fn asks_no_more(&self) -> bool
        ensures { result ≡ is_past_asking self.now.stage }
    {
        match self.stage {
            Stage::Connected(_) => self.setup.renewed >= MOST_REFUSALS,
            Stage::Leaving(_, _) => true,
            Stage::Requested(_) | Stage::Closing(_, _, _) | Stage::Crossed(_, _) => false,
        }
    }

    /// These options are asked for, in place of those that the peer answered as unacceptable.
    pub(crate) fn renew(&mut self, request: Request, options: Options)
        requires { is_past_asking self.old.stage ≡ false }
        ensures { self.new ≡ record self.old { stage = with_change (asked_anew (request_value request) options) self.old.stage } }
    {
        if self.is_there() {
            self.setup.own = Own::Asking(request, options);
            self.setup.renewed += 1;
        }
    }

    /// A request of the peer is accepted, and these options are asked for, where none were before; the
    /// answer is what follows.
    pub(crate) fn accept(
        &mut self,
        agreed: &Agreed,
        request: Request,
        options: Options,
    ) -> Acceptance
        requires mode { IsFor agreed.now.mode agreed.now }
        requires mtu { agreed.now.receive_mtu ≤ 32767 }
        ensures follows { result ≡ acceptance_on (setup_of self.old.stage) }
        ensures after { self.new ≡ record self.old { stage = with_change (accepted agreed.now (request_value request) options) self.old.stage } }
    {
        if !self.is_there() {
            return Acceptance::Waits;
        }
        self.setup.parts = Options::none();
        self.line.agree(agreed);
        match self.setup.own {
            Own::Unasked => {
                self.setup.own = Own::Asking(request, options);
                Acceptance::Asks
            }
            Own::Asking(_, _) => Acceptance::Waits,
            Own::Granted => Acceptance::Opens,
        }
    }

    /// The own request for options is accepted; whether the channel is open now.
    pub(crate) fn grant(&mut self) -> bool
        ensures opens { result ≡ carries_on (setup_of self.old.stage) }
        ensures after { self.new ≡ record self.old { stage = with_change granted_setup self.old.stage } }
    {
        self.setup.own = Own::Granted;
        self.is_there() && self.line.carries()
    }

    /// How a request for its options is judged.
    pub(crate) fn judge(&self, wish: &Wish, flags: u16, octets: &[u8]) -> Verdict
        ensures verdict { verdict_value result ≡ judged_stage self.now.stage wish.now flags octets.now }
        ensures judged { IsJudgedBy wish.now (verdict_value result) }
    {
        let stage = self.stage;
        let peer = match stage {
            Stage::Requested(_) => return Verdict::NoChannel,
            Stage::Closing(peer, _, _) => return Verdict::TooLate(peer.get()),
            Stage::Crossed(peer, _) => return Verdict::TooLate(peer.get()),
            Stage::Connected(peer) => peer.get(),
            Stage::Leaving(peer, _) => peer.get(),
        };
        judged(peer, flags, wish, &self.setup, &self.line, octets)
    }
}
