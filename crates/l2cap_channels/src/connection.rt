//! Channels that the peer asks for, and those that it grants.

ghost use Rattle.std.specs.Prelude.{◌≡◌, ◌≤◌, ◌<◌, ◌+◌, length, slice_get};
ghost use Rattle.std.specs.List.{list_any};
ghost use Rattle.l2cap_signal.specs.Commands.{connection_request};
ghost use Rattle.channel_model.specs.Answers as table;
ghost use Rattle.channel_model.specs.Changing.{has_peer, has_live_peer, held_at, to_stage};
ghost use Rattle.channel_model.specs.Following as following;
ghost use Rattle.channel_model.specs.Responses as responses;
ghost use Rattle.channel_model.specs.declared.request_kind.RequestKind.TheVariants as kinds;
ghost use Rattle.l2cap_channels.specs.Finding.{on_place};
ghost use Rattle.l2cap_channels.specs.Steps.{asking_stage, connects_fresh};
ghost use Rattle.l2cap_channels.specs.Machine.{policy_of, with_channels};
ghost use Rattle.l2cap_channels.specs.Responses.{response_value};

use crate::channels::{Channels, PLACES};
use crate::identifier::Identifier;
use crate::request::Request;
use crate::response::{Head, Response};
use crate::stage::Stage;
use crate::wish::first_options;
use bt_base::{Cid, Psm};
use channel_model::{CloseReason, Errand, RequestKind};
use l2cap_config::Options;

/// The least endpoint that a channel has (Core 5.1, Volume 3 Part A, 2.1).
const LEAST_ENDPOINT: u16 = 0x0040;

impl Channels {
    ghost use Rattle.l2cap_channels.specs.Parts.{request_value};

    /// Whether an endpoint is the peer's of a channel.
    fn has_peer(&self, endpoint: u16) -> bool
        ensures { result ≡ list_any (has_peer endpoint) self.now.channels.held }
    {
        self.places.iter().any(|place| place.is_peer(endpoint))
    }

    /// Whether an endpoint is the peer's of a channel whose end the peer did not ask for.
    fn has_live_peer(&self, endpoint: u16) -> bool
        ensures { result ≡ list_any (has_live_peer endpoint) self.now.channels.held }
    {
        self.places.iter().any(|place| place.is_live_peer(endpoint))
    }

    /// Why a channel that the peer asks for is refused, and 0 where it is granted.
    fn connection_result(&self, psm: u16, source: u16) -> u16
        ensures { result ≡ table.connection_result (policy_of self.now) psm source self.now.channels }
    {
        if !self.offers(psm) {
            return 2;
        }
        if self.count() >= PLACES || self.next_endpoint() > 0xFFFF {
            return 4;
        }
        if source < LEAST_ENDPOINT {
            return 6;
        }
        if self.has_peer(source) {
            return 7;
        }
        0
    }

    /// What is answered to a peer that asks for a channel: the next own endpoint, where it is granted.
    fn connection_answer(&self, answer: u16, source: u16) -> Response
        requires { (answer ≡ 0) → self.now.channels.next ≤ 0xFFFF }
        ensures { response_value result ≡ table.connection_answer answer source self.now.channels }
    {
        let destination = if answer == 0 {
            self.next_endpoint() as u16
        } else {
            0
        };
        Response::plain(Head::Connection {
            destination,
            source,
            answer,
        })
    }

    /// What follows from the answer to a peer that asks for a channel.
    #[tactic(auto, using(crate::proofs::Granting::granted_psm, crate::proofs::Granting::granted_source, crate::proofs::Granting::granted_room))]
    fn follow_connection(&mut self, answer: u16, psm: u16, source: u16)
        requires { answer ≡ table.connection_result (policy_of self.old) psm source self.old.channels }
        ensures { self.new ≡ with_channels self.old (following.follows_connection answer psm source self.old.channels) }
    {
        if answer != 0 {
            return;
        }
        let Some(psm) = Psm::of(psm) else {
            return;
        };
        let Some(peer) = Cid::of(source) else {
            return;
        };
        let _own = self.add(psm, Stage::Connected(peer));
    }

    /// A channel is asked for.
    #[tactic(auto, using(crate::proofs::Granting::granted_next))]
    pub(crate) fn hear_connection(&mut self, identifier: Identifier, psm: u16, source: u16)
        ensures after { self.new ≡ with_channels self.old (following.hears_question (policy_of self.old) kinds.Connection identifier (connection_request psm source) self.old.channels) }
        ensures few { length self.new.channels.events ≤ length self.old.channels.events + 1 }
    {
        if self.repeats(RequestKind::Connection, identifier) {
            return;
        }
        let answer = self.connection_result(psm, source);
        let response = self.connection_answer(answer, source);
        if self.admits(RequestKind::Connection, identifier, Some(response)) {
            self.follow_connection(answer, psm, source);
        }
    }

    /// The channel at a place is there, and its options are asked for.
    fn set_asking(&mut self, at: usize, peer: Cid, request: Request, options: Options)
        requires { at < length self.old.channels.held }
        ensures { self.new ≡ with_channels self.old (on_place (λ held. to_stage held (asking_stage peer (request_value request) options)) (slice_get self.old.channels.held at) self.old.channels) }
    {
        let place = &mut self.places[at];
        place.connect(peer, request, options);
    }

    /// The peer granted the channel at a place, with this endpoint, and the host asks for its options.
    fn connect_at(&mut self, at: usize, endpoint: u16)
        requires place { at < length self.old.channels.held }
        ensures after { self.new ≡ with_channels self.old (on_place (connects_fresh (policy_of self.old) endpoint) (slice_get self.old.channels.held at) self.old.channels) }
        ensures same { self.new.channels.events ≡ self.old.channels.events }
    {
        if endpoint < LEAST_ENDPOINT || self.has_live_peer(endpoint) {
            return;
        }
        let Some(peer) = Cid::of(endpoint) else {
            return;
        };
        let own = self.endpoint(at);
        let options = first_options(&self.wish(at));
        let request = Request::new(self.identifier);
        self.forget(Errand::Connection { own });
        self.ask(Errand::Configuration { own });
        self.set_asking(at, peer, request, options);
    }

    /// The peer answers the request for the channel at a place: 0 grants it, 1 says that another response
    /// follows, and any other number refuses it.
    fn hear_result(&mut self, at: usize, endpoint: u16, answer: u16)
        requires place { at < length self.old.channels.held }
        requires room { length self.old.channels.events < 168 }
        ensures after { self.new ≡ with_channels self.old (on_place (responses.hears_connected (policy_of self.old) endpoint answer) (slice_get self.old.channels.held at) self.old.channels) }
        ensures few { length self.new.channels.events ≤ length self.old.channels.events + 1 }
    {
        match answer {
            0 => self.connect_at(at, endpoint),
            1 => {}
            _ => self.close(at, CloseReason::Refused(answer)),
        }
    }

    /// A connection response comes.
    pub(crate) fn hear_connected(
        &mut self,
        identifier: Identifier,
        own: u16,
        endpoint: u16,
        answer: u16,
    )
        requires { length self.old.channels.events < 168 }
        ensures after { self.new ≡ with_channels self.old (responses.hears_grant (held_at own self.old.channels) (policy_of self.old) identifier endpoint answer self.old.channels) }
        ensures few { length self.new.channels.events ≤ length self.old.channels.events + 1 }
    {
        let Some(at) = self.place_of(own) else {
            return;
        };
        let stage = self.stage(at);
        let Stage::Requested(request) = stage else {
            return;
        };
        if request.identifier.get() != identifier.get() {
            return;
        }
        self.hear_result(at, endpoint, answer);
    }
}
