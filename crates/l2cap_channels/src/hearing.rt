//! What a host makes of the requests of its peer.

ghost use Rattle.std.specs.Prelude.{◌≡◌, ◌≤◌, ◌<◌, ◌+◌, [], true, false, Some, None, length, slice_get, option_map, if◌then◌else◌};
ghost use Rattle.l2cap_signal.specs.Commands.{echo_request, information_request, disconnection_request, connection_request};
ghost use Rattle.channel_model.specs.Answers as table;
ghost use Rattle.channel_model.specs.Changing.{answers, has_room, held_at};
ghost use Rattle.channel_model.specs.Closing.{ends, peer_closes};
ghost use Rattle.channel_model.specs.Following as following;
ghost use Rattle.channel_model.specs.Responses as responses;
ghost use Rattle.channel_model.specs.Hearing as hearing;
ghost use Rattle.channel_model.specs.declared.request_kind.RequestKind.TheVariants as kinds;
ghost use Rattle.channel_model.specs.declared.event.CloseReason.TheVariants.{OwnClosed};
ghost use Rattle.l2cap_channels.specs.Finding.{on_place};
ghost use Rattle.l2cap_channels.specs.Machine.{policy_of, with_channels};
ghost use Rattle.l2cap_channels.specs.Responses.{response_value};
ghost use Rattle.l2cap_channels.specs.Repeating.{is_peer_at, is_repeated, again, admitted};

use crate::channels::Channels;
use crate::identifier::Identifier;
use crate::memory::Remembered;
use crate::response::{Head, Response};
use crate::stage::Stage;
use bt_base::Serves;
use channel_model::{ChannelEvent, CloseReason, Errand, RequestKind};

/// The features of a host: enhanced retransmission mode, the FCS option and fixed channels (Core 5.1,
/// Volume 3 Part A, 4.12).
const FEATURES: [u8; 4] = [0xA8, 0, 0, 0];

/// The fixed channels of a host: that of signalling (Core 5.1, Volume 3 Part A, 4.13).
const FIXED_CHANNELS: [u8; 8] = [0x02, 0, 0, 0, 0, 0, 0, 0];

/// What is answered to a question for information of a kind.
fn information_answer(kind: u16) -> Response
    ensures { response_value result ≡ table.information_answer kind }
{
    match kind {
        2 => Response::with_octets(Head::Information { kind, answer: 0 }, &FEATURES),
        3 => Response::with_octets(Head::Information { kind, answer: 0 }, &FIXED_CHANNELS),
        _ => Response::plain(Head::Information { kind, answer: 1 }),
    }
}

/// That there is no such channel, with both endpoints as the request named them.
pub(crate) fn no_such_channel(own: u16, peer: u16) -> Response
    ensures { response_value result ≡ table.no_such_channel own peer }
{
    let [own_low, own_high] = own.to_le_bytes();
    let [low, high] = peer.to_le_bytes();
    Response::with_octets(
        Head::Reject { reason: 0x0002 },
        &[own_low, own_high, low, high],
    )
}

impl Channels {
    /// An answer waits to be given.
    fn say(&mut self, identifier: Identifier, response: &Response)
        requires { has_room self.old.channels ≡ true }
        ensures { self.new ≡ with_channels self.old (answers identifier (response_value response.now) self.old.channels) }
    {
        self.queue.say(identifier, response);
    }

    /// Gives the response of the last request of a kind again, where this one has its identifier and there
    /// is room; and whether it has.
    pub(crate) fn repeats(&mut self, kind: RequestKind, identifier: Identifier) -> bool
        ensures repeated { result ≡ is_repeated (table.remembered kind self.old.channels.memory) identifier }
        ensures after { self.new ≡ with_channels self.old (again (table.remembered kind self.old.channels.memory) identifier self.old.channels) }
    {
        let Some(last) = self.memory.last(kind) else {
            return false;
        };
        let last = *last;
        if last.identifier.get() != identifier.get() {
            return false;
        }
        if let Some(response) = &last.response {
            if self.queue.has_room() {
                self.say(identifier, response);
            }
        }
        true
    }

    /// A request is the last of its kind, and its response waits, where there is room for it; and whether
    /// there is.
    pub(crate) fn admits(
        &mut self,
        kind: RequestKind,
        identifier: Identifier,
        response: Option<Response>,
    ) -> bool
        ensures room { result ≡ following.can_say (option_map response_value response) self.old.channels }
        ensures after { self.new ≡ with_channels self.old (admitted (following.can_say (option_map response_value response) self.old.channels) kind identifier (option_map response_value response) self.old.channels) }
    {
        if response.is_some() && !self.queue.has_room() {
            return false;
        }
        self.memory.note(
            kind,
            &Remembered {
                identifier,
                response,
            },
        );
        if let Some(response) = &response {
            self.say(identifier, response);
        }
        true
    }

    /// An echo is asked for, with at most 668 octets.
    pub(crate) fn hear_echo(&mut self, identifier: Identifier, octets: &[u8])
        requires { length octets.now ≤ 668 }
        ensures after { self.new ≡ with_channels self.old (following.hears_question (policy_of self.old) kinds.Echo identifier (echo_request octets.now) self.old.channels) }
        ensures few { length self.new.channels.events ≤ length self.old.channels.events + 1 }
    {
        if self.repeats(RequestKind::Echo, identifier) {
            return;
        }
        let response = Response::with_octets(Head::Echo, octets);
        let _admitted = self.admits(RequestKind::Echo, identifier, Some(response));
    }

    /// Information is asked for.
    pub(crate) fn hear_question(&mut self, identifier: Identifier, kind: u16)
        ensures after { self.new ≡ with_channels self.old (following.hears_question (policy_of self.old) kinds.Information identifier (information_request kind) self.old.channels) }
        ensures few { length self.new.channels.events ≤ length self.old.channels.events + 1 }
    {
        if self.repeats(RequestKind::Information, identifier) {
            return;
        }
        let response = information_answer(kind);
        let _admitted = self.admits(RequestKind::Information, identifier, Some(response));
    }

    /// An information response or a reject comes: it answers the question for the features that has its
    /// identifier.
    pub(crate) fn hear_features(&mut self, identifier: Identifier, features: Option<u32>)
        requires { length self.old.channels.events < 168 }
        ensures after { self.new ≡ with_channels self.old (responses.hears_features identifier features self.old.channels) }
        ensures few { length self.new.channels.events ≤ length self.old.channels.events + 1 }
    {
        let Some(request) = self.features else {
            return;
        };
        if request.identifier.get() != identifier.get() {
            return;
        }
        self.features = None;
        self.forget(Errand::Features);
        self.tell(ChannelEvent::Features(features));
    }

    /// The response to the host's request for the end of a channel comes.
    pub(crate) fn hear_end(&mut self, own: u16, peer: u16)
        requires { length self.old.channels.events < 168 }
        ensures after { self.new ≡ with_channels self.old (responses.hears_end (held_at own self.old.channels) peer self.old.channels) }
        ensures few { length self.new.channels.events ≤ length self.old.channels.events + 1 }
    {
        let Some(at) = self.place_of(own) else {
            return;
        };
        if self.is_peer(at, peer) {
            self.end(at);
        }
    }

    /// Whether an endpoint is the peer's of the channel at a place.
    fn is_peer(&self, at: usize, endpoint: u16) -> bool
        requires { at < length self.now.channels.held }
        ensures { result ≡ is_peer_at endpoint (slice_get self.now.channels.held at) }
    {
        self.places[at].is_peer(endpoint)
    }

    /// The host's request for the end of the channel at a place is done with. A channel that was not closed
    /// before is so now.
    fn end(&mut self, at: usize)
        requires place { at < length self.old.channels.held }
        requires room { length self.old.channels.events < 168 }
        ensures after { self.new ≡ with_channels self.old (on_place (ends OwnClosed) (slice_get self.old.channels.held at) self.old.channels) }
        ensures few { length self.new.channels.events ≤ length self.old.channels.events + 1 }
    {
        let event = self.closed(at, CloseReason::OwnClosed);
        match self.stage(at) {
            Stage::Leaving(_, _) => {
                self.remove(at);
                self.tell(event);
            }
            Stage::Closing(_, _, _) | Stage::Crossed(_, _) => self.remove(at),
            Stage::Requested(_) | Stage::Connected(_) => {}
        }
    }

    /// What is answered to a request for the end of the channel of an own endpoint.
    fn disconnection_answer(&self, own: u16, peer: u16) -> Option<Response>
        ensures { option_map response_value result ≡ table.disconnection_answer (held_at own self.now.channels) own peer }
    {
        let Some(at) = self.place_of(own) else {
            return Some(no_such_channel(own, peer));
        };
        if let Stage::Requested(_) = self.stage(at) {
            return Some(no_such_channel(own, peer));
        }
        if !self.is_peer(at, peer) {
            return None;
        }
        Some(Response::plain(Head::Disconnection {
            destination: own,
            source: peer,
        }))
    }

    /// The peer asked for the end of the channel at a place, and is answered. An own request for it that
    /// waits goes on waiting.
    fn peer_closes(&mut self, at: usize)
        requires place { at < length self.old.channels.held }
        requires room { length self.old.channels.events < 168 }
        ensures after { self.new ≡ with_channels self.old (on_place peer_closes (slice_get self.old.channels.held at) self.old.channels) }
        ensures few { length self.new.channels.events ≤ length self.old.channels.events + 1 }
    {
        let event = self.closed(at, CloseReason::PeerClosed);
        let own = self.endpoint(at);
        match self.stage(at) {
            Stage::Connected(_) => {
                self.remove(at);
                self.tell(event);
            }
            Stage::Leaving(peer, request) => {
                self.forget(Errand::Configuration { own });
                self.hide(at, Stage::Crossed(peer, request));
                self.tell(event);
            }
            Stage::Closing(peer, request, _) => self.hide(at, Stage::Crossed(peer, request)),
            Stage::Requested(_) | Stage::Crossed(_, _) => {}
        }
    }

    /// What follows from an answered request for the end of the channel of an own endpoint.
    fn follow_disconnection(&mut self, own: u16, peer: u16)
        requires { length self.old.channels.events < 168 }
        ensures after { self.new ≡ with_channels self.old (following.follows_disconnection (held_at own self.old.channels) peer self.old.channels) }
        ensures few { length self.new.channels.events ≤ length self.old.channels.events + 1 }
    {
        let Some(at) = self.place_of(own) else {
            return;
        };
        if self.is_peer(at, peer) {
            self.peer_closes(at);
        }
    }

    /// The end of the channel of an own endpoint is asked for.
    pub(crate) fn hear_disconnection(&mut self, identifier: Identifier, own: u16, peer: u16)
        requires { length self.old.channels.events < 168 }
        ensures after { self.new ≡ with_channels self.old (following.hears_question (policy_of self.old) kinds.Disconnection identifier (disconnection_request own peer) self.old.channels) }
        ensures few { length self.new.channels.events ≤ length self.old.channels.events + 1 }
    {
        if self.repeats(RequestKind::Disconnection, identifier) {
            return;
        }
        let response = self.disconnection_answer(own, peer);
        if self.admits(RequestKind::Disconnection, identifier, response) {
            self.follow_disconnection(own, peer);
        }
    }

    /// Whether a PSM is offered to the peer.
    pub(crate) fn offers(&self, psm: u16) -> bool
        ensures { result ≡ (policy_of self.now).offers psm }
    {
        self.server
            && match psm {
                0x0001 => true,
                0x0003 => matches!(self.settings.serves, Serves::Both | Serves::Rfcomm),
                0x1001 => matches!(self.settings.serves, Serves::Both | Serves::L2cap),
                _ => false,
            }
    }

    /// A malformed request of a kind is answered, since it was not understood.
    pub(crate) fn hear_malformed(&mut self, kind: RequestKind, identifier: Identifier)
        ensures after { self.new ≡ with_channels self.old (hearing.hears_malformed (Some kind) identifier self.old.channels) }
        ensures few { length self.new.channels.events ≤ length self.old.channels.events + 1 }
    {
        if self.repeats(kind, identifier) {
            return;
        }
        let response = Response::plain(Head::Reject { reason: 0x0000 });
        let _admitted = self.admits(kind, identifier, Some(response));
    }

    /// A command with an unknown code is answered, since it was not understood.
    pub(crate) fn hear_unknown(&mut self, identifier: Identifier)
        ensures after { self.new ≡ with_channels self.old (following.hears_again identifier (Some table.not_understood) self.old.channels) }
        ensures few { length self.new.channels.events ≤ length self.old.channels.events + 1 }
    {
        if self.queue.has_room() {
            self.say(
                identifier,
                &Response::plain(Head::Reject { reason: 0x0000 }),
            );
        }
    }

    /// A payload that is too long is answered with the longest that is read.
    pub(crate) fn hear_too_long(&mut self, identifier: Identifier)
        ensures after { self.new ≡ with_channels self.old (following.hears_again identifier (Some table.too_long) self.old.channels) }
        ensures few { length self.new.channels.events ≤ length self.old.channels.events + 1 }
    {
        if self.queue.has_room() {
            let [low, high] = 672u16.to_le_bytes();
            self.say(
                identifier,
                &Response::with_octets(Head::Reject { reason: 0x0001 }, &[low, high]),
            );
        }
    }
}
