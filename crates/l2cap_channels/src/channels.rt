//! The channels of a link.

ghost use Rattle.std.specs.Prelude.{◌≡◌, ◌≤◌, ◌<◌, [], length, vec_capacity, slice_get, drop, ◌+◌, ◌==◌, true, Some, option_map, IfOk, IfSome, IfNone};
ghost use Rattle.channel_model.specs.Calls as calls;
ghost use Rattle.std.specs.List.{find, list_any};
ghost use Rattle.std.specs.Option.{option_to_list};
ghost use Rattle.l2cap_channels.specs.Sending.{send_answer, Sends};
ghost use Rattle.channel_model.specs.declared.event.ChannelEvent.TheVariants.{Closed};
ghost use Rattle.channel_model.specs.Asking.{asks};
ghost use Rattle.channel_model.specs.Closing.{closes};
ghost use Rattle.channel_model.specs.Giving.{Signal, gives, held_gives, held_given, features_command, one_more, command_of, counted};
ghost use Rattle.l2cap_channels.specs.Given.{WritesNext, Gives, place_gives, place_command, spent, stage_counted};
ghost use Rattle.channel_model.specs.Changing.{held_at, forgets, gone, tells, to_stage};
ghost use Rattle.channel_model.specs.Value.{no_setup};
ghost use Rattle.l2cap_channels.specs.Finding.{place_at, place_mtu, place_waits, place_lost, loses, added, on_place, IsStageAt};
ghost use Rattle.l2cap_channels.specs.Sound.{owns, is_known};
ghost use Rattle.l2cap_channels.specs.Machine.{new_machine, policy_of, with_channels};

use crate::answers::SendAnswer;
use crate::identifier::Identifier;
use crate::line::Line;
use crate::lines::{four_lines, release};
use crate::memory::Memory;
use crate::place::Place;
use crate::queue::{Queue, Queued};
use crate::request::Request;
use crate::stage::Stage;
use crate::writing::put_command;
use bt_base::{Cid, NoMemory, Psm, Settings};
use channel_model::{ChannelEvent, CloseReason, Errand};
use circular_buffer::HeapCircularBuffer;
use l2cap_signal::SignalKind;
use std::alloc::Global;
use std::marker::Model;

/// How many channels a link has at most (this project's own).
pub(crate) const PLACES: usize = 4;

/// The own endpoint of the first channel of a link (Core 5.1, Volume 3 Part A, 2.1).
const FIRST_ENDPOINT: u32 = 0x0040;

/// The kind of the information that is asked for: the features (Core 5.1, Volume 3 Part A, 4.10).
const FEATURES: u16 = 2;

/// How many events arise in one call at most: one for each command of a payload of 672 octets.
const EVENTS: usize = 168;

/// The channels of a link, as one of its hosts keeps them (Core 5.1, Volume 3 Part A). A clause sees the
/// settings of the host, whether it is a server, and its channels as `channel_model` has them.
#[derive(Drop)]
pub struct Channels {
    pub(crate) settings: Settings,
    pub(crate) server: bool,
    pub(crate) places: Vec<Place>,
    free: Vec<Line>,
    next: u32,
    pub(crate) identifier: Identifier,
    pub(crate) queue: Queue,
    pub(crate) features: Option<Request>,
    pub(crate) memory: Memory,
    pub(crate) events: HeapCircularBuffer<ChannelEvent>,
}

impl Model for Channels {
    ghost use Rattle.l2cap_channels.specs.Machine.{Machine};

    ghost Value = { Machine };

    ghost use Rattle.l2cap_channels.specs.Whole.{machine_of, IsSound};

    ghost view = { machine_of };

    ghost invariant = { IsSound };
}

impl Channels {
    ghost use Rattle.l2cap_channels.specs.Places.{stage_value, hides_setup, left, sent};
    ghost use Rattle.l2cap_channels.specs.Queues.{queued_value};
    ghost use Rattle.l2cap_channels.specs.Parts.{request_value};

    /// The channels of a host, with no link. It reserves all memory that is ever needed; `NoMemory` is
    /// answered for want of memory alone.
    pub fn new(alloc: Global, settings: &Settings, server: bool) -> Result<Channels, NoMemory>
        ensures { IfOk result (λ channels. channels ≡ new_machine settings.now server) }
    {
        let free = four_lines(alloc)?;
        let places = Vec::with_capacity(alloc, PLACES)?;
        let queue = Queue::new(alloc)?;
        let events = HeapCircularBuffer::with_capacity(alloc, EVENTS)?;
        Ok(Channels {
            settings: *settings,
            server,
            places,
            free,
            next: FIRST_ENDPOINT,
            identifier: Identifier::first(),
            queue,
            features: None,
            memory: Memory::new(),
            events,
        })
    }

    /// An event arose.
    pub(crate) fn tell(&mut self, event: ChannelEvent)
        requires { length self.old.channels.events < 168 }
        ensures { self.new ≡ with_channels self.old (tells event self.old.channels) }
    {
        let _none_leaves = self.events.push_back(event);
    }

    /// The next event, in the order in which they arose; None exactly where none waits.
    pub fn next_event(&mut self) -> Option<ChannelEvent>
        ensures answer { result ≡ calls.next_event self.old.channels }
        ensures after { self.new ≡ with_channels self.old (calls.after_event self.old.channels) }
    {
        self.events.pop_front()
    }

    /// Whether an own request waits for its response, or a machine for an acknowledgement or the answer
    /// to a poll.
    pub fn armed(&self) -> bool
        ensures { result ≡ calls.armed self.now.channels }
    {
        self.features.is_some() || self.places.iter().any(|place| place.armed())
    }

    /// The place of the channel of an own endpoint.
    pub(crate) fn place_of(&self, own: u16) -> Option<usize>
        ensures place { place_at result self.now.channels ≡ held_at own self.now.channels }
        ensures within { IfSome result (λ at. at < length self.now.channels.held) }
    {
        for (at, place) in self.places.iter().enumerate() {
            if place.own().get() == own {
                return Some(at);
            }
        }
        None
    }

    /// The longest SDU that the peer takes on a channel, in octets, at most 32,767; None exactly where
    /// the channel is not open.
    pub fn peer_mtu(&self, cid: Cid) -> Option<u16>
        ensures { result ≡ calls.peer_mtu cid self.now.channels }
    {
        let at = self.place_of(cid.get())?;
        self.places[at].peer_mtu()
    }

    /// Whether an SDU that was taken on a channel still waits, so that `send` would answer `Busy`.
    pub fn waits(&self, cid: Cid) -> bool
        ensures { result ≡ calls.waits cid self.now.channels }
    {
        let Some(at) = self.place_of(cid.get()) else {
            return false;
        };
        self.places[at].waits()
    }

    /// Whether what comes in for the channel at a place has a check word.
    fn has_fcs_at(&self, at: usize) -> bool
        requires { at < length self.now.channels.held }
        ensures { result ≡ calls.has_fcs_on (slice_get self.now.channels.held at) }
    {
        self.places[at].has_fcs()
    }

    /// Whether what comes in for an own endpoint has a check word: its channel wishes retransmission,
    /// and the peer's options were accepted. So it is until the channel has ended for the host: the
    /// answer to its request for the end came, or it answered the peer's.
    pub fn has_fcs(&self, cid: u16) -> bool
        ensures { result ≡ calls.has_fcs cid self.now.channels }
    {
        let Some(at) = self.place_of(cid) else {
            return false;
        };
        self.has_fcs_at(at)
    }

    /// The most frames that are not acknowledged on a channel.
    pub fn window_used(&self) -> u8
        ensures { result ≡ calls.window_used self.now.channels }
    {
        let mut most = 0;
        for place in &self.places {
            most = most.max(place.window_used());
        }
        most
    }

    /// Whether a channel may be added: at most four count, and each endpoint is given one time on a link.
    fn can_connect(&self) -> bool
        ensures { result ≡ calls.can_connect self.now.channels }
    {
        self.places.len() < PLACES && self.next <= 0xFFFF
    }

    /// The own endpoint that is given next, where there is one.
    pub(crate) fn next_endpoint(&self) -> u32
        ensures { result ≡ self.now.channels.next }
    {
        self.next
    }

    /// A channel is there, where one may be added: the answer is its own endpoint, which is never given
    /// again on the link.
    pub(crate) fn add(&mut self, psm: Psm, stage: Stage) -> Option<Cid>
        ensures answer { result ≡ calls.connect_answer self.old.channels }
        ensures after { self.new ≡ with_channels self.old (added (calls.can_connect self.old.channels) psm (stage_value stage no_setup) self.old.channels) }
    {
        if !self.can_connect() {
            return None;
        }
        let own = Cid::of(self.next as u16)?;
        let line = self.free.remove(self.free.len() - 1);
        let _room_was_reserved = self.places.push(Place::new(psm, own, stage, line));
        self.next += 1;
        Some(own)
    }

    /// A new own request waits to be given, in place of any before it.
    pub(crate) fn ask(&mut self, errand: Errand)
        requires { is_known (owns self.old.channels.held) errand ≡ true }
        ensures { self.new ≡ with_channels self.old (asks errand self.old.channels) }
    {
        self.queue.forget(errand);
        self.queue.ask(errand);
        self.identifier = self.identifier.next();
    }

    /// Asks for a channel, and answers its own endpoint; None exactly where four channels are there or
    /// the endpoint 0xFFFF was given on this link.
    pub fn connect(&mut self, psm: Psm) -> Option<Cid>
        ensures answer { result ≡ calls.connect_answer self.old.channels }
        ensures after { self.new ≡ with_channels self.old (calls.connected psm self.old.channels) }
    {
        let request = Request::new(self.identifier);
        let own = self.add(psm, Stage::Requested(request))?;
        self.ask(Errand::Connection { own: own.get() });
        Some(own)
    }

    /// Asks for the peer's features, unless an earlier question waits.
    pub fn ask_features(&mut self)
        ensures { self.new ≡ with_channels self.old (calls.asks_features self.old.channels) }
    {
        if self.features.is_some() {
            return;
        }
        self.features = Some(Request::new(self.identifier));
        self.ask(Errand::Features);
    }

    /// A copy that waits of an own request is not given.
    pub(crate) fn forget(&mut self, errand: Errand)
        ensures { self.new ≡ with_channels self.old (forgets errand self.old.channels) }
    {
        self.queue.forget(errand);
    }

    /// The channel at a place counts no more, and nothing is asked of it.
    pub(crate) fn remove(&mut self, at: usize)
        requires { at < length self.old.channels.held }
        ensures { self.new ≡ with_channels self.old (on_place gone (slice_get self.old.channels.held at) self.old.channels) }
    {
        let place = self.places.remove(at);
        self.queue.forget_channel(place.own().get());
        let _room_was_reserved = self.free.push(place.into_line());
    }

    /// The channel at a place goes on to a stage at which its options do not matter.
    pub(crate) fn hide(&mut self, at: usize, stage: Stage)
        requires place { at < length self.old.channels.held }
        requires stage { hides_setup stage ≡ true }
        ensures { self.new ≡ with_channels self.old (on_place (λ held. to_stage held (stage_value stage no_setup)) (slice_get self.old.channels.held at) self.old.channels) }
    {
        let place = &mut self.places[at];
        place.hide(stage);
    }

    /// Has no channels, as on a link that is new. The events stay.
    fn clear(&mut self)
        ensures { self.new ≡ with_channels self.old (calls.link_up self.old.channels) }
    {
        release(&mut self.places, &mut self.free);
        self.next = FIRST_ENDPOINT;
        self.identifier = Identifier::first();
        self.queue.clear();
        self.features = None;
        self.memory = Memory::new();
    }

    /// A link is there: it has no channels, and its first own request has the identifier 1.
    pub fn link_up(&mut self)
        requires { self.old.channels.events ≡ [] }
        ensures { self.new ≡ with_channels self.old (calls.link_up self.old.channels) }
    {
        self.clear();
    }

    /// How far the channel at a place is.
    pub(crate) fn stage(&self, at: usize) -> Stage
        requires { at < length self.now.channels.held }
        ensures { IsStageAt (slice_get self.now.channels.held at) result }
    {
        self.places[at].stage()
    }

    /// The own endpoint of the channel at a place.
    pub(crate) fn endpoint(&self, at: usize) -> u16
        requires { at < length self.now.channels.held }
        ensures own { option_map (λ held. held.own) (slice_get self.now.channels.held at) ≡ Some result }
        ensures known { list_any (λ own. own == result) (owns self.now.channels.held) ≡ true }
    {
        self.places[at].own().get()
    }

    /// That the channel at a place is closed.
    pub(crate) fn closed(&self, at: usize, reason: CloseReason) -> ChannelEvent
        requires { at < length self.now.channels.held }
        ensures { option_map (λ held. Closed held.own held.psm reason) (slice_get self.now.channels.held at) ≡ Some result }
    {
        self.places[at].closed(reason)
    }

    /// The host asks for the end of the channel at a place.
    pub(crate) fn leave(&mut self, at: usize, request: Request)
        requires { at < length self.old.channels.held }
        ensures { self.new ≡ with_channels self.old (on_place (λ held. to_stage held (left (request_value request) held.stage)) (slice_get self.old.channels.held at) self.old.channels) }
    {
        let place = &mut self.places[at];
        place.leave(request);
    }

    /// The channel at a place closes. One that is only asked for is no more; for any other a request for
    /// its end goes out, unless one waits.
    pub(crate) fn close(&mut self, at: usize, reason: CloseReason)
        requires place { at < length self.old.channels.held }
        requires room { length self.old.channels.events < 168 }
        ensures closes { self.new ≡ with_channels self.old (on_place (closes reason) (slice_get self.old.channels.held at) self.old.channels) }
        ensures few { length self.new.channels.events ≤ length self.old.channels.events + 1 }
    {
        let event = self.closed(at, reason);
        let own = self.endpoint(at);
        let checked = self.has_fcs_at(at);
        match self.stage(at) {
            Stage::Requested(_) => {
                self.remove(at);
                self.tell(event);
            }
            Stage::Connected(peer) => {
                let request = Request::new(self.identifier);
                self.forget(Errand::Configuration { own });
                self.ask(Errand::Disconnection { own });
                self.hide(at, Stage::Closing(peer, request, checked));
                self.tell(event);
            }
            Stage::Leaving(peer, request) => {
                self.forget(Errand::Configuration { own });
                self.hide(at, Stage::Closing(peer, request, checked));
                self.tell(event);
            }
            Stage::Closing(_, _, _) | Stage::Crossed(_, _) => {}
        }
    }

    /// The host asks for the end of the channel at a place, unless it did so before.
    fn disconnect_at(&mut self, at: usize)
        requires place { at < length self.old.channels.held }
        requires room { length self.old.channels.events < 168 }
        ensures { self.new ≡ with_channels self.old (calls.disconnected_held (slice_get self.old.channels.held at) self.old.channels) }
    {
        let own = self.endpoint(at);
        match self.stage(at) {
            Stage::Requested(_) => self.close(at, CloseReason::OwnClosed),
            Stage::Connected(_) => {
                let request = Request::new(self.identifier);
                self.ask(Errand::Disconnection { own });
                self.leave(at, request);
            }
            Stage::Leaving(_, _) | Stage::Closing(_, _, _) | Stage::Crossed(_, _) => {}
        }
    }

    /// Asks for the end of a channel, which is closed with `OwnClosed` once the response comes; one that
    /// is only asked for is closed at once. Ignored where there is no such channel, or its end was asked
    /// for before.
    pub fn disconnect(&mut self, cid: Cid)
        requires { self.old.channels.events ≡ [] }
        ensures { self.new ≡ with_channels self.old (calls.disconnected cid self.old.channels) }
    {
        let Some(at) = self.place_of(cid.get()) else {
            return;
        };
        self.disconnect_at(at);
    }

    /// Hands an SDU to the channel at a place.
    fn put(&mut self, at: usize, sdu: &[u8])
        requires place { at < length self.old.channels.held }
        requires fits { IfSome (place_mtu (slice_get self.old.channels.held at)) (λ mtu. length sdu.now ≤ mtu) }
        ensures { self.new ≡ with_channels self.old (on_place (λ held. to_stage held (sent sdu.now held.stage)) (slice_get self.old.channels.held at) self.old.channels) }
    {
        let place = &mut self.places[at];
        place.put(sdu);
    }

    /// What is answered to an SDU for the channel at a place.
    fn send_answer(&self, at: usize) -> SendAnswer
        requires { at < length self.now.channels.held }
        ensures { result ≡ send_answer (place_mtu (slice_get self.now.channels.held at)) (place_waits (slice_get self.now.channels.held at)) }
    {
        if self.places[at].peer_mtu().is_none() {
            return SendAnswer::NotOpen;
        }
        if self.places[at].waits() {
            return SendAnswer::Busy;
        }
        SendAnswer::Taken
    }

    /// An SDU for the channel at a place waits from now on, where the channel is open and none waits.
    pub(crate) fn send_at(&mut self, at: usize, sdu: &[u8])
        requires place { at < length self.old.channels.held }
        requires fits { IfSome (place_mtu (slice_get self.old.channels.held at)) (λ mtu. length sdu.now ≤ mtu) }
        ensures { self.new ≡ with_channels self.old (calls.sends_held (slice_get self.old.channels.held at) sdu.now self.old.channels) }
    {
        match self.stage(at) {
            Stage::Connected(_) | Stage::Leaving(_, _) => self.put(at, sdu),
            Stage::Requested(_) | Stage::Closing(_, _, _) | Stage::Crossed(_, _) => {}
        }
    }

    /// Takes an SDU of at most `peer_mtu` octets for a channel: `NotOpen` exactly where the channel is not
    /// open, else `Busy` exactly where the SDU before still waits, and then nothing changes.
    pub fn send(&mut self, cid: Cid, sdu: &[u8]) -> SendAnswer
        requires { IfSome (calls.peer_mtu cid self.old.channels) (λ mtu. length sdu.now ≤ mtu) }
        ensures { Sends self.old cid sdu.now result self.new }
    {
        let Some(at) = self.place_of(cid.get()) else {
            return SendAnswer::NotOpen;
        };
        let answer = self.send_answer(at);
        self.send_at(at, sdu);
        answer
    }

    /// That the channel at a place is lost with the link, where it was not closed.
    fn lost(&self, at: usize) -> Option<ChannelEvent>
        requires { at < length self.now.channels.held }
        ensures { option_to_list result ≡ place_lost (slice_get self.now.channels.held at) }
    {
        self.places[at].lost()
    }

    /// Tells that the channel at a place is lost with the link, where it was not closed.
    fn lose(&mut self, at: usize)
        requires place { at < length self.old.channels.held }
        requires room { length self.old.channels.events < 168 }
        ensures after { self.new ≡ with_channels self.old (loses (slice_get self.old.channels.held at) self.old.channels) }
        ensures few { length self.new.channels.events ≤ length self.old.channels.events + 1 }
    {
        if let Some(event) = self.lost(at) {
            self.tell(event);
        }
    }

    /// How many channels count.
    pub(crate) fn count(&self) -> usize
        ensures count { result ≡ length self.now.channels.held }
        ensures few { result ≤ 4 }
    {
        self.places.len()
    }

    /// The link is no more: each channel that was not closed is closed with `LinkDown`.
    pub fn link_down(&mut self)
        requires { self.old.channels.events ≡ [] }
        ensures { self.new ≡ with_channels self.old (calls.link_down self.old.channels) }
    {
        for at in 0..self.count() {
            self.lose(at);
        }
        self.clear();
    }

    /// What waits longest on the signalling channel, which waits no more.
    fn take_waiting(&mut self) -> Option<Queued>
        ensures first { option_map queued_value result ≡ slice_get self.old.channels.queue 0 }
        ensures rest { self.new ≡ with_channels self.old (record self.old.channels { queue = drop 1 self.old.channels.queue }) }
    {
        self.queue.take()
    }

    /// Writes the next PDU that the channel at a place has to give.
    fn give_at(&mut self, at: usize, into: &mut [u8]) -> Option<usize>
        requires place { at < length self.old.channels.held }
        requires room { 32775 ≤ length into.old }
        ensures pdu { WritesNext (place_gives (slice_get self.old.channels.held at)) into.old result into.new }
        ensures after { self.new ≡ with_channels self.old (on_place (λ held. to_stage held (spent held.stage)) (slice_get self.old.channels.held at) self.old.channels) }
        ensures same { IfNone result ((self.new ≡ self.old) × (into.new ≡ into.old)) }
    {
        let place = &mut self.places[at];
        place.give(into)
    }

    /// Writes the next PDU of the first channel that has something to give.
    fn give_payload(&mut self, into: &mut [u8]) -> Option<usize>
        requires { 32775 ≤ length into.old }
        ensures pdu { WritesNext (held_gives (find gives self.old.channels.held)) into.old result into.new }
        ensures after { self.new ≡ with_channels self.old (held_given (find gives self.old.channels.held) self.old.channels) }
    {
        for at in 0..self.count() {
            if let Some(size) = self.give_at(at, into) {
                return Some(size);
            }
        }
        None
    }

    /// Writes the own request about the channel at a place, where it waits for its response.
    fn put_request(&self, at: usize, errand: Errand, into: &mut [u8]) -> Option<usize>
        requires place { at < length self.now.channels.held }
        requires room { 32775 ≤ length into.old }
        ensures { WritesNext (option_map Signal (place_command errand (slice_get self.now.channels.held at))) into.old result into.new }
    {
        self.places[at].put_request(errand, into)
    }

    /// The own request about the channel at a place was given once more.
    fn count_request(&mut self, at: usize, errand: Errand)
        requires { at < length self.old.channels.held }
        ensures { self.new ≡ with_channels self.old (on_place (λ held. to_stage held (stage_counted errand held.stage)) (slice_get self.old.channels.held at) self.old.channels) }
    {
        let place = &mut self.places[at];
        place.count(errand);
    }

    /// Writes the question for the features, where it waits for its response.
    fn give_question(&mut self, into: &mut [u8]) -> Option<usize>
        requires { 32775 ≤ length into.old }
        ensures pdu { WritesNext (option_map Signal (features_command self.old.channels.features)) into.old result into.new }
        ensures after { self.new ≡ with_channels self.old (record self.old.channels { features = option_map one_more self.old.channels.features }) }
    {
        let request = self.features?;
        self.features = Some(request.once_more());
        let kind = SignalKind::InformationRequest { kind: FEATURES };
        Some(put_command(request.identifier, kind, into))
    }

    /// Writes an own request about the channel of an own endpoint, where it waits for its response.
    fn give_asked(&mut self, own: u16, errand: Errand, into: &mut [u8]) -> Option<usize>
        requires { 32775 ≤ length into.old }
        ensures pdu { WritesNext (option_map Signal (place_command errand (held_at own self.old.channels))) into.old result into.new }
        ensures after { self.new ≡ with_channels self.old (on_place (λ held. to_stage held (stage_counted errand held.stage)) (held_at own self.old.channels) self.old.channels) }
    {
        let Some(at) = self.place_of(own) else {
            return None;
        };
        let written = self.put_request(at, errand, into);
        self.count_request(at, errand);
        written
    }

    /// Writes an own request, where it waits for its response.
    fn give_request(&mut self, errand: Errand, into: &mut [u8]) -> Option<usize>
        requires { 32775 ≤ length into.old }
        ensures pdu { WritesNext (option_map Signal (command_of errand self.old.channels)) into.old result into.new }
        ensures after { self.new ≡ with_channels self.old (counted errand self.old.channels) }
    {
        match errand {
            Errand::Connection { own } => self.give_asked(own, errand, into),
            Errand::Configuration { own } => self.give_asked(own, errand, into),
            Errand::Disconnection { own } => self.give_asked(own, errand, into),
            Errand::Features => self.give_question(into),
        }
    }

    /// Writes the next PDU from the front of `into`, of at least 32,775 octets, and answers how many octets
    /// it has; the octets behind it stay as they are. Commands come first, in the order in which they
    /// arose, and then the channels in the order of their endpoints. None where nothing waits.
    pub fn next_pdu(&mut self, into: &mut [u8]) -> Option<usize>
        requires { 32775 ≤ length into.old }
        ensures { Gives self.old into.old result self.new into.new }
    {
        let Some(waiting) = self.take_waiting() else {
            return self.give_payload(into);
        };
        match waiting {
            Queued::Answer(identifier, response) => {
                Some(put_command(identifier, response.kind(), into))
            }
            Queued::Ask(errand) => self.give_request(errand, into),
        }
    }
}
