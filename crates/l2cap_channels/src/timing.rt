//! What the timer makes of the channels of a link.

ghost use Rattle.std.specs.Prelude.{◌≡◌, ◌≤◌, ◌<◌, ◌+◌, ◌==◌, [], true, false, Some, length, slice_get, option_map};
ghost use Rattle.std.specs.List.{list_any};
ghost use Rattle.channel_model.specs.Asking.{fired};
ghost use Rattle.channel_model.specs.Changing.{held_at, is_due, queued, to_stage, setup_of};
ghost use Rattle.channel_model.specs.Closing.{closes, ends};
ghost use Rattle.channel_model.specs.Timing as timing;
ghost use Rattle.channel_model.specs.Carrying.{reason_of};
ghost use Rattle.channel_model.specs.Value as value;
ghost use Rattle.channel_model.specs.declared.event.CloseReason.TheVariants.{RetryLimit};
ghost use Rattle.l2cap_channels.specs.Finding.{on_place, place_setup};
ghost use Rattle.l2cap_channels.specs.Machine.{policy_of, with_channels};
ghost use Rattle.l2cap_channels.specs.Sound.{owns, is_known};

use crate::channels::Channels;
use crate::request::Request;
use crate::stage::Stage;
use arrayvec::ArrayVec;
use bt_base::{Cid, Psm};
use channel_model::{ChannelEvent, CloseReason, Errand};
use ertm_model::ErtmReason;

/// What the timer finds of an own request.
#[derive(Clone, Copy)]
pub(crate) enum Fired {
    /// A copy still waits to be given.
    StillDue,
    /// It is to be given once more.
    OnceMore,
    /// It was given as often as may be.
    Spent,
}

/// Why a channel closes whose machine closed.
pub(crate) fn reason_of(reason: ErtmReason) -> CloseReason
    ensures { result ≡ reason_of reason }
{
    match reason {
        ErtmReason::RetryLimit => CloseReason::RetryLimit,
        ErtmReason::BadReqSeq => CloseReason::Ertm(ErtmReason::BadReqSeq),
        ErtmReason::Srej => CloseReason::Ertm(ErtmReason::Srej),
        ErtmReason::BadSegment => CloseReason::Ertm(ErtmReason::BadSegment),
        ErtmReason::TooLongSdu => CloseReason::Ertm(ErtmReason::TooLongSdu),
        ErtmReason::BadFrame => CloseReason::Ertm(ErtmReason::BadFrame),
    }
}

impl Channels {
    ghost use Rattle.l2cap_channels.specs.Parts.{request_value};
    ghost use Rattle.l2cap_channels.specs.Timers.{fired_value, retransmits_on, timed_stage, reason_on, asked_on, times_machine, times_options, ends_lost};

    /// What the timer finds of an own request.
    fn fired(&self, errand: Errand, request: &Request) -> Fired
        ensures { fired_value result ≡ fired (policy_of self.now).tries errand (request_value request.now) self.now.channels }
    {
        if self.queue.is_due(errand) {
            return Fired::StillDue;
        }
        if request.given >= self.settings.tries {
            return Fired::Spent;
        }
        Fired::OnceMore
    }

    /// A copy of an own request waits to be given, where none does.
    fn ask_again(&mut self, errand: Errand)
        requires known { is_known (owns self.old.channels.held) errand ≡ true }
        requires none { is_due errand self.old.channels ≡ false }
        ensures { self.new ≡ with_channels self.old (queued (value.Ask errand) self.old.channels) }
    {
        self.queue.ask(errand);
    }

    /// The timer of the machine of the channel at a place fires; the answer is why it closes.
    fn fire_place(&mut self, at: usize, request: Request) -> Option<ErtmReason>
        requires { at < length self.old.channels.held }
        ensures reason { result ≡ reason_on (place_setup (slice_get self.old.channels.held at)) }
        ensures after { self.new ≡ with_channels self.old (on_place (λ held. to_stage held (timed_stage (request_value request) held.stage)) (slice_get self.old.channels.held at) self.old.channels) }
        ensures owns { owns self.new.channels.held ≡ owns self.old.channels.held }
    {
        let place = &mut self.places[at];
        place.fire(request)
    }

    /// The timer of the machine of the channel at a place fires, where it has one.
    fn fire_machine(&mut self, at: usize)
        requires place { at < length self.old.channels.held }
        requires room { length self.old.channels.events < 168 }
        ensures after { self.new ≡ with_channels self.old (times_machine (slice_get self.old.channels.held at) self.old.channels) }
        ensures few { length self.new.channels.events ≤ length self.old.channels.events + 1 }
    {
        if !self.is_retransmitting(at) {
            return;
        }
        let own = self.endpoint(at);
        let names = self.names(at);
        let stage = self.stage(at);
        let request = Request::new(self.identifier);
        let Some(reason) = self.fire_place(at, request) else {
            return;
        };
        self.forget(Errand::Configuration { own });
        if let Stage::Connected(_) = stage {
            self.ask(Errand::Disconnection { own });
        }
        self.tell(ChannelEvent::Closed(names.0, names.1, reason_of(reason)));
    }

    /// An own request about the channel at a place is given once more, or closes the channel where it was
    /// given as often as may be.
    fn fire(&mut self, at: usize, errand: Errand, request: &Request)
        requires place { at < length self.old.channels.held }
        requires known { is_known (owns self.old.channels.held) errand ≡ true }
        requires room { length self.old.channels.events < 168 }
        ensures after { self.new ≡ with_channels self.old (timing.times (policy_of self.old).tries errand (request_value request.now) (on_place (closes RetryLimit) (slice_get self.old.channels.held at)) self.old.channels) }
        ensures few { length self.new.channels.events ≤ length self.old.channels.events + 1 }
    {
        match self.fired(errand, request) {
            Fired::StillDue => {}
            Fired::OnceMore => self.ask_again(errand),
            Fired::Spent => self.close(at, CloseReason::RetryLimit),
        }
    }

    /// The own request for options of the channel at a place, or else its machine.
    fn fire_options(&mut self, at: usize)
        requires place { at < length self.old.channels.held }
        requires room { length self.old.channels.events < 168 }
        ensures after { self.new ≡ with_channels self.old (times_options (slice_get self.old.channels.held at) (policy_of self.old).tries self.old.channels) }
        ensures few { length self.new.channels.events ≤ length self.old.channels.events + 1 }
    {
        let own = self.endpoint(at);
        match self.asked(at) {
            Some(request) => self.fire(at, Errand::Configuration { own }, &request),
            None => self.fire_machine(at),
        }
    }

    /// What the channel at a place waits for, but for its end.
    fn fire_channel(&mut self, at: usize)
        requires place { at < length self.old.channels.held }
        requires room { length self.old.channels.events < 168 }
        ensures after { self.new ≡ with_channels self.old (timing.times_held (slice_get self.old.channels.held at) (policy_of self.old).tries self.old.channels) }
        ensures few { length self.new.channels.events ≤ length self.old.channels.events + 1 }
    {
        let own = self.endpoint(at);
        match self.stage(at) {
            Stage::Requested(request) => self.fire(at, Errand::Connection { own }, &request),
            Stage::Connected(_) | Stage::Leaving(_, _) => self.fire_options(at),
            Stage::Closing(_, _, _) | Stage::Crossed(_, _) => {}
        }
    }

    /// Whether what carries the SDUs of the channel at a place is a machine.
    fn is_retransmitting(&self, at: usize) -> bool
        requires { at < length self.now.channels.held }
        ensures { result ≡ retransmits_on (place_setup (slice_get self.now.channels.held at)) }
    {
        self.places[at].is_retransmitting()
    }

    /// The own request for options that waits, of the channel at a place.
    pub(crate) fn asked(&self, at: usize) -> Option<Request>
        requires { at < length self.now.channels.held }
        ensures { option_map request_value result ≡ asked_on (place_setup (slice_get self.now.channels.held at)) }
    {
        self.places[at].asked()
    }

    /// The own endpoint and the multiplexer of the channel at a place.
    pub(crate) fn names(&self, at: usize) -> (Cid, Psm)
        requires { at < length self.now.channels.held }
        ensures own { option_map (λ held. held.own) (slice_get self.now.channels.held at) ≡ Some result.0 }
        ensures psm { option_map (λ held. held.psm) (slice_get self.now.channels.held at) ≡ Some result.1 }
    {
        let place = &self.places[at];
        (place.own(), place.psm())
    }

    /// The request for the end of the channel at a place was given as often as may be: a channel that was
    /// not closed is closed, and of one that was closed before it is told that the peer never answered.
    fn lose_end(&mut self, at: usize)
        requires place { at < length self.old.channels.held }
        requires room { length self.old.channels.events < 168 }
        ensures after { self.new ≡ with_channels self.old (ends_lost (slice_get self.old.channels.held at) self.old.channels) }
        ensures few { length self.new.channels.events ≤ length self.old.channels.events + 1 }
    {
        let event = self.closed(at, CloseReason::RetryLimit);
        let names = self.names(at);
        match self.stage(at) {
            Stage::Leaving(_, _) => {
                self.remove(at);
                self.tell(event);
            }
            Stage::Closing(_, _, _) | Stage::Crossed(_, _) => {
                self.remove(at);
                self.tell(ChannelEvent::DisconnectLost(names.0));
            }
            Stage::Requested(_) | Stage::Connected(_) => {}
        }
    }

    /// The request for the end of the channel at a place is given once more, or given up.
    fn fire_request(&mut self, at: usize, errand: Errand, request: &Request)
        requires place { at < length self.old.channels.held }
        requires known { is_known (owns self.old.channels.held) errand ≡ true }
        requires room { length self.old.channels.events < 168 }
        ensures after { self.new ≡ with_channels self.old (timing.times (policy_of self.old).tries errand (request_value request.now) (ends_lost (slice_get self.old.channels.held at)) self.old.channels) }
        ensures few { length self.new.channels.events ≤ length self.old.channels.events + 1 }
    {
        match self.fired(errand, request) {
            Fired::StillDue => {}
            Fired::OnceMore => self.ask_again(errand),
            Fired::Spent => self.lose_end(at),
        }
    }

    /// The end of the channel at a place, where the host asked for it.
    fn fire_end(&mut self, at: usize)
        requires place { at < length self.old.channels.held }
        requires room { length self.old.channels.events < 168 }
        ensures after { self.new ≡ with_channels self.old (timing.times_end (slice_get self.old.channels.held at) (policy_of self.old).tries self.old.channels) }
        ensures few { length self.new.channels.events ≤ length self.old.channels.events + 1 }
    {
        let own = self.endpoint(at);
        let errand = Errand::Disconnection { own };
        match self.stage(at) {
            Stage::Leaving(_, request) => self.fire_request(at, errand, &request),
            Stage::Closing(_, request, _) => self.fire_request(at, errand, &request),
            Stage::Crossed(_, request) => self.fire_request(at, errand, &request),
            Stage::Requested(_) | Stage::Connected(_) => {}
        }
    }

    /// What the channel of an own endpoint waits for, and then its end.
    fn fire_own(&mut self, own: u16)
        requires { length self.old.channels.events < 167 }
        ensures after { self.new ≡ with_channels self.old (timing.times_channel (policy_of self.old).tries own self.old.channels) }
        ensures few { length self.new.channels.events ≤ length self.old.channels.events + 2 }
    {
        if let Some(at) = self.place_of(own) {
            self.fire_channel(at);
        }
        if let Some(at) = self.place_of(own) {
            self.fire_end(at);
        }
    }

    /// The question for the features.
    fn fire_question(&mut self)
        requires { length self.old.channels.events < 168 }
        ensures { self.new ≡ with_channels self.old (timing.times_features self.old.channels.features (policy_of self.old).tries self.old.channels) }
    {
        let Some(request) = self.features else {
            return;
        };
        match self.fired(Errand::Features, &request) {
            Fired::StillDue => {}
            Fired::OnceMore => self.ask_again(Errand::Features),
            Fired::Spent => {
                self.features = None;
                self.tell(ChannelEvent::FeaturesLost);
            }
        }
    }

    /// The own endpoints of the channels.
    fn endpoints(&self) -> ArrayVec<u16, 4>
        ensures all { result.items ≡ owns self.now.channels.held }
        ensures few { length result.items ≤ 4 }
    {
        let mut endpoints = ArrayVec::new();
        for place in &self.places {
            endpoints.push(place.own().get());
        }
        endpoints
    }

    /// The timer fires: each own request that waits for its response is given once more, or given up where
    /// it was given as often as may be, and so is what the machines of enhanced channels wait for. Nothing
    /// is done for a request of which a copy still waits to be given.
    pub fn on_timer(&mut self)
        requires { self.old.channels.events ≡ [] }
        ensures { self.new ≡ with_channels self.old (timing.timed_out (policy_of self.old) self.old.channels) }
    {
        let endpoints = self.endpoints();
        for own in endpoints.as_slice() {
            self.fire_own(*own);
        }
        self.fire_question();
    }
}
