//! Requests for the options of channels, and their responses.

ghost use Rattle.std.specs.Prelude.{◌≡◌, ◌≤◌, ◌<◌, ◌+◌, true, false, Some, length, slice_get, option_map, is_some};
ghost use Rattle.l2cap_config.specs.Agreement.{answered};
ghost use Rattle.l2cap_signal.specs.Commands.{configuration_request};
ghost use Rattle.channel_model.specs.Changing.{held_at, to_stage};
ghost use Rattle.channel_model.specs.Configuring as configuring;
ghost use Rattle.channel_model.specs.Following as following;
ghost use Rattle.channel_model.specs.Responses as responses;
ghost use Rattle.channel_model.specs.declared.request_kind.RequestKind.TheVariants as kinds;
ghost use Rattle.l2cap_channels.specs.Finding.{on_place, place_setup};
ghost use Rattle.l2cap_channels.specs.Lines.{IsFor};
ghost use Rattle.l2cap_channels.specs.Machine.{policy_of, with_channels};
ghost use Rattle.l2cap_channels.specs.Sound.{owns};
ghost use Rattle.l2cap_channels.specs.Steps.{with_change, noted, accepted, asked_anew, refused_on, is_past_asking_at, carries_on, acceptance_on, verdict_value, IsJudgedBy, IsWish, IsAccept, with_setup_at, granted};

use crate::channels::Channels;
use crate::hearing::no_such_channel;
use crate::identifier::Identifier;
use crate::progress::{Acceptance, MOST_REFUSALS};
use crate::request::Request;
use crate::verdict::Verdict;
use crate::wish::first_options;
use channel_model::{ChannelEvent, CloseReason, Errand, RequestKind};
use l2cap_config::{Agreed, ConfigAnswer, Options, Settled, Wish, agree, options_of, settle};

impl Channels {
    ghost use Rattle.l2cap_channels.specs.Parts.{request_value};

    /// What is wished of the channel at a place.
    pub(crate) fn wish(&self, at: usize) -> Wish
        requires { at < length self.now.channels.held }
        ensures wish { option_map (λ held. (policy_of self.now).wish held.psm) (slice_get self.now.channels.held at) ≡ Some result }
        ensures fits { IsWish result }
    {
        let names = self.names(at);
        self.wished(names.1)
    }

    /// These are the options of the parts so far of a request of the peer, for the channel at a place.
    fn note(&mut self, at: usize, options: Options)
        requires { at < length self.old.channels.held }
        ensures { self.new ≡ with_channels self.old (on_place (λ held. to_stage held (with_change (noted options) held.stage)) (slice_get self.old.channels.held at) self.old.channels) }
    {
        let place = &mut self.places[at];
        place.note(options);
    }

    /// How many requests of the peer for options of the channel at a place were answered as unacceptable.
    fn refused(&self, at: usize) -> u8
        requires { at < length self.now.channels.held }
        ensures { result ≡ refused_on (place_setup (slice_get self.now.channels.held at)) }
    {
        self.places[at].refused()
    }

    fn set_refused(&mut self, at: usize)
        requires place { at < length self.old.channels.held }
        requires few { refused_on (place_setup (slice_get self.old.channels.held at)) < 2 }
        ensures { self.new ≡ with_channels self.old (on_place (λ held. to_stage held (with_change configuring.refused_setup held.stage)) (slice_get self.old.channels.held at) self.old.channels) }
    {
        let place = &mut self.places[at];
        place.refuse();
    }

    /// Whether the channel at a place asks for no other options, as `Place::asks_no_more` says.
    fn asks_no_more(&self, at: usize) -> bool
        requires { at < length self.now.channels.held }
        ensures { result ≡ is_past_asking_at (slice_get self.now.channels.held at) }
    {
        self.places[at].asks_no_more()
    }

    fn set_renewed(&mut self, at: usize, request: Request, options: Options)
        requires place { at < length self.old.channels.held }
        requires few { is_past_asking_at (slice_get self.old.channels.held at) ≡ false }
        ensures { self.new ≡ with_channels self.old (on_place (λ held. to_stage held (with_change (asked_anew (request_value request) options) held.stage)) (slice_get self.old.channels.held at) self.old.channels) }
    {
        let place = &mut self.places[at];
        place.renew(request, options);
    }

    fn set_accepted(
        &mut self,
        at: usize,
        agreed: &Agreed,
        request: Request,
        options: Options,
    ) -> Acceptance
        requires place { at < length self.old.channels.held }
        requires mode { IsFor agreed.now.mode agreed.now }
        requires mtu { agreed.now.receive_mtu ≤ 32767 }
        ensures follows { result ≡ acceptance_on (place_setup (slice_get self.old.channels.held at)) }
        ensures after { self.new ≡ with_channels self.old (on_place (λ held. to_stage held (with_change (accepted agreed.now (request_value request) options) held.stage)) (slice_get self.old.channels.held at) self.old.channels) }
        ensures owns { owns self.new.channels.held ≡ owns self.old.channels.held }
    {
        let place = &mut self.places[at];
        place.accept(agreed, request, options)
    }

    fn set_granted(&mut self, at: usize) -> bool
        requires { at < length self.old.channels.held }
        ensures opens { result ≡ carries_on (place_setup (slice_get self.old.channels.held at)) }
        ensures after { self.new ≡ with_channels self.old (on_place (λ held. to_stage held (with_change configuring.granted_setup held.stage)) (slice_get self.old.channels.held at) self.old.channels) }
        ensures there { slice_get self.new.channels.held at ≡ option_map granted (slice_get self.old.channels.held at) }
    {
        let place = &mut self.places[at];
        place.grant()
    }

    /// Options of the peer are accepted for the channel at a place. The own request goes out behind the
    /// first acceptance; where it was accepted already the channel is open.
    #[tactic(auto, using(crate::proofs::Agreeing::agreed_some, crate::proofs::Agreeing::agreed_fits, crate::proofs::Agreeing::agreement_fits))]
    fn accept(&mut self, at: usize, wish: &Wish, options: &Options)
        requires place { at < length self.old.channels.held }
        requires room { length self.old.channels.events < 168 }
        requires there { is_some (place_setup (slice_get self.old.channels.held at)) ≡ true }
        requires wish { IsWish wish.now }
        requires accepted { IsAccept (answered wish.now options.now) }
        ensures after { self.new ≡ with_channels self.old (on_place (with_setup_at (configuring.accepts wish.now options.now)) (slice_get self.old.channels.held at) self.old.channels) }
        ensures few { length self.new.channels.events ≤ length self.old.channels.events + 1 }
    {
        let Some(agreed) = agree(wish, options) else {
            return;
        };
        let own = self.endpoint(at);
        let names = self.names(at);
        let request = Request::new(self.identifier);
        match self.set_accepted(at, &agreed, request, first_options(wish)) {
            Acceptance::Asks => self.ask(Errand::Configuration { own }),
            Acceptance::Waits => {}
            Acceptance::Opens => self.tell(ChannelEvent::Opened(names.0, names.1)),
        }
    }

    /// Options of the peer are not acceptable for the channel at a place: the third time closes it.
    fn refuse(&mut self, at: usize)
        requires place { at < length self.old.channels.held }
        requires room { length self.old.channels.events < 168 }
        requires there { is_some (place_setup (slice_get self.old.channels.held at)) ≡ true }
        ensures after { self.new ≡ with_channels self.old (on_place (with_setup_at (λ held setup. configuring.refuses held (configuring.refused_setup setup))) (slice_get self.old.channels.held at) self.old.channels) }
        ensures few { length self.new.channels.events ≤ length self.old.channels.events + 1 }
    {
        if self.refused(at) >= MOST_REFUSALS {
            self.close(at, CloseReason::NoAgreement);
            return;
        }
        self.set_refused(at);
    }

    /// What follows from the answer to all options of the peer for the channel at a place.
    fn follow_answer(&mut self, at: usize, wish: &Wish, options: &Options, answer: &ConfigAnswer)
        requires place { at < length self.old.channels.held }
        requires room { length self.old.channels.events < 168 }
        requires there { is_some (place_setup (slice_get self.old.channels.held at)) ≡ true }
        requires wish { IsWish wish.now }
        requires answer { answer.now ≡ answered wish.now options.now }
        ensures after { self.new ≡ with_channels self.old (on_place (with_setup_at (configuring.follows_answer answer.now wish.now options.now)) (slice_get self.old.channels.held at) self.old.channels) }
        ensures few { length self.new.channels.events ≤ length self.old.channels.events + 1 }
    {
        match answer {
            ConfigAnswer::Accept(_) => self.accept(at, wish, options),
            ConfigAnswer::Unacceptable(_, _) => self.refuse(at),
            ConfigAnswer::Unknown => self.note(at, Options::none()),
        }
    }

    /// What follows from the verdict on a request for options of the channel at a place.
    fn follow_verdict(&mut self, at: usize, wish: &Wish, verdict: Verdict)
        requires place { at < length self.old.channels.held }
        requires room { length self.old.channels.events < 168 }
        requires there { is_some (place_setup (slice_get self.old.channels.held at)) ≡ true }
        requires wish { IsWish wish.now }
        requires judged { IsJudgedBy wish.now (verdict_value verdict) }
        ensures after { self.new ≡ with_channels self.old (on_place (with_setup_at (configuring.follows_verdict (verdict_value verdict) wish.now)) (slice_get self.old.channels.held at) self.old.channels) }
        ensures few { length self.new.channels.events ≤ length self.old.channels.events + 1 }
    {
        match verdict {
            Verdict::NoChannel | Verdict::TooLate(_) => {}
            Verdict::Unreadable(_) => self.note(at, Options::none()),
            Verdict::Incomplete(_, options) => self.note(at, options),
            Verdict::Judged(_, options, answer) => self.follow_answer(at, wish, &options, &answer),
        }
    }

    /// Whether the channel at a place is there and was not closed, so that it has options.
    fn is_there(&self, at: usize) -> bool
        requires { at < length self.now.channels.held }
        ensures { result ≡ is_some (place_setup (slice_get self.now.channels.held at)) }
    {
        self.places[at].is_there()
    }

    /// How a request for options of the channel at a place is judged.
    fn judge(&self, at: usize, wish: &Wish, flags: u16, octets: &[u8]) -> Verdict
        requires { at < length self.now.channels.held }
        ensures verdict { option_map (λ held. configuring.judged_stage held.stage wish.now flags octets.now) (slice_get self.now.channels.held at) ≡ Some (verdict_value result) }
        ensures judged { IsJudgedBy wish.now (verdict_value result) }
    {
        self.places[at].judge(wish, flags, octets)
    }

    /// Options are asked for, for the channel of an own endpoint.
    pub(crate) fn hear_configuration(
        &mut self,
        identifier: Identifier,
        own: u16,
        flags: u16,
        octets: &[u8],
    )
        requires { length self.old.channels.events < 168 }
        ensures after { self.new ≡ with_channels self.old (following.hears_question (policy_of self.old) kinds.Configuration identifier (configuration_request own flags octets.now) self.old.channels) }
        ensures few { length self.new.channels.events ≤ length self.old.channels.events + 1 }
    {
        if self.repeats(RequestKind::Configuration, identifier) {
            return;
        }
        let Some(at) = self.place_of(own) else {
            let response = no_such_channel(own, 0);
            let _admitted = self.admits(RequestKind::Configuration, identifier, Some(response));
            return;
        };
        let wish = self.wish(at);
        let verdict = self.judge(at, &wish, flags, octets);
        let response = verdict.response(own);
        if self.admits(RequestKind::Configuration, identifier, Some(response))
            && self.is_there(at)
        {
            self.follow_verdict(at, &wish, verdict);
        }
    }

    /// The own request for options of the channel at a place is accepted: where the peer's was too the
    /// channel is open now.
    pub(crate) fn grant(&mut self, at: usize)
        requires place { at < length self.old.channels.held }
        requires room { length self.old.channels.events < 168 }
        requires there { is_some (place_setup (slice_get self.old.channels.held at)) ≡ true }
        ensures after { self.new ≡ with_channels self.old (on_place (with_setup_at configuring.grants) (slice_get self.old.channels.held at) self.old.channels) }
        ensures few { length self.new.channels.events ≤ length self.old.channels.events + 1 }
        ensures there { slice_get self.new.channels.held at ≡ option_map granted (slice_get self.old.channels.held at) }
    {
        let own = self.endpoint(at);
        let names = self.names(at);
        self.forget(Errand::Configuration { own });
        if self.set_granted(at) {
            self.tell(ChannelEvent::Opened(names.0, names.1));
        }
    }

    /// The peer suggests other options for the channel at a place: the third time closes it, and the first
    /// time where the host asked for its end.
    fn renew(&mut self, at: usize, options: Options)
        requires place { at < length self.old.channels.held }
        requires room { length self.old.channels.events < 168 }
        requires there { is_some (place_setup (slice_get self.old.channels.held at)) ≡ true }
        ensures after { self.new ≡ with_channels self.old (on_place (with_setup_at (λ held setup. responses.renews options held (responses.renewed_setup setup))) (slice_get self.old.channels.held at) self.old.channels) }
        ensures few { length self.new.channels.events ≤ length self.old.channels.events + 1 }
    {
        if self.asks_no_more(at) {
            self.close(at, CloseReason::NoAgreement);
            return;
        }
        let own = self.endpoint(at);
        let request = Request::new(self.identifier);
        self.ask(Errand::Configuration { own });
        self.set_renewed(at, request, options);
    }

    /// What follows from the response to the own request for options of the channel at a place.
    fn hear_settled(&mut self, at: usize, settled: Settled)
        requires place { at < length self.old.channels.held }
        requires room { length self.old.channels.events < 168 }
        requires there { is_some (place_setup (slice_get self.old.channels.held at)) ≡ true }
        ensures after { self.new ≡ with_channels self.old (on_place (with_setup_at (responses.hears_settled settled)) (slice_get self.old.channels.held at) self.old.channels) }
        ensures few { length self.new.channels.events ≤ length self.old.channels.events + 1 }
    {
        match settled {
            Settled::Accepted => self.grant(at),
            Settled::Again(options) => self.renew(at, options),
            Settled::Wait => {}
            Settled::Never => self.close(at, CloseReason::NoAgreement),
        }
    }

    /// A configuration response comes.
    #[tactic(auto, using(crate::proofs::Responding::asked_there))]
    pub(crate) fn hear_response(
        &mut self,
        identifier: Identifier,
        own: u16,
        answer: u16,
        octets: &[u8],
    )
        requires { length self.old.channels.events < 168 }
        ensures after { self.new ≡ with_channels self.old (responses.hears_response (held_at own self.old.channels) (policy_of self.old) identifier answer octets.now self.old.channels) }
        ensures few { length self.new.channels.events ≤ length self.old.channels.events + 1 }
    {
        let Some(at) = self.place_of(own) else {
            return;
        };
        let Some(request) = self.asked(at) else {
            return;
        };
        if request.identifier.get() != identifier.get() {
            return;
        }
        let Ok(options) = options_of(octets) else {
            return;
        };
        let wish = self.wish(at);
        self.hear_settled(at, settle(&wish, answer, &options));
    }
}
