//! Whether a link has a PDU to give.

ghost use Rattle.std.specs.Prelude.{◌≡◌, true, is_some, length, slice_get, option_map};
ghost use Rattle.std.specs.List.{list_any};
ghost use Rattle.channel_model.specs.declared.errand.Errand.TheVariants as errands;
ghost use Rattle.channel_model.specs.Changing.{held_at};
ghost use Rattle.channel_model.specs.Calls.{sends};
ghost use Rattle.channel_model.specs.Giving.{gives, next_given, command_of};
ghost use Rattle.l2cap_channels.specs.Given.{command_at, place_command};
ghost use Rattle.l2cap_channels.specs.Machine.{with_channels};
ghost use Rattle.l2cap_channels.specs.Sending.{takes};

use crate::channels::Channels;
use crate::place::Place;
use crate::queue::Queued;
use crate::setup::Own;
use crate::stage::Stage;
use channel_model::Errand;

impl Place {
    /// Whether its carrier has a PDU to give.
    fn gives(&self) -> bool
        ensures { result ≡ gives self.now }
    {
        match self.stage {
            Stage::Connected(_) => self.line.gives(),
            Stage::Leaving(_, _) => self.line.gives(),
            Stage::Requested(_) | Stage::Closing(_, _, _) | Stage::Crossed(_, _) => false,
        }
    }

    /// Whether its own request for options waits for its response.
    fn is_wishing(&self) -> bool
        ensures { result ≡ is_some (command_at (errands.Configuration self.now.own) self.now) }
    {
        match (self.stage, &self.setup.own) {
            (Stage::Connected(_) | Stage::Leaving(_, _), Own::Asking(_, _)) => true,
            _ => false,
        }
    }

    /// Whether its own request for its end waits for its response.
    fn is_ending(&self) -> bool
        ensures { result ≡ is_some (command_at (errands.Disconnection self.now.own) self.now) }
    {
        match self.stage {
            Stage::Requested(_) | Stage::Connected(_) => false,
            Stage::Leaving(_, _) | Stage::Closing(_, _, _) | Stage::Crossed(_, _) => true,
        }
    }

    /// Whether this own request about it waits for its response.
    fn is_asking(&self, errand: Errand) -> bool
        ensures { result ≡ is_some (command_at errand self.now) }
    {
        match errand {
            Errand::Connection { .. } => matches!(self.stage, Stage::Requested(_)),
            Errand::Configuration { .. } => self.is_wishing(),
            Errand::Disconnection { .. } => self.is_ending(),
            Errand::Features => false,
        }
    }
}

impl Channels {
    ghost use Rattle.l2cap_channels.specs.Queues.{queued_value};

    /// Whether an own request about the channel of an own endpoint waits for its response.
    fn is_asking_of(&self, own: u16, errand: Errand) -> bool
        ensures { result ≡ is_some (place_command errand (held_at own self.now.channels)) }
    {
        let Some(at) = self.place_of(own) else {
            return false;
        };
        self.places[at].is_asking(errand)
    }

    /// Whether an own request waits for its response.
    fn is_asking(&self, errand: Errand) -> bool
        ensures { result ≡ is_some (command_of errand self.now.channels) }
    {
        match errand {
            Errand::Connection { own } => self.is_asking_of(own, errand),
            Errand::Configuration { own } => self.is_asking_of(own, errand),
            Errand::Disconnection { own } => self.is_asking_of(own, errand),
            Errand::Features => self.features.is_some(),
        }
    }

    /// Whether the carrier of a channel has a PDU to give.
    fn has_payload(&self) -> bool
        ensures { result ≡ list_any gives self.now.channels.held }
    {
        self.places.iter().any(|place| place.gives())
    }

    /// What waits longest on the signalling channel.
    fn first_waiting(&self) -> Option<&Queued>
        ensures { option_map (λ queued. queued_value queued.now) result ≡ slice_get self.now.channels.queue 0 }
    {
        self.queue.first()
    }

    /// Whether there is a PDU to give, so that `next_pdu` would write one.
    #[tactic(auto, using(crate::proofs::Pending::nothing_waits, crate::proofs::Pending::answer_waits, crate::proofs::Pending::request_waits))]
    pub fn gives(&self) -> bool
        ensures { result ≡ is_some (next_given self.now.channels) }
    {
        match self.first_waiting() {
            None => self.has_payload(),
            Some(Queued::Answer(_, _)) => true,
            Some(Queued::Ask(errand)) => self.is_asking(*errand),
        }
    }

    /// Whether an SDU of so many octets would be taken for the channel of an own endpoint: it is open, the
    /// peer takes one as long, and none waits.
    pub fn takes(&self, own: u16, size: usize) -> bool
        ensures { result ≡ takes own size self.now.channels }
    {
        let Some(at) = self.place_of(own) else {
            return false;
        };
        let Some(mtu) = self.places[at].peer_mtu() else {
            return false;
        };
        size <= usize::from(mtu) && !self.places[at].waits()
    }

    /// Takes an SDU for the channel of an own endpoint. It needs that it would be taken.
    pub fn put_sdu(&mut self, own: u16, sdu: &[u8])
        requires { takes own (length sdu.now) self.old.channels ≡ true }
        ensures { self.new ≡ with_channels self.old (sends own sdu.now self.old.channels) }
    {
        let Some(at) = self.place_of(own) else {
            return;
        };
        self.send_at(at, sdu);
    }
}
