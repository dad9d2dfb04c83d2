//! A channel.

ghost use Rattle.std.specs.Prelude.{◌≡◌, ◌≤◌, ◌+◌, ◌++◌, drop, length, IfSome, None, Some, true, is_some, option_map};
ghost use Rattle.std.specs.Option.{option_to_list};
ghost use Rattle.channel_model.specs.declared.event.ChannelEvent.TheVariants.{Closed};
ghost use Rattle.channel_model.specs.Value as value;
ghost use Rattle.channel_model.specs.Changing.{is_peer, is_live_peer, setup_of, stage_with, is_open};
ghost use Rattle.l2cap_signal.specs.Commands.{configuration_request, spelling};
ghost use Rattle.l2cap_config.specs.Writing.{written};
ghost use Rattle.channel_model.specs.Calls as calls;
ghost use Rattle.channel_model.specs.Giving.{Signal, headed, stage_gives, connection_at, configuration_at, disconnection_at, connection_given, configuration_given, disconnection_given};
ghost use Rattle.l2cap_channels.specs.Given.{WritesNext, command_at, spent, stage_counted};

use crate::line::Line;
use crate::request::Request;
use crate::setup::{Own, Setup};
use crate::stage::Stage;
use crate::writing::put_command;
use bt_base::{Cid, Psm};
use channel_model::{ChannelEvent, CloseReason, Errand};
use ertm_model::ErtmReason;
use l2cap_config::{Options, put_options};
use l2cap_signal::SignalKind;
use std::marker::Model;

/// A channel that counts. A clause sees it as `channel_model` has it.
#[derive(Drop)]
pub(crate) struct Place {
    psm: Psm,
    own: Cid,
    pub(crate) stage: Stage,
    pub(crate) setup: Setup,
    pub(crate) line: Line,
}

impl Model for Place {
    ghost use Rattle.channel_model.specs.Value.{Held};

    ghost Value = { Held };

    ghost use Rattle.l2cap_channels.specs.Places.{place_value, IsPlace};

    ghost view = { place_value };

    ghost invariant = { IsPlace };
}

/// Writes an own request for options, as `put_command` does.
#[tactic(auto, using(crate::proofs::Sizes::short_written))]
fn put_options_request(peer: Cid, request: &Request, options: &Options, into: &mut [u8]) -> usize
    requires { 32775 ≤ length into.old }
    ensures count { result ≡ length (headed 0x0001 (spelling (record { identifier = request.now.identifier; content = configuration_request peer 0 (written options.now) }))) }
    ensures octets { into.new ≡ headed 0x0001 (spelling (record { identifier = request.now.identifier; content = configuration_request peer 0 (written options.now) })) ++ drop result into.old }
{
    let mut octets = [0; 18];
    let size = put_options(options, &mut octets);
    let kind = SignalKind::ConfigurationRequest {
        destination: peer.get(),
        flags: 0,
        options: &octets[..size],
    };
    put_command(request.identifier, kind, into)
}

impl Place {
    ghost use Rattle.l2cap_channels.specs.Parts.{request_value};
    ghost use Rattle.l2cap_channels.specs.Timers.{asked_on, retransmits_on, reason_on, timed_stage};
    ghost use Rattle.l2cap_channels.specs.Places.{stage_value, IsOpenLine, IsLineOf, IsStage, hides_setup, left, sent};

    /// A channel of which nothing is agreed on.
    pub(crate) fn new(psm: Psm, own: Cid, stage: Stage, line: Line) -> Place
        ensures { result ≡ record { psm = psm; own = own; stage = stage_value stage value.no_setup } }
    {
        let mut line = line;
        line.clear();
        Place {
            psm,
            own,
            stage,
            setup: Setup::new(),
            line,
        }
    }

    /// The memory of a channel that counts no more.
    pub(crate) fn into_line(self) -> Line {
        self.line
    }

    /// The host's own endpoint.
    pub(crate) fn own(&self) -> Cid
        ensures { result ≡ self.now.own }
    {
        self.own
    }

    /// The multiplexer that it is for.
    pub(crate) fn psm(&self) -> Psm
        ensures { result ≡ self.now.psm }
    {
        self.psm
    }

    /// What carries the SDUs of an open channel: both requests for its options were accepted.
    fn open_line(&self) -> Option<&Line>
        ensures { IsOpenLine result self.now.stage }
    {
        match (self.stage, &self.setup.own) {
            (Stage::Connected(_) | Stage::Leaving(_, _), Own::Granted) => Some(&self.line),
            _ => None,
        }
    }

    /// The longest SDU that the peer takes; there is none where the channel is not open.
    pub(crate) fn peer_mtu(&self) -> Option<u16>
        ensures { result ≡ option_map calls.carrier_mtu (calls.open_carrier (setup_of self.now.stage)) }
    {
        self.open_line()?.mtu()
    }

    /// Whether an SDU that was taken waits.
    pub(crate) fn waits(&self) -> bool
        ensures { result ≡ calls.some_waits (calls.open_carrier (setup_of self.now.stage)) }
    {
        match self.open_line() {
            Some(line) => line.waits(),
            None => false,
        }
    }

    /// Whether it is there and was not closed, so that it has options.
    pub(crate) fn is_there(&self) -> bool
        ensures { result ≡ is_some (setup_of self.now.stage) }
    {
        matches!(self.stage, Stage::Connected(_) | Stage::Leaving(_, _))
    }

    /// The carrier, where the peer's request for options was accepted.
    fn line(&self) -> Option<&Line>
        ensures { IsLineOf result (setup_of self.now.stage) }
    {
        match self.stage {
            Stage::Connected(_) | Stage::Leaving(_, _) => Some(&self.line),
            Stage::Requested(_) | Stage::Closing(_, _, _) | Stage::Crossed(_, _) => None,
        }
    }

    /// Whether its carrier is a machine.
    pub(crate) fn is_retransmitting(&self) -> bool
        ensures { result ≡ retransmits_on (setup_of self.now.stage) }
    {
        match self.line() {
            Some(line) => line.is_retransmitting(),
            None => false,
        }
    }

    /// Whether what comes in for it has a check word.
    pub(crate) fn has_fcs(&self) -> bool
        ensures { result ≡ calls.has_fcs_at self.now.stage }
    {
        match self.stage {
            Stage::Connected(_) | Stage::Leaving(_, _) => {
                self.setup.own.is_stated() && self.line.is_retransmitting()
            }
            Stage::Closing(_, _, checked) => checked,
            Stage::Requested(_) | Stage::Crossed(_, _) => false,
        }
    }

    /// How many frames are not acknowledged.
    pub(crate) fn window_used(&self) -> u8
        ensures { result ≡ calls.setup_window (setup_of self.now.stage) }
    {
        match self.line() {
            Some(line) => line.window_used(),
            None => 0,
        }
    }

    /// Whether an own request waits for its response, or the machine for an acknowledgement or the
    /// answer to a poll.
    pub(crate) fn armed(&self) -> bool
        ensures { result ≡ calls.is_armed self.now.stage }
    {
        match self.stage {
            Stage::Connected(_) => {
                matches!(self.setup.own, Own::Asking(_, _)) || self.line.armed()
            }
            Stage::Requested(_)
            | Stage::Leaving(_, _)
            | Stage::Closing(_, _, _)
            | Stage::Crossed(_, _) => true,
        }
    }

    /// That it is lost with the link, where it was not closed.
    pub(crate) fn lost(&self) -> Option<ChannelEvent>
        ensures { option_to_list result ≡ calls.lost_at self.now.stage self.now }
    {
        match self.stage {
            Stage::Requested(_) | Stage::Connected(_) | Stage::Leaving(_, _) => {
                Some(self.closed(CloseReason::LinkDown))
            }
            Stage::Closing(_, _, _) | Stage::Crossed(_, _) => None,
        }
    }

    /// That it is closed.
    pub(crate) fn closed(&self, reason: CloseReason) -> ChannelEvent
        ensures { result ≡ Closed self.now.own self.now.psm reason }
    {
        ChannelEvent::Closed(self.own, self.psm, reason)
    }

    /// How far it is.
    pub(crate) fn stage(&self) -> Stage
        ensures { IsStage result self.now.stage }
    {
        self.stage
    }

    /// It goes on to a stage at which its options do not matter.
    pub(crate) fn hide(&mut self, stage: Stage)
        requires { hides_setup stage ≡ true }
        ensures { self.new ≡ record self.old { stage = stage_value stage value.no_setup } }
    {
        self.stage = stage;
    }

    /// The host asks for its end.
    pub(crate) fn leave(&mut self, request: Request)
        ensures { self.new ≡ record self.old { stage = left (request_value request) self.old.stage } }
    {
        let stage = self.stage;
        if let Stage::Connected(peer) = stage {
            self.stage = Stage::Leaving(peer, request);
        }
    }

    /// An SDU of at most `peer_mtu` octets waits from now on, where it is open and none waits.
    pub(crate) fn put(&mut self, sdu: &[u8])
        requires { IfSome (option_map calls.carrier_mtu (calls.open_carrier (setup_of self.old.stage))) (λ mtu. length sdu.now ≤ mtu) }
        ensures { self.new ≡ record self.old { stage = sent sdu.now self.old.stage } }
    {
        match (self.stage, &self.setup.own) {
            (Stage::Connected(_) | Stage::Leaving(_, _), Own::Granted) => self.line.put(sdu),
            _ => {}
        }
    }

    /// Writes the next PDU of its carrier, as `Line::give` does.
    pub(crate) fn give(&mut self, into: &mut [u8]) -> Option<usize>
        requires { 32775 ≤ length into.old }
        ensures pdu { WritesNext (stage_gives self.old.stage) into.old result into.new }
        ensures after { self.new ≡ record self.old { stage = spent self.old.stage } }
    {
        let stage = self.stage;
        match stage {
            Stage::Connected(peer) => self.line.give(peer, into),
            Stage::Leaving(peer, _) => self.line.give(peer, into),
            Stage::Requested(_) | Stage::Closing(_, _, _) | Stage::Crossed(_, _) => None,
        }
    }

    /// Writes the own request about it, where it waits for its response, as `Line::give` does.
    pub(crate) fn put_request(&self, errand: Errand, into: &mut [u8]) -> Option<usize>
        requires { 32775 ≤ length into.old }
        ensures { WritesNext (option_map Signal (command_at errand self.now)) into.old result into.new }
    {
        match errand {
            Errand::Connection { .. } => self.put_connection(into),
            Errand::Configuration { .. } => self.put_configuration(into),
            Errand::Disconnection { .. } => self.put_disconnection(into),
            Errand::Features => None,
        }
    }

    fn put_connection(&self, into: &mut [u8]) -> Option<usize>
        requires { 32775 ≤ length into.old }
        ensures { WritesNext (option_map Signal (connection_at self.now.stage self.now)) into.old result into.new }
    {
        let Stage::Requested(request) = self.stage else {
            return None;
        };
        let kind = SignalKind::ConnectionRequest {
            psm: self.psm.get(),
            source: self.own.get(),
        };
        Some(put_command(request.identifier, kind, into))
    }

    fn put_configuration(&self, into: &mut [u8]) -> Option<usize>
        requires { 32775 ≤ length into.old }
        ensures { WritesNext (option_map Signal (configuration_at self.now.stage)) into.old result into.new }
    {
        let Own::Asking(request, options) = &self.setup.own else {
            return None;
        };
        match self.stage {
            Stage::Connected(peer) => Some(put_options_request(peer, request, options, into)),
            Stage::Leaving(peer, _) => Some(put_options_request(peer, request, options, into)),
            Stage::Requested(_) | Stage::Closing(_, _, _) | Stage::Crossed(_, _) => None,
        }
    }

    fn put_disconnection(&self, into: &mut [u8]) -> Option<usize>
        requires { 32775 ≤ length into.old }
        ensures { WritesNext (option_map Signal (disconnection_at self.now.stage self.now)) into.old result into.new }
    {
        let (peer, request) = match self.stage {
            Stage::Leaving(peer, request) => (peer, request),
            Stage::Closing(peer, request, _) => (peer, request),
            Stage::Crossed(peer, request) => (peer, request),
            Stage::Requested(_) | Stage::Connected(_) => return None,
        };
        let kind = SignalKind::DisconnectionRequest {
            destination: peer.get(),
            source: self.own.get(),
        };
        Some(put_command(request.identifier, kind, into))
    }

    /// The own request about it was given once more.
    pub(crate) fn count(&mut self, errand: Errand)
        ensures { self.new ≡ record self.old { stage = stage_counted errand self.old.stage } }
    {
        match errand {
            Errand::Connection { .. } => self.count_connection(),
            Errand::Configuration { .. } => self.count_configuration(),
            Errand::Disconnection { .. } => self.count_disconnection(),
            Errand::Features => {}
        }
    }

    fn count_connection(&mut self)
        ensures { self.new ≡ record self.old { stage = connection_given self.old.stage } }
    {
        let stage = self.stage;
        if let Stage::Requested(request) = stage {
            self.stage = Stage::Requested(request.once_more());
        }
    }

    fn count_configuration(&mut self)
        ensures { self.new ≡ record self.old { stage = configuration_given self.old.stage } }
    {
        self.setup.own.count();
    }

    fn count_disconnection(&mut self)
        ensures { self.new ≡ record self.old { stage = disconnection_given self.old.stage } }
    {
        let stage = self.stage;
        match stage {
            Stage::Leaving(peer, request) => {
                self.stage = Stage::Leaving(peer, request.once_more());
            }
            Stage::Closing(peer, request, checked) => {
                self.stage = Stage::Closing(peer, request.once_more(), checked);
            }
            Stage::Crossed(peer, request) => {
                self.stage = Stage::Crossed(peer, request.once_more());
            }
            Stage::Requested(_) | Stage::Connected(_) => {}
        }
    }

    /// The own request for options that waits.
    pub(crate) fn asked(&self) -> Option<Request>
        ensures { option_map request_value result ≡ asked_on (setup_of self.now.stage) }
    {
        match (self.stage, &self.setup.own) {
            (Stage::Connected(_) | Stage::Leaving(_, _), Own::Asking(request, _)) => Some(*request),
            _ => None,
        }
    }

    /// The timer of its machine fires, where it has one. Where the machine closes the channel closes with
    /// it, by this request for its end unless one waits, and the answer is why.
    pub(crate) fn fire(&mut self, request: Request) -> Option<ErtmReason>
        ensures reason { result ≡ reason_on (setup_of self.old.stage) }
        ensures after { self.new ≡ record self.old { stage = timed_stage (request_value request) self.old.stage } }
    {
        let stage = self.stage;
        let checked = self.has_fcs();
        let shut = match stage {
            Stage::Connected(peer) => Stage::Closing(peer, request, checked),
            Stage::Leaving(peer, before) => Stage::Closing(peer, before, checked),
            Stage::Requested(_) | Stage::Closing(_, _, _) | Stage::Crossed(_, _) => return None,
        };
        let reason = self.line.fire()?;
        self.stage = shut;
        Some(reason)
    }

    /// Whether this is the peer's endpoint of it.
    pub(crate) fn is_peer(&self, endpoint: u16) -> bool
        ensures { result ≡ is_peer endpoint self.now.stage }
    {
        match self.stage {
            Stage::Connected(peer) => endpoint == peer.get(),
            Stage::Leaving(peer, _) => endpoint == peer.get(),
            Stage::Closing(peer, _, _) => endpoint == peer.get(),
            Stage::Crossed(peer, _) => endpoint == peer.get(),
            Stage::Requested(_) => false,
        }
    }

    /// Whether this is the peer's endpoint of it, and the peer did not ask for its end.
    pub(crate) fn is_live_peer(&self, endpoint: u16) -> bool
        ensures { result ≡ is_live_peer endpoint self.now.stage }
    {
        match self.stage {
            Stage::Connected(peer) => endpoint == peer.get(),
            Stage::Leaving(peer, _) => endpoint == peer.get(),
            Stage::Closing(peer, _, _) => endpoint == peer.get(),
            Stage::Requested(_) | Stage::Crossed(_, _) => false,
        }
    }
}
