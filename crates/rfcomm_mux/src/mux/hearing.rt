//! What a multiplexer makes of an SDU.

ghost use Rattle.std.specs.Prelude.{◌≡◌, ◌<◌};
ghost use Rattle.rfcomm_frames.specs.Frames.{plain};
ghost use Rattle.rfcomm_model.specs.Hearing.{has_room, says_dm, opens_control, opens_user, signals_next, hears_sabm, control_answered, user_answered, hears_ua, hears_dm, hears_disc, with_credits, credited, charged, hears_data, hears_uih, hears_kind, hears_settled, hears_frame, hears, data_of, read_data, ends, up};
ghost use Rattle.rfcomm_frames.specs.FrameReading.{frame_answer};
ghost use Rattle.rfcomm_mux.specs.Ups.{up_of};

use super::Mux;
use crate::reading::frame_in;
use rfcomm_frames::{Dlc, MuxFrame, MuxKind, Role};
use rfcomm_model::{Asks, Command, MuxReason};

/// What an SDU brings up.
#[derive(Clone, Copy, Debug)]
pub enum MuxUp<'a> {
    Nothing,
    /// Octets may be sent from now on: both MSC commands were answered.
    Opened,
    /// Information on the user channel.
    Bytes(&'a [u8]),
    /// The multiplexer was closed, for good.
    Closed(MuxReason),
}

impl Mux {
    /// Takes an SDU of the L2CAP channel, and answers what it brings up: `Closed` where it closes
    /// the multiplexer, `Opened` where octets may be sent from now on, `Bytes` for information on the
    /// open user channel, and else `Nothing`.
    ///
    /// It closes with `Dm` at DM on one of the two channels that does not answer an own DISC, with
    /// `Disc` at a DISC that is answered by UA and at the answer to the last own DISC, with
    /// `NoCreditFlow` at PN without credit flow and at SABM on the user channel without PN before it,
    /// with `Overdrawn` at information without a credit, with `BadFrame` at a frame or a control
    /// message that is refused and at a PN with a frame size below 23, and with `CreditOverflow`
    /// where more than 65,535 credits would be held.
    pub fn on_sdu<'a>(&mut self, sdu: &'a [u8]) -> MuxUp<'a>
        ensures machine { self.new ≡ hears sdu.now self.old }
        ensures up { up_of result ≡ up sdu.now self.old }
    {
        let before = self.closed;
        let was_ready = self.is_ready();
        let octets = self.heard(sdu);
        match (before, self.closed) {
            (Some(_), _) => MuxUp::Nothing,
            (None, Some(reason)) => MuxUp::Closed(reason),
            (None, None) if self.is_ready() && !was_ready => MuxUp::Opened,
            (None, None) if octets.is_empty() => MuxUp::Nothing,
            (None, None) => MuxUp::Bytes(octets),
        }
    }

    /// Takes an SDU, and answers the information on the open user channel that it has.
    fn heard<'a>(&mut self, sdu: &'a [u8]) -> &'a [u8]
        ensures machine { self.new ≡ hears sdu.now self.old }
        ensures octets { result.now ≡ read_data (frame_answer sdu.now) self.old }
    {
        match frame_in(sdu) {
            Ok(frame) => {
                let octets = self.data_of(&frame);
                self.hears_frame(&frame);
                octets
            }
            Err(_) => {
                if self.closed.is_none() {
                    self.shut(MuxReason::BadFrame);
                }
                &[]
            }
        }
    }

    /// The information on the open user channel that a frame has.
    fn data_of<'a>(&self, frame: &MuxFrame<'a>) -> &'a [u8]
        ensures { result.now ≡ data_of (plain frame.now) self.now }
    {
        match frame.kind {
            MuxKind::Uih if frame.dlci != 0 && frame.dlci == self.dlci && self.is_open() => {
                frame.octets
            }
            _ => &[],
        }
    }

    fn hears_frame(&mut self, frame: &MuxFrame<'_>)
        requires { frame.now.dlci < 64 }
        ensures { self.new ≡ hears_frame self.old.closed (plain frame.now) self.old }
    {
        match self.closed {
            None => self.hears_kind(frame),
            Some(MuxReason::Dm | MuxReason::Disc) => self.hears_settled(frame),
            Some(_) => {}
        }
    }

    /// A multiplexer that stands hears a frame.
    fn hears_kind(&mut self, frame: &MuxFrame<'_>)
        requires { frame.now.dlci < 64 }
        ensures { self.new ≡ hears_kind frame.now.kind (plain frame.now) self.old }
    {
        match frame.kind {
            MuxKind::Sabm if frame.pf => self.hears_sabm(frame.dlci),
            MuxKind::Ua if frame.pf => self.hears_ua(frame.dlci),
            MuxKind::Dm => self.hears_dm(frame.dlci),
            MuxKind::Disc if frame.pf => self.hears_disc(frame.dlci),
            MuxKind::Uih => self.hears_uih(frame),
            _ => {}
        }
    }

    /// One that was closed by DM or DISC hears a frame.
    fn hears_settled(&mut self, frame: &MuxFrame<'_>)
        requires { frame.now.dlci < 64 }
        ensures { self.new ≡ hears_settled frame.now.kind (plain frame.now) self.old }
    {
        match frame.kind {
            MuxKind::Sabm if frame.pf => self.says_dm(frame.dlci),
            MuxKind::Disc if frame.pf => self.hears_disc(frame.dlci),
            _ => {}
        }
    }

    /// DM on a channel waits to be sent, where there is room for it.
    pub(super) fn says_dm(&mut self, dlci: u8)
        requires { dlci < 64 }
        ensures { self.new ≡ says_dm dlci self.old }
    {
        if self.answers.has_room() {
            self.answers.refuse(dlci);
        }
    }

    fn hears_sabm(&mut self, dlci: u8)
        requires { dlci < 64 }
        ensures { self.new ≡ hears_sabm self.old.role dlci self.old }
    {
        match self.answers.role() {
            Role::Responder if dlci == 0 => self.opens_control(),
            Role::Responder if dlci == self.dlci => self.opens_user(),
            _ => self.says_dm(dlci),
        }
    }

    fn opens_control(&mut self)
        ensures { self.new ≡ opens_control self.old }
    {
        if self.control == Dlc::Ended {
            self.says_dm(0);
        } else if self.answers.has_room() {
            self.control = self.control.turned(Role::Initiator, MuxKind::Sabm);
            self.answers.agree(0);
        }
    }

    fn opens_user(&mut self)
        ensures { self.new ≡ opens_user self.old }
    {
        if !self.agreed {
            self.shut(MuxReason::NoCreditFlow);
        } else if self.user == Dlc::Ended {
            self.says_dm(self.dlci);
        } else if self.answers.has_room() {
            self.asks = signals_next(self.user, self.asks);
            self.user = self.user.turned(Role::Initiator, MuxKind::Sabm);
            self.answers.agree(self.dlci);
        }
    }

    fn hears_ua(&mut self, dlci: u8)
        ensures { self.new ≡ hears_ua dlci self.old }
    {
        let peer = self.answers.role().other();
        if dlci == 0 {
            self.control = self.control.turned(peer, MuxKind::Ua);
            self.control_answered();
        } else if dlci == self.dlci {
            self.user = self.user.turned(peer, MuxKind::Ua);
            self.asks = user_answered(self.asks);
        }
    }

    /// UA came on the control channel.
    fn control_answered(&mut self)
        ensures { self.new ≡ control_answered self.old.asks self.old }
    {
        match self.asks {
            Asks::Awaited(Command::OpenControl) => self.asks = Asks::Due(Command::Agree),
            Asks::Awaited(Command::LeaveControl) => self.shut(MuxReason::Disc),
            _ => {}
        }
    }

    fn hears_dm(&mut self, dlci: u8)
        ensures { self.new ≡ hears_dm dlci self.old }
    {
        if dlci == 0 {
            match self.asks {
                Asks::Awaited(Command::LeaveControl) => self.shut(MuxReason::Disc),
                _ => self.shut(MuxReason::Dm),
            }
        } else if dlci == self.dlci {
            match self.asks {
                Asks::Awaited(Command::LeaveUser) => {
                    self.asks = Asks::Due(Command::LeaveControl);
                }
                _ => self.shut(MuxReason::Dm),
            }
        }
    }

    fn hears_disc(&mut self, dlci: u8)
        requires { dlci < 64 }
        ensures { self.new ≡ hears_disc dlci self.old }
    {
        let peer = self.answers.role().other();
        if dlci == 0 && self.control.is_left(peer) {
            if self.answers.has_room() {
                self.control = Dlc::Ended;
                self.is_left_by_peer();
                self.answers.agree(0);
            }
        } else if dlci == self.dlci && self.user.is_left(peer) {
            if self.answers.has_room() {
                self.user = Dlc::Ended;
                self.is_left_by_peer();
                self.answers.agree(self.dlci);
            }
        } else {
            self.says_dm(dlci);
        }
    }

    /// A DISC of the peer closes it, where it was not closed before.
    fn is_left_by_peer(&mut self)
        ensures { self.new ≡ ends self.old.closed self.old }
    {
        if self.closed.is_none() {
            self.shut(MuxReason::Disc);
        }
    }

    fn hears_uih(&mut self, frame: &MuxFrame<'_>)
        ensures { self.new ≡ hears_uih (plain frame.now) self.old }
    {
        if frame.dlci == 0 {
            self.hears_messages(frame.octets);
        } else if frame.dlci == self.dlci && self.is_open() {
            self.hears_data(frame);
        }
    }

    /// Credits and information on the open user channel.
    fn hears_data(&mut self, frame: &MuxFrame<'_>)
        ensures { self.new ≡ hears_data (plain frame.now) self.old }
    {
        if let Some(credits) = frame.credits {
            self.credited(credits);
        }
        if self.closed.is_none() {
            self.charged(frame.octets);
        }
    }

    /// The peer granted credits.
    pub(super) fn credited(&mut self, n: u8)
        ensures { self.new ≡ credited n self.old }
    {
        if self.account.granted(n).is_err() {
            self.shut(MuxReason::CreditOverflow);
        }
    }

    /// Information came, which costs the peer a credit.
    fn charged(&mut self, octets: &[u8])
        ensures { self.new ≡ charged octets.now self.old }
    {
        if !octets.is_empty() && self.account.heard().is_err() {
            self.shut(MuxReason::Overdrawn);
        }
    }
}

/// What is asked once the peer asked for the user channel.
fn signals_next(user: Dlc, asks: Asks) -> Asks
    ensures { result ≡ signals_next user asks }
{
    match (user, asks) {
        (Dlc::Idle, Asks::Nothing) => Asks::Due(Command::Signal),
        _ => asks,
    }
}

/// What is asked once UA came on the user channel.
fn user_answered(asks: Asks) -> Asks
    ensures { result ≡ user_answered asks }
{
    match asks {
        Asks::Awaited(Command::OpenUser) => Asks::Due(Command::Signal),
        Asks::Awaited(Command::LeaveUser) => Asks::Due(Command::LeaveControl),
        _ => asks,
    }
}
