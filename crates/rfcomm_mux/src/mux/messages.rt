//! What a multiplexer makes of control messages (TS 07.10, 5.4.6.3; RFCOMM 1.2, 4.3 and 5.5.3).

ghost use Rattle.std.specs.Prelude.{◌≡◌, ◌<◌, ◌≤◌, true, false, length, nat_le};
ghost use Rattle.bt_base.specs.Octets.{IsOctets};
ghost use Rattle.rfcomm_frames.specs.Controls.{plain_control, rpn, value_of, written, IsControl};
ghost use Rattle.rfcomm_frames.specs.FrameReading.{messages};
ghost use Rattle.rfcomm_model.specs.Hearing.{tells, lesser, settings_of, pn_credited, own_credits, hears_offer, terms_agreed, hears_acceptance, hears_other_offer, hears_pn, peer_answered, own_answered, signals_answered, hears_msc, hears_control, hears_messages};

use super::{Mux, first_credits};
use crate::reading::{behind, message_in};
use rfcomm_frames::{Control, Dlc};
use rfcomm_model::{Asks, Command, MuxReason, Readiness};

/// What PN says of a channel.
#[derive(Clone, Copy)]
struct Terms {
    dlci: u8,
    flow: u8,
    priority: u8,
    frame: u16,
    credits: u8,
}

impl Mux {
    /// One message after the other, until one closes the multiplexer.
    pub(super) fn hears_messages(&mut self, octets: &[u8])
        ensures { self.new ≡ hears_messages (messages octets.now) self.old }
    {
        let mut rest = octets;
        while !rest.is_empty() && self.closed.is_none() {
            match message_in(rest) {
                Ok((control, used)) => {
                    self.hears_control(&control);
                    rest = behind(rest, used);
                }
                Err(_) => {
                    self.shut(MuxReason::BadFrame);
                    rest = &[];
                }
            }
        }
    }

    fn hears_control(&mut self, control: &Control<'_>)
        requires { IsControl (plain_control control.now) }
        ensures { self.new ≡ hears_control (plain_control control.now) self.old }
    {
        match *control {
            Control::Pn {
                command,
                dlci,
                flow,
                priority,
                frame,
                credits,
                ..
            } => {
                let terms = Terms {
                    dlci,
                    flow,
                    priority,
                    frame,
                    credits,
                };
                self.hears_pn(command, terms);
            }
            Control::Msc {
                command,
                dlci,
                signals,
            } => self.hears_msc(command, dlci, signals),
            Control::Test {
                command: true,
                octets,
            } => self.tells(&Control::Test {
                command: false,
                octets,
            }),
            Control::Rpn {
                command: true,
                value,
            } => self.hears_rpn(value),
            Control::Rls {
                command: true,
                value,
            } => self.tells(&Control::Rls {
                command: false,
                value,
            }),
            Control::Other(kind, _) if kind / 2 % 2 == 1 => self.tells(&Control::Nsc(kind)),
            _ => {}
        }
    }

    /// PN: for the user channel an offer or an acceptance, and for another one DM.
    fn hears_pn(&mut self, command: bool, terms: Terms)
        ensures { self.new ≡ hears_pn command terms.dlci terms.flow terms.priority terms.frame terms.credits self.old }
    {
        let dlci = terms.dlci % 64;
        if dlci == self.dlci && command {
            self.hears_offer(terms);
        } else if dlci == self.dlci {
            self.hears_acceptance(terms);
        } else if terms.frame < 23 {
            self.shut(MuxReason::BadFrame);
        } else if command {
            self.says_dm(dlci);
        }
    }

    /// The peer asks for terms of the user channel.
    fn hears_offer(&mut self, terms: Terms)
        ensures { self.new ≡ hears_offer terms.flow terms.priority terms.frame terms.credits self.old }
    {
        if terms.flow / 16 != 0xF {
            self.shut(MuxReason::NoCreditFlow);
        } else if terms.frame < 23 {
            self.shut(MuxReason::BadFrame);
        } else if self.answers.has_room() {
            let frame = lesser(self.own, terms.frame);
            let credits = self.own_credits();
            self.answers.tell(&Control::Pn {
                command: false,
                dlci: self.dlci,
                flow: 0xE0,
                priority: terms.priority,
                timer: 0,
                frame,
                retransmissions: 0,
                credits,
            });
            self.frame = frame;
            self.agreed = true;
            self.stated = true;
            self.pn_credited(terms.credits);
        }
    }

    /// The peer accepts terms of the user channel.
    fn hears_acceptance(&mut self, terms: Terms)
        ensures { self.new ≡ hears_acceptance terms.flow terms.frame terms.credits self.old }
    {
        if terms.flow / 16 != 0xE {
            self.shut(MuxReason::NoCreditFlow);
        } else if terms.frame < 23 {
            self.shut(MuxReason::BadFrame);
        } else {
            self.frame = lesser(self.own, terms.frame);
            self.agreed = true;
            self.asks = terms_agreed(self.asks);
            self.pn_credited(terms.credits);
        }
    }

    /// The initial credits that are stated to the peer, one time.
    pub(super) fn own_credits(&self) -> u8
        ensures { result ≡ own_credits self.now }
    {
        if self.stated {
            0
        } else {
            first_credits(self.cap)
        }
    }

    /// PN grants credits, until one of the channels was closed.
    fn pn_credited(&mut self, credits: u8)
        ensures { self.new ≡ pn_credited credits self.old }
    {
        if self.user != Dlc::Ended && self.control != Dlc::Ended {
            self.credited(credits % 8);
        }
    }

    /// MSC, whose channel stands in an address octet.
    fn hears_msc(&mut self, command: bool, address: u8, signals: u8)
        ensures { self.new ≡ hears_msc command address signals self.old }
    {
        let is_user = address / 4 == self.dlci;
        if !command {
            if is_user {
                self.signals_answered();
            }
        } else if self.answers.has_room() {
            self.answers.tell(&Control::Msc {
                command: false,
                dlci: address,
                signals,
            });
            if is_user {
                self.ready = peer_answered(self.ready);
            }
        }
    }

    /// The own MSC was answered.
    fn signals_answered(&mut self)
        ensures { self.new ≡ signals_answered self.old.asks self.old }
    {
        if let Asks::Awaited(Command::Signal) = self.asks {
            self.asks = Asks::Nothing;
            self.ready = own_answered(self.ready);
        }
    }

    /// RPN: one octet asks for the settings.
    fn hears_rpn(&mut self, value: &[u8])
        requires { IsOctets value.now }
        ensures { self.new ≡ tells (rpn false (settings_of value.now)) self.old }
    {
        match value {
            [channel] => {
                let settings = [*channel, 0x03, 0x03, 0x00, 0x11, 0x13, 0x7F, 0x3F];
                self.tells(&Control::Rpn {
                    command: false,
                    value: &settings,
                });
            }
            _ => self.tells(&Control::Rpn {
                command: false,
                value,
            }),
        }
    }

    /// A message waits to be sent, where it is short enough and there is room for it.
    fn tells(&mut self, control: &Control<'_>)
        requires { IsControl (plain_control control.now) }
        ensures { self.new ≡ tells (plain_control control.now) self.old }
    {
        if is_short(control) && self.answers.has_room() {
            self.answers.tell(control);
        }
    }
}

fn lesser(a: u16, b: u16) -> u16
    ensures { result ≡ lesser a b }
{
    if a <= b { a } else { b }
}

/// Whether a control message has at most 40 octets: a value of 38 octets leaves two, for the type and
/// the length.
#[tactic(auto, using(crate::proofs::Sizes::short_value, crate::proofs::Sizes::long_value))]
fn is_short(control: &Control<'_>) -> bool
    ensures { result ≡ nat_le (length (written (plain_control control.now))) 40 }
{
    value_len(control) <= 38
}

/// How many octets the value of a control message has.
fn value_len(control: &Control<'_>) -> usize
    ensures { result ≡ length (value_of (plain_control control.now)) }
{
    match *control {
        Control::Pn { .. } => 8,
        Control::Msc { .. } => 2,
        Control::Test { octets, .. } => octets.len(),
        Control::Rpn { value, .. } | Control::Rls { value, .. } | Control::Other(_, value) => {
            value.len()
        }
        Control::Nsc(_) => 1,
    }
}

/// What is asked once terms were accepted.
fn terms_agreed(asks: Asks) -> Asks
    ensures { result ≡ terms_agreed asks }
{
    match asks {
        Asks::Awaited(Command::Agree) => Asks::Due(Command::OpenUser),
        _ => asks,
    }
}

fn peer_answered(ready: Readiness) -> Readiness
    ensures { result ≡ peer_answered ready }
{
    match ready {
        Readiness::Neither | Readiness::Peer => Readiness::Peer,
        Readiness::Own | Readiness::Both => Readiness::Both,
    }
}

fn own_answered(ready: Readiness) -> Readiness
    ensures { result ≡ own_answered ready }
{
    match ready {
        Readiness::Neither | Readiness::Own => Readiness::Own,
        Readiness::Peer | Readiness::Both => Readiness::Both,
    }
}
