//! The machine of one end of an enhanced channel.

ghost use Rattle.std.specs.Prelude.{◌≡◌, ◌≤◌, length, None, is_some, IfOk, IfSome};
ghost use Rattle.ertm_frames.specs.Frames.{plain, IsFrame};
ghost use Rattle.ertm_model.specs.Value as value;
ghost use Rattle.ertm_model.specs.Giving.{timed, next_frame};
ghost use Rattle.ertm_model.specs.Hearing as hearing;
ghost use Rattle.ertm_model.specs.Hearing.{refused};
ghost use Rattle.ertm_model.specs.Submitting.{is_busy};
ghost use Rattle.l2cap_config.specs.declared.wish.Mode.TheVariants.{Enhanced};

use crate::answers::{Heard, Submit};
use crate::joiner::{Segment, Taken};
use crate::receiver::{Receiver, supervisory};
use crate::sender::Sender;
use crate::writing::put_information;
use bt_base::{Cid, NoMemory};
use ertm_frames::{Frame, FrameRefusal, SKind, put_frame};
use ertm_model::ErtmReason;
use l2cap_config::Agreed;
use std::alloc::Global;
use std::marker::Model;

/// One end of an L2CAP channel in enhanced retransmission mode (Core 5.1, Volume 3 Part A, 8.6). A
/// clause sees the value of it that `ertm_model` has, and what its memory was reserved for.
#[derive(Drop)]
pub struct Ertm {
    sender: Sender,
    receiver: Receiver,
    closed: Option<ErtmReason>,
}

impl Model for Ertm {
    ghost use Rattle.ertm_machine.specs.Values.{Machine};

    ghost Value = { Machine };

    ghost use Rattle.ertm_machine.specs.Machines.{machine_value, IsMachine};

    ghost view = { machine_value };

    ghost invariant = { IsMachine };
}

impl Ertm {
    ghost use Rattle.std.specs.Prelude.{⊤};
    ghost use Rattle.std.specs.Borrow.{sem};
    ghost use mathlib.Core.Option.{none};
    ghost use denote.Follow.{follows_so};
    ghost use Rattle.ertm_machine.specs.contracts.machine.Ertm.{the_row};
    ghost use Rattle.ertm_machine.specs.Values.{new_machine};
    ghost use Rattle.ertm_machine.specs.Windows.{IsAgreed, IsWithin};
    ghost use Rattle.ertm_machine.specs.Machines.{Submits, Hears, Gives};

    /// A new machine for what was agreed, which reserves all memory that it ever needs; `NoMemory`
    /// where it cannot be had.
    pub fn new(alloc: Global, agreed: &Agreed) -> Result<Ertm, NoMemory>
        requires mode { agreed.now.mode ≡ Enhanced }
        requires agreed { IsAgreed agreed.now }
        ensures { IfOk result (λ ertm. ertm ≡ new_machine agreed.now agreed.now) }
    {
        let sender = Sender::new(alloc, agreed)?;
        let receiver = Receiver::new(alloc, agreed.receive_mtu)?;
        Ok(Ertm {
            sender,
            receiver,
            closed: None,
        })
    }

    /// Makes it a new machine for what is agreed now, which takes no more memory than what was agreed
    /// at `new`. It takes no memory itself.
    pub fn reset(&mut self, agreed: &Agreed)
        requires mode { agreed.now.mode ≡ Enhanced }
        requires agreed { IsAgreed agreed.now }
        requires within { IsWithin self.old.reserved agreed.now }
        ensures { self.new ≡ new_machine self.old.reserved agreed.now }
    {
        self.sender.reset(agreed);
        self.receiver.reset();
        self.closed = None;
    }

    /// What was agreed.
    pub fn agreed(&self) -> Agreed
        ensures { result ≡ self.now.ertm.agreed }
    {
        self.sender.agreed()
    }

    /// Whether a segment of an SDU was not given yet, so that `submit` would answer `Busy`.
    pub fn waits(&self) -> bool
        ensures { result ≡ is_busy self.now.ertm }
    {
        self.sender.is_waiting()
    }

    /// Takes an SDU, of at most `send_mtu` octets: `Busy` where a segment of the SDU before was not
    /// given yet, and then nothing changes.
    pub fn submit(&mut self, sdu: &[u8]) -> Submit
        requires open { self.old.ertm.closed ≡ None }
        requires fits { length sdu.now ≤ self.old.ertm.agreed.send_mtu }
        ensures { Submits self.old sdu.now result self.new }
    {
        if self.sender.is_waiting() {
            return Submit::Busy;
        }
        self.sender.take(sdu);
        Submit::Taken
    }

    /// Why a frame would close the machine, where it is open and the frame would.
    pub fn fault(&self, frame: &Frame<'_>) -> Option<ErtmReason>
        requires { IsFrame (plain frame.now) }
        ensures { result ≡ hearing.fault (plain frame.now) self.now.ertm }
    {
        if let Some(reason) = self.sender.fault(frame) {
            return Some(reason);
        }
        match *frame {
            Frame::I {
                tx,
                sar,
                total,
                octets,
                ..
            } => {
                let segment = Segment { sar, total, octets };
                self.receiver.fault(&self.sender.agreed(), tx, &segment)
            }
            Frame::S { .. } => None,
        }
    }

    /// Hears a frame. An SDU that came in one segment is lent from the frame, and one that was cut
    /// from the machine. A machine that closes changes in nothing else; a closed one answers the same
    /// reason for good.
    pub fn on_frame<'a>(&'a mut self, frame: Frame<'a>) -> Heard<'a>
        requires { IsFrame (plain frame) }
        ensures* { sem 𝓛 (follows_so the_row the_row self.entry.ghost_name none (λ _ _. ⊤) (λ new. Hears self.old (plain frame.entry) result new)) }
    {
        if let Some(reason) = self.closed {
            return Heard::Closed(reason);
        }
        if let Some(reason) = self.sender.fault(&frame) {
            self.closed = Some(reason);
            return Heard::Closed(reason);
        }
        match frame {
            Frame::I {
                tx,
                sar,
                total,
                octets,
                ..
            } => {
                let segment = Segment { sar, total, octets };
                let agreed = self.sender.agreed();
                let taken = match self.receiver.hear(&agreed, tx, &segment) {
                    Ok(taken) => taken,
                    Err(reason) => {
                        self.closed = Some(reason);
                        return Heard::Closed(reason);
                    }
                };
                self.sender.hear(&frame);
                match taken {
                    Taken::Nothing => Heard::Nothing,
                    Taken::Lent => Heard::Sdu(octets),
                    Taken::Joined => Heard::Sdu(self.receiver.joined()),
                }
            }
            Frame::S { poll, .. } => {
                self.receiver.note_poll(poll);
                self.sender.hear(&frame);
                Heard::Nothing
            }
        }
    }

    /// Hears of a PDU that is no frame. A damaged one is dropped, as if it were lost; any other closes
    /// with `BadFrame`. Answers why the machine is closed, where it is.
    pub fn on_refusal(&mut self, refusal: FrameRefusal) -> Option<ErtmReason>
        ensures after { self.new ≡ record self.old { ertm = refused refusal self.old.ertm } }
        ensures answer { result ≡ self.new.ertm.closed }
    {
        if self.closed.is_none() {
            match refusal {
                FrameRefusal::Short | FrameRefusal::BadFcs => {}
                FrameRefusal::ReservedSet | FrameRefusal::BadStart | FrameRefusal::AboveMps => {
                    self.closed = Some(ErtmReason::BadFrame);
                }
            }
        }
        self.closed
    }

    /// Writes the next frame for the channel from the front of `into`, of at least 1,020 octets, and
    /// answers how many octets it has; the octets behind it stay as they are. None where there is
    /// nothing to give: the answer to a poll comes first, then RR or REJ, then a poll, then I-frames.
    pub fn next_frame(&mut self, cid: Cid, into: &mut [u8]) -> Option<usize>
        requires { 1020 ≤ length into.old }
        ensures gives { Gives self.old cid into.old result self.new into.new }
        ensures few { IfSome result (λ count. count ≤ 1020) }
    {
        if self.closed.is_some() {
            return None;
        }
        let req = self.receiver.expected();
        if let Some(frame) = self.receiver.give() {
            return Some(put_frame(cid, &frame, into));
        }
        if self.sender.give_poll() {
            let poll = supervisory(SKind::Rr, true, false, req);
            return Some(put_frame(cid, &poll, into));
        }
        if !self.sender.advance() {
            return None;
        }
        let tx = self.sender.latest_number();
        let piece = self.sender.latest();
        Some(put_information(cid, tx, req, &piece, into))
    }

    /// Whether there is a frame to give, so that `next_frame` would write one.
    #[tactic(auto, using(crate::proofs::Asking::gives_is))]
    pub fn gives(&self) -> bool
        ensures { result ≡ is_some (next_frame self.now.ertm) }
    {
        if self.closed.is_some() {
            return false;
        }
        self.receiver.has_reply() || self.sender.has_next()
    }

    /// The timer fires. Where an I-frame is not acknowledged, or the answer to a poll is awaited, a
    /// poll is to be given; `RetryLimit` where it was given as often as may be. Answers why the
    /// machine is closed, where it is.
    pub fn on_timer(&mut self) -> Option<ErtmReason>
        ensures after { self.new ≡ record self.old { ertm = timed self.old.ertm } }
        ensures answer { result ≡ self.new.ertm.closed }
    {
        if self.closed.is_none() && self.sender.fire() {
            self.closed = Some(ErtmReason::RetryLimit);
        }
        self.closed
    }

    /// Whether an I-frame is not acknowledged, or a poll was given and no frame with F came since.
    pub fn armed(&self) -> bool
        ensures { result ≡ value.armed self.now.ertm }
    {
        self.sender.is_armed()
    }

    /// How many I-frames were given and are not acknowledged.
    pub fn window_used(&self) -> u8
        ensures used { result ≡ value.window_used self.now.ertm }
        ensures few { result ≤ 63 }
    {
        self.sender.used()
    }

    /// Why the machine is closed, where it is.
    pub fn closed(&self) -> Option<ErtmReason>
        ensures { result ≡ self.now.ertm.closed }
    {
        self.closed
    }
}
