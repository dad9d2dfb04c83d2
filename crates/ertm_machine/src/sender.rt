//! The sending side.

ghost use Rattle.std.specs.Prelude.{◌≡◌, ◌≤◌, ◌<◌, ◌+◌, ◌-◌, ◌%◌, ◌||◌, ℕ, IfOk, None, Some, true, false, length, nat_lt, slice_get};
ghost use Rattle.std.specs.Option.{option_map};
ghost use Rattle.ertm_frames.specs.Frames.{plain, IsInformation};
ghost use Rattle.ertm_frames.specs.Picking.{req_of, is_final};
ghost use Rattle.ertm_model.specs.Hearing as hearing;
ghost use Rattle.ertm_model.specs.Submitting.{cut, is_some_fresh};
ghost use Rattle.ertm_machine.specs.Pieces.{octets_of, segment_of_piece};
ghost use Rattle.ertm_machine.specs.Senders.{poll_of, Fires, Polls, Advances, has_next};

use crate::piece::Piece;
use crate::receiver::past;
use crate::window::Window;
use bt_base::NoMemory;
use ertm_frames::{Frame, SKind};
use ertm_model::ErtmReason;
use l2cap_config::Agreed;
use std::alloc::Global;
use std::marker::Model;

/// The poll of a sender.
#[derive(Clone, Copy)]
enum Poll {
    Nothing,
    /// One is to be given.
    Due,
    /// One was given, and the frame with F is awaited.
    Waits,
}

/// The sending side of a machine.
#[derive(Drop)]
pub(crate) struct Sender {
    window: Window,
    /// The number of the first I-frame that is not acknowledged.
    first: u8,
    poll: Poll,
    /// How often a poll was given since the last frame with F came.
    polls: u8,
    /// The peer is not ready.
    busy: bool,
}

impl Model for Sender {
    ghost use Rattle.ertm_machine.specs.Values.{SenderValue};

    ghost Value = { SenderValue };

    ghost use Rattle.ertm_machine.specs.Senders.{sender_value, IsSender};

    ghost view = { sender_value };

    ghost invariant = { IsSender };
}

/// ReqSeq of a frame.
fn req_of(frame: &Frame<'_>) -> u8
    ensures { result ≡ req_of (plain frame.now) }
{
    match *frame {
        Frame::I { req, .. } => req,
        Frame::S { req, .. } => req,
    }
}

/// Whether a frame has the F bit.
fn is_final(frame: &Frame<'_>) -> bool
    ensures { result ≡ is_final (plain frame.now) }
{
    match *frame {
        Frame::I { last, .. } => last,
        Frame::S { last, .. } => last,
    }
}

/// Whether it is a REJ.
fn rejects_frames(frame: &Frame<'_>) -> bool
    ensures { result ≡ hearing.rejects_frames (plain frame.now) }
{
    match *frame {
        Frame::I { .. } => false,
        Frame::S { kind, .. } => match kind {
            SKind::Rej => true,
            SKind::Rr => false,
            SKind::Rnr => false,
            SKind::Srej => false,
        },
    }
}

/// Whether it is a SREJ.
fn selects_frames(frame: &Frame<'_>) -> bool
    ensures { result ≡ hearing.selects_frames (plain frame.now) }
{
    match *frame {
        Frame::I { .. } => false,
        Frame::S { kind, .. } => match kind {
            SKind::Srej => true,
            SKind::Rr => false,
            SKind::Rej => false,
            SKind::Rnr => false,
        },
    }
}

/// Whether the peer is not ready once it said this.
fn busy_after(frame: &Frame<'_>, busy: bool) -> bool
    ensures { result ≡ hearing.busy_after (plain frame.now) busy }
{
    match *frame {
        Frame::I { .. } => busy,
        Frame::S { kind, .. } => match kind {
            SKind::Rr => false,
            SKind::Rej => false,
            SKind::Rnr => true,
            SKind::Srej => busy,
        },
    }
}

/// Whether a frame asks for all I-frames that are not acknowledged: a REJ where no poll waits, and
/// where one does the frame with F.
fn asks_again(poll: Poll, frame: &Frame<'_>) -> bool
    ensures { result ≡ hearing.asks_again (poll_of poll) (plain frame.now) }
{
    match poll {
        Poll::Nothing => rejects_frames(frame),
        Poll::Due => is_final(frame),
        Poll::Waits => is_final(frame),
    }
}

impl Sender {
    ghost use Rattle.ertm_machine.specs.Values.{new_sender_value};
    ghost use Rattle.ertm_machine.specs.Windows.{IsAgreed, IsWithin};

    /// A sender with nothing to send. It reserves what its window needs; `NoMemory` where it cannot
    /// be had.
    pub(crate) fn new(alloc: Global, agreed: &Agreed) -> Result<Sender, NoMemory>
        requires { IsAgreed agreed.now }
        ensures { IfOk result (λ sender. sender ≡ new_sender_value agreed.now agreed.now) }
    {
        let window = Window::new(alloc, agreed)?;
        Ok(Sender {
            window,
            first: 0,
            poll: Poll::Nothing,
            polls: 0,
            busy: false,
        })
    }

    /// Makes it a new sender, under what is agreed now. It takes no memory.
    pub(crate) fn reset(&mut self, agreed: &Agreed)
        requires agreed { IsAgreed agreed.now }
        requires within { IsWithin self.old.reserved agreed.now }
        ensures { self.new ≡ new_sender_value self.old.reserved agreed.now }
    {
        self.window.reset(agreed);
        self.first = 0;
        self.poll = Poll::Nothing;
        self.polls = 0;
        self.busy = false;
    }

    /// What was agreed.
    pub(crate) fn agreed(&self) -> Agreed
        ensures value { result ≡ self.now.agreed }
        ensures fits { IsAgreed result }
    {
        self.window.agreed()
    }

    /// Whether a segment of an SDU was not given yet.
    pub(crate) fn is_waiting(&self) -> bool
        ensures { result ≡ is_some_fresh self.now.sender.fresh }
    {
        self.window.is_waiting()
    }

    /// Takes an SDU.
    pub(crate) fn take(&mut self, sdu: &[u8])
        requires none { is_some_fresh self.old.sender.fresh ≡ false }
        requires fits { length sdu.now ≤ self.old.agreed.send_mtu }
        ensures { self.new ≡ record self.old { sender = record self.old.sender { fresh = cut self.old.agreed.send_mps sdu.now } } }
    {
        self.window.take(sdu);
    }

    /// How many I-frames were given and are not acknowledged.
    pub(crate) fn used(&self) -> u8
        ensures used { result ≡ length self.now.sender.unacked }
        ensures few { result ≤ 63 }
    {
        self.window.used()
    }

    /// Whether one is, or a poll was given and no frame with F came since.
    pub(crate) fn is_armed(&self) -> bool
        ensures { result ≡ (nat_lt 0 (length self.now.sender.unacked) || nat_lt 0 self.now.sender.polls) }
    {
        self.window.used() > 0 || self.polls > 0
    }

    /// Why a frame closes, by what it says to the sender: `BadReqSeq` where its ReqSeq is not between
    /// the first frame that is not acknowledged and the next new one; then `Srej` for a selective
    /// reject; then `RetryLimit` where it asks for a frame that was given as often as may be.
    pub(crate) fn fault(&self, frame: &Frame<'_>) -> Option<ErtmReason>
        ensures { result ≡ hearing.sender_fault self.now.agreed.tries (plain frame.now) self.now.sender }
    {
        let count = past(self.first, req_of(frame));
        if self.window.used() < count {
            return Some(ErtmReason::BadReqSeq);
        }
        if selects_frames(frame) {
            return Some(ErtmReason::Srej);
        }
        if asks_again(self.poll, frame) && self.window.has_spent(count) {
            return Some(ErtmReason::RetryLimit);
        }
        None
    }

    /// Hears a frame that does not close: what it acknowledges, what it asks for, the end of a wait.
    pub(crate) fn hear(&mut self, frame: &Frame<'_>)
        requires { hearing.sender_fault self.old.agreed.tries (plain frame.now) self.old.sender ≡ None }
        ensures { self.new ≡ record self.old { sender = hearing.sender_after (plain frame.now) self.old.sender } }
    {
        let count = past(self.first, req_of(frame));
        self.window.acknowledge(count);
        if asks_again(self.poll, frame) {
            self.window.rewind();
        }
        self.first = (self.first + count) % 64;
        if is_final(frame) {
            self.poll = Poll::Nothing;
            self.polls = 0;
        }
        self.busy = busy_after(frame, self.busy);
    }

    /// The timer fires: a poll is to be given where an I-frame is not acknowledged, and again where
    /// its answer is awaited. Whether it was given as often as may be: then nothing changes.
    pub(crate) fn fire(&mut self) -> bool
        ensures { Fires self.old result self.new }
    {
        match self.poll {
            Poll::Nothing => {
                if self.window.used() > 0 {
                    self.poll = Poll::Due;
                }
                false
            }
            Poll::Due => false,
            Poll::Waits => {
                if self.polls >= self.window.agreed().tries {
                    return true;
                }
                self.poll = Poll::Due;
                false
            }
        }
    }

    /// Whether a poll is given now.
    pub(crate) fn give_poll(&mut self) -> bool
        ensures { Polls self.old result self.new }
    {
        match self.poll {
            Poll::Due => {
                self.poll = Poll::Waits;
                self.polls += 1;
                true
            }
            Poll::Nothing => false,
            Poll::Waits => false,
        }
    }

    /// Whether an I-frame is given now. None is while the answer to a poll is awaited or the peer is
    /// not ready.
    pub(crate) fn advance(&mut self) -> bool
        ensures { Advances self.old result self.new }
    {
        match self.poll {
            Poll::Nothing => !self.busy && self.window.advance(),
            Poll::Due => false,
            Poll::Waits => false,
        }
    }

    /// Whether a poll or an I-frame is given now, where `give_poll` and `advance` are asked.
    pub(crate) fn has_next(&self) -> bool
        ensures { result ≡ has_next self.now }
    {
        match self.poll {
            Poll::Nothing => !self.busy && self.window.has_next(),
            Poll::Due => true,
            Poll::Waits => false,
        }
    }

    /// The number of the I-frame that was given last.
    pub(crate) fn latest_number(&self) -> u8
        requires { 0 < self.now.sender.next }
        ensures number { result ≡ (self.now.sender.first + (self.now.sender.next - 1)) % 64 }
        ensures fits { result < 64 }
    {
        (self.first + (self.window.next() - 1)) % 64
    }

    /// Its segment.
    pub(crate) fn latest(&self) -> Piece<'_>
        requires { 0 < self.now.sender.next }
        ensures segment { option_map (λ kept. kept.segment) (slice_get self.now.sender.unacked (self.now.sender.next - 1)) ≡ Some (segment_of_piece result) }
        ensures size { length (octets_of result) ≤ 1010 }
        ensures fits { (tx req : ℕ) → tx < 64 → req < 64 → IsInformation tx req result.sar result.total (octets_of result) }
    {
        self.window.latest()
    }
}
