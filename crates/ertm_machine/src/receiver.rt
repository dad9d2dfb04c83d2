//! The receiving side.

ghost use Rattle.std.specs.Prelude.{◌≡◌, ◌≢◌, ◌≤◌, ◌<◌, ◌||◌, IfOk, IsTrue, None};
ghost use Rattle.ertm_frames.specs.Frames.{plain};
ghost use Rattle.ertm_frames.specs.Frames as spelled;
ghost use Rattle.ertm_model.specs.Hearing as hearing;
ghost use Rattle.ertm_machine.specs.Joiners.{plain_segment};
ghost use Rattle.ertm_machine.specs.Receivers.{place_of, Hears, Replies, replies};

use crate::joiner::{Joiner, Segment, Taken};
use bt_base::NoMemory;
use ertm_frames::{Frame, SKind};
use ertm_model::ErtmReason;
use l2cap_config::Agreed;
use std::alloc::Global;
use std::marker::Model;

/// The RR or REJ that is to be given.
#[derive(Clone, Copy)]
enum Reply {
    Nothing,
    Acknowledges,
    Rejects,
}

/// Where an I-frame's number stands to the expected one.
#[derive(Clone, Copy)]
enum Place {
    Expected,
    /// Frames before it are missing.
    Ahead,
    /// It is a repeat, or there is no telling.
    Other,
}

/// The receiving side of a machine.
#[derive(Drop)]
pub(crate) struct Receiver {
    /// The number of the I-frame that is expected.
    expected: u8,
    /// A poll came that is not answered.
    polled: bool,
    reply: Reply,
    /// A REJ is outstanding.
    rejecting: bool,
    joiner: Joiner,
}

impl Model for Receiver {
    ghost use Rattle.ertm_machine.specs.Values.{ReceiverValue};

    ghost Value = { ReceiverValue };

    ghost use Rattle.std.specs.Prelude.{◌<◌};
    ghost use Rattle.ertm_machine.specs.Receivers.{receiver_value};

    ghost view = { receiver_value };

    ghost invariant = { λ r. r.expected < 64 };
}

/// Where an I-frame's number stands, `steps` past the expected one, for a receive window of so many
/// frames. One that is ahead lies in the window and cannot be that of a repeat, which is at most a
/// window behind.
fn place_of(window: u8, steps: u8) -> Place
    ensures { place_of result ≡ hearing.place_of window steps }
{
    if steps == 0 {
        Place::Expected
    } else if steps < window && u16::from(steps) + u16::from(window) < 64 {
        Place::Ahead
    } else {
        Place::Other
    }
}

/// How many steps a number modulo 64 lies past another.
pub(crate) fn past(from: u8, to: u8) -> u8
    requires { from < 64 }
    ensures past { result ≡ hearing.past from to }
    ensures few { result < 64 }
{
    ((u16::from(to) + 64 - u16::from(from)) % 64) as u8
}

impl Receiver {
    ghost use Rattle.ertm_machine.specs.Values.{new_receiver_value};

    /// A receiver of SDUs of at most so many octets, for which it reserves the memory; `NoMemory`
    /// where it cannot be had.
    pub(crate) fn new(alloc: Global, room: u16) -> Result<Receiver, NoMemory>
        ensures { IfOk result (λ receiver. receiver ≡ new_receiver_value room) }
    {
        let joiner = Joiner::new(alloc, room)?;
        Ok(Receiver {
            expected: 0,
            polled: false,
            reply: Reply::Nothing,
            rejecting: false,
            joiner,
        })
    }

    /// Makes it a new receiver. It takes no memory.
    pub(crate) fn reset(&mut self)
        ensures { self.new ≡ new_receiver_value self.old.room }
    {
        self.expected = 0;
        self.polled = false;
        self.reply = Reply::Nothing;
        self.rejecting = false;
        self.joiner.reset();
    }

    /// The number of the I-frame that is expected.
    pub(crate) fn expected(&self) -> u8
        ensures value { result ≡ self.now.receiver.expected }
        ensures fits { result < 64 }
    {
        self.expected
    }

    /// The octets of the last SDU that was joined.
    pub(crate) fn joined(&self) -> &[u8]
        ensures { result.now ≡ self.now.joined }
    {
        self.joiner.octets()
    }

    /// Notes whether an S-frame that came is a poll, which is to be answered.
    pub(crate) fn note_poll(&mut self, poll: bool)
        ensures { self.new ≡ record self.old { receiver = record self.old.receiver { polled = poll || self.old.receiver.polled } } }
    {
        self.polled = poll || self.polled;
    }

    /// Hears an I-frame with this number and segment. The one that is expected is accepted and is to
    /// be acknowledged; one that is ahead is to be rejected unless a REJ is outstanding; any other is
    /// dropped. An `Err` changes nothing.
    pub(crate) fn hear(
        &mut self,
        agreed: &Agreed,
        tx: u8,
        segment: &Segment<'_>,
    ) -> Result<Taken, ErtmReason>
        requires room { agreed.now.receive_mtu ≤ self.old.room }
        requires stated { segment.now.sar ≢ 1 → segment.now.total ≡ 0 }
        ensures { Hears self.old agreed.now tx (plain_segment segment.now) result self.new }
    {
        match place_of(agreed.receive_window, past(self.expected, tx)) {
            Place::Expected => {
                let taken = self.joiner.take(agreed.receive_mtu, segment)?;
                self.expected = (self.expected + 1) % 64;
                self.reply = Reply::Acknowledges;
                self.rejecting = false;
                Ok(taken)
            }
            Place::Ahead => {
                if !self.rejecting {
                    self.reply = Reply::Rejects;
                    self.rejecting = true;
                }
                Ok(Taken::Nothing)
            }
            Place::Other => Ok(Taken::Nothing),
        }
    }

    /// Why an I-frame with this number and segment would close the machine, where it would.
    pub(crate) fn fault(&self, agreed: &Agreed, tx: u8, segment: &Segment<'_>) -> Option<ErtmReason>
        requires { segment.now.sar ≢ 1 → segment.now.total ≡ 0 }
        ensures { result ≡ hearing.place_fault (hearing.place_of agreed.now.receive_window (hearing.past self.now.receiver.expected tx)) agreed.now.receive_mtu (plain_segment segment.now) self.now.receiver }
    {
        match place_of(agreed.receive_window, past(self.expected, tx)) {
            Place::Expected => self.joiner.fault(agreed.receive_mtu, segment),
            Place::Ahead | Place::Other => None,
        }
    }

    /// Whether an S-frame is to be given.
    pub(crate) fn has_reply(&self) -> bool
        ensures { result ≡ (self.now.receiver.polled || replies self.now.receiver.reply) }
    {
        self.polled || !matches!(self.reply, Reply::Nothing)
    }

    /// The S-frame that is to be given: the answer to a poll, or else RR or REJ.
    pub(crate) fn give(&mut self) -> Option<Frame<'static>>
        ensures { Replies self.old result self.new }
    {
        let req = self.expected;
        if self.polled {
            self.polled = false;
            return Some(supervisory(SKind::Rr, false, true, req));
        }
        let kind = match self.reply {
            Reply::Nothing => return None,
            Reply::Acknowledges => SKind::Rr,
            Reply::Rejects => SKind::Rej,
        };
        self.reply = Reply::Nothing;
        Some(supervisory(kind, false, false, req))
    }
}

/// The S-frame of these parts.
pub(crate) fn supervisory(kind: SKind, poll: bool, last: bool, req: u8) -> Frame<'static>
    ensures { plain result ≡ spelled.supervisory kind poll last req }
{
    Frame::S {
        kind,
        poll,
        last,
        req,
    }
}
