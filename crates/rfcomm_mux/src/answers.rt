//! The answers that wait to be sent.

ghost use Rattle.std.specs.Prelude.{◌≡◌, ◌<◌, ◌≤◌, [], ◌∷◌, ◌++◌, length, nat_lt, IfSome, OnSome, IfNone};
ghost use Rattle.rfcomm_frames.specs.declared.frame.MuxKind.TheVariants.{Ua, Dm};
ghost use Rattle.rfcomm_frames.specs.Frames.{plain, IsFrame};
ghost use Rattle.rfcomm_frames.specs.Controls.{plain_control, IsControl, written};
ghost use Rattle.rfcomm_model.specs.Written.{response_frame, control_frame};
ghost use Rattle.rfcomm_mux.specs.Parts.{plain_answer, IsFit};

use crate::message::Message;
use crate::writing::{control_frame, response_frame};
use arrayvec::ArrayVec;
use rfcomm_frames::{Control, MuxFrame, MuxKind, Role};
use std::marker::Model;

/// An answer that waits.
#[derive(Clone, Copy)]
pub(crate) enum Answer {
    /// UA on a channel.
    Agreement(u8),
    /// DM on a channel.
    Refusal(u8),
    /// A control message.
    Message(Message),
}

impl Answer {
    /// The frame that it is.
    pub(crate) fn frame(&self, role: Role) -> MuxFrame<'_>
        ensures { plain result ≡ plain_answer role self.now }
    {
        match self {
            Answer::Agreement(dlci) => response_frame(role, MuxKind::Ua, *dlci),
            Answer::Refusal(dlci) => response_frame(role, MuxKind::Dm, *dlci),
            Answer::Message(message) => control_frame(role, message.octets()),
        }
    }
}

impl Default for Answer {
    fn default() -> Answer {
        Answer::Refusal(0)
    }
}

/// The answers of a side that wait, at most 16.
///
/// A clause sees the side, and the frames that the answers are.
#[derive(Drop)]
pub(crate) struct Answers {
    role: Role,
    queue: ArrayVec<Answer, 16>,
}

impl Model for Answers {
    ghost use Rattle.std.specs.List.{AllByRecursion};
    ghost use Rattle.rfcomm_mux.specs.Parts.{Queue, queue_of, AreFit};

    ghost Value = { Queue };

    ghost view = { λ a. queue_of a.role a.queue.items };

    ghost invariant = { λ a. AreFit a.queue.items };
}

impl Answers {
    /// None waits.
    pub(crate) fn new(role: Role) -> Answers
        ensures { result ≡ record { role = role; frames = [] } }
    {
        Answers {
            role,
            queue: ArrayVec::new(),
        }
    }

    /// The side whose answers these are.
    pub(crate) fn role(&self) -> Role
        ensures { result ≡ self.now.role }
    {
        self.role
    }

    /// Whether one more may wait.
    pub(crate) fn has_room(&self) -> bool
        ensures { result ≡ nat_lt (length self.now.frames) 16 }
    {
        !self.queue.is_full()
    }

    /// UA on a channel waits.
    pub(crate) fn agree(&mut self, dlci: u8)
        requires channel { dlci < 64 }
        requires room { length self.old.frames < 16 }
        ensures { self.new ≡ record { role = self.old.role; frames = self.old.frames ++ response_frame self.old.role Ua dlci ∷ [] } }
    {
        self.queue.push(Answer::Agreement(dlci));
    }

    /// DM on a channel waits.
    pub(crate) fn refuse(&mut self, dlci: u8)
        requires channel { dlci < 64 }
        requires room { length self.old.frames < 16 }
        ensures { self.new ≡ record { role = self.old.role; frames = self.old.frames ++ response_frame self.old.role Dm dlci ∷ [] } }
    {
        self.queue.push(Answer::Refusal(dlci));
    }

    /// A control message waits.
    pub(crate) fn tell(&mut self, control: &Control<'_>)
        requires fits { IsControl (plain_control control.now) }
        requires short { length (written (plain_control control.now)) ≤ 40 }
        requires room { length self.old.frames < 16 }
        ensures { self.new ≡ record { role = self.old.role; frames = self.old.frames ++ control_frame self.old.role (plain_control control.now) ∷ [] } }
    {
        self.queue.push(Answer::Message(Message::new(control)));
    }

    /// The answer that waits longest; it waits no more.
    pub(crate) fn take(&mut self) -> Option<Answer>
        ensures some { IfSome result (λ answer. (self.old.frames ≡ plain_answer self.old.role answer ∷ self.new.frames) × (self.new.role ≡ self.old.role)) }
        ensures fit { IfSome result IsFit }
        ensures none { IfNone result ((self.old.frames ≡ []) × (self.new ≡ self.old)) }
    {
        if self.queue.is_empty() {
            return None;
        }
        Some(self.queue.remove(0))
    }

    /// None waits any more.
    pub(crate) fn clear(&mut self)
        ensures { self.new ≡ record { role = self.old.role; frames = [] } }
    {
        self.queue.clear();
    }
}
