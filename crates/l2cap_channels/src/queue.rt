//! What waits to be given on the signalling channel.

ghost use Rattle.std.specs.Prelude.{◌≡◌, ◌<◌, ◌≤◌, [], ◌∷◌, ◌++◌, drop, length, filter, not, nat_lt, slice_get, option_map, IfOk};
ghost use Rattle.std.specs.List.{list_any};
ghost use Rattle.channel_model.specs.Changing.{is_copy, is_copy_about, is_about, is_answer, same_errand};
ghost use Rattle.channel_model.specs.Value as value;

use crate::identifier::Identifier;
use crate::response::Response;
use bt_base::NoMemory;
use channel_model::Errand;
use std::alloc::Global;
use std::marker::Model;

/// How many entries may wait: 16 answers, and 13 own requests, which are more than four channels and the
/// question for the features ever have.
const ROOM: usize = 29;

/// How many answers may wait (this project's own).
const ANSWERS: usize = 16;

/// What waits to be given: an answer to the peer, or a copy of an own request.
#[derive(Clone, Copy)]
pub(crate) enum Queued {
    Answer(Identifier, Response),
    Ask(Errand),
}

impl Queued {
    ghost use Rattle.l2cap_channels.specs.Queues.{queued_value};

    /// Whether it is an answer.
    fn is_answer(&self) -> bool
        ensures { result ≡ is_answer (queued_value self.now) }
    {
        match self {
            Queued::Answer(_, _) => true,
            Queued::Ask(_) => false,
        }
    }

    /// Whether it is a copy of this own request.
    fn is_copy(&self, errand: Errand) -> bool
        ensures { result ≡ is_copy errand (queued_value self.now) }
    {
        match self {
            Queued::Answer(_, _) => false,
            Queued::Ask(other) => is_same(errand, *other),
        }
    }

    /// Whether it is a copy of an own request about the channel of this own endpoint.
    fn is_about(&self, own: u16) -> bool
        ensures { result ≡ is_copy_about own (queued_value self.now) }
    {
        match self {
            Queued::Answer(_, _) => false,
            Queued::Ask(errand) => is_about(own, *errand),
        }
    }
}

/// Whether two own requests are the same.
fn is_same(errand: Errand, other: Errand) -> bool
    ensures { result ≡ same_errand errand other }
{
    match (errand, other) {
        (Errand::Connection { own }, Errand::Connection { own: other }) => own == other,
        (Errand::Configuration { own }, Errand::Configuration { own: other }) => own == other,
        (Errand::Disconnection { own }, Errand::Disconnection { own: other }) => own == other,
        (Errand::Features, Errand::Features) => true,
        _ => false,
    }
}

/// Whether an own request is about the channel of this own endpoint.
fn is_about(own: u16, errand: Errand) -> bool
    ensures { result ≡ is_about own errand }
{
    match errand {
        Errand::Connection { own: other } => other == own,
        Errand::Configuration { own: other } => other == own,
        Errand::Disconnection { own: other } => other == own,
        Errand::Features => false,
    }
}

/// What waits to be given, in the order in which it arose. A clause sees the list of it.
#[derive(Drop)]
pub(crate) struct Queue {
    items: Vec<Queued>,
}

impl Model for Queue {
    ghost use Rattle.std.specs.Prelude.{List, ◌≤◌, vec_capacity};
    ghost use Rattle.channel_model.specs.Value as value;

    ghost Value = { List value.Queued };

    ghost use Rattle.l2cap_channels.specs.Queues.{queue_value};

    ghost view = { λ queue. queue_value queue.items.items };

    ghost invariant = { λ queue. 29 ≤ vec_capacity queue.items };
}

impl Queue {
    ghost use Rattle.l2cap_channels.specs.Responses.{response_value};
    ghost use Rattle.l2cap_channels.specs.Queues.{queued_value};

    /// Nothing waits. It reserves all memory that it ever needs; `NoMemory` where it cannot be had.
    pub(crate) fn new(alloc: Global) -> Result<Queue, NoMemory>
        ensures { IfOk result (λ queue. queue ≡ []) }
    {
        let items = Vec::with_capacity(alloc, ROOM)?;
        Ok(Queue { items })
    }

    /// Nothing waits any more.
    pub(crate) fn clear(&mut self)
        ensures { self.new ≡ [] }
    {
        self.items.clear();
    }

    /// Whether one more answer may wait.
    pub(crate) fn has_room(&self) -> bool
        ensures { result ≡ nat_lt (length (filter is_answer self.now)) 16 }
    {
        self.items
            .iter()
            .filter(|waiting| waiting.is_answer())
            .count()
            < ANSWERS
    }

    /// An answer waits behind the others.
    pub(crate) fn say(&mut self, identifier: Identifier, response: &Response)
        requires { length self.old < 29 }
        ensures { self.new ≡ self.old ++ value.Answer (record { identifier = identifier; content = response_value response.now }) ∷ [] }
    {
        let _room_was_reserved = self.items.push(Queued::Answer(identifier, *response));
    }

    /// A copy of an own request waits behind the others.
    pub(crate) fn ask(&mut self, errand: Errand)
        requires { length self.old < 29 }
        ensures { self.new ≡ self.old ++ value.Ask errand ∷ [] }
    {
        let _room_was_reserved = self.items.push(Queued::Ask(errand));
    }

    /// Whether a copy of an own request waits.
    pub(crate) fn is_due(&self, errand: Errand) -> bool
        ensures { result ≡ list_any (is_copy errand) self.now }
    {
        self.items.iter().any(|waiting| waiting.is_copy(errand))
    }

    /// No copy of this own request waits any more.
    pub(crate) fn forget(&mut self, errand: Errand)
        ensures { self.new ≡ filter (λ waiting. not (is_copy errand waiting)) self.old }
    {
        self.items.retain(|waiting| !waiting.is_copy(errand));
    }

    /// Nothing is asked any more of the channel of this own endpoint.
    pub(crate) fn forget_channel(&mut self, own: u16)
        ensures { self.new ≡ filter (λ waiting. not (is_copy_about own waiting)) self.old }
    {
        self.items.retain(|waiting| !waiting.is_about(own));
    }

    /// What waits longest.
    pub(crate) fn first(&self) -> Option<&Queued>
        ensures { option_map (λ queued. queued_value queued.now) result ≡ slice_get self.now 0 }
    {
        self.items.first()
    }

    /// What waits longest, which waits no more.
    pub(crate) fn take(&mut self) -> Option<Queued>
        ensures first { option_map queued_value result ≡ slice_get self.old 0 }
        ensures rest { self.new ≡ drop 1 self.old }
    {
        if self.items.is_empty() {
            return None;
        }
        Some(self.items.remove(0))
    }
}
