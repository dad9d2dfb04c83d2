//! The simulated radio: two controllers and the air between them.

ghost use Rattle.std.specs.Prelude.{◌≡◌, ◌≤◌, ◌<◌, ◌^◌, ◌∷◌, [], true, min, length, drop, IfOk, OnOk, OnErr};
ghost use Rattle.h4_framing.specs.Packets.{packet};
ghost use Rattle.push_terms.specs.declared.word.Way.{Way};
ghost use Rattle.radio_model.specs.Controllers.{first_packet};
ghost use Rattle.radio_model.specs.Queues.{IsSize, IsHandedOver, longest_packet};
ghost use Rattle.radio_air.specs.Plain.{plain_answer};
ghost use Rattle.radio_model.specs.Owed.{told_first, forgot_begun, answers_reserved, owes_many, wants_memory, outstanding_at};
ghost use Rattle.radio_model.specs.Radio.{new_radio, controller, with_controller, owes, channel, found, after_packet, after_offer, after_answer, after_deed, next_packet, is_quiet, is_apart, is_together};

use crate::answer::Answer;
use crate::manager::LinkManager;
use crate::phase::Phase;
use crate::queue::AirQueue;
use bt_base::{Handle, NoMemory};
use h4_framing::Unit;
use push_terms::{Side, Way, Word};
use radio_model::Deed;
use std::alloc::Global;
use std::marker::Model;

/// The controllers of two hosts, a and b, and the air between them. A clause sees what each
/// controller owes its host, and the frames that wait in the air.
///
/// In each direction memory is reserved for 256 frames and 1,048,576 octets that wait.
#[derive(Drop)]
pub struct Radio {
    /// How many octets an ACL packet may have.
    pub(crate) size: u16,
    /// How many ACL packets each controller takes.
    pub(crate) count: u16,
    pub(crate) a: LinkManager,
    pub(crate) b: LinkManager,
    pub(crate) phase: Phase,
    /// The handle of the last link, 0 where there was none: the n-th link has handle n.
    pub(crate) number: Handle,
    pub(crate) ab: AirQueue,
    pub(crate) ba: AirQueue,
    /// The direction that a `pass` served last.
    pub(crate) served: Option<Way>,
}

impl Model for Radio {
    ghost use Rattle.std.specs.Prelude.{◌≡◌};
    ghost use Rattle.radio_model.specs.Radio.{Radio as Seen};
    ghost use Rattle.radio_model.specs.Queues.{IsSize};
    ghost use Rattle.radio_air.specs.Plain.{HasHandle, plain_phase};
    ghost use Rattle.radio_model.specs.Owed.{with_queues};

    ghost Value = { Seen };

    ghost view = { λ radio. record { size = radio.size; count = radio.count; a = with_queues radio.ab radio.ba radio.a; b = with_queues radio.ba radio.ab radio.b; phase = plain_phase radio.phase; number = radio.number; served = radio.served } };

    ghost invariant = { λ radio. IsSize radio.size × HasHandle radio.phase radio.number × (radio.ab.size ≡ radio.size) × (radio.ba.size ≡ radio.size) };
}

/// Hands what comes next to the host of a side: a piece of the other direction on the link of that
/// handle, or else an answer. A new link begins with nothing in its own direction.
fn hand(
    side: Side,
    handle: Handle,
    manager: &mut LinkManager,
    own: &mut AirQueue,
    other: &mut AirQueue,
    into: &mut [u8],
) -> Option<usize>
    requires room { longest_packet ≤ length into.old }
    ensures handed { IsHandedOver (first_packet side handle other.old.coming manager.old.owed) result into.old into.new }
    ensures manager { manager.new ≡ told_first other.old.coming manager.old.owed manager.old }
    ensures own { own.new ≡ forgot_begun other.old.coming manager.old.owed own.old }
    ensures other { other.new ≡ record other.old { coming = drop 1 other.old.coming } }
{
    if let Some(count) = other.hand(handle, into) {
        return Some(count);
    }
    let answer = manager.next()?;
    if let Answer::LinkMade(_) = answer {
        own.forget();
    }
    Some(answer.write(side, into))
}

impl Radio {
    /// Two devices with no link between them. Their controllers take `count` ACL packets of at most
    /// `size` octets each. `NoMemory` where the memory for both cannot be had.
    pub fn new(alloc: Global, size: u16, count: u16) -> Result<Radio, NoMemory>
        requires { IsSize size }
        ensures { IfOk result (λ radio. radio ≡ new_radio size count) }
    {
        Ok(Radio {
            size,
            count,
            a: LinkManager::new(alloc)?,
            b: LinkManager::new(alloc)?,
            phase: Phase::Apart,
            number: Handle::of(0).unwrap(),
            ab: AirQueue::new(alloc, size)?,
            ba: AirQueue::new(alloc, size)?,
            served: None,
        })
    }

    /// A packet comes out of the host of a side: a command is obeyed, and the piece of an ACL packet
    /// may complete a frame, which is put into the air. Nothing else is done (Core 5.1, Volume 2
    /// Part E, 4.1). While nothing is handed over, `NoMemory` comes only where fifteen answers are
    /// owed to a host already, or more frames or octets would wait than are reserved for.
    pub fn take(&mut self, side: Side, unit: &Unit<'_>) -> Result<(), NoMemory>
        ensures ok { OnOk result (self.new ≡ after_packet side (packet unit.now) self.old) }
        ensures memory { OnErr result (self.old.a.coming ≡ [] → self.old.b.coming ≡ [] → wants_memory self.old (after_packet side (packet unit.now) self.old) ≡ true) }
    {
        match *unit {
            Unit::Command { opcode, params } => self.obey(side, opcode, params),
            Unit::Acl { word, octets } => self.carry(side, word, octets),
            Unit::Sync { .. } | Unit::Event { .. } => Ok(()),
        }
    }

    /// All that the host of a side offered was taken: the ACL packets among it are given back by one
    /// event (Core 5.1, Volume 2 Part E, 7.7.19). `NoMemory` only where sixteen answers are owed to a
    /// host already.
    pub fn offered(&mut self, side: Side) -> Result<(), NoMemory>
        ensures ok { OnOk result (self.new ≡ after_offer side self.old) }
        ensures memory { OnErr result (owes_many 16 self.old ≡ true) }
    {
        match side {
            Side::A => self.a.give_back(),
            Side::B => self.b.give_back(),
        }
    }

    /// Hands what comes next to the host of a side: writes its packet at the front of `into`, and
    /// answers how many octets it has. The rest of `into` stays as it is. `None` where nothing is on
    /// its way to the host: then all stays as it is. It takes no memory.
    ///
    /// It needs room for 1,026 octets, which the longest packet has.
    pub fn hand(&mut self, side: Side, into: &mut [u8]) -> Option<usize>
        requires room { longest_packet ≤ length into.old }
        ensures handed { IsHandedOver (next_packet side self.old) result into.old into.new }
        ensures radio { self.new ≡ after_answer side self.old }
    {
        let handle = self.number;
        match side {
            Side::A => hand(side, handle, &mut self.a, &mut self.ab, &mut self.ba, into),
            Side::B => hand(side, handle, &mut self.b, &mut self.ba, &mut self.ab, into),
        }
    }

    /// Whether nothing is on its way to either host.
    pub fn is_quiet(&self) -> bool
        ensures { result ≡ is_quiet self.now }
    {
        self.ba.is_over() && self.a.owes_nothing() && self.ab.is_over() && self.b.owes_nothing()
    }

    /// How many packets of the host of a side are outstanding on the link that it was told of, as its
    /// controller counts them. The number stands still at its end.
    pub fn outstanding(&self, side: Side) -> u64
        ensures { result ≡ min (outstanding_at (controller side self.now)) u64.MAX }
    {
        match side {
            Side::A => self.a.outstanding(),
            Side::B => self.b.outstanding(),
        }
    }

    /// Whether the two devices have a link.
    pub fn has_link(&self) -> bool
        ensures { result ≡ is_together self.now.phase }
    {
        self.phase.is_together()
    }

    /// Whether the two devices have no link, and none is asked for.
    pub fn is_apart(&self) -> bool
        ensures { result ≡ is_apart self.now.phase }
    {
        self.phase.is_apart()
    }

    /// The controller of a side owes its host an answer more.
    pub(crate) fn owe(&mut self, side: Side, answer: Answer) -> Result<(), NoMemory>
        ensures ok { OnOk result (self.new ≡ owes side (plain_answer answer ∷ []) self.old) }
        ensures full { OnErr result (owes_many 16 self.old ≡ true) }
    {
        match side {
            Side::A => self.a.owe(answer),
            Side::B => self.b.owe(answer),
        }
    }
}
