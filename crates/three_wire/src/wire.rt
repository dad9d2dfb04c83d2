//! One end of a three-wire line.

use crate::held::{Held, new_room};
use crate::line::{LINK_CONTROL, lesser, message_of, past, put_ack, put_message, put_unit};
use arrayvec::ArrayVec;
use bt_base::NoMemory;
use std::alloc::Global;
use std::marker::Model;
use wire_model::{LinkMessage, Stage};
use wire_packets::WirePacket;

/// What came of a unit that was to be sent.
#[derive(Clone, Copy, Debug, PartialEq, Eq)]
pub enum WireSubmit {
    /// It will be sent.
    Taken,
    /// As many units are unacknowledged as the window says.
    Busy,
    /// The end is not active.
    NotActive,
}

/// What a packet brought.
#[derive(Clone, Copy, Debug)]
pub enum WireHeard<'a> {
    /// The unit that was accepted: its packet type and its octets.
    Unit(u8, &'a [u8]),
    /// The other end began anew when this one was active, now or before; this end is closed for good.
    Reset,
    Nothing,
}

/// One end of a three-wire line. A clause sees it by its place in the establishment of the link, the
/// messages that wait, the units that are not acknowledged, and its numbers.
#[derive(Drop)]
pub struct Wire {
    own: u8,
    window: u8,
    stage: Stage,
    waiting: ArrayVec<LinkMessage, 16>,
    rooms: Vec<Held>,
    count: u8,
    first: u8,
    given: u8,
    next: u8,
    expected: u8,
    answers: bool,
    scratch: Vec<u8>,
}

impl Model for Wire {
    ghost use Rattle.wire_model.specs.Machine as machine;

    ghost Value = { machine.Wire };

    ghost use Rattle.three_wire.specs.Held.{units_of};
    ghost use Rattle.three_wire.specs.Inside.{IsWire};

    ghost view = { λ w. record { own = w.own; window = w.window; stage = w.stage; waiting = w.waiting.items; first = w.first; unacked = units_of w.count w.rooms.items; given = w.given; next = w.next; expected = w.expected; answers = w.answers } };

    ghost invariant = { IsWire };
}

impl Wire {
    ghost use Rattle.std.specs.Prelude.{◌≡◌, ◌≤◌, IfOk, length, Some, [], true};
    ghost use Rattle.wire_packets.specs.Packets.{plain};
    ghost use Rattle.wire_model.specs.Machine.{new_wire, is_active, is_reset, ticked, waits, hears, hears_message, hears_ack, takes_unit};
    ghost use Rattle.three_wire.specs.Wire.{is_ready, Submits, Answers, Gives};

    /// An end at its start, which sends SYNC. The window is the greatest number of units that are
    /// unacknowledged, 1 to 7. It reserves all that it ever needs.
    pub fn new(alloc: Global, window: u8) -> Result<Wire, NoMemory>
        requires some { 1 ≤ window }
        requires few { window ≤ 7 }
        ensures { IfOk result (λ wire. wire ≡ new_wire window) }
    {
        let rooms = new_room(alloc, window)?;
        let scratch = vec![in alloc; 0u8; 4099]?;
        let mut waiting = ArrayVec::new();
        waiting.push(LinkMessage::Sync);
        Ok(Wire {
            own: window,
            window,
            stage: Stage::Uninitialized,
            waiting,
            rooms,
            count: 0,
            first: 0,
            given: 0,
            next: 0,
            expected: 0,
            answers: false,
            scratch,
        })
    }

    /// Whether units are sent and accepted.
    pub fn active(&self) -> bool
        ensures { result ≡ is_active self.now.stage }
    {
        matches!(self.stage, Stage::Active)
    }

    /// Whether the other end began anew when this one was active.
    fn closed(&self) -> bool
        ensures { result ≡ is_reset self.now.stage }
    {
        matches!(self.stage, Stage::Reset)
    }

    /// How many units were taken and are not acknowledged.
    pub fn unacknowledged(&self) -> u8
        ensures { result ≡ length self.now.unacked }
    {
        self.count
    }

    /// Whether a unit would be taken: the end is active, and fewer units than its window says are
    /// unacknowledged.
    pub fn ready(&self) -> bool
        ensures { result ≡ is_ready self.now }
    {
        self.active() && self.count < self.window
    }

    /// Takes a unit to be sent, of a type from 1 to 4 and with at most 4,095 octets.
    pub fn submit(&mut self, kind: u8, octets: &[u8]) -> WireSubmit
        requires above { 1 ≤ kind }
        requires below { kind ≤ 4 }
        requires fits { length octets.now ≤ 4095 }
        ensures { Submits self.old (record { kind = kind; octets = octets.now }) result self.new }
    {
        if !self.active() {
            return WireSubmit::NotActive;
        }
        if self.count >= self.window {
            return WireSubmit::Busy;
        }
        let room = &mut self.rooms[self.count as usize];
        room.refill(kind, octets);
        self.count += 1;
        WireSubmit::Taken
    }

    /// The time that an end waits has passed: what the other end has not answered is sent again (8.1,
    /// 8.2, 6.6).
    pub fn on_timer(&mut self)
        ensures { self.new ≡ ticked self.old }
    {
        match self.stage {
            Stage::Uninitialized => self.wait(LinkMessage::Sync),
            Stage::Initialized => self.wait(LinkMessage::Config(self.own)),
            Stage::Active => self.next = 0,
            Stage::Reset => {}
        }
    }

    /// One more message is to be sent, unless as many wait as may.
    fn wait(&mut self, message: LinkMessage)
        ensures { self.new ≡ waits message self.old }
    {
        if self.waiting.len() < 16 {
            self.waiting.push(message);
        }
    }

    /// Writes the next packet, as it stands on the line, to the front of `into`, which has room for
    /// 8,200 octets, and answers how many octets it has. Link control goes before all else, in the
    /// order in which it arose; then units, then an answer to what was heard. There is none exactly
    /// where there is nothing to send.
    pub fn next_packet(&mut self, into: &mut [u8]) -> Option<usize>
        requires { 8200 ≤ length into.old }
        ensures { Gives self.old self.new into.old into.new result }
    {
        if self.closed() {
            return None;
        }
        if !self.waiting.is_empty() {
            let message = self.waiting.remove(0);
            return Some(put_message(message, &mut self.scratch, into));
        }
        match self.stage {
            Stage::Active => self.next_unit(into),
            _ => None,
        }
    }

    /// The next packet where no link control waits and the end is active.
    fn next_unit(&mut self, into: &mut [u8]) -> Option<usize>
        requires active { self.old.stage ≡ Stage.Active }
        requires none { self.old.waiting ≡ [] }
        requires room { 8200 ≤ length into.old }
        ensures { Gives self.old self.new into.old into.new result }
    {
        let seq = (self.first + self.next) % 8;
        if self.next < self.count {
            let room = &self.rooms[self.next as usize];
            let n = put_unit(
                (seq, self.expected),
                room.kind,
                &room.octets,
                &mut self.scratch,
                into,
            );
            self.next += 1;
            self.given = self.given.max(self.next);
            self.answers = false;
            return Some(n);
        }
        if !self.answers {
            return None;
        }
        self.answers = false;
        Some(put_ack(self.expected, &mut self.scratch, into))
    }

    /// Hears a packet. A unit is accepted where it has the number that is expected, `Reset` is
    /// answered at SYNC where the end is active, and at every packet after it.
    pub fn on_packet<'a>(&mut self, packet: &WirePacket<'a>) -> WireHeard<'a>
        ensures after { self.new ≡ (hears (plain packet.now) self.old).after }
        ensures heard { Answers (hears (plain packet.now) self.old) result }
    {
        if packet.kind == LINK_CONTROL {
            if let Some(message) = message_of(packet.payload) {
                self.on_message(message);
            }
        } else if self.active() {
            self.on_ack(packet.ack);
            if packet.reliable && 1 <= packet.kind && packet.kind <= 4 {
                return self.on_unit(packet);
            }
        }
        if self.closed() {
            return WireHeard::Reset;
        }
        WireHeard::Nothing
    }

    /// Hears a link control message.
    fn on_message(&mut self, message: LinkMessage)
        ensures { self.new ≡ hears_message (Some message) self.old }
    {
        match (message, self.stage) {
            (LinkMessage::Sync, Stage::Uninitialized | Stage::Initialized) => {
                self.wait(LinkMessage::SyncResponse)
            }
            (LinkMessage::Sync, Stage::Active) => self.stage = Stage::Reset,
            (LinkMessage::SyncResponse, Stage::Uninitialized) => {
                self.stage = Stage::Initialized;
                self.wait(LinkMessage::Config(self.own));
            }
            (LinkMessage::Config(field), Stage::Initialized | Stage::Active) => {
                self.wait(LinkMessage::ConfigResponse(lesser(self.own, field)))
            }
            (LinkMessage::ConfigResponse(field), Stage::Initialized) => {
                self.stage = Stage::Active;
                self.window = lesser(self.own, field);
            }
            _ => {}
        }
    }

    /// Hears an AckNo.
    fn on_ack(&mut self, ack: u8)
        ensures { self.new ≡ hears_ack ack self.old }
    {
        let count = past(self.first, ack);
        if count > self.given {
            return;
        }
        self.rooms.rotate_left(count as usize);
        self.first = (self.first + count) % 8;
        self.count -= count;
        self.given -= count;
        self.next = self.next.saturating_sub(count);
    }

    /// Hears a packet that carries a unit.
    fn on_unit<'a>(&mut self, packet: &WirePacket<'a>) -> WireHeard<'a>
        requires { self.old.stage ≡ Stage.Active }
        ensures after { self.new ≡ (takes_unit true (plain packet.now) self.old).after }
        ensures heard { Answers (takes_unit true (plain packet.now) self.old) result }
    {
        self.answers = true;
        if packet.seq != self.expected {
            return WireHeard::Nothing;
        }
        self.expected = (self.expected + 1) % 8;
        WireHeard::Unit(packet.kind, packet.payload)
    }
}
