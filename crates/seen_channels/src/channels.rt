//! The channels of a link.

ghost use Rattle.std.specs.Prelude.{◌≡◌, ◌∷◌, OnOk, Ok, fold};
ghost use Rattle.std.specs.HashMap.{get};
ghost use Rattle.l2cap_config.specs.Reading.{options_read};
ghost use Rattle.l2cap_signal.specs.Commands.{command};
ghost use Rattle.l2cap_signal.specs.Reading.{answer};
ghost use Rattle.seen_channels.specs.Tellings.{Learnt, nothing, learn, find, is_known, with_channels, with_request, granted, configured, mode_asked, protocol, request_of, asked, opposite, is_found, told_by, heard};
ghost use Rattle.seen_channels.specs.Tables.{IsSide, Keeps};

use crate::channel::{Channel, Protocol, Request};
use crate::direction::Direction;
use crate::side::Side;
use bt_base::NoMemory;
use l2cap_config::options_of;
use l2cap_signal::{Signal, SignalKind, SignalRefusal, signals_of};
use std::alloc::Global;

/// The mode option's number of enhanced retransmission mode (Core 5.1, Volume 3 Part A, 5.4).
const ENHANCED_RETRANSMISSION: u8 = 3;

/// What signalling told of the channels of a link. Clauses say by `Keeps` what it knows.
#[derive(Drop)]
pub struct Channels {
    /// The channels, in the order in which they were made.
    list: Vec<Channel>,
    outward: Side,
    inward: Side,
}

/// The mode that options of a configuration request ask for: whether it is enhanced retransmission.
fn mode_asked(options: &[u8]) -> Option<bool>
    ensures { result ≡ mode_asked (options_read options.now) }
{
    let Ok(read) = options_of(options) else {
        return None;
    };
    let mode = read.mode?;
    Some(mode.mode == ENHANCED_RETRANSMISSION)
}

impl Channels {
    /// No channel is known. It takes no memory.
    pub fn new(alloc: Global) -> Channels
        ensures { Keeps nothing result }
    {
        Channels {
            list: Vec::new(alloc),
            outward: Side::new(alloc),
            inward: Side::new(alloc),
        }
    }

    fn side(&self, direction: Direction) -> &Side
        ensures { (learnt : Learnt) → Keeps learnt self.now → IsSide direction learnt result.now }
    {
        match direction {
            Direction::Out => &self.outward,
            Direction::In => &self.inward,
        }
    }

    /// The latest channel of that number in that direction.
    fn find(&self, direction: Direction, cid: u16) -> Option<Channel>
        ensures { (learnt : Learnt) → Keeps learnt self.now → result ≡ find direction cid learnt.channels }
    {
        let place = *self.side(direction).places.get(&cid)?;
        self.list.get(place).copied()
    }

    /// How the PDUs that carry a channel's number in a direction are to be read.
    pub fn protocol(&self, direction: Direction, cid: u16) -> Protocol
        ensures { (learnt : Learnt) → Keeps learnt self.now → result ≡ protocol learnt direction cid }
    {
        match self.find(direction, cid) {
            Some(channel) => channel.protocol(),
            None => Protocol::Data,
        }
    }

    /// Whether a channel is the latest of both its numbers.
    fn knows(&self, channel: &Channel) -> bool
        ensures { (learnt : Learnt) → Keeps learnt self.now → result ≡ is_known channel.now learnt.channels }
    {
        let far = self.find(Direction::Out, channel.far);
        let near = self.find(Direction::In, channel.near);
        is_found(channel, far) && is_found(channel, near)
    }

    fn add(&mut self, channel: Channel) -> Result<(), NoMemory>
        ensures { OnOk result ((learnt : Learnt) → Keeps learnt self.old → Keeps (with_channels learnt (channel ∷ learnt.channels)) self.new) }
    {
        let place = self.list.len();
        self.list.push(channel)?;
        self.outward.places.insert(channel.far, place)?;
        self.inward.places.insert(channel.near, place)?;
        Ok(())
    }

    fn ask(
        &mut self,
        direction: Direction,
        identifier: u8,
        request: Request,
    ) -> Result<(), NoMemory>
        ensures { OnOk result ((learnt : Learnt) → Keeps learnt self.old → Keeps (with_request direction identifier request learnt) self.new) }
    {
        match direction {
            Direction::Out => self.outward.ask(identifier, request),
            Direction::In => self.inward.ask(identifier, request),
        }
    }

    /// The latest request of an identifier that goes that way.
    fn request(&self, direction: Direction, identifier: u8) -> Option<Request>
        ensures { (learnt : Learnt) → Keeps learnt self.now → result ≡ request_of identifier (asked direction learnt) }
    {
        self.side(direction).requests.get(&identifier).copied()
    }

    fn grant(
        &mut self,
        direction: Direction,
        identifier: u8,
        destination: u16,
    ) -> Result<(), NoMemory>
        ensures { OnOk result ((learnt : Learnt) → Keeps learnt self.old → Keeps (with_channels learnt (granted direction identifier destination (request_of identifier (asked (opposite direction) learnt)) learnt.channels)) self.new) }
    {
        let Some(request) = self.request(direction.opposite(), identifier) else {
            return Ok(());
        };
        let channel = Channel::made(direction, identifier, request, destination);
        if self.knows(&channel) {
            return Ok(());
        }
        self.add(channel)
    }

    fn configure(&mut self, direction: Direction, destination: u16, options: &[u8])
        ensures { (learnt : Learnt) → Keeps learnt self.old → Keeps (with_channels learnt (configured direction destination (mode_asked (options_read options.now)) learnt.channels)) self.new }
    {
        let Some(enhanced) = mode_asked(options) else {
            return;
        };
        let Some(place) = self.side(direction).places.get(&destination).copied() else {
            return;
        };
        if let Some(channel) = self.list.get_mut(place) {
            channel.enhanced = enhanced;
        }
    }

    /// Learns what a command tells that goes that way.
    fn hear(&mut self, direction: Direction, signal: &Signal<'_>) -> Result<(), NoMemory>
        ensures { OnOk result ((learnt : Learnt) → Keeps learnt self.old → Keeps (learn learnt (record { direction = direction; command = command signal.now })) self.new) }
    {
        match signal.kind {
            SignalKind::ConnectionRequest { psm, source } => {
                self.ask(direction, signal.identifier, Request { psm, source })
            }
            SignalKind::ConnectionResponse {
                destination,
                result: 0,
                ..
            } => self.grant(direction, signal.identifier, destination),
            SignalKind::ConfigurationRequest {
                destination,
                options,
                ..
            } => {
                self.configure(direction, destination, options);
                Ok(())
            }
            _ => Ok(()),
        }
    }

    /// Learns what an answer of the reader of a payload tells: a refusal tells nothing.
    fn hear_answer(
        &mut self,
        direction: Direction,
        given: Result<Signal<'_>, SignalRefusal>,
    ) -> Result<(), NoMemory>
        ensures { OnOk result ((learnt : Learnt) → Keeps learnt self.old → Keeps (fold learn learnt (told_by direction (answer given.entry))) self.new) }
    {
        match given {
            Ok(signal) => self.hear(direction, &signal),
            Err(_) => Ok(()),
        }
    }

    /// Learns what a payload on the signalling channel tells that goes that way. `NoMemory` where
    /// memory is wanting for a request or a channel; what is known then is left open.
    pub fn hear_all(&mut self, direction: Direction, payload: &[u8]) -> Result<(), NoMemory>
        ensures { OnOk result ((learnt : Learnt) → Keeps learnt self.old → Keeps (heard direction payload.now learnt) self.new) }
    {
        let mut signals = signals_of(payload);
        while let Some(given) = signals.next() {
            self.hear_answer(direction, given)?;
        }
        Ok(())
    }
}

fn is_found(channel: &Channel, found: Option<Channel>) -> bool
    ensures { result ≡ is_found channel.now found }
{
    match found {
        Some(other) => channel.is_same(&other),
        None => false,
    }
}
