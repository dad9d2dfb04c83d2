//! What lies between the two hosts: the radio, and the packets that move.

ghost use Rattle.std.specs.Prelude.{◌≡◌, ◌<◌, ◌≤◌, [], List, IfOk, OnOk, OnErr};
ghost use Rattle.bt_base.specs.Streams.{gained, GainedFront};
ghost use Rattle.h4_framing.specs.Packets.{packet, IsPacket};
ghost use Rattle.capture.specs.declared.flow.Flow.{Flow};
ghost use Rattle.capture.specs.Entries.{Moved, entry_octets, capture_octets};
ghost use Rattle.radio_model.specs.Queues.{IsSize};
ghost use Rattle.radio_model.specs.Radio.{after_packet};
ghost use Rattle.radio_world.specs.Hosts.{acl_limit, order_octets, AreSent};
ghost use Rattle.radio_world.specs.Leaving.{first_medium, in_radio, noted, after_all, leaving_entries, BreaksOff};
ghost use Rattle.room_laws.specs.world_model.specs.Stations.{Order};
ghost use Rattle.radio_world.specs.Causes.{Blames};
ghost use Rattle.radio_world.specs.Shortages.{Lacks, Overflows, WantsRoom};

use crate::fault::WorldFault;
use crate::recording::record;
use bt_base::{NoMemory, Sink};
use capture::{Entry, Flow};
use h4_framing::{Leading, Unit, first};
use push_terms::Side;
use radio_air::Radio;
use std::alloc::Global;
use std::marker::Model;

/// The longest ACL packet of a host, in octets.
pub(crate) const ACL_LIMIT: u16 = 1021;

/// The radio and what is noted of it. A clause sees the radio, and how many packets of each host
/// were outstanding at most.
#[derive(Drop)]
pub(crate) struct Medium {
    pub(crate) radio: Radio,
    /// How many octets a host is fed at a time, at most.
    pub(crate) chunk: usize,
    pub(crate) peak_a: u64,
    pub(crate) peak_b: u64,
}

impl Model for Medium {
    ghost use Rattle.std.specs.Prelude.{◌≤◌};
    ghost use Rattle.radio_world.specs.Leaving.{Medium as Seen};

    ghost Value = { Seen };

    ghost view = { λ medium. record { radio = medium.radio; peak_a = medium.peak_a; peak_b = medium.peak_b } };

    ghost invariant = { λ medium. 1 ≤ medium.chunk };
}

impl Medium {
    /// Two devices with no link between them; a host is fed `chunk` octets at a time, at most.
    /// `NoMemory` where what it reserves cannot be had.
    pub(crate) fn new(alloc: Global, size: u16, count: u16, chunk: u16) -> Result<Medium, NoMemory>
        requires size { IsSize size }
        requires some { 1 ≤ chunk }
        ensures { IfOk result (λ medium. medium ≡ first_medium size count) }
    {
        Ok(Medium {
            radio: Radio::new(alloc, size, count)?,
            chunk: usize::from(chunk),
            peak_a: 0,
            peak_b: 0,
        })
    }

    /// Notes how many packets of a host are outstanding, where that is the most so far.
    fn note(&mut self, side: Side)
        ensures { self.new ≡ noted side self.old }
    {
        let now = self.radio.outstanding(side);
        match side {
            Side::A => self.peak_a = self.peak_a.max(now),
            Side::B => self.peak_b = self.peak_b.max(now),
        }
    }

    /// A packet of a host moves to its controller.
    fn take_one<T: Sink>(
        &mut self,
        side: Side,
        unit: Unit<'_>,
        trace: &mut T,
    ) -> Result<(), WorldFault>
        requires { IsPacket acl_limit (packet unit) }
        ensures medium { OnOk result (self.new ≡ noted side (in_radio (after_packet side (packet unit.entry) self.old.radio) self.old)) }
        ensures written { OnOk result (T.content trace.new ≡ gained (T.content trace.old) (entry_octets (Moved side Flow.Out (packet unit.entry)))) }
        ensures front { GainedFront (T.content trace.old) (T.content trace.new) (entry_octets (Moved side Flow.Out (packet unit.entry))) }
        ensures blames { Blames (T.faults trace.old) (T.faults trace.new) result }
        ensures lacks { Lacks (T.shortages trace.old) (T.shortages trace.new) ((T.content trace.new ≡ gained (T.content trace.old) (entry_octets (Moved side Flow.Out (packet unit.entry)))) × WantsRoom self.old.radio (after_packet side (packet unit.entry) self.old.radio)) result }
    {
        let entry = Entry::Moved {
            side,
            flow: Flow::Out,
            unit,
        };
        record(&entry, trace)?;
        self.radio.take(side, &unit)?;
        self.note(side);
        Ok(())
    }

    /// All packets that a host offers move to its controller.
    pub(crate) fn take_all<T: Sink>(
        &mut self,
        side: Side,
        octets: &[u8],
        trace: &mut T,
    ) -> Result<(), WorldFault>
        ensures moved { OnOk result ((orders : List Order) → AreSent side orders → octets.now ≡ order_octets side orders → (self.new ≡ after_all side orders self.old) × (T.content trace.new ≡ gained (T.content trace.old) (capture_octets (leaving_entries side orders)))) }
        ensures broken { OnErr result ((orders : List Order) → AreSent side orders → octets.now ≡ order_octets side orders → BreaksOff (leaving_entries side orders) (T.content trace.old) (T.content trace.new)) }
        ensures blames { Blames (T.faults trace.old) (T.faults trace.new) result }
        ensures lacks { Lacks (T.shortages trace.old) (T.shortages trace.new) ((orders : List Order) → AreSent side orders → octets.now ≡ order_octets side orders → Overflows side orders self.old (T.content trace.old) (T.content trace.new)) result }
    {
        let mut rest = octets;
        while let Leading::Whole(unit, n) = first(rest, ACL_LIMIT) {
            self.take_one(side, unit, trace)?;
            rest = &rest[n..];
        }
        Ok(())
    }
}
