//! Two ends, and rounds of packets between them.

ghost use Rattle.std.specs.Prelude.{◌≡◌, ◌||◌, true, IfOk};
ghost use Rattle.three_wire.specs.Counts.{AnswersRises};
ghost use Rattle.three_wire.specs.Crossing.{Steady, BlamesBoth};
ghost use Rattle.three_wire.specs.Going.{pair_of, IsSound, Goes, SaidAll, Passed, both_calm};
ghost use Rattle.wire_model.specs.Pair.{new_pair, rings};

use crate::crossing::{Medium, cross};
use crate::fault::CarryFault;
use crate::wire::Wire;
use bt_base::{NoMemory, Sink};
use std::alloc::Global;
use wire_model::Way;
use wire_packets::Slip;

/// The window of both ends.
const WINDOW: u8 = 4;

/// Two ends, the decoder of each, and the line between them.
#[derive(Drop)]
pub(crate) struct Ends {
    pub(crate) first: Wire,
    pub(crate) second: Wire,
    pub(crate) to_first: Slip,
    pub(crate) to_second: Slip,
    pub(crate) medium: Medium,
}

/// Whether an end said anything, and whether a packet of it was lost.
#[derive(Clone, Copy)]
pub(crate) struct Said {
    pub(crate) went: bool,
    pub(crate) lost: bool,
}

impl Said {
    /// The same, and one packet more.
    fn more(self, lost: bool) -> Said
        ensures { result ≡ record { went = true; lost = self.lost || lost } }
    {
        Said {
            went: true,
            lost: self.lost || lost,
        }
    }
}

impl Ends {
    /// Two ends at their start, both with window 4, and a line that loses packets by the draws of a
    /// number, or none. They reserve all that they ever need.
    pub(crate) fn new(alloc: Global, number: Option<u32>) -> Result<Ends, NoMemory>
        ensures pair { IfOk result (λ ends. pair_of ends ≡ new_pair number) }
        ensures sound { IfOk result IsSound }
    {
        Ok(Ends {
            first: Wire::new(alloc, WINDOW)?,
            second: Wire::new(alloc, WINDOW)?,
            to_first: Slip::new(alloc)?,
            to_second: Slip::new(alloc)?,
            medium: Medium::new(alloc, number)?,
        })
    }

    /// The next packet of an end crosses the line, if it says one. The answer is whether a packet
    /// went, and whether it was lost.
    fn cross_by<K: Sink, T: Sink>(
        &mut self,
        way: Way,
        sink: &mut K,
        trace: &mut T,
    ) -> Result<Option<bool>, CarryFault>
        requires sound { IsSound self.old }
        ensures goes { Goes way (pair_of self.old) (pair_of self.new) (K.content sink.old) (K.content sink.new) (T.content trace.old) (T.content trace.new) result }
        ensures sound { IfOk result (λ _. IsSound self.new) }
        ensures steady { IfOk result (λ _. Steady (K.faults sink.old) (K.faults sink.new) (K.shortages sink.old) (K.shortages sink.new) (T.faults trace.old) (T.faults trace.new) (T.shortages trace.old) (T.shortages trace.new)) }
        ensures blame { BlamesBoth (K.faults sink.old) (K.faults sink.new) (K.shortages sink.old) (K.shortages sink.new) (T.faults trace.old) (T.faults trace.new) (T.shortages trace.old) (T.shortages trace.new) result }
        ensures sink_answers { AnswersRises (K.faults sink.old) (K.faults sink.new) (K.shortages sink.old) (K.shortages sink.new) CarryFault.WriteFault result }
        ensures trace_answers { AnswersRises (T.faults trace.old) (T.faults trace.new) (T.shortages trace.old) (T.shortages trace.new) CarryFault.WriteFault result }
    {
        let crossed = match way {
            Way::Forth => cross(
                way,
                &mut self.first,
                &mut self.second,
                &mut self.to_second,
                &mut self.medium,
                sink,
                trace,
            ),
            Way::Back => cross(
                way,
                &mut self.second,
                &mut self.first,
                &mut self.to_first,
                &mut self.medium,
                sink,
                trace,
            ),
        };
        crossed
    }

    /// An end says all that it may.
    fn say_all<K: Sink, T: Sink>(
        &mut self,
        way: Way,
        sink: &mut K,
        trace: &mut T,
    ) -> Result<Said, CarryFault>
        requires sound { IsSound self.old }
        ensures said { SaidAll way (pair_of self.old) (pair_of self.new) (K.content sink.old) (K.content sink.new) (T.content trace.old) (T.content trace.new) result }
        ensures sound { IfOk result (λ _. IsSound self.new) }
        ensures steady { IfOk result (λ _. Steady (K.faults sink.old) (K.faults sink.new) (K.shortages sink.old) (K.shortages sink.new) (T.faults trace.old) (T.faults trace.new) (T.shortages trace.old) (T.shortages trace.new)) }
        ensures blame { BlamesBoth (K.faults sink.old) (K.faults sink.new) (K.shortages sink.old) (K.shortages sink.new) (T.faults trace.old) (T.faults trace.new) (T.shortages trace.old) (T.shortages trace.new) result }
        ensures sink_answers { AnswersRises (K.faults sink.old) (K.faults sink.new) (K.shortages sink.old) (K.shortages sink.new) CarryFault.WriteFault result }
        ensures trace_answers { AnswersRises (T.faults trace.old) (T.faults trace.new) (T.shortages trace.old) (T.shortages trace.new) CarryFault.WriteFault result }
    {
        let mut said = Said {
            went: false,
            lost: false,
        };
        'saying: loop {
            match self.cross_by(way, sink, trace) {
                Ok(Some(lost)) => said = said.more(lost),
                Ok(None) => return Ok(said),
                Err(fault) => return Err(fault),
            }
        }
    }

    /// A round behind the taking of units: the first end says all that it may, then the second does,
    /// and where a packet was lost, or none went, the timers of both fire.
    pub(crate) fn pass<K: Sink, T: Sink>(
        &mut self,
        sink: &mut K,
        trace: &mut T,
    ) -> Result<(), CarryFault>
        requires sound { IsSound self.old }
        ensures passed { Passed (pair_of self.old) (pair_of self.new) (K.content sink.old) (K.content sink.new) (T.content trace.old) (T.content trace.new) result }
        ensures sound { IfOk result (λ _. IsSound self.new) }
        ensures steady { IfOk result (λ _. Steady (K.faults sink.old) (K.faults sink.new) (K.shortages sink.old) (K.shortages sink.new) (T.faults trace.old) (T.faults trace.new) (T.shortages trace.old) (T.shortages trace.new)) }
        ensures blame { BlamesBoth (K.faults sink.old) (K.faults sink.new) (K.shortages sink.old) (K.shortages sink.new) (T.faults trace.old) (T.faults trace.new) (T.shortages trace.old) (T.shortages trace.new) result }
        ensures sink_answers { AnswersRises (K.faults sink.old) (K.faults sink.new) (K.shortages sink.old) (K.shortages sink.new) CarryFault.WriteFault result }
        ensures trace_answers { AnswersRises (T.faults trace.old) (T.faults trace.new) (T.shortages trace.old) (T.shortages trace.new) CarryFault.WriteFault result }
    {
        let forth = match self.say_all(Way::Forth, sink, trace) {
            Ok(said) => said,
            Err(fault) => return Err(fault),
        };
        let back = match self.say_all(Way::Back, sink, trace) {
            Ok(said) => said,
            Err(fault) => return Err(fault),
        };
        self.ring_unless(forth, back);
        Ok(())
    }

    /// The timers of both ends fire, unless packets went and none was lost.
    fn ring_unless(&mut self, forth: Said, back: Said)
        requires sound { IsSound self.old }
        ensures rings { pair_of self.new ≡ rings (both_calm forth back) (pair_of self.old) }
        ensures sound { IsSound self.new }
    {
        if forth.lost || back.lost || !(forth.went || back.went) {
            self.first.on_timer();
            self.second.on_timer();
        }
    }
}
