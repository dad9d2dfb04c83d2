//! A run over the line, round by round.

ghost use Rattle.std.specs.Prelude.{◌≡◌, ◌<◌, ◌≤◌, ◌+◌, List, ℕ, Option, true, false, IfOk, OnOk};
ghost use Rattle.three_wire.specs.Counts.{AnswersRises};
ghost use Rattle.three_wire.specs.Crossing.{Steady, BlamesBoth};
ghost use Rattle.three_wire.specs.Feeding.{input_limit, BlamesSource};
ghost use Rattle.three_wire.specs.Wire.{is_ready};
ghost use Rattle.three_wire.specs.Carrying.{Given, given, IsCarrying, IsGoing, GoesOn, GoesOver, most_rounds, takes_left, HasCause, EndsHere};

use crate::ends::Ends;
use crate::fault::{CarryEnd, CarryFault};
use crate::feed::Feed;
use bt_base::{NoMemory, Sink, Source};
use std::alloc::Global;

/// A run over the line: its ends, how far its source was read and whether that is at its end, and how
/// many units were taken and how many rounds went.
#[derive(Drop)]
pub(crate) struct Carriage {
    pub(crate) ends: Ends,
    pub(crate) feed: Feed,
    pub(crate) ended: bool,
    pub(crate) units: u64,
    pub(crate) rounds: u64,
}

impl Carriage {
    /// A run at its start. It reserves all that it ever needs.
    pub(crate) fn new(alloc: Global, number: Option<u32>) -> Result<Carriage, NoMemory>
        ensures { IfOk result (λ carriage. (input sink trace : Option (List ℕ)) → IsCarrying (given number input sink trace) input sink trace carriage) }
    {
        Ok(Carriage {
            ends: Ends::new(alloc, number)?,
            feed: Feed::new(alloc)?,
            ended: false,
            units: 0,
            rounds: 0,
        })
    }

    /// Takes the next unit of the source, or finds that there is none.
    fn take_unit<S: Source>(&mut self, source: &mut S) -> Result<(), CarryFault>
        requires going { IsGoing (S.content source.old) self.old }
        requires ready { is_ready self.old.ends.first ≡ true }
        requires more { self.old.ended ≡ false }
        ensures goes { (given : Given) → (sink trace : Option (List ℕ)) → IsCarrying given (S.content source.old) sink trace self.old → GoesOn given (S.content source.new) sink trace self.new result }
        ensures fewer { OnOk result (takes_left self.new < takes_left self.old) }
        ensures rounds { OnOk result (self.new.rounds ≡ self.old.rounds) }
        ensures steady { IfOk result (λ _. (S.faults source.new ≡ S.faults source.old) × (S.shortages source.new ≡ S.shortages source.old)) }
        ensures blame { BlamesSource (S.faults source.old) (S.faults source.new) (S.shortages source.old) (S.shortages source.new) result }
        ensures answers { AnswersRises (S.faults source.old) (S.faults source.new) (S.shortages source.old) (S.shortages source.new) CarryFault.ReadFault result }
    {
        match self.feed.next(source) {
            Ok(Some(n)) => {
                // (there is room for it, since the end is ready)
                let _taken = self
                    .ends
                    .first
                    .submit(self.feed.unit[0], &self.feed.unit[1..n]);
                self.units += 1;
                Ok(())
            }
            Ok(None) => {
                self.ended = true;
                Ok(())
            }
            Err(fault) => Err(fault),
        }
    }

    /// The first end takes units of the source while it is ready.
    pub(crate) fn take_units<S: Source>(&mut self, source: &mut S) -> Result<(), CarryFault>
        requires going { IsGoing (S.content source.old) self.old }
        ensures goes { (given : Given) → (sink trace : Option (List ℕ)) → IsCarrying given (S.content source.old) sink trace self.old → GoesOn given (S.content source.new) sink trace self.new result }
        ensures stops { OnOk result (self.new.ended ≡ false → is_ready self.new.ends.first ≡ false) }
        ensures rounds { OnOk result (self.new.rounds ≡ self.old.rounds) }
        ensures steady { IfOk result (λ _. (S.faults source.new ≡ S.faults source.old) × (S.shortages source.new ≡ S.shortages source.old)) }
        ensures blame { BlamesSource (S.faults source.old) (S.faults source.new) (S.shortages source.old) (S.shortages source.new) result }
        ensures answers { AnswersRises (S.faults source.old) (S.faults source.new) (S.shortages source.old) (S.shortages source.new) CarryFault.ReadFault result }
    {
        'taking: while !self.ended && self.ends.first.ready() {
            match self.take_unit(source) {
                Ok(()) => {}
                Err(fault) => return Err(fault),
            }
        }
        Ok(())
    }

    /// How the run ends before packets go, if it does.
    pub(crate) fn ending(&self) -> Option<CarryEnd>
        requires few { self.now.units ≤ input_limit }
        ensures { EndsHere self.now result }
    {
        if self.ended && self.ends.first.unacknowledged() == 0 {
            return Some(CarryEnd::All);
        }
        if self.rounds >= 1000 + 100 * self.units {
            return Some(CarryEnd::Spent);
        }
        None
    }

    /// Packets go, which ends a round.
    pub(crate) fn pass<K: Sink, T: Sink>(
        &mut self,
        sink: &mut K,
        trace: &mut T,
    ) -> Result<(), CarryFault>
        requires going { (left : Option (List ℕ)) × IsGoing left self.old }
        requires cause { HasCause self.old }
        requires in_time { self.old.rounds < most_rounds self.old.units }
        ensures goes { (given : Given) → (left : Option (List ℕ)) → IsCarrying given left (K.content sink.old) (T.content trace.old) self.old → GoesOver given left (K.content sink.new) (T.content trace.new) self.new result }
        ensures rounds { OnOk result (self.new.rounds ≡ self.old.rounds + 1) }
        ensures steady { IfOk result (λ _. Steady (K.faults sink.old) (K.faults sink.new) (K.shortages sink.old) (K.shortages sink.new) (T.faults trace.old) (T.faults trace.new) (T.shortages trace.old) (T.shortages trace.new)) }
        ensures blame { BlamesBoth (K.faults sink.old) (K.faults sink.new) (K.shortages sink.old) (K.shortages sink.new) (T.faults trace.old) (T.faults trace.new) (T.shortages trace.old) (T.shortages trace.new) result }
        ensures sink_answers { AnswersRises (K.faults sink.old) (K.faults sink.new) (K.shortages sink.old) (K.shortages sink.new) CarryFault.WriteFault result }
        ensures trace_answers { AnswersRises (T.faults trace.old) (T.faults trace.new) (T.shortages trace.old) (T.shortages trace.new) CarryFault.WriteFault result }
    {
        match self.ends.pass(sink, trace) {
            Ok(()) => {
                self.rounds += 1;
                Ok(())
            }
            Err(fault) => Err(fault),
        }
    }
}
