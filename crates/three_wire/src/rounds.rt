//! The units of a source, carried over a line to a sink.

ghost use Rattle.std.specs.Prelude.{◌≡◌, ◌⊎◌, List, ℕ, Option, [], Ok, None, IfSome, IsErrOf};
ghost use Rattle.bt_base.specs.Counts.{HasRisen};
ghost use Rattle.three_wire.specs.Counts.{AnswersRises};
ghost use Rattle.three_wire.specs.Carrying.{Given, given, AnyRose, WriteRose, ShortageRose, IsUntouched, IsWholeInput, EndsWell, Carries, IsCarrying};

use crate::carriage::Carriage;
use crate::fault::{CarryEnd, CarryFault};
use bt_base::{Sink, Source};
use std::alloc::Global;

/// Rounds go until the run ends.
fn run<S: Source, K: Sink, T: Sink>(
    carriage: &mut Carriage,
    source: &mut S,
    sink: &mut K,
    trace: &mut T,
) -> Result<CarryEnd, CarryFault>
    requires going { (given : Given) × IsCarrying given (S.content source.old) (K.content sink.old) (T.content trace.old) carriage.old }
    ensures carries { (given : Given) → IsCarrying given (S.content source.old) (K.content sink.old) (T.content trace.old) carriage.old → Carries given (K.content sink.new) (T.content trace.new) (AnyRose (K.faults sink.old) (K.faults sink.new) (K.shortages sink.old) (K.shortages sink.new) (T.faults trace.old) (T.faults trace.new) (T.shortages trace.old) (T.shortages trace.new)) result }
    ensures read_fault { IsErrOf result CarryFault.ReadFault → HasRisen (S.faults source.old) (S.faults source.new) }
    ensures write_fault { IsErrOf result CarryFault.WriteFault → WriteRose (K.faults sink.old) (K.faults sink.new) (T.faults trace.old) (T.faults trace.new) }
    ensures finish { result ≡ Ok CarryEnd.All → IfSome (S.content source.new) (λ left. left ≡ []) }
    ensures source_answers { AnswersRises (S.faults source.old) (S.faults source.new) (S.shortages source.old) (S.shortages source.new) CarryFault.ReadFault result }
    ensures sink_answers { AnswersRises (K.faults sink.old) (K.faults sink.new) (K.shortages sink.old) (K.shortages sink.new) CarryFault.WriteFault result }
    ensures trace_answers { AnswersRises (T.faults trace.old) (T.faults trace.new) (T.shortages trace.old) (T.shortages trace.new) CarryFault.WriteFault result }
    ensures no_memory { IsErrOf result CarryFault.NoMemory → ShortageRose (S.shortages source.old) (S.shortages source.new) (K.shortages sink.old) (K.shortages sink.new) (T.shortages trace.old) (T.shortages trace.new) }
{
    'rounds: loop {
        match carriage.take_units(source) {
            Ok(()) => {}
            Err(fault) => return Err(fault),
        }
        match carriage.ending() {
            Some(end) => return Ok(end),
            None => {}
        }
        match carriage.pass(sink, trace) {
            Ok(()) => {}
            Err(fault) => return Err(fault),
        }
    }
}

/// Carries the units of a source over a three-wire line to a second end, which writes them to the
/// sink, and writes an entry for each packet on the line to the trace. With a number, packets are
/// lost by its draws; without one none is.
pub fn carry<S: Source, K: Sink, T: Sink>(
    alloc: Global,
    number: Option<u32>,
    source: &mut S,
    sink: &mut K,
    trace: &mut T,
) -> Result<CarryEnd, CarryFault>
    ensures carries { Carries (given number (S.content source.old) (K.content sink.old) (T.content trace.old)) (K.content sink.new) (T.content trace.new) (AnyRose (K.faults sink.old) (K.faults sink.new) (K.shortages sink.old) (K.shortages sink.new) (T.faults trace.old) (T.faults trace.new) (T.shortages trace.old) (T.shortages trace.new)) result }
    ensures read_fault { IsErrOf result CarryFault.ReadFault → HasRisen (S.faults source.old) (S.faults source.new) }
    ensures write_fault { IsErrOf result CarryFault.WriteFault → WriteRose (K.faults sink.old) (K.faults sink.new) (T.faults trace.old) (T.faults trace.new) }
    ensures finish { result ≡ Ok CarryEnd.All → IfSome (S.content source.new) (λ left. left ≡ []) }
    ensures source_answers { AnswersRises (S.faults source.old) (S.faults source.new) (S.shortages source.old) (S.shortages source.new) CarryFault.ReadFault result }
    ensures sink_answers { AnswersRises (K.faults sink.old) (K.faults sink.new) (K.shortages sink.old) (K.shortages sink.new) CarryFault.WriteFault result }
    ensures trace_answers { AnswersRises (T.faults trace.old) (T.faults trace.new) (T.shortages trace.old) (T.shortages trace.new) CarryFault.WriteFault result }
    ensures no_memory { IsErrOf result CarryFault.NoMemory → IsUntouched (S.content source.old) (S.content source.new) (K.content sink.old) (K.content sink.new) (T.content trace.old) (T.content trace.new) ⊎ ShortageRose (S.shortages source.old) (S.shortages source.new) (K.shortages sink.old) (K.shortages sink.new) (T.shortages trace.old) (T.shortages trace.new) }
    ensures clean { number ≡ None → IsWholeInput (S.content source.old) → (HasRisen (S.faults source.old) (S.faults source.new) → ⊥) → (WriteRose (K.faults sink.old) (K.faults sink.new) (T.faults trace.old) (T.faults trace.new) → ⊥) → EndsWell result }
{
    let Ok(mut carriage) = Carriage::new(alloc, number) else {
        return Err(CarryFault::NoMemory);
    };
    run(&mut carriage, source, sink, trace)
}
