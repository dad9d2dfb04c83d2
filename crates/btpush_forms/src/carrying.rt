//! The form `wire`: the units of a source are carried over a three-wire line.

ghost use Rattle.std.specs.Prelude.{◌≡◌, ◌≢◌, ◌⊎◌, [], Ok, None, IfOk, IfSome, IsErrOf};
ghost use Rattle.bt_base.specs.Counts.{HasRisen};
ghost use Rattle.h4_view.specs.View.{IsAnswered};
ghost use Rattle.three_wire.specs.Carrying.{AnyRose, WriteRose, IsWholeInput};
ghost use Rattle.btpush_forms.specs.Refusing.{Refuses};
ghost use Rattle.btpush_forms.specs.Carrying.{refusal_name, place_line, Tells, Wires, IsWell};
ghost use Rattle.btpush_forms.specs.Run.{HasCauses};

use crate::status::Status;
use bt_base::{NoMemory, PortFault, Sink, Source};
use h4_framing::H4Refusal;
use itoa::Buffer;
use std::alloc::Global;
use three_wire::{CarryEnd, CarryFault, carry};

/// The name of a refusal in its line.
fn refusal_name(refusal: H4Refusal) -> &'static str
    ensures { result.now ≡ refusal_name refusal }
{
    match refusal {
        H4Refusal::BadIndicator => "BadIndicator",
        H4Refusal::AclTooLong => "AclTooLong",
        H4Refusal::Truncated => "Truncated",
    }
}

/// The line that tells where a source is refused, and the name of its refusal.
fn place_line(alloc: Global, name: &str, place: u64) -> Result<Vec<u8>, NoMemory>
    ensures { IfOk result (λ line. line.items ≡ place_line name.now place) }
{
    let mut buffer = Buffer::new();
    let mut line = Vec::from_slice(alloc, b"refused offset ")?;
    line.extend_from_slice(buffer.format(place).as_bytes())?;
    line.extend_from_slice(b" ")?;
    line.extend_from_slice(name.as_bytes())?;
    line.extend_from_slice(b"\n")?;
    Ok(line)
}

/// Writes that line.
pub(crate) fn refuse<T: Sink>(alloc: Global, name: &str, place: u64, trace: &mut T) -> Status
    ensures refuses { Refuses (place_line name.now place) (T.content trace.old) (T.content trace.new) result }
    ensures faults { IsAnswered (T.faults trace.old) (T.faults trace.new) (result ≡ Status.WriteFault) }
    ensures short { IsAnswered (T.shortages trace.old) (T.shortages trace.new) (result ≡ Status.NoMemory) }
    ensures write { result ≡ Status.WriteFault → HasRisen (T.faults trace.old) (T.faults trace.new) }
{
    let Ok(line) = place_line(alloc, name, place) else {
        return Status::NoMemory;
    };
    match trace.put(&line) {
        Ok(()) => Status::InputRefused,
        Err(PortFault::Failed) => Status::WriteFault,
        Err(PortFault::NoMemory) => Status::NoMemory,
    }
}

/// Tells how a run over the line ended.
fn tell<T: Sink>(alloc: Global, end: Result<CarryEnd, CarryFault>, trace: &mut T) -> Status
    ensures tells { Tells end (T.content trace.old) (T.content trace.new) result }
    ensures faults { IsAnswered (T.faults trace.old) (T.faults trace.new) (result ≡ Status.WriteFault) }
    ensures short { IsAnswered (T.shortages trace.old) (T.shortages trace.new) (result ≡ Status.NoMemory) }
    ensures write { result ≡ Status.WriteFault → IsErrOf end CarryFault.WriteFault ⊎ HasRisen (T.faults trace.old) (T.faults trace.new) }
{
    match end {
        Ok(CarryEnd::All) => Status::Ok,
        Ok(CarryEnd::Spent) => Status::SomeFailed,
        Err(CarryFault::Refused(refusal, place)) => {
            refuse(alloc, refusal_name(refusal), place, trace)
        }
        Err(CarryFault::TooLong(place)) => refuse(alloc, "TooLong", place, trace),
        Err(CarryFault::ReadFault) => Status::ReadFault,
        Err(CarryFault::WriteFault) => Status::WriteFault,
        Err(CarryFault::NoMemory) => Status::NoMemory,
    }
}

/// Carries the units of the source over a three-wire line to the sink, with an entry in the trace for
/// each packet on the line. With a number, packets are lost by its draws; without one none is.
///
/// `Ok` comes where all units were carried, and `SomeFailed` where the rounds were spent before.
/// `InputRefused` comes where the source is no stream of whole units, and the trace then gets the line
/// that tells where and why.
pub(crate) fn wire<S: Source, K: Sink, T: Sink>(
    alloc: Global,
    number: Option<u32>,
    source: &mut S,
    sink: &mut K,
    trace: &mut T,
) -> Status
    ensures wires { Wires number (S.content source.old) (K.content sink.old) (K.content sink.new) (T.content trace.old) (T.content trace.new) (AnyRose (K.faults sink.old) (K.faults sink.new) (K.shortages sink.old) (K.shortages sink.new) (T.faults trace.old) (T.faults trace.new) (T.shortages trace.old) (T.shortages trace.new)) result }
    ensures clean { number ≡ None → IsWholeInput (S.content source.old) → (HasRisen (S.faults source.old) (S.faults source.new) → ⊥) → (WriteRose (K.faults sink.old) (K.faults sink.new) (T.faults trace.old) (T.faults trace.new) → ⊥) → IsWell result }
    ensures known { result ≢ Status.BadWords }
    ensures finish { result ≡ Status.Ok → IfSome (S.content source.new) (λ left. left ≡ []) }
    ensures causes { HasCauses (S.faults source.old) (S.faults source.new) (K.faults sink.old) (K.faults sink.new) (T.faults trace.old) (T.faults trace.new) result }
    ensures source_short { IsAnswered (S.shortages source.old) (S.shortages source.new) (result ≡ Status.NoMemory) }
    ensures sink_short { IsAnswered (K.shortages sink.old) (K.shortages sink.new) (result ≡ Status.NoMemory) }
    ensures trace_short { IsAnswered (T.shortages trace.old) (T.shortages trace.new) (result ≡ Status.NoMemory) }
{
    let end = carry(alloc, number, source, sink, trace);
    tell(alloc, end, trace)
}
