//! The form `snoop`: a capture is made the btsnoop file of one of its hosts.

ghost use Rattle.std.specs.Prelude.{◌≡◌, ◌≢◌, ◌⊎◌, [], IfSome, IsErrOf};
ghost use Rattle.bt_base.specs.Counts.{HasRisen};
ghost use Rattle.h4_view.specs.View.{IsAnswered};
ghost use Rattle.btpush_forms.specs.Snooping.{refusal_name, Tells, Snoops};
ghost use Rattle.btpush_forms.specs.Run.{HasCauses, HasEnded};

use crate::carrying::refuse;
use crate::status::Status;
use bt_base::{Sink, Source};
use btsnoop::{SnoopFault, SnoopRefusal, convert};
use push_terms::Side;
use std::alloc::Global;

/// The name of a refusal in its line.
fn refusal_name(refusal: SnoopRefusal) -> &'static str
    ensures { result.now ≡ refusal_name refusal }
{
    match refusal {
        SnoopRefusal::BadMagic => "BadMagic",
        SnoopRefusal::BadVersion => "BadVersion",
        SnoopRefusal::BadLink => "BadLink",
        SnoopRefusal::BadLength => "BadLength",
        SnoopRefusal::Truncated => "Truncated",
        SnoopRefusal::BadTag => "BadTag",
        SnoopRefusal::BadRecord => "BadRecord",
        SnoopRefusal::TooLong => "TooLong",
    }
}

/// Tells how a conversion ended.
fn tell<T: Sink>(alloc: Global, end: Result<(), SnoopFault>, trace: &mut T) -> Status
    ensures tells { Tells end (T.content trace.old) (T.content trace.new) result }
    ensures faults { IsAnswered (T.faults trace.old) (T.faults trace.new) (result ≡ Status.WriteFault) }
    ensures short { IsAnswered (T.shortages trace.old) (T.shortages trace.new) (result ≡ Status.NoMemory) }
    ensures write { result ≡ Status.WriteFault → IsErrOf end SnoopFault.WriteFault ⊎ HasRisen (T.faults trace.old) (T.faults trace.new) }
{
    match end {
        Ok(()) => Status::Ok,
        Err(SnoopFault::Refused(refusal, place)) => {
            refuse(alloc, refusal_name(refusal), place, trace)
        }
        Err(SnoopFault::ReadFault) => Status::ReadFault,
        Err(SnoopFault::WriteFault) => Status::WriteFault,
        Err(SnoopFault::NoMemory) => Status::NoMemory,
    }
}

/// Reads a capture of two hosts and writes the packets of one of them to the sink, as a btsnoop file.
///
/// `InputRefused` comes where the source is no capture, and the trace then gets the line that tells
/// where and why.
pub(crate) fn snoop<S: Source, K: Sink, T: Sink>(
    alloc: Global,
    side: Side,
    source: &mut S,
    sink: &mut K,
    trace: &mut T,
) -> Status
    ensures snoops { IfSome (S.content source.old) (λ input. Snoops side input (S.content source.new) (K.content sink.old) (K.content sink.new) (T.content trace.old) (T.content trace.new) result) }
    ensures known { result ≢ Status.BadWords }
    ensures finish { HasEnded result → IfSome (S.content source.new) (λ left. left ≡ []) }
    ensures causes { HasCauses (S.faults source.old) (S.faults source.new) (K.faults sink.old) (K.faults sink.new) (T.faults trace.old) (T.faults trace.new) result }
    ensures source_short { IsAnswered (S.shortages source.old) (S.shortages source.new) (result ≡ Status.NoMemory) }
    ensures sink_short { IsAnswered (K.shortages sink.old) (K.shortages sink.new) (result ≡ Status.NoMemory) }
    ensures trace_short { IsAnswered (T.shortages trace.old) (T.shortages trace.new) (result ≡ Status.NoMemory) }
{
    let end = convert(alloc, side, source, sink);
    tell(alloc, end, trace)
}
