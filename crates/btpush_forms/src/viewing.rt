//! The forms `decode`: what a source has is shown in the sink.

ghost use Rattle.std.specs.Prelude.{◌≡◌, ◌≢◌, [], OnOk, IfSome, IsErrOf};
ghost use Rattle.h4_view.specs.View.{Blames, IsAnswered};
ghost use Rattle.btpush_forms.specs.Run.{ViewsBy, status_of, Decodes, HasCauses, HasEnded};

use crate::status::Status;
use bt_base::{Sink, Source};
use h4_view::{ViewFault, view_raw, view_snoop};
use object_lines::view_tagged;
use std::alloc::Global;

/// What a source is read as.
#[derive(Clone, Copy, Debug, PartialEq, Eq)]
pub enum Viewing {
    /// A stream of packets.
    Raw,
    /// A capture of two hosts, with the objects that host b heard.
    Tagged,
    /// A btsnoop file.
    Snoop,
}

/// Shows the source in the sink.
fn view<S: Source, K: Sink>(
    alloc: Global,
    viewing: Viewing,
    source: &mut S,
    sink: &mut K,
) -> Result<(), ViewFault>
    ensures views { IfSome (S.content source.old) (λ input. ViewsBy viewing input (S.content source.new) (K.content sink.old) (K.content sink.new) result) }
    ensures finish { OnOk result (IfSome (S.content source.new) (λ left. left ≡ [])) }
    ensures blame { Blames (S.faults source.old) (S.faults source.new) (K.faults sink.old) (K.faults sink.new) result }
    ensures source_short { IsAnswered (S.shortages source.old) (S.shortages source.new) (IsErrOf result ViewFault.NoMemory) }
    ensures sink_short { IsAnswered (K.shortages sink.old) (K.shortages sink.new) (IsErrOf result ViewFault.NoMemory) }
{
    match viewing {
        Viewing::Raw => view_raw(alloc, source, sink),
        Viewing::Tagged => view_tagged(alloc, source, sink),
        Viewing::Snoop => view_snoop(alloc, source, sink),
    }
}

/// The status that the end of a view has.
fn status_of(end: Result<(), ViewFault>) -> Status
    ensures { result ≡ status_of end }
{
    match end {
        Ok(()) => Status::Ok,
        Err(ViewFault::Refused(_, _)) => Status::InputRefused,
        Err(ViewFault::ReadFault) => Status::ReadFault,
        Err(ViewFault::WriteFault) => Status::WriteFault,
        Err(ViewFault::NoMemory) => Status::NoMemory,
    }
}

/// Shows the source in the sink, and answers how that ended.
pub(crate) fn decode<S: Source, K: Sink>(
    alloc: Global,
    viewing: Viewing,
    source: &mut S,
    sink: &mut K,
) -> Status
    ensures decodes { IfSome (S.content source.old) (λ input. Decodes viewing input (S.content source.new) (K.content sink.old) (K.content sink.new) result) }
    ensures finish { HasEnded result → IfSome (S.content source.new) (λ left. left ≡ []) }
    ensures known { result ≢ Status.BadWords }
    ensures causes { HasCauses (S.faults source.old) (S.faults source.new) (K.faults sink.old) (K.faults sink.new) 0 0 result }
    ensures source_short { IsAnswered (S.shortages source.old) (S.shortages source.new) (result ≡ Status.NoMemory) }
    ensures sink_short { IsAnswered (K.shortages sink.old) (K.shortages sink.new) (result ≡ Status.NoMemory) }
{
    let end = view(alloc, viewing, source, sink);
    status_of(end)
}
