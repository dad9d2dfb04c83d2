//! The view of a capture with its objects.

ghost use Rattle.std.specs.Prelude.{◌≡◌, [], OnOk, IfSome, IfErr, IsErrOf};
ghost use Rattle.bt_base.specs.Streams.{gained, GainedFront};
ghost use Rattle.h4_view.specs.View.{Blames, IsAnswered, IsOfSink};
ghost use Rattle.object_lines.specs.Viewing.{CaptureViews};

use crate::objects::object_lines;
use bt_base::{PortFault, Sink, Source};
use h4_view::{ViewFault, view_entries};
use std::alloc::Global;

/// Writes a text to the sink.
fn write_text<K: Sink>(sink: &mut K, text: &[u8]) -> Result<(), ViewFault>
    ensures ok { OnOk result (K.content sink.new ≡ gained (K.content sink.old) text.now) }
    ensures front { GainedFront (K.content sink.old) (K.content sink.new) text.now }
    ensures of_sink { IfErr result IsOfSink }
    ensures blame { Blames 0 0 (K.faults sink.old) (K.faults sink.new) result }
    ensures sink_short { IsAnswered (K.shortages sink.old) (K.shortages sink.new) (IsErrOf result ViewFault.NoMemory) }
{
    match sink.put(text) {
        Ok(()) => Ok(()),
        Err(PortFault::Failed) => Err(ViewFault::WriteFault),
        Err(PortFault::NoMemory) => Err(ViewFault::NoMemory),
    }
}

/// Shows a capture of two hosts: the lines of each entry up to the first fault, and one for the fault; of a
/// whole capture also one line, `object NAME SIZE`, for each object that host b heard, in the order of
/// their last packets. The name is told by its UTF-16 units as upper case hexadecimal digits, `-` for
/// none, and the size is in octets.
///
/// The faults are those of `view_entries`. `WriteFault` and `NoMemory` also come where the lines of
/// objects could not be written, or memory was wanting to find them.
pub fn view_tagged<S: Source, K: Sink>(
    alloc: Global,
    source: &mut S,
    sink: &mut K,
) -> Result<(), ViewFault>
    // What the sink gains is the text of what the source had left.
    ensures views { IfSome (S.content source.old) (λ input. CaptureViews input (S.content source.new) (K.content sink.old) (K.content sink.new) result) }
    // The input was read to its end.
    ensures finish { OnOk result (IfSome (S.content source.new) (λ left. left ≡ [])) }
    // Each fault has its cause, and a shortage of memory of a port is answered.
    ensures blame { Blames (S.faults source.old) (S.faults source.new) (K.faults sink.old) (K.faults sink.new) result }
    ensures source_short { IsAnswered (S.shortages source.old) (S.shortages source.new) (IsErrOf result ViewFault.NoMemory) }
    ensures sink_short { IsAnswered (K.shortages sink.old) (K.shortages sink.new) (IsErrOf result ViewFault.NoMemory) }
{
    let of_b = match view_entries(alloc, source, sink) {
        Ok(of_b) => of_b,
        Err(fault) => return Err(fault),
    };
    let Ok(text) = object_lines(alloc, &of_b) else {
        return Err(ViewFault::NoMemory);
    };
    write_text(sink, &text)
}
