//! What a run asks of its ports.

ghost use Rattle.std.specs.Prelude.{◌≡◌, ◌≤◌, ◌<◌, ◌++◌, [], length, take, IfOk, OnOk, IfSome, IfErr, IsErrOf, OnErr, Ok};
ghost use Rattle.bt_base.specs.Streams.{gained, GainedFront};
ghost use Rattle.item_stream.specs.Running.{Took, Blames, IsAnswered, IsOfSource, IsOfSink};

use crate::end::StreamFault;
use bt_base::{PortFault, Sink, Source};

/// Reads the next octets of the source to the front of the piece.
pub(crate) fn read_piece<S: Source>(source: &mut S, piece: &mut [u8]) -> Result<usize, StreamFault>
    ensures took { IfOk result (λ n. (n ≤ length piece.old) × Took (S.content source.old) (S.content source.new) (take n piece.new)) }
    ensures finish { result ≡ Ok 0 → 0 < length piece.old → IfSome (S.content source.old) (λ left. left ≡ []) }
    ensures kept { OnErr result (S.content source.new ≡ S.content source.old) }
    ensures of_source { IfErr result IsOfSource }
    ensures blame { Blames (S.faults source.old) (S.faults source.new) 0 0 result }
    ensures source_short { IsAnswered (S.shortages source.old) (S.shortages source.new) (IsErrOf result StreamFault.NoMemory) }
{
    match source.read(piece) {
        Ok(n) => Ok(n),
        Err(PortFault::Failed) => Err(StreamFault::ReadFault),
        Err(PortFault::NoMemory) => Err(StreamFault::NoMemory),
    }
}

/// Writes the text to the sink.
pub(crate) fn write_text<K: Sink>(sink: &mut K, text: &[u8]) -> Result<(), StreamFault>
    ensures ok { OnOk result (K.content sink.new ≡ gained (K.content sink.old) text.now) }
    ensures front { GainedFront (K.content sink.old) (K.content sink.new) text.now }
    ensures of_sink { IfErr result IsOfSink }
    ensures blame { Blames 0 0 (K.faults sink.old) (K.faults sink.new) result }
    ensures sink_short { IsAnswered (K.shortages sink.old) (K.shortages sink.new) (IsErrOf result StreamFault.NoMemory) }
{
    match sink.put(text) {
        Ok(()) => Ok(()),
        Err(PortFault::Failed) => Err(StreamFault::WriteFault),
        Err(PortFault::NoMemory) => Err(StreamFault::NoMemory),
    }
}
