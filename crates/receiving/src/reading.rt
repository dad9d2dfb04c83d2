//! Octets of a source, and octets for a sink.

ghost use Rattle.std.specs.Prelude.{◌≡◌, ◌≤◌, ◌<◌, [], Ok, length, take, IfOk, IfErr, IfSome, OnErr, OnOk};
ghost use Rattle.bt_base.specs.Streams.{gained, GainedFront};
ghost use Rattle.btpush_forms.specs.h4_view.specs.View.{Took};
ghost use Rattle.receiving.specs.Faring.{IsOfSink, IsOfSource};
ghost use Rattle.receiving.specs.Counts.{Counts, Lacked};

use crate::fault::ListenFault;
use bt_base::{PortFault, Sink, Source};

/// Reads the next octets of the source to the front of the piece.
pub(crate) fn read_piece<S: Source>(source: &mut S, piece: &mut [u8]) -> Result<usize, ListenFault>
    ensures took { IfOk result (λ n. (n ≤ length piece.old) × Took (S.content source.old) (S.content source.new) (take n piece.new)) }
    ensures finish { result ≡ Ok 0 → 0 < length piece.old → IfSome (S.content source.old) (λ left. left ≡ []) }
    ensures kept { OnErr result (S.content source.new ≡ S.content source.old) }
    ensures of_source { IfErr result IsOfSource }
    ensures counts { Counts (S.faults source.old) (S.faults source.new) (S.shortages source.old) (S.shortages source.new) ListenFault.ReadFault result }
    ensures lacked { Lacked (S.shortages source.old) (S.shortages source.new) 0 0 0 0 result }
{
    match source.read(piece) {
        Ok(n) => Ok(n),
        Err(PortFault::Failed) => Err(ListenFault::ReadFault),
        Err(PortFault::NoMemory) => Err(ListenFault::NoMemory),
    }
}

/// Writes octets to the sink.
pub(crate) fn write<K: Sink>(sink: &mut K, octets: &[u8]) -> Result<(), ListenFault>
    ensures ok { OnOk result (K.content sink.new ≡ gained (K.content sink.old) octets.now) }
    ensures front { GainedFront (K.content sink.old) (K.content sink.new) octets.now }
    ensures of_sink { IfErr result IsOfSink }
    ensures counts { Counts (K.faults sink.old) (K.faults sink.new) (K.shortages sink.old) (K.shortages sink.new) ListenFault.WriteFault result }
    ensures lacked { Lacked 0 0 (K.shortages sink.old) (K.shortages sink.new) 0 0 result }
{
    if octets.is_empty() {
        return Ok(());
    }
    match sink.put(octets) {
        Ok(()) => Ok(()),
        Err(PortFault::Failed) => Err(ListenFault::WriteFault),
        Err(PortFault::NoMemory) => Err(ListenFault::NoMemory),
    }
}
