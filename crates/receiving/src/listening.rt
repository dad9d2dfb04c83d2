//! A host is fed a source to its end.

ghost use Rattle.std.specs.Prelude.{◌≡◌, ◌≤◌, ◌<◌, [], Ok, None, true, false, ℕ, List, Option, nat_lt, length, IfSome, IsErrOf, OnOk};
ghost use Rattle.bt_host.specs.host_model.specs.Circumstances.{Circumstance};
ghost use Rattle.bt_host.specs.Refusals.{acl_limit, fresh_framing};
ghost use Rattle.receiving.specs.Turns.{Begun, begun, HasRest};
ghost use Rattle.receiving.specs.Coming.{input_limit, Beside, beside, Comes};
ghost use Rattle.receiving.specs.Faring.{Follows, ReadsOn, ListensOn, spot, EndsHeld, EndsAtLimit};
ghost use Rattle.receiving.specs.Counts.{Counts, Lacked};

use crate::fault::{ListenFault, StreamRefusal};
use crate::fed_host::FedHost;
use crate::hearing::{hear_piece, say};
use crate::reading::read_piece;
use bt_base::{Sink, Source};
use h4_framing::Framer;

/// How many octets are read at a time, at most.
const PIECE_LENGTH: usize = 8;

/// The greatest length of a stream, in octets.
const INPUT_LIMIT: usize = 67_108_864;

/// What the end of the source means: the stream ends behind a packet, or within one that may end within the greatest length, or
/// that passes it.
fn ending(framer: &Framer) -> Result<(), ListenFault>
    ensures ends { framer.now.fault ≡ None → framer.now.limit ≡ acl_limit → EndsHeld framer.now result }
    ensures counts { Counts 0 0 0 0 ListenFault.ReadFault result }
    ensures lacked { Lacked 0 0 0 0 0 0 result }
    ensures no_write { IsErrOf result ListenFault.WriteFault → ⊥ }
{
    let Err((_, place)) = framer.end() else {
        return Ok(());
    };
    if place.saturating_add(framer.least_length() as u64) > INPUT_LIMIT as u64 {
        return Err(ListenFault::Refused(StreamRefusal::TooLong, INPUT_LIMIT as u64));
    }
    Err(ListenFault::Refused(StreamRefusal::Truncated, place))
}

/// Whether the stream goes past its greatest length, up to which the source was read.
fn past_limit<S: Source>(framer: &Framer, source: &mut S) -> Result<(), ListenFault>
    ensures ends { framer.now.fault ≡ None → EndsAtLimit framer.now (S.content source.old) (S.content source.new) result }
    ensures finish { OnOk result (IfSome (S.content source.new) (λ left. left ≡ [])) }
    ensures counts { Counts (S.faults source.old) (S.faults source.new) (S.shortages source.old) (S.shortages source.new) ListenFault.ReadFault result }
    ensures lacked { Lacked (S.shortages source.old) (S.shortages source.new) 0 0 0 0 result }
    ensures no_write { IsErrOf result ListenFault.WriteFault → ⊥ }
{
    if framer.end().is_err() {
        return Err(ListenFault::Refused(StreamRefusal::TooLong, INPUT_LIMIT as u64));
    }
    let mut piece = [0u8; 1];
    match read_piece(source, &mut piece) {
        Ok(0) => Ok(()),
        Ok(_) => Err(ListenFault::Refused(StreamRefusal::TooLong, INPUT_LIMIT as u64)),
        Err(fault) => Err(fault),
    }
}

/// Reads a piece of the source and feeds it to the host. The answer is whether the source goes on. It needs a host that refused
/// nothing, and a stream that is not at its greatest length.
fn hear_next<P, L: FedHost<P>, S: Source, K: Sink>(
    host: &mut L,
    framer: &mut Framer,
    piece: &mut [u8],
    count: &mut usize,
    source: &mut S,
    sink: &mut K,
    port: &mut P,
) -> Result<bool, ListenFault>
    requires sound { L.is_sound host.old port.old }
    requires room { 0 < length piece.old }
    requires below { count.old < input_limit }
    ensures follows { ReadsOn (L.profile host.old) (spot (L.framing host.old) (L.stands host.old port.old) (beside (K.content sink.old) L.faults L.shortages port.old)) (spot (L.framing host.new) (L.stands host.new port.new) (beside (K.content sink.new) L.faults L.shortages port.new)) (S.content source.old) (S.content source.new) count.old count.new (framer.old ≡ L.framing host.old) result }
    ensures alike { (first : Begun L.State) (origin : Option (List ℕ)) (before : Beside) → Follows (L.profile host.old) first origin (S.content source.old) (L.framing host.old) (L.stands host.old port.old) before (beside (K.content sink.old) L.faults L.shortages port.old) count.old → framer.old ≡ L.framing host.old → result ≡ Ok true → framer.new ≡ L.framing host.new }
    ensures grows { result ≡ Ok true → (count.old < count.new) × (count.new ≤ input_limit) }
    ensures finish { result ≡ Ok false → IfSome (S.content source.new) (λ left. left ≡ []) }
    ensures sound { result ≡ Ok true → L.is_sound host.new port.new }
    ensures profile { OnOk result (L.profile host.new ≡ L.profile host.old) }
    ensures source_counts { Counts (S.faults source.old) (S.faults source.new) (S.shortages source.old) (S.shortages source.new) ListenFault.ReadFault result }
    ensures sink_counts { Counts (K.faults sink.old) (K.faults sink.new) (K.shortages sink.old) (K.shortages sink.new) ListenFault.WriteFault result }
    ensures port { L.shortages port.old ≤ L.shortages port.new }
    ensures lacked { Lacked (S.shortages source.old) (S.shortages source.new) (K.shortages sink.old) (K.shortages sink.new) (L.shortages port.old) (L.shortages port.new) result }
{
    let room = piece.len().min(INPUT_LIMIT - *count);
    let piece = &mut piece[..room];
    let n = match read_piece(source, piece) {
        Ok(n) => n,
        Err(fault) => return Err(fault),
    };
    if n == 0 {
        return match ending(framer) {
            Ok(()) => Ok(false),
            Err(fault) => Err(fault),
        };
    }
    match hear_piece(host, framer, &piece[..n], sink, port) {
        Ok(()) => {
            *count += n;
            Ok(true)
        }
        Err(fault) => Err(fault),
    }
}

/// Feeds the source to the host, to its end or to where the stream is refused. It needs a host that refused nothing.
fn listen<P, L: FedHost<P>, S: Source, K: Sink>(
    host: &mut L,
    framer: &mut Framer,
    piece: &mut [u8],
    source: &mut S,
    sink: &mut K,
    port: &mut P,
) -> Result<(), ListenFault>
    requires sound { L.is_sound host.old port.old }
    requires room { 0 < length piece.old }
    ensures comes { ListensOn (L.profile host.old) (spot (L.framing host.old) (L.stands host.old port.old) (beside (K.content sink.old) L.faults L.shortages port.old)) (spot (L.framing host.new) (L.stands host.new port.new) (beside (K.content sink.new) L.faults L.shortages port.new)) (S.content source.old) (S.content source.new) (framer.old ≡ L.framing host.old) result }
    ensures finish { OnOk result (IfSome (S.content source.new) (λ left. left ≡ [])) }
    ensures source_counts { Counts (S.faults source.old) (S.faults source.new) (S.shortages source.old) (S.shortages source.new) ListenFault.ReadFault result }
    ensures sink_counts { Counts (K.faults sink.old) (K.faults sink.new) (K.shortages sink.old) (K.shortages sink.new) ListenFault.WriteFault result }
    ensures port { L.shortages port.old ≤ L.shortages port.new }
    ensures lacked { Lacked (S.shortages source.old) (S.shortages source.new) (K.shortages sink.old) (K.shortages sink.new) (L.shortages port.old) (L.shortages port.new) result }
{
    let mut count = 0usize;
    while count < INPUT_LIMIT {
        match hear_next(host, framer, piece, &mut count, source, sink, port) {
            Ok(true) => {}
            Ok(false) => return Ok(()),
            Err(fault) => return Err(fault),
        }
    }
    match past_limit(framer, source) {
        Ok(()) => Ok(()),
        Err(fault) => Err(fault),
    }
}

/// Lets a host begin and feeds the source to it, to its end or to where the stream is refused: what the host says goes to the sink.
/// It needs a host that refused nothing, was fed nothing, and has done all that it can, and a new framer,
/// which tells what the end of the source means.
pub(crate) fn serve<P, L: FedHost<P>, S: Source, K: Sink>(
    host: L,
    framer: Framer,
    source: &mut S,
    sink: &mut K,
    port: &mut P,
) -> Result<(), ListenFault>
    requires sound { L.is_sound host port.old }
    requires fresh { L.framing host ≡ fresh_framing }
    requires framer { framer ≡ fresh_framing }
    requires rests { HasRest (L.profile host) (L.stands host port.old) }
    requires room { (rest : List Circumstance) → nat_lt (length ((L.stands host port.old rest).line.out)) 65536 ≡ true }
    ensures comes { (last : L) × Comes (L.profile host) (begun (L.stands host port.old)) (S.content source.old) (S.content source.new) (L.stands last port.new) (beside (K.content sink.old) L.faults L.shortages port.old) (beside (K.content sink.new) L.faults L.shortages port.new) result }
    ensures finish { OnOk result (IfSome (S.content source.new) (λ left. left ≡ [])) }
    ensures source_counts { Counts (S.faults source.old) (S.faults source.new) (S.shortages source.old) (S.shortages source.new) ListenFault.ReadFault result }
    ensures sink_counts { Counts (K.faults sink.old) (K.faults sink.new) (K.shortages sink.old) (K.shortages sink.new) ListenFault.WriteFault result }
    ensures port { L.shortages port.old ≤ L.shortages port.new }
    ensures lacked { Lacked (S.shortages source.old) (S.shortages source.new) (K.shortages sink.old) (K.shortages sink.new) (L.shortages port.old) (L.shortages port.new) result }
{
    let mut host = host;
    let mut framer = framer;
    match say(&mut host, port, sink) {
        Ok(()) => {}
        Err(fault) => return Err(fault),
    }
    let mut piece = [0u8; PIECE_LENGTH];
    listen(&mut host, &mut framer, &mut piece, source, sink, port)
}
