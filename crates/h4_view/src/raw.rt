//! The view of a stream of packets.

ghost use Rattle.std.specs.Prelude.{◌≡◌, ◌≤◌, ◌<◌, List, ℕ, Option, [], None, Some, Ok, Err, vec_len, length, take, IfOk, OnOk, IfSome, IfErr, IsErrOf, OnErr};
ghost use Rattle.bt_base.specs.Streams.{gained, GainedFront};
ghost use Rattle.h4_view.specs.View.{input_limit, ShowsAll, Views, Blames, IsAnswered, Took, IsOfPorts, IsOfSink, IsNewView, IsRefusal, EndsView, EndsAtLimit};
ghost use Rattle.h4_view.specs.Standing.{Standing, Steps};

use crate::line::{Text, refusal_text};
use crate::links::Links;
use crate::piece::show_piece;
use crate::refusal::{ViewFault, ViewRefusal};
use bt_base::{PortFault, Sink, Source};
use h4_framing::Framer;
use std::alloc::Global;

/// How many octets are read at a time, at most.
const PIECE_LENGTH: usize = 65_536;

/// The greatest length of an input, in octets.
const INPUT_LIMIT: usize = 67_108_864;

/// Reads the next octets of the source to the front of the piece.
fn read_piece<S: Source>(source: &mut S, piece: &mut [u8]) -> Result<usize, ViewFault>
    ensures took { IfOk result (λ n. (n ≤ length piece.old) × Took (S.content source.old) (S.content source.new) (take n piece.new)) }
    ensures finish { result ≡ Ok 0 → 0 < length piece.old → IfSome (S.content source.old) (λ left. left ≡ []) }
    ensures kept { OnErr result (S.content source.new ≡ S.content source.old) }
    ensures of_port { IfErr result IsOfPorts }
    ensures blame { Blames (S.faults source.old) (S.faults source.new) 0 0 result }
    ensures source_short { IsAnswered (S.shortages source.old) (S.shortages source.new) (IsErrOf result ViewFault.NoMemory) }
{
    match source.read(piece) {
        Ok(n) => Ok(n),
        Err(PortFault::Failed) => Err(ViewFault::ReadFault),
        Err(PortFault::NoMemory) => Err(ViewFault::NoMemory),
    }
}

/// Writes the text to the sink.
fn write_text<K: Sink>(sink: &mut K, text: &[u8]) -> Result<(), ViewFault>
    ensures ok { OnOk result (K.content sink.new ≡ gained (K.content sink.old) text.now) }
    ensures front { GainedFront (K.content sink.old) (K.content sink.new) text.now }
    ensures of_sink { IfErr result IsOfSink }
    ensures blame { Blames 0 0 (K.faults sink.old) (K.faults sink.new) result }
    ensures sink_short { IsAnswered (K.shortages sink.old) (K.shortages sink.new) (IsErrOf result ViewFault.NoMemory) }
{
    match sink.put(text) {
        Ok(()) => Ok(()),
        Err(PortFault::Failed) => Err(ViewFault::WriteFault),
        Err(PortFault::NoMemory) => Err(ViewFault::NoMemory),
    }
}

/// Why the view stops where the input ends: nothing is left, or it was cut within a packet, which
/// may end within the greatest length or goes past it.
fn ending(framer: &Framer) -> Option<(ViewRefusal, u64)>
    requires { framer.now.fault ≡ None }
    ensures { EndsView framer.now result }
{
    let Err((_, place)) = framer.end() else {
        return None;
    };
    if place.saturating_add(framer.least_length() as u64) > INPUT_LIMIT as u64 {
        return Some((ViewRefusal::TooLong, INPUT_LIMIT as u64));
    }
    Some((ViewRefusal::Truncated, place))
}

/// Whether the input goes past its greatest length, up to which it was read.
fn passes_limit<S: Source>(
    framer: &Framer,
    source: &mut S,
    piece: &mut [u8],
) -> Result<Option<(ViewRefusal, u64)>, ViewFault>
    requires sound { framer.now.fault ≡ None }
    requires room { 0 < length piece.old }
    ensures verdict { IfOk result (λ verdict. EndsAtLimit framer.now (S.content source.old) verdict) }
    ensures finish { IfOk result (λ verdict. verdict ≡ None → IfSome (S.content source.new) (λ left. left ≡ [])) }
    ensures kept { OnErr result (S.content source.new ≡ S.content source.old) }
    ensures of_port { IfErr result IsOfPorts }
    ensures blame { Blames (S.faults source.old) (S.faults source.new) 0 0 result }
    ensures source_short { IsAnswered (S.shortages source.old) (S.shortages source.new) (IsErrOf result ViewFault.NoMemory) }
{
    if framer.end().is_err() {
        return Ok(Some((ViewRefusal::TooLong, INPUT_LIMIT as u64)));
    }
    let n = read_piece(source, &mut piece[..1])?;
    if n == 0 {
        return Ok(None);
    }
    Ok(Some((ViewRefusal::TooLong, INPUT_LIMIT as u64)))
}

/// How far the view of a stream has come: what its framer holds, what is kept of its links, the
/// offset of the next packet, how many octets were read, and the text that is not written yet.
#[derive(Drop)]
struct RawView {
    alloc: Global,
    framer: Framer,
    links: Links,
    offset: u64,
    fed: usize,
    text: Text,
}

/// What came of a piece.
#[derive(Clone, Copy, Debug, PartialEq, Eq)]
enum Progress {
    /// The input may go on.
    More,
    /// The input ended, or is refused.
    Ended(Option<(ViewRefusal, u64)>),
}

/// Reads a piece and shows the packets that are whole with it.
fn show_next<S: Source, K: Sink>(
    view: &mut RawView,
    source: &mut S,
    sink: &mut K,
    piece: &mut [u8],
) -> Result<Progress, ViewFault>
    requires room { 0 < length piece.old }
    requires text { view.old.text.items ≡ [] }
    requires below { view.old.fed < input_limit }
    requires standing { (input : Option (List ℕ)) × (old : Option (List ℕ)) × Standing input (S.content source.old) old (K.content sink.old) view.old.framer view.old.links view.old.offset view.old.fed }
    ensures steps { Steps (S.content source.old) (S.content source.new) (K.content sink.old) (K.content sink.new) view.old.framer view.new.framer view.old.links view.new.links view.old.offset view.new.offset view.old.fed view.new.fed result }
    ensures text { IfOk result (λ progress. progress ≡ Progress.More → view.new.text.items ≡ []) }
    ensures finish { IfOk result (λ progress. progress ≡ Progress.Ended None → IfSome (S.content source.new) (λ left. left ≡ [])) }
    ensures blame { Blames (S.faults source.old) (S.faults source.new) (K.faults sink.old) (K.faults sink.new) result }
    ensures source_short { IsAnswered (S.shortages source.old) (S.shortages source.new) (IsErrOf result ViewFault.NoMemory) }
    ensures sink_short { IsAnswered (K.shortages sink.old) (K.shortages sink.new) (IsErrOf result ViewFault.NoMemory) }
{
    let room = piece.len().min(INPUT_LIMIT - view.fed);
    let piece = &mut piece[..room];
    let n = match read_piece(source, piece) {
        Ok(n) => n,
        Err(fault) => return Err(fault),
    };
    if n == 0 {
        return Ok(Progress::Ended(ending(&view.framer)));
    }
    let shown = show_piece(
        view.alloc,
        &mut view.framer,
        &mut view.links,
        &mut view.offset,
        &mut view.text,
        &piece[..n],
    );
    let Ok(fault) = shown else {
        return Err(ViewFault::NoMemory);
    };
    if let Err(fault) = write_text(sink, &view.text) {
        return Err(fault);
    }
    view.text.clear();
    view.fed += n;
    match fault {
        None => Ok(Progress::More),
        Some((_, place)) => Ok(Progress::Ended(Some((ViewRefusal::BadIndicator, place)))),
    }
}

/// A view at the beginning of a stream.
fn new_view(alloc: Global) -> Result<RawView, ViewFault>
    ensures new { IfOk result (λ view. IsNewView view.framer view.links view.offset view.fed view.text.items) }
    ensures short { IfErr result (λ fault. fault ≡ ViewFault.NoMemory) }
    ensures blame { Blames 0 0 0 0 result }
{
    let Ok(framer) = Framer::new(alloc, u16::MAX) else {
        return Err(ViewFault::NoMemory);
    };
    let Ok(links) = Links::new(alloc) else {
        return Err(ViewFault::NoMemory);
    };
    Ok(RawView {
        alloc,
        framer,
        links,
        offset: 0,
        fed: 0,
        text: Vec::new(alloc),
    })
}

/// Room for the pieces of a stream.
fn new_piece(alloc: Global) -> Result<Vec<u8>, ViewFault>
    ensures room { IfOk result (λ piece. vec_len piece ≡ 65536) }
    ensures short { IfErr result (λ fault. fault ≡ ViewFault.NoMemory) }
    ensures blame { Blames 0 0 0 0 result }
{
    match vec![in alloc; 0u8; PIECE_LENGTH] {
        Ok(piece) => Ok(piece),
        Err(_) => Err(ViewFault::NoMemory),
    }
}

/// Shows the packets of a stream up to its end or its first fault, and answers that fault.
fn show_all<S: Source, K: Sink>(
    view: &mut RawView,
    source: &mut S,
    sink: &mut K,
    piece: &mut [u8],
) -> Result<Option<(ViewRefusal, u64)>, ViewFault>
    requires new { IsNewView view.old.framer view.old.links view.old.offset view.old.fed view.old.text.items }
    requires room { 0 < length piece.old }
    ensures shows { IfSome (S.content source.old) (λ input. ShowsAll input (S.content source.new) (K.content sink.old) (K.content sink.new) result) }
    ensures finish { IfOk result (λ verdict. verdict ≡ None → IfSome (S.content source.new) (λ left. left ≡ [])) }
    ensures blame { Blames (S.faults source.old) (S.faults source.new) (K.faults sink.old) (K.faults sink.new) result }
    ensures source_short { IsAnswered (S.shortages source.old) (S.shortages source.new) (IsErrOf result ViewFault.NoMemory) }
    ensures sink_short { IsAnswered (K.shortages sink.old) (K.shortages sink.new) (IsErrOf result ViewFault.NoMemory) }
{
    while view.fed < INPUT_LIMIT {
        match show_next(view, source, sink, piece) {
            Ok(Progress::More) => {}
            Ok(Progress::Ended(verdict)) => return Ok(verdict),
            Err(fault) => return Err(fault),
        }
    }
    passes_limit(&view.framer, source, piece)
}

/// Writes the line of a refusal, and answers the refusal, or the fault that came before it.
pub(crate) fn refuse<K: Sink>(
    alloc: Global,
    sink: &mut K,
    refusal: ViewRefusal,
    place: u64,
) -> ViewFault
    ensures wrote { IsRefusal refusal place (K.content sink.old) (K.content sink.new) result }
    ensures blame { Blames {A = ℕ} 0 0 (K.faults sink.old) (K.faults sink.new) (Err result) }
    ensures sink_short { IsAnswered (K.shortages sink.old) (K.shortages sink.new) (result ≡ ViewFault.NoMemory) }
{
    let Ok(line) = refusal_text(alloc, refusal, place) else {
        return ViewFault::NoMemory;
    };
    match write_text(sink, &line) {
        Ok(()) => ViewFault::Refused(refusal, place),
        Err(fault) => fault,
    }
}

/// Shows a stream of packets: a line for each packet up to the first fault, and one for the fault.
///
/// `Refused` comes where the input is no stream of whole packets, with the place of the fault, or
/// goes past 67,108,864 octets, also where it ends before within a packet that would pass them.
/// `ReadFault` comes where the source failed, once the lines of all that was read are written, and
/// `WriteFault` where the sink failed. `NoMemory` comes where memory was wanting, also that of a port.
/// Packets of ACL data may have up to 65,535 octets.
pub fn view_raw<S: Source, K: Sink>(
    alloc: Global,
    source: &mut S,
    sink: &mut K,
) -> Result<(), ViewFault>
    // What the sink gains is the view of what the source had left. A fault of the source loses nothing.
    ensures views { IfSome (S.content source.old) (λ input. Views input (S.content source.new) (K.content sink.old) (K.content sink.new) result) }
    // The input was read to its end.
    ensures finish { OnOk result (IfSome (S.content source.new) (λ left. left ≡ [])) }
    // Each fault has its cause, and a shortage of memory of a port is answered.
    ensures blame { Blames (S.faults source.old) (S.faults source.new) (K.faults sink.old) (K.faults sink.new) result }
    ensures source_short { IsAnswered (S.shortages source.old) (S.shortages source.new) (IsErrOf result ViewFault.NoMemory) }
    ensures sink_short { IsAnswered (K.shortages sink.old) (K.shortages sink.new) (IsErrOf result ViewFault.NoMemory) }
{
    let mut view = match new_view(alloc) {
        Ok(view) => view,
        Err(fault) => return Err(fault),
    };
    let mut piece = match new_piece(alloc) {
        Ok(piece) => piece,
        Err(fault) => return Err(fault),
    };
    match show_all(&mut view, source, sink, &mut piece) {
        Ok(None) => Ok(()),
        Ok(Some((refusal, place))) => Err(refuse(alloc, sink, refusal, place)),
        Err(fault) => Err(fault),
    }
}
