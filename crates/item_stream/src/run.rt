//! A run over an input.

ghost use Rattle.std.specs.Prelude.{◌≡◌, ◌≤◌, ◌<◌, ◌++◌, List, ℕ, Option, [], None, Some, Ok, Err, vec_len, length, drop, take, IfOk, OnOk, IfSome, IfErr, IsErrOf, OnErr};
ghost use Rattle.item_stream.specs.declared.end.Ending.TheVariants.{Whole};
ghost use Rattle.item_stream.specs.Telling.{TellsAll};
ghost use Rattle.item_stream.specs.Running.{input_limit, Runs, RunsFrom, Steps, EndsAt, EndsAtLimit, Writes, Blames, IsAnswered, IsOfSource, IsOfSink};

use crate::end::{Ending, StreamFault};
use crate::ports::{read_piece, write_text};
use crate::teller::{Front, Teller};
use bt_base::{NoMemory, Sink, Source};
use std::alloc::Global;

/// How many octets are read at a time, at most.
const PIECE_LENGTH: usize = 65_536;

/// The greatest length of an input, in octets.
const INPUT_LIMIT: usize = 67_108_864;

/// How far a run has come: the octets that it holds, what is told and not written yet, and how many
/// octets were read.
#[derive(Drop)]
struct Run {
    held: Vec<u8>,
    text: Vec<u8>,
    fed: usize,
}

/// Tells of all items at the front of the octets. The answer is how many octets they have, and what
/// is found behind them.
fn tell_items<T: Teller>(
    teller: &mut T,
    octets: &[u8],
    text: &mut Vec<u8>,
) -> Result<(usize, Front), NoMemory>
    ensures { IfOk result (λ found. (found.0 ≤ length octets.now) × TellsAll T.has_told T.finds teller.old teller.new octets.now (drop found.0 octets.now) text.old.items text.new.items found.1) }
{
    let mut used = 0;
    loop {
        let front = teller.tell(&octets[used..], text)?;
        let Front::Item(n) = front else {
            return Ok((used, front));
        };
        used += n;
    }
}

/// Tells of all items at the front of what is held, and lets them go.
fn tell_held<T: Teller>(
    teller: &mut T,
    held: &mut Vec<u8>,
    text: &mut Vec<u8>,
) -> Result<Front, NoMemory>
    ensures { IfOk result (TellsAll T.has_told T.finds teller.old teller.new held.old.items held.new.items text.old.items text.new.items) }
{
    let (used, front) = tell_items(teller, held, text)?;
    held.copy_within(used.., 0);
    held.truncate(held.len() - used);
    Ok(front)
}

/// How an input ends that was read to its end, where the next item begins at that place.
fn ending(front: Front, place: u64) -> Ending
    ensures { EndsAt front place result }
{
    match front {
        Front::Cut(least) if place.saturating_add(least as u64) > INPUT_LIMIT as u64 => {
            Ending::TooLong
        }
        Front::Cut(_) => Ending::Truncated(place),
        Front::Refused => Ending::Refused(place),
        Front::Nothing | Front::Item(_) => Ending::Whole,
    }
}

/// How an input ends that was read up to its greatest length.
fn ending_at_limit<S: Source>(
    front: Front,
    source: &mut S,
    piece: &mut [u8],
) -> Result<Ending, StreamFault>
    requires room { 0 < length piece.old }
    ensures ending { IfOk result (EndsAtLimit front (S.content source.old)) }
    ensures finish { result ≡ Ok Whole → IfSome (S.content source.new) (λ left. left ≡ []) }
    ensures kept { OnErr result (S.content source.new ≡ S.content source.old) }
    ensures of_source { IfErr result IsOfSource }
    ensures blame { Blames (S.faults source.old) (S.faults source.new) 0 0 result }
    ensures source_short { IsAnswered (S.shortages source.old) (S.shortages source.new) (IsErrOf result StreamFault.NoMemory) }
{
    let Front::Nothing = front else {
        return Ok(Ending::TooLong);
    };
    let n = read_piece(source, &mut piece[..1])?;
    if n == 0 {
        return Ok(Ending::Whole);
    }
    Ok(Ending::TooLong)
}

/// Tells of the items that are held, and writes what is told. The answer is what stands behind them.
fn tell_and_write<T: Teller, K: Sink>(
    run: &mut Run,
    teller: &mut T,
    sink: &mut K,
) -> Result<Front, StreamFault>
    requires text { run.old.text.items ≡ [] }
    ensures text { OnOk result (run.new.text.items ≡ []) }
    ensures fed { run.new.fed ≡ run.old.fed }
    ensures held { OnOk result (length run.new.held.items ≤ length run.old.held.items) }
    ensures writes { Writes T.has_told T.finds teller.old teller.new run.old.held.items run.new.held.items (K.content sink.old) (K.content sink.new) result }
    ensures of_sink { IfErr result IsOfSink }
    ensures blame { Blames 0 0 (K.faults sink.old) (K.faults sink.new) result }
    ensures sink_short { IsAnswered (K.shortages sink.old) (K.shortages sink.new) (IsErrOf result StreamFault.NoMemory) }
{
    let Ok(front) = tell_held(teller, &mut run.held, &mut run.text) else {
        return Err(StreamFault::NoMemory);
    };
    write_text(sink, &run.text)?;
    run.text.clear();
    Ok(front)
}

/// Tells of the items that are held and reads a piece more, or answers how the input ends.
fn advance<T: Teller, S: Source, K: Sink>(
    run: &mut Run,
    teller: &mut T,
    source: &mut S,
    sink: &mut K,
    piece: &mut [u8],
) -> Result<Option<Ending>, StreamFault>
    requires room { 0 < length piece.old }
    requires text { run.old.text.items ≡ [] }
    requires within { run.old.fed ≤ input_limit }
    requires held { vec_len run.old.held ≤ run.old.fed }
    ensures steps { Steps T.has_told T.finds (S.content source.old) (S.content source.new) (K.content sink.old) (K.content sink.new) teller.old teller.new run.old.held.items run.new.held.items run.old.fed run.new.fed result }
    ensures text { IfOk result (λ ended. ended ≡ None → run.new.text.items ≡ []) }
    ensures finish { IfOk result (λ ended. ended ≡ Some Whole → IfSome (S.content source.new) (λ left. left ≡ [])) }
    ensures blame { Blames (S.faults source.old) (S.faults source.new) (K.faults sink.old) (K.faults sink.new) result }
    ensures source_short { IsAnswered (S.shortages source.old) (S.shortages source.new) (IsErrOf result StreamFault.NoMemory) }
    ensures sink_short { IsAnswered (K.shortages sink.old) (K.shortages sink.new) (IsErrOf result StreamFault.NoMemory) }
{
    let front = match tell_and_write(run, teller, sink) {
        Ok(front) => front,
        Err(fault) => return Err(fault),
    };
    let place = (run.fed - run.held.len()) as u64;
    if let Front::Refused = front {
        return Ok(Some(Ending::Refused(place)));
    }
    if run.fed == INPUT_LIMIT {
        return match ending_at_limit(front, source, piece) {
            Ok(ending) => Ok(Some(ending)),
            Err(fault) => Err(fault),
        };
    }
    let room = piece.len().min(INPUT_LIMIT - run.fed);
    let piece = &mut piece[..room];
    let n = match read_piece(source, piece) {
        Ok(n) => n,
        Err(fault) => return Err(fault),
    };
    if n == 0 {
        return Ok(Some(ending(front, place)));
    }
    let Ok(()) = run.held.extend_from_slice(&piece[..n]) else {
        return Err(StreamFault::NoMemory);
    };
    run.fed += n;
    Ok(None)
}

/// Tells of all items, up to the end of the input or to the first place where no item stands.
fn run_all<T: Teller, S: Source, K: Sink>(
    run: &mut Run,
    teller: &mut T,
    source: &mut S,
    sink: &mut K,
    piece: &mut [u8],
) -> Result<Ending, StreamFault>
    requires room { 0 < length piece.old }
    requires text { run.old.text.items ≡ [] }
    requires within { run.old.fed ≤ input_limit }
    requires held { vec_len run.old.held ≤ run.old.fed }
    ensures runs { RunsFrom T.has_told T.finds (S.content source.old) (S.content source.new) (K.content sink.old) (K.content sink.new) teller.old teller.new run.old.held.items run.old.fed result }
    ensures finish { result ≡ Ok Whole → IfSome (S.content source.new) (λ left. left ≡ []) }
    ensures blame { Blames (S.faults source.old) (S.faults source.new) (K.faults sink.old) (K.faults sink.new) result }
    ensures source_short { IsAnswered (S.shortages source.old) (S.shortages source.new) (IsErrOf result StreamFault.NoMemory) }
    ensures sink_short { IsAnswered (K.shortages sink.old) (K.shortages sink.new) (IsErrOf result StreamFault.NoMemory) }
{
    loop {
        match advance(run, teller, source, sink, piece) {
            Ok(None) => {}
            Ok(Some(ending)) => return Ok(ending),
            Err(fault) => return Err(fault),
        }
    }
}

/// Writes the opening, and then tells of all items of the input, up to its end or to the first place
/// where no item stands. It answers how the input ends.
///
/// `ReadFault` comes where the source failed, once all that was read is told of, and `WriteFault`
/// where the sink failed. `NoMemory` comes where memory was wanting, also that of a port.
pub fn tell_all<T: Teller, S: Source, K: Sink>(
    alloc: Global,
    opening: &[u8],
    teller: &mut T,
    source: &mut S,
    sink: &mut K,
) -> Result<Ending, StreamFault>
    // Nothing was taken yet, and the opening counts as told.
    requires { T.has_told teller.old teller.old [] opening.now }
    // What the sink gains is what is told of the items that the source had left. A fault of the source loses nothing.
    ensures runs { IfSome (S.content source.old) (λ input. Runs (T.has_told teller.old) T.finds teller.new input (S.content source.new) (K.content sink.old) (K.content sink.new) result) }
    // The input was read to its end.
    ensures finish { result ≡ Ok Whole → IfSome (S.content source.new) (λ left. left ≡ []) }
    // Each fault has its cause, and a shortage of memory of a port is answered.
    ensures blame { Blames (S.faults source.old) (S.faults source.new) (K.faults sink.old) (K.faults sink.new) result }
    ensures source_short { IsAnswered (S.shortages source.old) (S.shortages source.new) (IsErrOf result StreamFault.NoMemory) }
    ensures sink_short { IsAnswered (K.shortages sink.old) (K.shortages sink.new) (IsErrOf result StreamFault.NoMemory) }
{
    let Ok(mut piece) = vec![in alloc; 0u8; PIECE_LENGTH] else {
        return Err(StreamFault::NoMemory);
    };
    if let Err(fault) = write_text(sink, opening) {
        return Err(fault);
    }
    let mut run = Run {
        held: Vec::new(alloc),
        text: Vec::new(alloc),
        fed: 0,
    };
    run_all(&mut run, teller, source, sink, &mut piece)
}
