//! How the text of a scenario is had from its source.

ghost use Rattle.std.specs.Prelude.{◌≡◌, ◌≤◌, ◌<◌, ◌++◌, [], length, take, IfOk, OnOk, OnErr, IfSome, IfErr, IsErrOf, Ok, Err};
ghost use Rattle.btpush_forms.specs.Gathering.{kept_limit, Gathers, GathersText, BlamesSource};
ghost use Rattle.h4_view.specs.View.{Took, IsAnswered};

use bt_base::{PortFault, Source};
use std::alloc::Global;

/// How many octets of a text are kept: one more than it may have.
const KEPT_LIMIT: usize = 1_048_577;

/// How many octets are read at a time, at most.
const PIECE_LENGTH: usize = 65_536;

/// Where reading stops for a source without an end.
const READING_LIMIT: usize = usize::MAX;

/// Why a text could not be read.
#[derive(Clone, Copy, Debug, PartialEq, Eq)]
pub enum GatherFault {
    /// The source failed.
    ReadFault,
    /// No memory could be had.
    NoMemory,
}

/// Reads the next octets of the source to the front of the piece.
fn read_piece<S: Source>(source: &mut S, piece: &mut [u8]) -> Result<usize, GatherFault>
    ensures took { IfOk result (λ n. (n ≤ length piece.old) × Took (S.content source.old) (S.content source.new) (take n piece.new)) }
    ensures finish { result ≡ Ok 0 → 0 < length piece.old → IfSome (S.content source.old) (λ left. left ≡ []) }
    ensures kept { OnErr result (S.content source.new ≡ S.content source.old) }
    ensures blame { BlamesSource (S.faults source.old) (S.faults source.new) result }
    ensures short { IsAnswered (S.shortages source.old) (S.shortages source.new) (IsErrOf result GatherFault.NoMemory) }
{
    match source.read(piece) {
        Ok(n) => Ok(n),
        Err(PortFault::Failed) => Err(GatherFault::ReadFault),
        Err(PortFault::NoMemory) => Err(GatherFault::NoMemory),
    }
}

/// Adds the front of a piece to a text, up to the octets that are kept.
fn keep(text: &mut Vec<u8>, piece: &[u8]) -> Result<(), GatherFault>
    requires room { length text.old.items ≤ kept_limit }
    ensures kept { OnOk result (text.new.items ≡ take kept_limit (text.old.items ++ piece.now)) }
    ensures short { IfErr result (λ fault. fault ≡ GatherFault.NoMemory) }
{
    let room = piece.len().min(KEPT_LIMIT - text.len());
    match text.extend_from_slice(&piece[..room]) {
        Ok(()) => Ok(()),
        Err(_) => Err(GatherFault::NoMemory),
    }
}

/// Reads a source to its end and keeps the first octets.
fn gather_all<S: Source>(
    source: &mut S,
    piece: &mut [u8],
    text: &mut Vec<u8>,
) -> Result<(), GatherFault>
    requires room { 0 < length piece.old }
    requires empty { text.old.items ≡ [] }
    ensures gathers { IfSome (S.content source.old) (λ input. Gathers input (S.content source.new) text.new.items result) }
    ensures few { OnOk result (length text.new.items ≤ kept_limit) }
    ensures finish { OnOk result (length text.new.items < kept_limit → IfSome (S.content source.new) (λ left. left ≡ [])) }
    ensures blame { BlamesSource (S.faults source.old) (S.faults source.new) result }
    ensures short { IsAnswered (S.shortages source.old) (S.shortages source.new) (IsErrOf result GatherFault.NoMemory) }
{
    let mut count = 0usize;
    while count < READING_LIMIT {
        let room = piece.len().min(READING_LIMIT - count);
        let n = match read_piece(source, &mut piece[..room]) {
            Ok(n) => n,
            Err(fault) => return Err(fault),
        };
        if n == 0 {
            return Ok(());
        }
        if let Err(fault) = keep(text, &piece[..n]) {
            return Err(fault);
        }
        count += n;
    }
    Ok(())
}

/// Reads a source to its end, and answers the first 1,048,577 octets, or all where they are fewer:
/// by the last of them a text is known that is longer than 1,048,576 octets.
///
/// `ReadFault` comes where the source failed, also behind the octets that are kept. `NoMemory` comes
/// where memory was wanting, also that of the source.
pub fn gather<S: Source>(alloc: Global, source: &mut S) -> Result<Vec<u8>, GatherFault>
    ensures gathers { IfSome (S.content source.old) (λ input. GathersText input (S.content source.new) result) }
    ensures few { IfOk result (λ text. length text.items ≤ kept_limit) }
    ensures finish { IfOk result (λ text. length text.items < kept_limit → IfSome (S.content source.new) (λ left. left ≡ [])) }
    ensures blame { BlamesSource (S.faults source.old) (S.faults source.new) result }
    ensures short { IsAnswered (S.shortages source.old) (S.shortages source.new) (IsErrOf result GatherFault.NoMemory) }
{
    let Ok(mut piece) = vec![in alloc; 0u8; PIECE_LENGTH] else {
        return Err(GatherFault::NoMemory);
    };
    let mut text = Vec::new(alloc);
    match gather_all(source, &mut piece, &mut text) {
        Ok(()) => Ok(text),
        Err(fault) => Err(fault),
    }
}
