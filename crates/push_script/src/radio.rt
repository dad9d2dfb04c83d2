//! The lines of a radio script.

ghost use Rattle.std.specs.Prelude.{◌≡◌, ◌≤◌, ◌<◌, ◌^◌, Option, None, IfOk};
ghost use Rattle.std.specs.Option.{option_map};
ghost use Rattle.push_script.specs.Radio.{count_within, run_of, lossless};
ghost use Rattle.push_script.specs.Runs.{IsRun, IsBorne, is_lossy};

use crate::refusal::ScriptRefusal;
use bt_base::Transport;
use push_terms::Word;
use script_words::{number_of, said_of, split_word, word_within};

/// `LossyRfcomm` where a word loses, changes or repeats frames over RFCOMM.
fn lossless(transport: Option<Transport>, word: Word) -> Result<(), ScriptRefusal>
    ensures { result ≡ lossless transport word }
{
    match transport {
        Some(Transport::Rfcomm) => {
            if is_lossy(word) {
                Err(ScriptRefusal::LossyRfcomm)
            } else {
                Ok(())
            }
        }
        _ => Ok(()),
    }
}

/// Whether a word loses a frame, changes it, or delivers it twice.
fn is_lossy(word: Word) -> bool
    ensures { result ≡ is_lossy word }
{
    match word {
        Word::Lose(_) | Word::Repeat(_) | Word::Damage { .. } | Word::Cut { .. } => true,
        Word::Pass | Word::Timer(_) | Word::Drop | Word::Cancel => false,
    }
}

/// How often a word stands, if that is within its range.
fn count_within(count: u64) -> Result<u32, ScriptRefusal>
    ensures count { result ≡ count_within count }
    ensures range { IfOk result (λ n. (1 ≤ n) × (n < 2 ^ 32)) }
{
    if count == 0 || count > u32::MAX as u64 {
        return Err(ScriptRefusal::OutOfRange);
    }
    Ok(count as u32)
}

/// The run that a line says.
#[tactic(auto, unfolding(crate::specs::Radio::run_of))]
pub(crate) fn run_of(transport: Option<Transport>, line: &str) -> Result<(u32, Word), ScriptRefusal>
    ensures run { result ≡ run_of transport line.now }
    ensures range { IfOk result IsRun }
    ensures borne { IfOk result (IsBorne transport) }
{
    let (count, text) = split_word(line);
    let Some(text) = text else {
        return Err(ScriptRefusal::BadLine);
    };
    let Some(count) = number_of(count) else {
        return Err(ScriptRefusal::BadLine);
    };
    let Some(said) = said_of(text) else {
        return Err(ScriptRefusal::BadLine);
    };
    let count = count_within(count)?;
    let Some(word) = word_within(said) else {
        return Err(ScriptRefusal::OutOfRange);
    };
    lossless(transport, word)?;
    Ok((count, word))
}
