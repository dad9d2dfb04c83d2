//! The lines of a scenario.

ghost use Rattle.std.specs.Prelude.{◌≡◌, ◌≢◌, ◌<◌, ◌≤◌, ◌∷◌, length, OnOk, IfOk, MatchOption, true, false, Some};
ghost use Rattle.std.specs.List.{list_any, position_or_len, before_first, after_first};
ghost use Rattle.push_script.specs.declared.stated.Key.TheVariants as keyed;
ghost use Rattle.push_script.specs.Names.{IsName, ends_name};
ghost use Rattle.push_script.specs.Reading.{is_feed, lines, name_stated, with_value, key_line_read, whole, radio_begun, run_read, is_ignored, line_read, Gives};

use crate::draft::Draft;
use crate::keys::{key_of, with_key};
use crate::names::utf16_length;
use crate::radio::run_of;
use crate::refusal::{LineFault, ScriptRefusal};
use crate::stated::Key;
use bt_base::Transport;
use script_words::split_word;
use std::alloc::Global;

/// What stands before the first line feed of a text, and what stands behind it.
fn split_feed(text: &str) -> Option<(&str, &str)>
    ensures { MatchOption result (position_or_len is_feed text.now ≡ length text.now) (λ x. (x.0.now ≡ before_first is_feed text.now) × (x.1.now ≡ after_first is_feed text.now) × (position_or_len is_feed text.now < length text.now)) }
{
    text.split_once('\n')
}

/// The first line of a text that is not empty, and the text behind it.
pub(crate) fn first_line(text: &str) -> (&str, &str)
    requires { 0 < length text.now }
    ensures lines { lines text.now ≡ result.0.now ∷ lines result.1.now }
    ensures shorter { length result.1.now < length text.now }
{
    match split_feed(text) {
        Some((line, rest)) => (line, rest),
        None => (text, ""),
    }
}

/// Whether a name has a NUL or a line feed.
fn has_break(name: &[u8]) -> bool
    ensures { result ≡ list_any ends_name name.now }
{
    name.iter().any(|octet| ends_name(*octet))
}

fn ends_name(octet: u8) -> bool
    ensures { result ≡ ends_name octet }
{
    octet == 0 || octet == b'\n'
}

/// Judges the name of an object that stands behind so many others.
#[tactic(auto, unfolding(crate::specs::Reading::name_stated))]
fn name_stated(count: usize, name: &str) -> Result<(), ScriptRefusal>
    ensures value { result ≡ name_stated count name.now }
    ensures name { OnOk result (IsName name.now × (count < 64)) }
{
    if has_break(name.as_bytes()) {
        return Err(ScriptRefusal::BadLine);
    }
    if count > 63 {
        return Err(ScriptRefusal::TooManyObjects);
    }
    let units = utf16_length(name);
    if units == 0 {
        return Err(ScriptRefusal::OutOfRange);
    }
    if units > 100 {
        return Err(ScriptRefusal::OutOfRange);
    }
    Ok(())
}

/// Takes the name of an object.
fn take_name(alloc: Global, draft: Draft, name: &str) -> Result<Draft, LineFault>
    ensures { Gives result (with_value draft keyed.Object name.now) }
{
    let mut draft = draft;
    if let Err(refusal) = name_stated(draft.names.len(), name) {
        return Err(LineFault::Refused(refusal));
    }
    if draft.names.push(alloc, name).is_err() {
        return Err(LineFault::NoMemory);
    }
    Ok(draft)
}

/// Takes a line that states a key.
#[tactic(auto, unfolding(crate::specs::Reading::key_line_read))]
fn take_key(alloc: Global, draft: Draft, line: &str) -> Result<Draft, LineFault>
    requires { draft.radio ≡ false }
    ensures { Gives result (key_line_read draft line.now) }
{
    let (word, value) = split_word(line);
    let Some(key) = key_of(word) else {
        return Err(LineFault::Refused(ScriptRefusal::UnknownKey));
    };
    let Some(value) = value else {
        return Err(LineFault::Refused(ScriptRefusal::BadLine));
    };
    match key {
        Key::Object => take_name(alloc, draft, value),
        key => take_setting(draft, key, value),
    }
}

/// Takes what a line states a key but `object` to be.
fn take_setting(draft: Draft, key: Key, value: &str) -> Result<Draft, LineFault>
    requires key { key ≢ keyed.Object }
    requires early { draft.radio ≡ false }
    ensures { Gives result (with_value draft key value.now) }
{
    let Draft {
        keys,
        names,
        radio,
        runs,
    } = draft;
    match with_key(keys, key, value) {
        Ok(keys) => Ok(Draft {
            keys,
            names,
            radio,
            runs,
        }),
        Err(refusal) => Err(LineFault::Refused(refusal)),
    }
}

/// The transport, where the keys are whole.
pub(crate) fn whole(draft: &Draft) -> Result<Transport, ScriptRefusal>
    ensures value { result ≡ whole draft.now }
    ensures some { OnOk result (0 < length draft.now.names) }
    ensures few { OnOk result (length draft.now.names ≤ 64) }
    ensures transport { IfOk result (λ transport. draft.now.keys.transport ≡ Some transport) }
{
    let Some(transport) = draft.keys.transport else {
        return Err(ScriptRefusal::NoTransport);
    };
    if draft.names.len() == 0 {
        return Err(ScriptRefusal::NoObject);
    }
    Ok(transport)
}

/// Takes the line `radio`.
#[tactic(auto, unfolding(crate::specs::Reading::radio_begun))]
fn begin_radio(draft: Draft) -> Result<Draft, LineFault>
    ensures { Gives result (radio_begun draft) }
{
    let mut draft = draft;
    if let Err(refusal) = whole(&draft) {
        return Err(LineFault::Refused(refusal));
    }
    draft.radio = true;
    Ok(draft)
}

/// Takes a line of the radio script.
#[tactic(auto, unfolding(crate::specs::Reading::run_read))]
fn take_run(draft: Draft, line: &str) -> Result<Draft, LineFault>
    requires { draft.radio ≡ true }
    ensures { Gives result (run_read draft line.now) }
{
    let mut draft = draft;
    match run_of(draft.keys.transport, line) {
        Ok((count, word)) => {
            if draft.runs.push(count, word).is_err() {
                return Err(LineFault::NoMemory);
            }
            Ok(draft)
        }
        Err(refusal) => Err(LineFault::Refused(refusal)),
    }
}

fn is_ignored(line: &[u8]) -> bool
    ensures { result ≡ is_ignored line.now }
{
    match line {
        [] => true,
        [first, ..] => *first == b'#',
    }
}

/// Takes a line of a scenario.
#[tactic(auto, unfolding(crate::specs::Reading::line_read))]
pub(crate) fn take_line(alloc: Global, draft: Draft, line: &str) -> Result<Draft, LineFault>
    ensures { Gives result (line_read draft line.now) }
{
    if is_ignored(line.as_bytes()) {
        return Ok(draft);
    }
    if draft.radio {
        return take_run(draft, line);
    }
    if line == "radio" {
        return begin_radio(draft);
    }
    take_key(alloc, draft, line)
}
