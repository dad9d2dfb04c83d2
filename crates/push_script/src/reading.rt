//! How the text of a scenario is read.

ghost use Rattle.std.specs.Prelude.{◌≡◌, ◌+◌, ◌<◌, ◌≤◌, Option, Some, length, count_by, IfSome, Ok};
ghost use Rattle.push_script.specs.Reading.{no_draft, is_feed, IsSettings, stated_or, script_of, with_defaults, finished, Finishes, lines, lines_read, text_limit, reading, Reads};
ghost use Rattle.push_script.specs.Stated.{IsBetween};

use crate::draft::Draft;
use crate::lines::{first_line, take_line, whole};
use crate::names::Names;
use crate::refusal::{LineFault, ScriptFault, ScriptRefusal};
use crate::runs::Runs;
use crate::scenario::Scenario;
use crate::stated::Keys;
use bt_base::{Serves, Settings, Transport};
use std::alloc::Global;

/// The greatest length of a text, in octets.
const TEXT_LIMIT: usize = 1_048_576;

/// Nothing was read yet.
pub(crate) fn no_draft(alloc: Global) -> Draft
    ensures { result ≡ no_draft }
{
    Draft {
        keys: Keys {
            transport: None,
            serves: None,
            acl: None,
            chunk: None,
            mtu: None,
            mps: None,
            window: None,
            tries: None,
            credits: None,
            obex: None,
            srm: None,
        },
        names: Names::new(alloc),
        radio: false,
        runs: Runs::new(alloc),
    }
}

/// A number that was stated, or its default.
fn number_or(stated: Option<u16>, low: u16, high: u16, other: u16) -> u16
    requires range { IfSome stated (IsBetween low high) }
    requires other { IsBetween low high other }
    ensures value { result ≡ stated_or stated other }
    ensures low { low ≤ result }
    ensures high { result ≤ high }
{
    match stated {
        Some(number) => number,
        None => other,
    }
}

/// The settings that were stated, or their defaults.
fn settings_of(transport: Transport, keys: &Keys) -> Settings
    ensures { IsSettings transport keys.now result }
{
    Settings {
        transport,
        serves: keys.serves.unwrap_or(Serves::Both),
        mtu: number_or(keys.mtu, 255, 32767, 1024),
        mps: number_or(keys.mps, 48, 1010, 1010),
        window: number_or(keys.window, 1, 63, 10) as u8,
        tries: number_or(keys.tries, 2, 20, 4) as u8,
        credits: number_or(keys.credits, 1, 40, 7) as u8,
        obex: number_or(keys.obex, 255, 32767, 1024),
        srm: keys.srm.unwrap_or(false),
    }
}

/// The length and the count of ACL packets that were stated, or their defaults.
fn acl_of(keys: &Keys) -> (u16, u16)
    ensures value { result ≡ stated_or keys.now.acl (1021, 8) }
    ensures length { IsBetween 27 1021 result.0 }
    ensures count { IsBetween 1 64 result.1 }
{
    match keys.acl {
        Some(pair) => pair,
        None => (1021, 8),
    }
}

fn chunk_of(keys: &Keys) -> u16
    ensures value { result ≡ stated_or keys.now.chunk 1024 }
    ensures low { 1 ≤ result }
    ensures high { result ≤ 4096 }
{
    number_or(keys.chunk, 1, 4096, 1024)
}

/// What the lines state over a transport; what they do not state has its default.
#[tactic(auto, unfolding(crate::specs::Reading::with_defaults))]
pub(crate) fn scenario_with(transport: Transport, draft: Draft) -> Scenario
    requires some { 0 < length draft.names }
    requires transport { draft.keys.transport ≡ Some transport }
    ensures { script_of result ≡ with_defaults transport draft }
{
    let Draft {
        keys,
        names,
        runs,
        radio: _,
    } = draft;
    let settings = settings_of(transport, &keys);
    let (acl_length, acl_count) = acl_of(&keys);
    let chunk = chunk_of(&keys);
    Scenario {
        settings,
        acl_length,
        acl_count,
        chunk,
        names,
        script: runs,
    }
}

/// The scenario that the lines give.
#[tactic(auto, unfolding(crate::specs::Reading::finished))]
fn finish(draft: Draft) -> Result<Scenario, ScriptRefusal>
    ensures { Finishes result (finished draft) }
{
    let transport = match whole(&draft) {
        Ok(transport) => transport,
        Err(refusal) => return Err(refusal),
    };
    Ok(scenario_with(transport, draft))
}

/// Reads the lines of a text.
fn read_lines(alloc: Global, text: &str) -> Result<Scenario, ScriptFault>
    requires { length text.now ≤ 1048576 }
    ensures { Reads result (lines_read 1 (Ok no_draft) (lines text.now)) }
{
    let mut draft = no_draft(alloc);
    let mut number = 1u32;
    let mut rest = text;
    while !rest.is_empty() {
        let (line, more) = first_line(rest);
        draft = match take_line(alloc, draft, line) {
            Ok(draft) => draft,
            Err(LineFault::Refused(refusal)) => return Err(ScriptFault::Refused(number, refusal)),
            Err(LineFault::NoMemory) => return Err(ScriptFault::NoMemory),
        };
        number += 1;
        rest = more;
    }
    match finish(draft) {
        Ok(scenario) => Ok(scenario),
        Err(refusal) => Err(ScriptFault::Refused(number, refusal)),
    }
}

/// How many line feeds there are.
fn count_feeds(text: &[u8]) -> usize
    ensures count { result ≡ count_by is_feed text.now }
    ensures few { result ≤ length text.now }
{
    text.iter().filter(|octet| **octet == b'\n').count()
}

/// Reads the text of a scenario.
///
/// It answers `Refused` with the line, counted from 1, and the first refusal there: `TooLong` (at
/// line 0) where the text has more than 1,048,576 octets, `NotUtf8` where it is no UTF-8, and else
/// what the first line that is refused is refused for. It answers `NoMemory` where there was no room
/// for the names and the runs.
#[tactic(auto, unfolding(crate::specs::Reading::reading))]
pub fn scenario_of(alloc: Global, text: &[u8]) -> Result<Scenario, ScriptFault>
    ensures { Reads result (reading text.now) }
{
    if text.len() > TEXT_LIMIT {
        return Err(ScriptFault::Refused(0, ScriptRefusal::TooLong));
    }
    match str::from_utf8(text) {
        Ok(text) => read_lines(alloc, text),
        Err(error) => {
            let line = count_feeds(&text[..error.valid_up_to()]) + 1;
            Err(ScriptFault::Refused(line as u32, ScriptRefusal::NotUtf8))
        }
    }
}
