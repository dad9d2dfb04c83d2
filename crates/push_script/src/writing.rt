//! The one text of a scenario in which nothing is left out.

ghost use Rattle.std.specs.Prelude.{◌≡◌, ◌++◌, codes, decimal, OnOk, IfOk};
ghost use Rattle.std.specs.List.{flat_map};
ghost use Rattle.push_script.specs.Scenarios.{key_line, transport_text, serves_text, switch_text, keys_text, object_line, run_line, scenario_text};
ghost use Rattle.push_script.specs.Laws.{IsReadAs};

use crate::names::Names;
use crate::runs::Runs;
use crate::scenario::Scenario;
use bt_base::{NoMemory, Serves, Transport};
use std::alloc::Global;

/// Text that is put together in memory.
type Text = Vec<u8>;

fn transport_text(transport: Transport) -> &'static str
    ensures { result.now ≡ transport_text transport }
{
    match transport {
        Transport::L2cap => "l2cap",
        Transport::Rfcomm => "rfcomm",
    }
}

fn serves_text(serves: Serves) -> &'static str
    ensures { result.now ≡ serves_text serves }
{
    match serves {
        Serves::Both => "both",
        Serves::L2cap => "l2cap",
        Serves::Rfcomm => "rfcomm",
    }
}

fn switch_text(on: bool) -> &'static str
    ensures { result.now ≡ switch_text on }
{
    if on { "on" } else { "off" }
}

fn push_key(text: &mut Text, key: &str, value: &str) -> Result<(), NoMemory>
    ensures { OnOk result (text.new.items ≡ text.old.items ++ key_line key.now value.now) }
{
    text.extend_from_slice(key.as_bytes())?;
    text.push(b' ')?;
    text.extend_from_slice(value.as_bytes())?;
    text.push(b'\n')?;
    Ok(())
}

fn push_number(text: &mut Text, key: &str, number: u16) -> Result<(), NoMemory>
    ensures { OnOk result (text.new.items ≡ text.old.items ++ key_line key.now (decimal number)) }
{
    let mut buffer = itoa::Buffer::new();
    push_key(text, key, buffer.format(number))
}

fn push_acl(text: &mut Text, length: u16, count: u16) -> Result<(), NoMemory>
    ensures { OnOk result (text.new.items ≡ text.old.items ++ key_line (codes "acl") (decimal length ++ codes " " ++ decimal count)) }
{
    let mut buffer = itoa::Buffer::new();
    text.extend_from_slice(b"acl ")?;
    text.extend_from_slice(buffer.format(length).as_bytes())?;
    text.push(b' ')?;
    text.extend_from_slice(buffer.format(count).as_bytes())?;
    text.push(b'\n')?;
    Ok(())
}

fn push_keys(text: &mut Text, scenario: &Scenario) -> Result<(), NoMemory>
    ensures { OnOk result (text.new.items ≡ text.old.items ++ keys_text scenario.now.settings scenario.now.acl_length scenario.now.acl_count scenario.now.chunk) }
{
    let settings = &scenario.settings;
    push_key(text, "transport", transport_text(settings.transport))?;
    push_key(text, "serves", serves_text(settings.serves))?;
    push_acl(text, scenario.acl_length, scenario.acl_count)?;
    push_number(text, "chunk", scenario.chunk)?;
    push_number(text, "mtu", settings.mtu)?;
    push_number(text, "mps", settings.mps)?;
    push_number(text, "window", settings.window as u16)?;
    push_number(text, "tries", settings.tries as u16)?;
    push_number(text, "credits", settings.credits as u16)?;
    push_number(text, "obex", settings.obex)?;
    push_key(text, "srm", switch_text(settings.srm))
}

fn push_names(text: &mut Text, names: &Names) -> Result<(), NoMemory>
    ensures { OnOk result (text.new.items ≡ text.old.items ++ flat_map object_line names.now) }
{
    for name in names.as_slice() {
        push_key(text, "object", name.text())?;
    }
    Ok(())
}

fn push_runs(text: &mut Text, runs: &Runs) -> Result<(), NoMemory>
    ensures { OnOk result (text.new.items ≡ text.old.items ++ flat_map run_line runs.now) }
{
    let mut buffer = itoa::Buffer::new();
    for (count, word) in runs.as_slice() {
        push_key(text, buffer.format(*count), &word.text())?;
    }
    Ok(())
}

/// The text of a scenario in which nothing is left out: all keys in order with their values, the
/// objects, the line `radio` and the runs.
///
/// `scenario_of` reads it as that scenario, where it has at most 1,048,576 octets. It answers
/// `NoMemory` where there was no room for the text.
pub fn put_scenario(alloc: Global, scenario: &Scenario) -> Result<Vec<u8>, NoMemory>
    ensures text { IfOk result (λ text. text.items ≡ scenario_text scenario.now) }
    ensures again { IfOk result (λ text. IsReadAs scenario.now text.items) }
{
    let mut text = Vec::new(alloc);
    push_keys(&mut text, scenario)?;
    push_names(&mut text, &scenario.names)?;
    text.extend_from_slice(b"radio\n")?;
    push_runs(&mut text, &scenario.script)?;
    Ok(text)
}
