//! The lines that state the keys of a scenario.

ghost use Rattle.std.specs.Prelude.{◌≡◌, ◌≤◌, ◌<◌, Option, Bool, None, IfOk, IfSome, is_some};
ghost use Rattle.std.specs.Option.{option_map};
ghost use Rattle.push_script.specs.Keys.{key_of, late_key_of, lowest, highest, unless_stated, within, number_stated, acl_stated, transport_stated, serves_stated, switch_stated, with_key};
ghost use Rattle.push_script.specs.Stated.{IsBetween};

use crate::choices::{serves_of, switch_of, transport_of};
use crate::refusal::ScriptRefusal;
use crate::stated::{Key, Keys};
use bt_base::{Serves, Transport};
use script_words::{number_of, number_within, pair_of};

/// The key of that name.
pub(crate) fn key_of(name: &str) -> Option<Key>
    ensures { result ≡ key_of name.now }
{
    if name == "transport" {
        Some(Key::Transport)
    } else if name == "serves" {
        Some(Key::Serves)
    } else if name == "acl" {
        Some(Key::Acl)
    } else if name == "chunk" {
        Some(Key::Chunk)
    } else if name == "mtu" {
        Some(Key::Mtu)
    } else if name == "mps" {
        Some(Key::Mps)
    } else if name == "window" {
        Some(Key::Window)
    } else {
        late_key_of(name)
    }
}

fn late_key_of(name: &str) -> Option<Key>
    ensures { result ≡ late_key_of name.now }
{
    if name == "tries" {
        Some(Key::Tries)
    } else if name == "credits" {
        Some(Key::Credits)
    } else if name == "obex" {
        Some(Key::Obex)
    } else if name == "srm" {
        Some(Key::Srm)
    } else if name == "object" {
        Some(Key::Object)
    } else {
        None
    }
}

/// The lowest number that a key takes.
fn lowest(key: Key) -> u16
    ensures { result ≡ lowest key }
{
    match key {
        Key::Mtu | Key::Obex => 255,
        Key::Mps => 48,
        Key::Tries => 2,
        _ => 1,
    }
}

/// The highest number that a key takes.
fn highest(key: Key) -> u16
    ensures { result ≡ highest key }
{
    match key {
        Key::Mtu | Key::Obex => 32767,
        Key::Mps => 1010,
        Key::Window => 63,
        Key::Tries => 20,
        Key::Credits => 40,
        _ => 4096,
    }
}

/// `Repeated` where a key was stated before.
fn unless_stated(stated: bool) -> Result<(), ScriptRefusal>
    ensures { result ≡ unless_stated stated }
{
    if stated {
        Err(ScriptRefusal::Repeated)
    } else {
        Ok(())
    }
}

/// A number that is within a range, or `OutOfRange`.
pub(crate) fn within(low: u16, high: u16, number: u64) -> Result<u16, ScriptRefusal>
    ensures value { result ≡ within low high number }
    ensures range { IfOk result (λ n. IsBetween low high n) }
{
    let Some(number) = number_within(low, high, number) else {
        return Err(ScriptRefusal::OutOfRange);
    };
    Ok(number)
}

/// What a line states a number to be.
#[tactic(auto, unfolding(crate::specs::Keys::number_stated))]
fn number_stated(key: Key, stated: bool, value: &str) -> Result<u16, ScriptRefusal>
    ensures value { result ≡ number_stated key stated value.now }
    ensures range { IfOk result (λ n. IsBetween (lowest key) (highest key) n) }
{
    let Some(number) = number_of(value) else {
        return Err(ScriptRefusal::BadLine);
    };
    unless_stated(stated)?;
    let number = within(lowest(key), highest(key), number)?;
    Ok(number)
}

/// What a line states the length and the count of ACL packets to be.
#[tactic(auto, unfolding(crate::specs::Keys::acl_stated))]
fn acl_stated(stated: bool, value: &str) -> Result<(u16, u16), ScriptRefusal>
    ensures value { result ≡ acl_stated stated value.now }
    ensures range { IfOk result (λ pair. IsBetween 27 1021 pair.0 × IsBetween 1 64 pair.1) }
{
    let Some((length, count)) = pair_of(value) else {
        return Err(ScriptRefusal::BadLine);
    };
    unless_stated(stated)?;
    let length = within(27, 1021, length)?;
    let count = within(1, 64, count)?;
    Ok((length, count))
}

/// What a line states the transport to be.
#[tactic(auto, unfolding(crate::specs::Keys::transport_stated))]
fn transport_stated(stated: bool, value: &str) -> Result<Transport, ScriptRefusal>
    ensures { result ≡ transport_stated stated value.now }
{
    let Some(transport) = transport_of(value) else {
        return Err(ScriptRefusal::BadLine);
    };
    unless_stated(stated)?;
    Ok(transport)
}

/// What a line states the offered transports to be.
#[tactic(auto, unfolding(crate::specs::Keys::serves_stated))]
fn serves_stated(stated: bool, value: &str) -> Result<Serves, ScriptRefusal>
    ensures { result ≡ serves_stated stated value.now }
{
    let Some(serves) = serves_of(value) else {
        return Err(ScriptRefusal::BadLine);
    };
    unless_stated(stated)?;
    Ok(serves)
}

/// What a line states single response mode to be.
#[tactic(auto, unfolding(crate::specs::Keys::switch_stated))]
fn switch_stated(stated: bool, value: &str) -> Result<bool, ScriptRefusal>
    ensures { result ≡ switch_stated stated value.now }
{
    let Some(on) = switch_of(value) else {
        return Err(ScriptRefusal::BadLine);
    };
    unless_stated(stated)?;
    Ok(on)
}

/// The keys with one that is stated by a line; `object` is none of them.
#[tactic(auto, unfolding(crate::specs::Keys::with_key))]
pub(crate) fn with_key(keys: Keys, key: Key, value: &str) -> Result<Keys, ScriptRefusal>
    ensures { result ≡ with_key keys key value.now }
{
    let mut keys = keys;
    match key {
        Key::Transport => keys.transport = Some(transport_stated(keys.transport.is_some(), value)?),
        Key::Serves => keys.serves = Some(serves_stated(keys.serves.is_some(), value)?),
        Key::Acl => keys.acl = Some(acl_stated(keys.acl.is_some(), value)?),
        Key::Chunk => keys.chunk = Some(number_stated(key, keys.chunk.is_some(), value)?),
        Key::Mtu => keys.mtu = Some(number_stated(key, keys.mtu.is_some(), value)?),
        Key::Mps => keys.mps = Some(number_stated(key, keys.mps.is_some(), value)?),
        Key::Window => keys.window = Some(number_stated(key, keys.window.is_some(), value)?),
        Key::Tries => keys.tries = Some(number_stated(key, keys.tries.is_some(), value)?),
        Key::Credits => keys.credits = Some(number_stated(key, keys.credits.is_some(), value)?),
        Key::Obex => keys.obex = Some(number_stated(key, keys.obex.is_some(), value)?),
        Key::Srm => keys.srm = Some(switch_stated(keys.srm.is_some(), value)?),
        Key::Object => {}
    }
    Ok(keys)
}
