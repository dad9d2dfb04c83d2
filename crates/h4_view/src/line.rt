//! The lines of packets and of refusals.

ghost use Rattle.std.specs.Prelude.{◌≡◌, ◌++◌, length, codes, OnOk, IfOk, decimal};
ghost use Rattle.h4_framing.specs.Packets.{packet, spelling, IsPacket};
ghost use Rattle.hex.specs.Hex.{encode_upper};
ghost use Rattle.h4_view.specs.Texts.{octets_text, word_text};
ghost use Rattle.h4_view.specs.Lines.{packet_text, line, refusal_line};

use crate::names::{command_name, event_name};
use crate::refusal::ViewRefusal;
use bt_base::NoMemory;
use h4_framing::Unit;
use std::alloc::Global;

/// Text that is put together in memory.
pub(crate) type Text = Vec<u8>;

/// Adds the digits of a number. Most numbers of a line have one or two, which are written at once.
pub(crate) fn push_decimal(text: &mut Text, number: u64) -> Result<(), NoMemory>
    ensures { OnOk result (text.new.items ≡ text.old.items ++ decimal number) }
{
    if number < 10 {
        text.push(b'0' + number as u8)?;
        return Ok(());
    }
    if number < 100 {
        text.push(b'0' + (number / 10) as u8)?;
        text.push(b'0' + (number % 10) as u8)?;
        return Ok(());
    }
    let mut buffer = itoa::Buffer::new();
    text.extend_from_slice(buffer.format(number).as_bytes())?;
    Ok(())
}

/// The digits of a number below 16.
const DIGITS: [u8; 16] = *b"0123456789ABCDEF";

/// Adds two upper case hexadecimal digits for each octet.
pub(crate) fn push_hex(text: &mut Text, octets: &[u8]) -> Result<(), NoMemory>
    ensures { OnOk result (text.new.items ≡ text.old.items ++ encode_upper octets.now) }
{
    for octet in octets {
        text.push(DIGITS[usize::from(octet / 16)])?;
        text.push(DIGITS[usize::from(octet % 16)])?;
    }
    Ok(())
}

pub(crate) fn push_octets(text: &mut Text, octets: &[u8]) -> Result<(), NoMemory>
    ensures { OnOk result (text.new.items ≡ text.old.items ++ octets_text octets.now) }
{
    if octets.is_empty() {
        text.push(b'-')?;
        return Ok(());
    }
    push_hex(text, octets)
}

pub(crate) fn push_text(text: &mut Text, more: &str) -> Result<(), NoMemory>
    ensures { OnOk result (text.new.items ≡ text.old.items ++ more.now) }
{
    text.extend_from_slice(more.as_bytes())?;
    Ok(())
}

/// Adds a line under a packet: `  KIND NAME`.
pub(crate) fn push_reason(text: &mut Text, kind: &str, name: &str) -> Result<(), NoMemory>
    ensures { OnOk result (text.new.items ≡ text.old.items ++ (kind.now ++ (name.now ++ codes "\n"))) }
{
    push_text(text, kind)?;
    push_text(text, name)?;
    push_text(text, "\n")
}

/// Adds ` NAME HEX` behind the number of a command or an event.
fn push_named(text: &mut Text, name: &str, params: &[u8]) -> Result<(), NoMemory>
    ensures { OnOk result (text.new.items ≡ text.old.items ++ (codes " " ++ name.now ++ codes " " ++ octets_text params.now)) }
{
    push_text(text, " ")?;
    push_text(text, name)?;
    push_text(text, " ")?;
    push_octets(text, params)
}

/// Adds `KIND WORD LENGTH` of a packet of data.
fn push_counted(text: &mut Text, kind: &str, word: u16, length: usize) -> Result<(), NoMemory>
    ensures { OnOk result (text.new.items ≡ text.old.items ++ (kind.now ++ word_text word ++ codes " " ++ decimal length)) }
{
    push_text(text, kind)?;
    push_hex(text, &word.to_be_bytes())?;
    push_text(text, " ")?;
    push_decimal(text, length as u64)
}

pub(crate) fn push_packet(text: &mut Text, unit: &Unit<'_>) -> Result<(), NoMemory>
    ensures { OnOk result (text.new.items ≡ text.old.items ++ packet_text (packet unit.now)) }
{
    match *unit {
        Unit::Command { opcode, params } => {
            push_text(text, "cmd ")?;
            push_hex(text, &opcode.to_be_bytes())?;
            push_named(text, command_name(opcode), params)
        }
        Unit::Acl { word, octets } => push_counted(text, "acl ", word, octets.len()),
        Unit::Sync { word, octets } => push_counted(text, "sync ", word, octets.len()),
        Unit::Event { code, params } => {
            push_text(text, "evt ")?;
            push_hex(text, &[code])?;
            push_named(text, event_name(code), params)
        }
    }
}

/// Adds the line of a packet at that offset.
pub(crate) fn push_line(text: &mut Text, offset: u64, unit: &Unit<'_>) -> Result<(), NoMemory>
    ensures { OnOk result (text.new.items ≡ text.old.items ++ line offset (packet unit.now)) }
{
    push_decimal(text, offset)?;
    push_text(text, " ")?;
    push_packet(text, unit)?;
    push_text(text, "\n")
}

/// The line of a refusal at that offset.
pub(crate) fn refusal_text(
    alloc: Global,
    refusal: ViewRefusal,
    place: u64,
) -> Result<Text, NoMemory>
    ensures { IfOk result (λ text. text.items ≡ refusal_line refusal place) }
{
    let mut text = Vec::new(alloc);
    push_text(&mut text, "refused offset ")?;
    push_decimal(&mut text, place)?;
    push_text(&mut text, " ")?;
    push_text(&mut text, refusal.name())?;
    push_text(&mut text, "\n")?;
    Ok(text)
}

/// How many octets the packet has on the wire.
pub(crate) fn spelled_length(unit: &Unit<'_>) -> usize
    requires { IsPacket 65535 (packet unit.now) }
    ensures { result ≡ length (spelling (packet unit.now)) }
{
    match unit {
        Unit::Command { params, .. } => 4 + params.len(),
        Unit::Acl { octets, .. } => 5 + octets.len(),
        Unit::Sync { octets, .. } => 4 + octets.len(),
        Unit::Event { params, .. } => 3 + params.len(),
    }
}
