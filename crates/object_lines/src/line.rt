//! The line of an object.

ghost use Rattle.std.specs.Prelude.{◌≡◌, ◌++◌, codes, decimal, map, OnOk};
ghost use Rattle.std.specs.List.{flat_map};
ghost use Rattle.hex.specs.Hex.{encode_upper};
ghost use Rattle.h4_view.specs.Texts.{word_text};
ghost use Rattle.object_lines.specs.Lines.{units_text};
ghost use Rattle.object_lines.specs.Tallies.{told_line, told_lines, plain_told};

use crate::tally::Told;
use bt_base::NoMemory;

/// The digits of a number below 16.
const DIGITS: [u8; 16] = *b"0123456789ABCDEF";

fn push_decimal(text: &mut Vec<u8>, number: u64) -> Result<(), NoMemory>
    ensures { OnOk result (text.new.items ≡ text.old.items ++ decimal number) }
{
    let mut buffer = itoa::Buffer::new();
    text.extend_from_slice(buffer.format(number).as_bytes())?;
    Ok(())
}

fn push_text(text: &mut Vec<u8>, more: &str) -> Result<(), NoMemory>
    ensures { OnOk result (text.new.items ≡ text.old.items ++ more.now) }
{
    text.extend_from_slice(more.as_bytes())?;
    Ok(())
}

/// Adds two upper case hexadecimal digits for each octet.
fn push_hex(text: &mut Vec<u8>, octets: &[u8]) -> Result<(), NoMemory>
    ensures { OnOk result (text.new.items ≡ text.old.items ++ encode_upper octets.now) }
{
    for octet in octets {
        text.push(DIGITS[usize::from(octet / 16)])?;
        text.push(DIGITS[usize::from(octet % 16)])?;
    }
    Ok(())
}

/// Adds four upper case hexadecimal digits.
fn push_word(text: &mut Vec<u8>, word: u16) -> Result<(), NoMemory>
    ensures { OnOk result (text.new.items ≡ text.old.items ++ word_text word) }
{
    push_hex(text, &word.to_be_bytes())
}

/// Adds the digits of all units.
fn push_words(text: &mut Vec<u8>, units: &[u16]) -> Result<(), NoMemory>
    ensures { OnOk result (text.new.items ≡ text.old.items ++ flat_map word_text units.now) }
{
    for unit in units {
        push_word(text, *unit)?;
    }
    Ok(())
}

/// Adds the units of a name, or a dash for none.
fn push_units(text: &mut Vec<u8>, units: &[u16]) -> Result<(), NoMemory>
    ensures { OnOk result (text.new.items ≡ text.old.items ++ units_text units.now) }
{
    if units.is_empty() {
        return push_text(text, "-");
    }
    push_words(text, units)
}

/// Adds the line of an object.
fn push_object(text: &mut Vec<u8>, object: &Told) -> Result<(), NoMemory>
    ensures { OnOk result (text.new.items ≡ text.old.items ++ told_line (plain_told object.now)) }
{
    push_text(text, "object ")?;
    push_units(text, &object.name)?;
    push_text(text, " ")?;
    push_decimal(text, object.size as u64)?;
    push_text(text, "\n")
}

/// Adds a line for each object.
pub(crate) fn push_objects(text: &mut Vec<u8>, objects: &[Told]) -> Result<(), NoMemory>
    ensures { OnOk result (text.new.items ≡ text.old.items ++ told_lines (map plain_told objects.now)) }
{
    for object in objects {
        push_object(text, object)?;
    }
    Ok(())
}
