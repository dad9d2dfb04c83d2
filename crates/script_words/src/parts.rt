//! The parts of a line: its words and its numbers.

ghost use Rattle.std.specs.Prelude.{◌≡◌, ◌==◌, ◌≤◌, ◌<◌, ◌^◌, Option, None, Some, length, MatchOption, IfSome, IfNone};
ghost use Rattle.std.specs.Option.{option_map};
ghost use Rattle.std.specs.List.{before_first, list_all};
ghost use Rattle.std.specs.Str.{IsUtf8};
ghost use Rattle.script_words.specs.Parts.{first_word, rest_of, is_digit, has_leading_zero, is_number, number_of, hex_value, mask_of, octet_of, way_of, side_of, pair_of};

use push_terms::{Side, Way};

/// What stands before the first blank of a line, and what stands behind it, if there is one.
pub fn split_word(line: &str) -> (&str, Option<&str>)
    ensures word { result.0.now ≡ first_word line.now }
    ensures rest { option_map (λ x. x.now) result.1 ≡ rest_of line.now }
{
    match line.split_once(' ') {
        Some((word, rest)) => (word, Some(rest)),
        None => (line, None),
    }
}

fn all_digits(text: &[u8]) -> bool
    ensures { result ≡ list_all is_digit text.now }
{
    text.iter().all(|octet| is_digit(*octet))
}

fn is_digit(octet: u8) -> bool
    ensures { result ≡ is_digit octet }
{
    octet >= b'0' && octet <= b'9'
}

/// Whether the first digit of several is a zero.
fn has_leading_zero(text: &[u8]) -> bool
    ensures { result ≡ has_leading_zero text.now }
{
    match text {
        [first, _, ..] => *first == b'0',
        _ => false,
    }
}

/// Whether a text is 1 to 10 decimal digits, the first of them no zero unless it is alone.
fn is_number(text: &[u8]) -> bool
    ensures { result ≡ is_number text.now }
{
    if text.is_empty() {
        return false;
    }
    if text.len() > 10 {
        return false;
    }
    if has_leading_zero(text) {
        return false;
    }
    all_digits(text)
}

/// The number that a text spells.
pub fn number_of(text: &str) -> Option<u64>
    ensures { result ≡ number_of text.now }
{
    if !is_number(text.as_bytes()) {
        return None;
    }
    text.parse().ok()
}

/// A direction of the air.
pub(crate) fn way_of(text: &str) -> Option<Way>
    ensures { result ≡ way_of text.now }
{
    if text == "ab" {
        Some(Way::Ab)
    } else if text == "ba" {
        Some(Way::Ba)
    } else {
        None
    }
}

/// A host.
pub(crate) fn side_of(text: &str) -> Option<Side>
    ensures { result ≡ side_of text.now }
{
    if text == "a" {
        Some(Side::A)
    } else if text == "b" {
        Some(Side::B)
    } else {
        None
    }
}

/// The octets as text, if they are UTF-8.
pub(crate) fn text_in(octets: &[u8]) -> Option<&str>
    ensures text { IfSome result (λ text. text.now ≡ octets.now) }
    ensures none { IfNone result (IsUtf8 octets.now → ⊥) }
{
    str::from_utf8(octets).ok()
}

/// The value of an upper case hexadecimal digit.
fn hex_value(digit: u8) -> Option<u16>
    ensures value { result ≡ hex_value digit }
    ensures small { IfSome result (λ n. n < 16) }
{
    match digit {
        b'0'..=b'9' => Some((digit - b'0') as u16),
        b'A'..=b'F' => Some((digit - b'A') as u16 + 10),
        _ => None,
    }
}

/// The number of four upper case hexadecimal digits.
pub(crate) fn mask_of(text: &[u8]) -> Option<u16>
    ensures { result ≡ mask_of text.now }
{
    match text {
        [a, b, c, d] => {
            let a = hex_value(*a)?;
            let b = hex_value(*b)?;
            let c = hex_value(*c)?;
            let d = hex_value(*d)?;
            Some(((a * 16 + b) * 16 + c) * 16 + d)
        }
        _ => None,
    }
}

/// The number of two upper case hexadecimal digits.
pub(crate) fn octet_of(text: &[u8]) -> Option<u8>
    ensures { result ≡ octet_of text.now }
{
    match text {
        [high, low] => {
            let high = hex_value(*high)?;
            let low = hex_value(*low)?;
            Some((high * 16 + low) as u8)
        }
        _ => None,
    }
}

/// Two numbers with a blank between them.
pub fn pair_of(text: &str) -> Option<(u64, u64)>
    ensures { result ≡ pair_of text.now }
{
    let (first, second) = split_word(text);
    let first = number_of(first)?;
    let second = number_of(second?)?;
    Some((first, second))
}
