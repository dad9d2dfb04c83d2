//! Short texts, put together in place.

ghost use Rattle.std.specs.Prelude.{◌≡◌, ◌+◌, ◌<◌, ◌≤◌, ◌^◌, ◌++◌, length, drop, decimal};
ghost use Rattle.push_terms.specs.Words.{hex_digit, hex_word, hex_octet};

use arrayvec::ArrayString;

/// The text of a word or of an outcome.
pub type ShortText = ArrayString<24>;

/// Adds a text for which there is room.
pub(crate) fn push_text(text: &mut ShortText, more: &str)
    requires room { length text.old.bytes + length more.now ≤ 24 }
    ensures { text.new.bytes ≡ text.old.bytes ++ more.now }
{
    text.push_str(more);
}

/// Adds a number of at most five digits.
pub(crate) fn push_decimal(text: &mut ShortText, number: u16)
    requires room { length text.old.bytes + 5 ≤ 24 }
    ensures value { text.new.bytes ≡ text.old.bytes ++ decimal number }
    ensures short { length (decimal number) ≤ 5 }
{
    let mut buffer = itoa::Buffer::new();
    text.push_str(buffer.format(number));
}

/// The upper case hexadecimal digit of a number below 16.
fn upper_digit(value: u8) -> u8
    requires { value < 16 }
    ensures digit { result ≡ hex_digit value }
    ensures ascii { result < 128 }
{
    if value < 10 {
        b'0' + value
    } else {
        b'A' + (value - 10)
    }
}

/// Adds two upper case hexadecimal digits.
pub(crate) fn push_octet(text: &mut ShortText, octet: u8)
    requires room { length text.old.bytes + 2 ≤ 24 }
    ensures { text.new.bytes ≡ text.old.bytes ++ hex_octet octet }
{
    text.push(upper_digit(octet / 16) as char);
    text.push(upper_digit(octet % 16) as char);
}

/// Adds four upper case hexadecimal digits.
pub(crate) fn push_hex(text: &mut ShortText, number: u16)
    requires room { length text.old.bytes + 4 ≤ 24 }
    ensures { text.new.bytes ≡ text.old.bytes ++ hex_word number }
{
    push_octet(text, (number / 256) as u8);
    push_octet(text, (number % 256) as u8);
}

/// Writes a text to the front of `into` and answers how many octets it has.
pub(crate) fn put_short(text: &ShortText, into: &mut [u8]) -> usize
    requires room { 24 ≤ length into.old }
    ensures count { result ≡ length text.now.bytes }
    ensures written { into.new ≡ text.now.bytes ++ drop (length text.now.bytes) into.old }
{
    let octets = text.as_str().as_bytes();
    into[..octets.len()].copy_from_slice(octets);
    octets.len()
}
