//! Where a scenario states its object.

ghost use Rattle.std.specs.Prelude.{◌≡◌, ◌<◌, ◌≤◌, ◌∷◌, length, IfSome, IfNone};
ghost use Rattle.std.specs.List.{position, position_or_len, before_first, after_first};
ghost use Rattle.push_script.specs.Reading.{is_feed, lines, text_limit};
ghost use Rattle.push_script.specs.Refusals.{is_object_line, object_line};

/// The place of the first line feed.
fn feed_in(text: &[u8]) -> Option<usize>
    ensures { result ≡ position is_feed text.now }
{
    text.iter().position(|octet| *octet == b'\n')
}

/// What stands before the first line feed of a text, and what stands behind it.
fn split_feed(text: &[u8]) -> Option<(&[u8], &[u8])>
    ensures found { IfSome result (λ x. (x.0.now ≡ before_first is_feed text.now) × (x.1.now ≡ after_first is_feed text.now) × (position_or_len is_feed text.now < length text.now)) }
    ensures none { IfNone result (position_or_len is_feed text.now ≡ length text.now) }
{
    let Some(at) = feed_in(text) else {
        return None;
    };
    Some((&text[..at], &text[at + 1..]))
}

/// The first line of a text that is not empty, and the text behind it.
fn first_line(text: &[u8]) -> (&[u8], &[u8])
    requires { 0 < length text.now }
    ensures lines { lines text.now ≡ result.0.now ∷ lines result.1.now }
    ensures shorter { length result.1.now < length text.now }
{
    match split_feed(text) {
        Some((line, rest)) => (line, rest),
        None => (text, &[]),
    }
}

/// Whether a line states an object.
fn is_object_line(line: &[u8]) -> bool
    ensures { result ≡ is_object_line line.now }
{
    line.starts_with(b"object ")
}

/// The number of the first line that states an object, counted from 1, in the text of a scenario; in
/// a text without one it is that behind the last line. The text has at most 1,048,576 octets.
pub fn object_line(text: &[u8]) -> u32
    requires short { length text.now ≤ text_limit }
    ensures { result ≡ object_line text.now }
{
    let mut number = 1u32;
    let mut rest = text;
    while !rest.is_empty() {
        let (line, more) = first_line(rest);
        if is_object_line(line) {
            return number;
        }
        number += 1;
        rest = more;
    }
    number
}
