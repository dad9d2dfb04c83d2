//! The words of a radio script.

ghost use Rattle.std.specs.Prelude.{◌≡◌, ◌≤◌, ◌++◌, length, drop};
ghost use Rattle.push_terms.specs.Words.{word_text, way_text, side_text};

use crate::pen::{ShortText, push_decimal, push_hex, push_text, put_short};

/// One of the two hosts.
#[derive(Clone, Copy, Debug, PartialEq, Eq)]
pub enum Side {
    /// The host that sends objects.
    A,
    /// The host that receives them.
    B,
}

/// A direction of the air.
#[derive(Clone, Copy, Debug, PartialEq, Eq)]
pub enum Way {
    /// From host a to host b.
    Ab,
    /// From host b to host a.
    Ba,
}

/// What happens next in the air. A frame is a whole L2CAP PDU that waits there.
#[derive(Clone, Copy, Debug, PartialEq, Eq)]
pub enum Word {
    /// A frame is delivered, or the timers are fired where none waits.
    Pass,
    /// The first frame of that direction is lost.
    Lose(Way),
    /// The first frame of that direction is delivered, and stays.
    Repeat(Way),
    /// Two octets of the first frame are changed, from the octet at `at` on, by exclusive or with
    /// `mask`.
    Damage { way: Way, at: u16, mask: u16 },
    /// Only so many ACL packets of the first frame are delivered.
    Cut { way: Way, packets: u16 },
    /// The timer of that host is fired.
    Timer(Side),
    /// The link breaks.
    Drop,
    /// The current push is cancelled.
    Cancel,
}

impl Way {
    pub(crate) fn text(self) -> &'static str
        ensures { result.now ≡ way_text self }
    {
        match self {
            Way::Ab => "ab",
            Way::Ba => "ba",
        }
    }
}

impl Side {
    pub(crate) fn text(self) -> &'static str
        ensures { result.now ≡ side_text self }
    {
        match self {
            Side::A => "a",
            Side::B => "b",
        }
    }
}

impl Word {
    /// The text of the word, without how often it stands: at most 24 octets.
    pub fn text(self) -> ShortText
        ensures { result.bytes ≡ word_text self }
    {
        let mut text = ShortText::new();
        match self {
            Word::Pass => push_text(&mut text, "pass"),
            Word::Lose(way) => {
                push_text(&mut text, "lose ");
                push_text(&mut text, way.text());
            }
            Word::Repeat(way) => {
                push_text(&mut text, "repeat ");
                push_text(&mut text, way.text());
            }
            Word::Damage { way, at, mask } => {
                push_text(&mut text, "damage ");
                push_text(&mut text, way.text());
                push_text(&mut text, " ");
                push_decimal(&mut text, at);
                push_text(&mut text, " ");
                push_hex(&mut text, mask);
            }
            Word::Cut { way, packets } => {
                push_text(&mut text, "cut ");
                push_text(&mut text, way.text());
                push_text(&mut text, " ");
                push_decimal(&mut text, packets);
            }
            Word::Timer(side) => {
                push_text(&mut text, "timer ");
                push_text(&mut text, side.text());
            }
            Word::Drop => push_text(&mut text, "drop"),
            Word::Cancel => push_text(&mut text, "cancel"),
        }
        text
    }
}

/// Writes the text of a word to the front of `into` and answers how many octets it has. It needs
/// room for 24 octets. The rest of `into` stays as it was.
pub fn put_word(word: &Word, into: &mut [u8]) -> usize
    requires room { 24 ≤ length into.old }
    ensures count { result ≡ length (word_text word.now) }
    ensures written { into.new ≡ word_text word.now ++ drop (length (word_text word.now)) into.old }
{
    put_short(&word.text(), into)
}
