//! What the text of a word says, and the word, where its numbers are within their ranges.

ghost use Rattle.std.specs.Prelude.{◌≡◌, ◌≤◌, Option, None, IfSome};
ghost use Rattle.std.specs.Option.{option_map};
ghost use Rattle.push_terms.specs.Words.{IsWord};
ghost use Rattle.script_words.specs.Words.{said_of, cut_said, long_said, short_said, damage_said, number_within, word_within};

use crate::parts::{mask_of, number_of, side_of, split_word, way_of};
use push_terms::{Side, Way, Word};

/// A word whose numbers are not judged yet.
#[derive(Clone, Copy, Debug, PartialEq, Eq)]
pub enum Said {
    Pass,
    Lose(Way),
    Repeat(Way),
    Damage(Way, u64, u16),
    Cut(Way, u64),
    Timer(Side),
    Drop,
    Cancel,
}

/// A direction, a number and a mask behind `damage`.
#[tactic(auto, unfolding(crate::specs::Words::damage_said))]
fn damage_said(rest: &str) -> Option<Said>
    ensures { result ≡ damage_said rest.now }
{
    let (way, rest) = split_word(rest);
    let way = way_of(way)?;
    let (at, mask) = split_word(rest?);
    let at = number_of(at)?;
    let mask = mask_of(mask?.as_bytes())?;
    Some(Said::Damage(way, at, mask))
}

/// A direction and a number behind `cut`.
#[tactic(auto, unfolding(crate::specs::Words::cut_said))]
fn cut_said(rest: &str) -> Option<Said>
    ensures { result ≡ cut_said rest.now }
{
    let (way, packets) = split_word(rest);
    let way = way_of(way)?;
    let packets = number_of(packets?)?;
    Some(Said::Cut(way, packets))
}

/// A word with something behind it.
#[tactic(auto, unfolding(crate::specs::Words::long_said))]
fn long_said(word: &str, rest: &str) -> Option<Said>
    ensures { result ≡ long_said word.now rest.now }
{
    if word == "lose" {
        Some(Said::Lose(way_of(rest)?))
    } else if word == "repeat" {
        Some(Said::Repeat(way_of(rest)?))
    } else if word == "damage" {
        damage_said(rest)
    } else if word == "cut" {
        cut_said(rest)
    } else if word == "timer" {
        Some(Said::Timer(side_of(rest)?))
    } else {
        None
    }
}

/// A word with nothing behind it.
fn short_said(word: &str) -> Option<Said>
    ensures { result ≡ short_said word.now }
{
    if word == "pass" {
        Some(Said::Pass)
    } else if word == "drop" {
        Some(Said::Drop)
    } else if word == "cancel" {
        Some(Said::Cancel)
    } else {
        None
    }
}

/// The word that a text says.
#[tactic(auto, unfolding(crate::specs::Words::said_of))]
pub fn said_of(text: &str) -> Option<Said>
    ensures { result ≡ said_of text.now }
{
    let (word, rest) = split_word(text);
    match rest {
        Some(rest) => long_said(word, rest),
        None => short_said(word),
    }
}

/// A number that is within a range.
pub fn number_within(low: u16, high: u16, number: u64) -> Option<u16>
    ensures value { result ≡ number_within low high number }
    ensures range { IfSome result (λ n. (low ≤ n) × (n ≤ high)) }
{
    if number < low as u64 || number > high as u64 {
        return None;
    }
    Some(number as u16)
}

/// The word, if its numbers are within their ranges.
#[tactic(auto, unfolding(crate::specs::Words::word_within))]
pub fn word_within(said: Said) -> Option<Word>
    ensures word { result ≡ word_within said }
    ensures range { IfSome result IsWord }
{
    match said {
        Said::Pass => Some(Word::Pass),
        Said::Lose(way) => Some(Word::Lose(way)),
        Said::Repeat(way) => Some(Word::Repeat(way)),
        Said::Damage(way, at, mask) => {
            let at = number_within(4, 65534, at)?;
            let mask = number_within(1, 65535, mask as u64)?;
            Some(Word::Damage { way, at, mask })
        }
        Said::Cut(way, packets) => {
            let packets = number_within(1, 65535, packets)?;
            Some(Word::Cut { way, packets })
        }
        Said::Timer(side) => Some(Word::Timer(side)),
        Said::Drop => Some(Word::Drop),
        Said::Cancel => Some(Word::Cancel),
    }
}
