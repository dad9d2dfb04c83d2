//! Outcomes from their texts.

ghost use Rattle.std.specs.Prelude.{◌≡◌, ◌&&◌, ◌<◌, Option, Some, None, cond, nat_lt, IfSome};
ghost use Rattle.script_words.specs.Outcomes.{SaysOutcome, short_outcome, fault_within, long_outcome, outcome_read};

use crate::parts::{octet_of, pair_of, split_word, text_in};
use push_terms::Outcome;

/// The outcome whose text this is. It is `None` exactly where the text is no outcome's.
pub fn outcome_of(text: &[u8]) -> Option<Outcome>
    ensures found { IfSome result (λ outcome. SaysOutcome text.now outcome) }
    ensures only { (outcome : Outcome) → SaysOutcome text.now outcome → result ≡ Some outcome }
{
    outcome_read(text_in(text)?)
}

#[tactic(auto, unfolding(crate::specs::Outcomes::outcome_read))]
fn outcome_read(text: &str) -> Option<Outcome>
    ensures { result ≡ outcome_read text.now }
{
    let (word, rest) = split_word(text);
    match rest {
        Some(rest) => long_outcome(word, rest),
        None => short_outcome(word),
    }
}

/// An outcome without numbers.
#[tactic(auto, unfolding(crate::specs::Outcomes::short_outcome))]
fn short_outcome(text: &str) -> Option<Outcome>
    ensures { result ≡ short_outcome text.now }
{
    if text == "done" {
        Some(Outcome::Done)
    } else if text == "link-lost" {
        Some(Outcome::LinkLost)
    } else if text == "retry-limit" {
        Some(Outcome::RetryLimit)
    } else if text == "no-service" {
        Some(Outcome::NoService)
    } else if text == "shelf" {
        Some(Outcome::ShelfFault)
    } else if text == "cancelled" {
        Some(Outcome::Cancelled)
    } else if text == "peer-closed" {
        Some(Outcome::PeerClosed)
    } else if text == "script-ended" {
        Some(Outcome::ScriptEnded)
    } else {
        None
    }
}

/// An outcome with numbers.
#[tactic(auto, unfolding(crate::specs::Outcomes::long_outcome))]
fn long_outcome(word: &str, rest: &str) -> Option<Outcome>
    ensures { result ≡ long_outcome word.now rest.now }
{
    if word == "refused" {
        Some(Outcome::Refused(octet_of(rest.as_bytes())?))
    } else if word == "peer-fault" {
        let (layer, reason) = pair_of(rest)?;
        fault_within(layer, reason)
    } else {
        None
    }
}

/// A fault of the peer, if the layer and the reason are octets.
fn fault_within(layer: u64, reason: u64) -> Option<Outcome>
    ensures { result ≡ fault_within (layer, reason) }
{
    if layer < 256 && reason < 256 {
        Some(Outcome::PeerFault(layer as u8, reason as u8))
    } else {
        None
    }
}
