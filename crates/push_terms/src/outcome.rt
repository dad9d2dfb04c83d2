//! What came of a push.

ghost use Rattle.std.specs.Prelude.{◌≡◌, ◌≤◌, ◌++◌, length, drop};
ghost use Rattle.push_terms.specs.Outcomes.{outcome_text};

use crate::pen::{ShortText, push_decimal, push_octet, push_text, put_short};

/// What came of a push: its first cause.
#[derive(Clone, Copy, Debug, PartialEq, Eq)]
pub enum Outcome {
    /// The whole object was taken.
    Done,
    /// The link broke.
    LinkLost,
    /// One thing would have had to be sent once too often.
    RetryLimit,
    /// The peer answered with that code where another was awaited.
    Refused(u8),
    /// The peer does not offer the transport.
    NoService,
    /// The shelf failed.
    ShelfFault,
    /// It was cancelled.
    Cancelled,
    /// The peer closed a channel or the link.
    PeerClosed,
    /// That layer refused the peer for that reason.
    PeerFault(u8, u8),
    /// The words ran out.
    ScriptEnded,
}

impl Outcome {
    /// The text of the outcome, of at most 24 octets.
    pub fn text(self) -> ShortText
        ensures { result.bytes ≡ outcome_text self }
    {
        let mut text = ShortText::new();
        match self {
            Outcome::Done => push_text(&mut text, "done"),
            Outcome::LinkLost => push_text(&mut text, "link-lost"),
            Outcome::RetryLimit => push_text(&mut text, "retry-limit"),
            Outcome::Refused(code) => {
                push_text(&mut text, "refused ");
                push_octet(&mut text, code);
            }
            Outcome::NoService => push_text(&mut text, "no-service"),
            Outcome::ShelfFault => push_text(&mut text, "shelf"),
            Outcome::Cancelled => push_text(&mut text, "cancelled"),
            Outcome::PeerClosed => push_text(&mut text, "peer-closed"),
            Outcome::PeerFault(layer, reason) => {
                push_text(&mut text, "peer-fault ");
                push_decimal(&mut text, layer as u16);
                push_text(&mut text, " ");
                push_decimal(&mut text, reason as u16);
            }
            Outcome::ScriptEnded => push_text(&mut text, "script-ended"),
        }
        text
    }
}

/// Writes the text of an outcome to the front of `into` and answers how many octets it has. It
/// needs room for 24 octets. The rest of `into` stays as it was.
pub fn put_outcome(outcome: &Outcome, into: &mut [u8]) -> usize
    requires room { 24 ≤ length into.old }
    ensures count { result ≡ length (outcome_text outcome.now) }
    ensures written { into.new ≡ outcome_text outcome.now ++ drop (length (outcome_text outcome.now)) into.old }
{
    put_short(&outcome.text(), into)
}
