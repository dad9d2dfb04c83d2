//! What is said on a link, and what each saying means for its channels.
#![tactic(auto)]

mod entries;
mod meaning;
mod sensing;

use capture::Flow;
pub use entries::{Entry, Setup, made_by};
use l2cap_signal::{Signal, SignalRefusal};
pub use meaning::{Meaning, Part, Requests};
pub use sensing::{Question, Reply, Sense, sense_in};

/// What is said on a link, as one of its hosts says and hears it
/// (Core 5.1, Volume 3 Part A, 3.1 and 4).
#[derive(Clone, Copy, Debug)]
pub enum Saying<'a> {
    /// A command on the signalling channel, or why it is refused.
    Command(Flow, Result<Signal<'a>, SignalRefusal>),
    /// A PDU of another channel, whole.
    Carried(Flow, &'a [u8]),
}
