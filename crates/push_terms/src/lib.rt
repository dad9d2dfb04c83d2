//! The terms in which pushes are scripted and reported: the words of the radio, what comes of a push, and the
//! greatest values of a run, with their texts.
#![tactic(auto)]

mod outcome;
mod peaks;
mod pen;
mod word;

pub use outcome::{Outcome, put_outcome};
pub use peaks::Peaks;
pub use pen::ShortText;
pub use word::{Side, Way, Word, put_word};
