//! The words of a radio script and the outcomes of pushes, read from their texts, and the parts of a
//! line: its words and its numbers.
#![tactic(auto)]

pub mod laws;
mod outcomes;
mod parts;
mod said;
mod words;

pub use outcomes::outcome_of;
pub use parts::{number_of, pair_of, split_word};
pub use said::{Said, number_within, said_of, word_within};
pub use words::word_of;
