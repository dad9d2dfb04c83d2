//! Laws of the text of scenarios, for every value. They speak of no call: the contracts of the calls
//! tie these to the same definitions.

ghost use Rattle.push_script.specs.Laws.{TextsAgain, RunsAreFew, WordsAreFew};

pub use script_words::laws::{
    numbers_are_read_again, outcomes_have_their_own_texts, words_have_their_own_texts,
};

/// The text of a scenario is read as that scenario, where it is no longer than 1,048,576 octets.
pub fn texts_are_read_again()
    ensures { TextsAgain }
{}

/// A scenario that is read has no more runs of words than its text has octets, which are 1,048,576 at
/// most.
pub fn runs_are_few()
    ensures { RunsAreFew }
{}

/// A scenario that is read has less than 2^52 words.
pub fn words_are_few()
    ensures { WordsAreFew }
{}
