//! The text of a scenario, as it is read and as it is written, the text of the report on what came of
//! it, and scenarios that are made from a number.
#![tactic(auto)]

mod choices;
mod draft;
mod finding;
mod keys;
pub mod laws;
mod lines;
mod made;
mod names;
mod radio;
mod reading;
mod refusal;
mod report;
mod runs;
mod scenario;
mod stated;
mod writing;

pub use finding::object_line;
pub use made::make_scenario;
pub use names::Names;
pub use push_terms::{Outcome, Peaks, Side, Way, Word, put_outcome, put_word};
pub use reading::scenario_of;
pub use refusal::{ScriptFault, ScriptRefusal};
pub use report::{put_refusal, put_report};
pub use runs::Runs;
pub use scenario::Scenario;
pub use script_words::{outcome_of, word_of};
pub use writing::put_scenario;
