//! Captures as text: a line for each packet of a stream.
#![tactic(auto)]

mod both_links;
mod details;
mod joined;
pub mod laws;
mod line;
mod links;
mod names;
mod nested;
mod piece;
mod raw;
mod refusal;
mod signals;
mod snoop;
mod tagged;

pub use raw::view_raw;
pub use refusal::{ViewFault, ViewRefusal};
pub use snoop::view_snoop;
pub use tagged::view_entries;
