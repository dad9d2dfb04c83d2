//! Captures as text, with a line for each object that the receiving host heard.
#![tactic(auto)]

mod course;
mod ears;
pub mod laws;
mod line;
mod links;
mod matter;
mod news;
mod objects;
mod octets;
mod passing;
mod piece;
mod segments;
mod streams;
mod taking;
mod tally;
mod viewing;

pub use viewing::view_tagged;
