//! Scenarios that are made from a number: each is run over ports in memory, and what came of it is told in three lines.
#![tactic(auto)]

mod counting;
pub mod laws;
mod making;
mod memory_ports;
mod report;
mod summary;
mod text_source;

pub use making::make;
