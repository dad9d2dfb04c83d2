//! The two ends of a three-wire line as pure functions of small values, and what holds of each run of
//! them over a line that loses packets (Bluetooth Core Specification 5.1, Volume 4 Part D, sections 6
//! and 8). Which message is sent and answered in which state is this project's own choice.
#![tactic(auto)]

pub mod laws;
mod link;

pub use link::{LinkMessage, Stage, Way};
