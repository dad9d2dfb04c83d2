//! The form `push` for every scenario: both hosts of Object Push play it in their world.
#![tactic(auto)]

mod halting;
pub mod laws;
mod pushing;
mod reporting;
mod running;

pub use pushing::push;
