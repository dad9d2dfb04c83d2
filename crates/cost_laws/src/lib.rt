//! What the requests of both hosts of a run cost.
#![tactic(auto)]

pub mod laws;
