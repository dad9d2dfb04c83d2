//! Whether a channel of a host is open, by what is said on its link.
#![tactic(auto)]

pub mod laws;
