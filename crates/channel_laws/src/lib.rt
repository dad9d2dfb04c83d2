//! What the channels of a host are by what is said on its link, whatever that is.
#![tactic(auto)]

pub mod laws;
