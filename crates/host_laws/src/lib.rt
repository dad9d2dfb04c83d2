//! What the channels of a host and its profile are told on a link, read off what the host heard and said there.
#![tactic(auto)]

pub mod laws;
