//! Laws of the endpoints of a host: that each is given once and is of one channel of two hosts, and that a request that comes again is answered as before.
#![tactic(auto)]

pub mod laws;
