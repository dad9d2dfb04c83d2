//! Laws of Object Push, whatever comes: what a server's inbox gains is what the packets spell that it heard, and what a
//! client sends in one push spells its object once or nothing.
#![tactic(auto)]

pub mod client_laws;
pub mod laws;
pub mod peer_laws;
