//! PDUs of L2CAP in the pieces that ACL packets carry, cut and joined again
//! (Core 5.1, Volume 2 Part E, 5.4.2, and Volume 3 Part A, 7.2).
#![tactic(auto)]

mod cutter;
mod joined;
mod joiner;

pub use cutter::Cutter;
pub use joined::{DropReason, Got, Joined};
pub use joiner::Joiner;

pub mod laws;
