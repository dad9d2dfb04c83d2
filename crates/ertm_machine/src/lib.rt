//! The machine of enhanced retransmission mode of L2CAP (Bluetooth Core Specification 5.1, Volume 3
//! Part A, section 8.6): what it sends, what it makes of a frame that comes in, and what its timer
//! does.
#![tactic(auto)]

mod answers;
mod joiner;
mod machine;
mod piece;
mod receiver;
mod sender;
mod window;
mod writing;

pub use answers::{Heard, Submit};
pub use ertm_model::ErtmReason;
pub use machine::Ertm;
