//! The multiplexer of RFCOMM with one user channel, for either side of it (RFCOMM 1.2, with its subset
//! of TS 07.10): a pipe of octets over an L2CAP channel.
#![tactic(auto)]

mod answers;
mod message;
mod mux;
mod pending;
mod purse;
mod reading;
mod writing;

pub use mux::{Mux, MuxUp};
pub use rfcomm_model::MuxReason;
