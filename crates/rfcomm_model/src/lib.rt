//! The multiplexer of RFCOMM as a small value with exact functions over it, and what two of them are
//! together (RFCOMM 1.2, with its subset of TS 07.10).
#![tactic(auto)]

pub mod laws;
mod state;

pub use state::{Asks, Command, MuxReason, Readiness};
