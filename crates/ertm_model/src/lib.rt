//! The machine of an enhanced channel as a value and pure functions over it, and what always holds of
//! one end and of two (Bluetooth Core Specification 5.1, Volume 3 Part A, section 8).
#![tactic(auto)]

pub mod laws;
mod reason;

pub use reason::ErtmReason;
