//! The credits of a channel of RFCOMM, both ways (RFCOMM 1.2, 6.5).
#![tactic(auto)]

mod account;

pub use account::{Account, AccountRefusal};
