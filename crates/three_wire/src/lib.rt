//! The three-wire UART transport (Bluetooth Core Specification 5.1, Volume 4 Part D): one end of a
//! line, and units that are carried over a line that loses packets.
#![tactic(auto)]

mod carriage;
mod crossing;
mod ends;
mod fault;
mod feed;
mod held;
pub mod laws;
mod line;
mod loss;
mod rounds;
mod wire;

pub use fault::{CarryEnd, CarryFault};
pub use rounds::carry;
pub use wire::{Wire, WireHeard, WireSubmit};
