//! The packets of the HCI on a UART: one indicator octet before each packet tells its kind
//! (Core 5.1, Volume 4 Part A).
#![tactic(auto)]

mod extent;
mod framer;
mod gathering;
pub mod laws;
mod leading;
mod refusal;
mod unit;
mod writing;

pub use framer::{Framer, Taken};
pub use leading::{Leading, first};
pub use refusal::H4Refusal;
pub use unit::Unit;
pub use writing::write_unit;
