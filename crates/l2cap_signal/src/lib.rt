//! The signalling commands of L2CAP (Bluetooth Core Specification 5.1, Volume 3 Part A, section 4):
//! what a payload on the signalling channel says, and how a command is written.
#![tactic(auto)]

mod kinds;
pub mod laws;
mod refusal;
mod signal;
mod signals;
mod writing;

pub use refusal::SignalRefusal;
pub use signal::{Signal, SignalKind};
pub use signals::{Signals, signals_of};
pub use writing::put_signal;
