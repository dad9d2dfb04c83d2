//! Inputs of items one after the other, in whatever pieces they come: each item is told of in a sink.
#![tactic(auto)]

mod end;
mod ports;
mod run;
mod teller;

pub use end::{Ending, StreamFault};
pub use run::tell_all;
pub use teller::{Front, Teller};
