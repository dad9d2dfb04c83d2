//! A host that receives is fed the octets of a source, and what it says goes to a sink: the form `receive`.
#![tactic(auto)]

mod fault;
mod fed_host;
mod hearing;
pub mod laws;
mod listening;
mod reading;
mod receiving;
mod served;
mod telling;

pub use fault::{ListenFault, StreamRefusal};
pub use fed_host::FedHost;
pub use receiving::receive;
