//! The server of the Service Discovery Protocol (Core 5.1, Volume 3 Part B, 4), with the service
//! record of Object Push.
#![tactic(auto)]

mod fault;
pub mod laws;
mod list;
mod octets;
mod pattern;
mod records;
mod replies;
mod request;
mod service;

pub use records::Records;
