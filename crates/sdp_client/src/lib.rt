//! The client of the Service Discovery Protocol (Core 5.1, Volume 3 Part B, 4), which asks how
//! Object Push is reached.
#![tactic(auto)]

pub mod laws;
mod query;
mod reading;
mod reason;
pub mod reply;
mod said;

pub use query::Query;
pub use reason::{Found, QueryReason};
pub use said::Part;
pub use sdp_elements::Target;
