//! The course of a push as small values (Object Push Profile 1.2, 4 and 5): a client that pushes one object after the
//! other, each over a link of its own, and a server that stores them. What each call answers, and what the machine is
//! after it, is a short function of its value; the answers of the ports come in as a list.
#![tactic(auto)]

mod closing;
mod course;
pub mod laws;
mod outlet;

pub use closing::CloseCause;
pub use course::{Contact, Point, Stage};
pub use outlet::Outlet;
