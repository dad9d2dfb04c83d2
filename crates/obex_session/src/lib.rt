//! The sessions of Object Push over OBEX (IrOBEX 1.5; Object Push Profile 1.2; single response mode
//! of the Generic Object Exchange Profile 2.1): which objects packets store, and how each packet is
//! answered.
#![tactic(auto)]

mod asking;
mod client;
mod course;
mod hearing;
pub mod laws;
mod marks;
mod naming;
mod put_writing;
mod putting;
mod responding;
mod server;

pub use client::{Answered, ClientSession, PutNext};
pub use server::{Reply, ServerSession};
