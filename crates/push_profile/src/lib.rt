//! The server of Object Push (Object Push Profile 1.2, 5 and 6): it answers searches and stores objects over two transports.
#![tactic(auto)]

mod listener;
mod octets;
mod reception;
mod server;
mod service;
mod sessions;
mod stream;

pub use server::PushServer;
