//! Both hosts of Object Push: octets of a controller in, octets for it out (Core 5.1, Volume 2 Part E and Volume 3 Part A;
//! Object Push Profile 1.2).
#![tactic(auto)]

mod client_end;
mod client_host;
mod end;
mod endpoints;
mod fed;
mod feed_refusal;
mod noting;
mod played_client;
mod played_server;
mod pushing;
mod server_end;
mod server_host;
mod shell;
mod stack;
mod upper;

pub use client_host::ClientHost;
pub use feed_refusal::FeedRefusal;
pub use server_host::ServerHost;
