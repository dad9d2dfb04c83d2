//! The channels of a link, as one of its hosts keeps them (Bluetooth Core Specification 5.1, Volume 3
//! Part A, sections 2.1, 3, 4, 6 and 7): signalling, basic channels, and channels in enhanced
//! retransmission mode.
#![tactic(auto)]

mod answers;
mod arrival;
mod channels;
mod commands;
mod configuration;
mod connection;
mod hearing;
mod identifier;
mod line;
mod lines;
mod memory;
mod offering;
mod payload;
mod place;
mod progress;
mod queue;
mod reading;
mod request;
mod response;
mod setup;
mod stage;
mod timing;
mod up;
mod verdict;
mod wish;
mod writing;

pub use answers::SendAnswer;
pub use channels::Channels;
pub use up::Up;
