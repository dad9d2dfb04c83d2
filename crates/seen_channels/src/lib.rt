//! The channels of a link, as its signalling tells them to whoever reads along
//! (Bluetooth Core Specification 5.1, Volume 3 Part A, 4.2 to 4.5).
#![tactic(auto)]

mod channel;
mod channels;
mod direction;
pub mod laws;
mod side;

pub use channel::{Channel, Protocol};
pub use channels::Channels;
pub use direction::Direction;
