//! The simulated radio: two controllers and the air between them.
#![tactic(auto)]

mod air;
mod answer;
mod commands;
mod frames;
mod links;
mod manager;
mod phase;
mod queue;
mod radio;
mod ring;
mod step;

pub use radio::Radio;
pub use radio_model::{Deed, Fate};
