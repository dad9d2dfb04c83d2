//! The simulated world: two hosts, their controllers and the air between them.
#![tactic(auto)]

mod exchange;
mod fault;
mod feeding;
mod host;
pub mod laws;
mod medium;
mod ordering;
mod playing;
mod recording;
mod scene;
mod turning;
mod world;

pub use fault::WorldFault;
pub use host::{Client, Host, Keeps, Measured};
pub use world::World;
