//! Two controllers and the air between them, as a pure machine, and what becomes of frames in it.
#![tactic(auto)]

mod deed;
mod fate;
pub mod laws;

pub use deed::Deed;
pub use fate::Fate;
