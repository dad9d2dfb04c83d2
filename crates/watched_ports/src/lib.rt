//! Ports that are watched while a run lasts. A run is told of its ports by what they answer; that they did not fail, how often an inbox
//! stored an object, and that all else of them stays is what the watched port notes and keeps.
#![tactic(auto)]

mod inbox;
mod lent;
mod past;
mod shelf;
mod sink;

pub use inbox::WatchedInbox;
pub use lent::{LentInbox, LentShelf, LentSink};
pub use past::Past;
pub use shelf::WatchedShelf;
pub use sink::WatchedSink;
