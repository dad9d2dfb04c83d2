//! What a link says: the talk of one of its hosts, and the channels, SDUs, packets and objects that
//! are read off it.
#![tactic(auto)]

mod call;
mod channel;
mod course;
pub mod laws;
mod life;
mod party;
mod word;

pub use call::{Call, Failure, Wanted};
pub use channel::Channel;
pub use course::{Asked, Course};
pub use life::Life;
pub use party::Party;
pub use word::Word;
