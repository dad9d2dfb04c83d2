//! The client of Object Push (Object Push Profile 1.2, 4): the course of a push, step by step, over L2CAP or RFCOMM.
#![tactic(auto)]

mod asking;
mod causes;
mod client;
mod course;
mod dialog;
mod event;
mod outgoing;
mod reception;
mod step;
mod stream;

pub use client::PushClient;
pub use event::ProfileEvent;
pub use push_model::CloseCause;
pub use push_terms::Outcome;
pub use step::Step;
