//! The channels of a link, as one of its hosts keeps them (Bluetooth Core Specification 5.1, Volume 3 Part A, sections 4,
//! 6 and 7): a small value, and each thing that may happen to it as a function of that value.
#![tactic(auto)]

mod errand;
mod event;
pub mod laws;
mod request_kind;

pub use errand::Errand;
pub use event::{ChannelEvent, CloseReason};
pub use request_kind::RequestKind;
