//! The frames of RFCOMM and the control messages of its multiplexer, both ways (RFCOMM 1.2, with its
//! subset of TS 07.10).
#![tactic(auto)]

mod closing;
mod connection;
mod control;
mod control_reading;
mod control_writing;
mod frame;
pub mod laws;
mod length;
mod pieces;
mod reading;
mod refusal;
mod writing;

pub use check_words::fcs8;
pub use closing::Closing;
pub use connection::{Dlc, Role};
pub use control::Control;
pub use control_reading::control_of;
pub use control_writing::put_control;
pub use frame::{MuxFrame, MuxKind};
pub use reading::frame_of;
pub use refusal::MuxRefusal;
pub use writing::put_frame;
