//! The frames of enhanced retransmission mode of L2CAP (Bluetooth Core Specification 5.1, Volume 3
//! Part A, section 3.3): I-frames and S-frames, with their basic header and check word, both ways.
#![tactic(auto)]

mod frame;
pub mod laws;
mod reading;
mod refusal;
mod writing;

pub use check_words::fcs16;
pub use frame::{Frame, SKind};
pub use reading::frame_of;
pub use refusal::FrameRefusal;
pub use writing::put_frame;
