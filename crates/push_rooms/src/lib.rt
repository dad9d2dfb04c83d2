//! What waits in memory that is had at the start: a frame of the multiplexer, and the name of an object.
#![tactic(auto)]

mod object_name;
mod waiting_frame;

pub use object_name::ObjectName;
pub use waiting_frame::WaitingFrame;
