//! The packets of the three-wire UART transport layer (Bluetooth Core Specification 5.1, Volume 4
//! Part D): the SLIP layer (section 3), which marks where a packet begins and ends, and the packet
//! header (section 4), both ways.
#![tactic(auto)]

pub mod laws;
mod packet;
mod reading;
mod refusal;
mod slip;
mod stepping;
mod writing;

pub use packet::WirePacket;
pub use reading::packet_of;
pub use refusal::WireRefusal;
pub use slip::{Slip, SlipTaken};
pub use writing::{put_packet, put_slip};
