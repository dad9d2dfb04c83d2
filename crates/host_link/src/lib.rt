//! The half of a host that faces its controller: the start, the flow of commands, the one link, the
//! buffers, and PDUs cut into ACL packets and joined from them (Core 5.1, Volume 2 Part E, 4.1.1,
//! 4.4, 5.4 and 7).
#![tactic(auto)]

mod calling;
mod command_flow;
mod hearing;
mod host_command;
mod host_link;
pub mod laws;
mod news;
mod opcode;
mod outbox;
mod putting_out;
mod returned;
mod role;

pub use host_link::HostLink;
pub use news::{ControllerFault, News};
pub use opcode::Opcode;
pub use role::Role;
