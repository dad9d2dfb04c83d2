//! HCI commands and events as values and as parameters, both ways by one table, and the head of an
//! ACL packet (Core 5.1, Volume 2 Part E, 5.4 and 7).
#![tactic(auto)]

mod acl;
mod buffers;
mod class;
mod command;
mod event;
mod reading_commands;
mod reading_events;
mod refusal;
mod rows;
mod unit;
mod writing_commands;
mod writing_events;

pub use acl::{AclHead, Boundary, acl_word};
pub use buffers::{Buffers, buffers_of};
pub use command::Command;
pub use event::Event;
pub use reading_commands::command_of;
pub use reading_events::event_of;
pub use refusal::HciRefusal;
pub use writing_commands::put_command;
pub use writing_events::put_event;

pub mod laws;
