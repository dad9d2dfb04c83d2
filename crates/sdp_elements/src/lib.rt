//! Data elements of the Service Discovery Protocol (Core 5.1, Volume 3 Part B, 3), read and written
//! against one spelling.
#![tactic(auto)]

mod continuation;
mod element;
mod fault;
mod header;
mod identifier;
pub mod laws;
mod pdu;
mod reading;
mod sequence;
mod target;
mod walk;
mod writing;

pub use continuation::continuation_in;
pub use element::{Children, Element};
pub use fault::SdpRefusal;
pub use identifier::uuid_of;
pub use pdu::{Pdu, pdu_of};
pub use reading::element_of;
pub use sequence::sequence_at;
pub use target::Target;
pub use writing::{put_behind, put_element};
