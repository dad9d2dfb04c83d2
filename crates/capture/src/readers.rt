//! Plain and slow readers of captures, for tests and tools: each computes a definition as it
//! stands.

mod buffers;
mod completing;
mod linking;
mod moving;

use crate::flow::Flow;
pub use buffers::{all_outstanding, outstanding};
pub use completing::pdus;
use h4_framing::Unit;
pub use linking::{link_up, links};
pub use moving::moves;

/// A packet that went out of a host or came into it.
#[derive(Clone, Copy, Debug)]
pub struct Move<'a> {
    pub flow: Flow,
    pub unit: Unit<'a>,
}

/// A link: its handle, and what moved while it was up.
#[derive(Debug, Drop)]
pub struct Link<'a> {
    pub handle: u16,
    pub moves: Vec<Move<'a>>,
}

/// A PDU of a link, and the direction in which it moved.
#[derive(Debug, Drop)]
pub struct Pdu {
    pub flow: Flow,
    pub octets: Vec<u8>,
}
