//! Events of a controller (Core 5.1, Volume 2 Part E, 7.7).

use bt_base::{BdAddr, Handle};

/// An event with its parameters.
#[derive(Clone, Copy, Debug, PartialEq, Eq)]
pub enum Event<'a> {
    /// Connection Complete (7.7.3). The handle is one only where the status is 0.
    ConnectionComplete {
        status: u8,
        handle: u16,
        address: BdAddr,
        link: u8,
        encryption: u8,
    },
    /// Connection Request (7.7.4). The class of device has 24 bits.
    ConnectionRequest {
        address: BdAddr,
        class: u32,
        link: u8,
    },
    /// Disconnection Complete (7.7.5).
    DisconnectionComplete {
        status: u8,
        handle: Handle,
        reason: u8,
    },
    /// Command Complete (7.7.14), with the return parameters as they are.
    CommandComplete {
        number: u8,
        opcode: u16,
        returned: &'a [u8],
    },
    /// Command Status (7.7.15).
    CommandStatus {
        status: u8,
        number: u8,
        opcode: u16,
    },
    /// Number Of Completed Packets (7.7.19), with four octets for each entry: its handle and how
    /// many packets.
    CompletedPackets {
        count: u8,
        entries: &'a [u8],
    },
    /// An event of another code, with its parameters as they are.
    Other {
        code: u8,
        params: &'a [u8],
    },
}
