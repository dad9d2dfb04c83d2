//! Commands of a host (Core 5.1, Volume 2 Part E, 7.1, 7.3 and 7.4).

use bt_base::{BdAddr, Handle};

/// A command with its parameters.
#[derive(Clone, Copy, Debug, PartialEq, Eq)]
pub enum Command<'a> {
    /// Create Connection (7.1.5): pages a device.
    CreateConnection {
        address: BdAddr,
        packets: u16,
        repetition: u8,
        reserved: u8,
        clock: u16,
        switch: u8,
    },
    /// Disconnect (7.1.6): ends a connection.
    Disconnect {
        handle: Handle,
        reason: u8,
    },
    /// Accept Connection Request (7.1.8).
    AcceptConnection {
        address: BdAddr,
        role: u8,
    },
    /// Reset (7.3.2).
    Reset,
    /// Write Scan Enable (7.3.18).
    WriteScanEnable {
        value: u8,
    },
    /// Read Buffer Size (7.4.5).
    ReadBufferSize,
    /// Read BD_ADDR (7.4.6).
    ReadBdAddr,
    /// A command of another number, with its parameters as they are.
    Other {
        opcode: u16,
        params: &'a [u8],
    },
}
