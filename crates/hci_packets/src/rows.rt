//! What the rows of both tables share: their numbers and their lengths.

ghost use Rattle.std.specs.Prelude.{◌≡◌, length, None};
ghost use Rattle.hci_packets.specs.Refusals.{RefusedBy, wrong_length};

use crate::refusal::HciRefusal;

/// Opcodes: the group in the high six bits, the command in the low ten.
pub const CREATE_CONNECTION: u16 = 0x0405;

pub const DISCONNECT: u16 = 0x0406;

pub const ACCEPT_CONNECTION: u16 = 0x0409;

pub const RESET: u16 = 0x0C03;

pub const WRITE_SCAN_ENABLE: u16 = 0x0C1A;

pub const READ_BUFFER_SIZE: u16 = 0x1005;

pub const READ_BD_ADDR: u16 = 0x1009;

/// Event codes.
pub const CONNECTION_COMPLETE: u8 = 0x03;

pub const CONNECTION_REQUEST: u8 = 0x04;

pub const DISCONNECTION_COMPLETE: u8 = 0x05;

pub const COMMAND_COMPLETE: u8 = 0x0E;

pub const COMMAND_STATUS: u8 = 0x0F;

pub const COMPLETED_PACKETS: u8 = 0x13;

/// Refuses parameters of another length than the row's.
pub fn of_length(params: &[u8], length_of_row: usize) -> Result<(), HciRefusal>
    ensures { RefusedBy result (wrong_length length_of_row params.now None) }
{
    if params.len() < length_of_row {
        return Err(HciRefusal::ShortParams);
    }
    if params.len() > length_of_row {
        return Err(HciRefusal::LongParams);
    }
    Ok(())
}
