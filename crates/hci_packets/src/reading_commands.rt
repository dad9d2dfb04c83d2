//! Commands from their parameters.

ghost use Rattle.std.specs.Prelude.{◌≡◌, IfOk, IsOkAnd, slice_index};
ghost use Rattle.byteorder.specs.Endian.{little_number};
ghost use Rattle.hci_packets.specs.Refusals.{RefusedBy, wrong_length, wrong_handle, wrong_value};
ghost use Rattle.hci_packets.specs.Commands.{PlainCommand, IsCommand, plain_command, command_refusal};

use crate::command::Command;
use crate::refusal::HciRefusal;
use crate::rows::{
    ACCEPT_CONNECTION, CREATE_CONNECTION, DISCONNECT, READ_BD_ADDR, READ_BUFFER_SIZE, RESET,
    WRITE_SCAN_ENABLE, of_length,
};
use bt_base::{BdAddr, Handle, read_le16};

/// The command of that number with those parameters. A number that the table does not have is
/// `Other`.
///
/// `ShortParams` and `LongParams` for another length than the row's, then `BadHandle` for a handle
/// above 0x0EFF, then `BadValue` for a role switch or a role above 1 and a scan value above 3.
pub fn command_of<'a>(opcode: u16, params: &'a [u8]) -> Result<Command<'a>, HciRefusal>
    // What is read stands in the table with this number and these parameters.
    ensures read { IfOk result (λ command. IsCommand (plain_command command) opcode params.now) }
    // Each command that stands in the table so is read.
    ensures all { (command : PlainCommand) → IsCommand command opcode params.now → IsOkAnd result (λ read. plain_command read ≡ command) }
    // Each refusal comes exactly on its condition.
    ensures refused { RefusedBy result (command_refusal opcode params.now) }
{
    by_row(opcode, params)
}

fn by_row<'a>(opcode: u16, params: &'a [u8]) -> Result<Command<'a>, HciRefusal>
    ensures read { IfOk result (λ command. IsCommand (plain_command command) opcode params.now) }
    ensures refused { RefusedBy result (command_refusal opcode params.now) }
{
    match opcode {
        CREATE_CONNECTION => create_connection(params),
        DISCONNECT => disconnect(params),
        ACCEPT_CONNECTION => accept_connection(params),
        RESET => {
            of_length(params, 0)?;
            Ok(Command::Reset)
        }
        WRITE_SCAN_ENABLE => write_scan_enable(params),
        READ_BUFFER_SIZE => {
            of_length(params, 0)?;
            Ok(Command::ReadBufferSize)
        }
        READ_BD_ADDR => {
            of_length(params, 0)?;
            Ok(Command::ReadBdAddr)
        }
        _ => Ok(Command::Other { opcode, params }),
    }
}

fn create_connection<'a>(params: &[u8]) -> Result<Command<'a>, HciRefusal>
    ensures read { IfOk result (λ command. IsCommand (plain_command command) CREATE_CONNECTION params.now) }
    ensures refused { RefusedBy result (wrong_length 13 params.now (wrong_value 1 (slice_index params.now 12))) }
{
    of_length(params, 13)?;
    let switch = params[12];
    if switch > 1 {
        return Err(HciRefusal::BadValue);
    }
    Ok(Command::CreateConnection {
        address: BdAddr::of(&params[..6]).unwrap(),
        packets: read_le16(&params[6..]),
        repetition: params[8],
        reserved: params[9],
        clock: read_le16(&params[10..]),
        switch,
    })
}

fn disconnect<'a>(params: &[u8]) -> Result<Command<'a>, HciRefusal>
    ensures read { IfOk result (λ command. IsCommand (plain_command command) DISCONNECT params.now) }
    ensures refused { RefusedBy result (wrong_length 3 params.now (wrong_handle (little_number 2 params.now))) }
{
    of_length(params, 3)?;
    let Some(handle) = Handle::of(read_le16(params)) else {
        return Err(HciRefusal::BadHandle);
    };
    Ok(Command::Disconnect {
        handle,
        reason: params[2],
    })
}

fn accept_connection<'a>(params: &[u8]) -> Result<Command<'a>, HciRefusal>
    ensures read { IfOk result (λ command. IsCommand (plain_command command) ACCEPT_CONNECTION params.now) }
    ensures refused { RefusedBy result (wrong_length 7 params.now (wrong_value 1 (slice_index params.now 6))) }
{
    of_length(params, 7)?;
    let role = params[6];
    if role > 1 {
        return Err(HciRefusal::BadValue);
    }
    Ok(Command::AcceptConnection {
        address: BdAddr::of(&params[..6]).unwrap(),
        role,
    })
}

fn write_scan_enable<'a>(params: &[u8]) -> Result<Command<'a>, HciRefusal>
    ensures read { IfOk result (λ command. IsCommand (plain_command command) WRITE_SCAN_ENABLE params.now) }
    ensures refused { RefusedBy result (wrong_length 1 params.now (wrong_value 3 (slice_index params.now 0))) }
{
    of_length(params, 1)?;
    let value = params[0];
    if value > 3 {
        return Err(HciRefusal::BadValue);
    }
    Ok(Command::WriteScanEnable { value })
}
