//! Commands as whole H4 units.

ghost use Rattle.std.specs.Prelude.{◌≡◌, ◌+◌, ◌<◌, ◌≤◌, ◌∷◌, ◌++◌, length};
ghost use Rattle.bt_base.specs.Octets.{le16};
ghost use Rattle.hci_packets.specs.Commands.{plain_command, command_params, AllowsCommand, CreateConnection, Disconnect, AcceptConnection};
ghost use Rattle.hci_packets.specs.Units.{Writes, command_unit};

use crate::command::Command;
use crate::rows::{
    ACCEPT_CONNECTION, CREATE_CONNECTION, DISCONNECT, READ_BD_ADDR, READ_BUFFER_SIZE, RESET,
    WRITE_SCAN_ENABLE,
};
use crate::unit::{octets_of, put_unit};
use bt_base::{BdAddr, Handle};

const COMMAND_INDICATOR: u8 = 0x01;

/// Writes the H4 unit of a command at the front, and answers how many octets it has. The rest of
/// `into` stays as it is.
///
/// It needs room, a command that stands in the table, and at most 255 octets of parameters.
pub fn put_command(command: &Command<'_>, into: &mut [u8]) -> usize
    requires allowed { AllowsCommand (plain_command command.now) }
    requires few { length (command_params (plain_command command.now)) < 256 }
    requires room { length (command_unit (plain_command command.now)) ≤ length into.old }
    ensures { Writes into.old into.new result (command_unit (plain_command command.now)) }
{
    match *command {
        Command::CreateConnection {
            address,
            packets,
            repetition,
            reserved,
            clock,
            switch,
        } => { put_create_connection(address, packets, repetition, reserved, clock, switch, into) }
        Command::Disconnect { handle, reason } => put_disconnect(handle, reason, into),
        Command::AcceptConnection { address, role } => put_accept_connection(address, role, into),
        Command::Reset => put_row(RESET, &[], into),
        Command::WriteScanEnable { value } => put_row(WRITE_SCAN_ENABLE, &[value], into),
        Command::ReadBufferSize => put_row(READ_BUFFER_SIZE, &[], into),
        Command::ReadBdAddr => put_row(READ_BD_ADDR, &[], into),
        Command::Other { opcode, params } => put_row(opcode, params, into),
    }
}

fn put_create_connection(
    address: BdAddr,
    packets: u16,
    repetition: u8,
    reserved: u8,
    clock: u16,
    switch: u8,
    into: &mut [u8],
) -> usize
    requires { length (command_unit (CreateConnection address packets repetition reserved clock switch)) ≤ length into.old }
    ensures { Writes into.old into.new result (command_unit (CreateConnection address packets repetition reserved clock switch)) }
{
    let [a, b, c, d, e, f] = address.get();
    let [low, high] = octets_of(packets);
    let [clock_low, clock_high] = octets_of(clock);
    let params = [
        a, b, c, d, e, f, low, high, repetition, reserved, clock_low, clock_high, switch,
    ];
    put_row(CREATE_CONNECTION, &params, into)
}

fn put_disconnect(handle: Handle, reason: u8, into: &mut [u8]) -> usize
    requires { 7 ≤ length into.old }
    ensures { Writes into.old into.new result (command_unit (Disconnect handle reason)) }
{
    let [low, high] = octets_of(handle.get());
    put_row(DISCONNECT, &[low, high, reason], into)
}

fn put_accept_connection(address: BdAddr, role: u8, into: &mut [u8]) -> usize
    requires { length (command_unit (AcceptConnection address role)) ≤ length into.old }
    ensures { Writes into.old into.new result (command_unit (AcceptConnection address role)) }
{
    let [a, b, c, d, e, f] = address.get();
    put_row(ACCEPT_CONNECTION, &[a, b, c, d, e, f, role], into)
}

/// Writes the unit of a command of that number with those parameters.
fn put_row(opcode: u16, params: &[u8], into: &mut [u8]) -> usize
    requires few { length params.now < 256 }
    requires room { 4 + length params.now ≤ length into.old }
    ensures { Writes into.old into.new result (COMMAND_INDICATOR ∷ (le16 opcode ++ (length params.now ∷ params.now))) }
{
    let [low, high] = octets_of(opcode);
    put_unit(into, &[COMMAND_INDICATOR, low, high], params, &[])
}
