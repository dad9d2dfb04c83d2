//! The commands that a host sends.

ghost use Rattle.std.specs.Prelude.{◌≡◌, ◌≤◌, ◌+◌, ◌++◌, length, drop};
ghost use Rattle.h4_framing.specs.Packets.{spelling, IsPacket};
ghost use Rattle.hci_packets.specs.Commands.{command_params, plain_command, AllowsCommand};
ghost use Rattle.hci_packets.specs.Units.{command_unit};
ghost use Rattle.host_link.specs.Calling.{ends};
ghost use Rattle.host_link.specs.HostCommands.{IsWhole, command_of, command_packet, opcode, asks, accepts};

use crate::opcode::Opcode;
use bt_base::{BdAddr, Handle};
use hci_packets::{Command, put_command};

/// How many octets the longest of the commands has.
pub const LONGEST_COMMAND: usize = 17;

/// The reason of Disconnect: the user ended the connection (Volume 1 Part F, 2.19).
const USER_ENDED: u8 = 0x13;

/// A command that a host sends, with what it chooses itself (Core 5.1, Volume 2 Part E, 7.1, 7.3
/// and 7.4).
#[derive(Clone, Copy, Debug, Default)]
pub enum HostCommand {
    /// Reset (7.3.2).
    #[default]
    Reset,
    /// Read Buffer Size (7.4.5).
    ReadBufferSize,
    /// Read BD_ADDR (7.4.6).
    ReadBdAddr,
    /// Write Scan Enable (7.3.18), for inquiry and page scans.
    WriteScanEnable,
    /// Create Connection (7.1.5) to the device of this address.
    CreateConnection(BdAddr),
    /// Accept Connection Request (7.1.8) of the device of this address.
    AcceptConnection(BdAddr),
    /// Disconnect (7.1.6) the link of this handle.
    Disconnect(Handle),
}

impl HostCommand {
    /// The command with all its parameters.
    fn command(&self) -> Command<'static>
        ensures { plain_command result ≡ command_of self.now }
    {
        match *self {
            HostCommand::Reset => Command::Reset,
            HostCommand::ReadBufferSize => Command::ReadBufferSize,
            HostCommand::ReadBdAddr => Command::ReadBdAddr,
            HostCommand::WriteScanEnable => Command::WriteScanEnable { value: 0x03 },
            HostCommand::CreateConnection(address) => Command::CreateConnection {
                address,
                packets: 0xCC18,
                repetition: 0x01,
                reserved: 0x00,
                clock: 0x0000,
                switch: 0x00,
            },
            HostCommand::AcceptConnection(address) => Command::AcceptConnection {
                address,
                role: 0x01,
            },
            HostCommand::Disconnect(handle) => Command::Disconnect {
                handle,
                reason: USER_ENDED,
            },
        }
    }

    /// The number of the command.
    pub fn opcode(&self) -> u16
        ensures { result ≡ opcode self.now }
    {
        let code = match self {
            HostCommand::Reset => Opcode::Reset,
            HostCommand::ReadBufferSize => Opcode::ReadBufferSize,
            HostCommand::ReadBdAddr => Opcode::ReadBdAddr,
            HostCommand::WriteScanEnable => Opcode::WriteScanEnable,
            HostCommand::CreateConnection(_) => Opcode::CreateConnection,
            HostCommand::AcceptConnection(_) => Opcode::AcceptConnection,
            HostCommand::Disconnect(_) => Opcode::Disconnect,
        };
        code.number()
    }

    /// Whether a Connection Complete is awaited once it is out.
    pub fn asks(&self) -> bool
        ensures { result ≡ asks self.now }
    {
        matches!(
            self,
            HostCommand::CreateConnection(_) | HostCommand::AcceptConnection(_)
        )
    }

    /// Whether it is Disconnect.
    pub fn ends(&self) -> bool
        ensures { result ≡ ends self.now }
    {
        matches!(self, HostCommand::Disconnect(_))
    }

    /// Whether it is Accept Connection Request.
    pub fn accepts(&self) -> bool
        ensures { result ≡ accepts self.now }
    {
        matches!(self, HostCommand::AcceptConnection(_))
    }

    /// Writes its packet from the first octet of `into` on, which has room for the longest, and
    /// answers how many octets it has. The octets behind it stay as they are.
    pub fn write(&self, into: &mut [u8]) -> usize
        requires { LONGEST_COMMAND ≤ length into.old }
        ensures count { result ≡ length (spelling (command_packet self.now)) }
        ensures short { result ≤ LONGEST_COMMAND }
        ensures written { into.new ≡ spelling (command_packet self.now) ++ drop result into.old }
        ensures packet { IsPacket 1021 (command_packet self.now) }
        ensures whole { IsWhole self.now }
    {
        put(&self.command(), into)
    }
}

/// Writes the packet of one of these commands.
fn put(command: &Command<'_>, into: &mut [u8]) -> usize
    requires room { LONGEST_COMMAND ≤ length into.old }
    requires short { length (command_params (plain_command command.now)) ≤ 13 }
    requires allowed { AllowsCommand (plain_command command.now) }
    ensures count { result ≡ 4 + length (command_params (plain_command command.now)) }
    ensures written { into.new ≡ command_unit (plain_command command.now) ++ drop result into.old }
{
    put_command(command, into)
}
