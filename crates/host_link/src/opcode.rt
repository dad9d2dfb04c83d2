//! The numbers of the commands that a host sends.

ghost use Rattle.std.specs.Prelude.{◌≡◌, ◌≢◌, IfSome, IfNone};
ghost use Rattle.host_link.specs.Opcodes.{number_of, IsNoOpcode};

/// The commands that a host sends, each with its number (Core 5.1, Volume 2 Part E, 7.1, 7.3 and
/// 7.4).
#[derive(Clone, Copy, Debug, PartialEq, Eq)]
pub enum Opcode {
    CreateConnection = 0x0405,
    Disconnect = 0x0406,
    AcceptConnection = 0x0409,
    Reset = 0x0C03,
    WriteScanEnable = 0x0C1A,
    ReadBufferSize = 0x1005,
    ReadBdAddr = 0x1009,
}

impl Opcode {
    /// The number of the command.
    pub fn number(self) -> u16
        ensures { result ≡ number_of self }
    {
        self as u16
    }

    /// The command with that number, `None` where a host sends none with it.
    pub fn of(number: u16) -> Option<Opcode>
        ensures some { IfSome result (λ code. number ≡ number_of code) }
        ensures none { IfNone result (IsNoOpcode number) }
    {
        match number {
            0x0405 => Some(Opcode::CreateConnection),
            0x0406 => Some(Opcode::Disconnect),
            0x0409 => Some(Opcode::AcceptConnection),
            0x0C03 => Some(Opcode::Reset),
            0x0C1A => Some(Opcode::WriteScanEnable),
            0x1005 => Some(Opcode::ReadBufferSize),
            0x1009 => Some(Opcode::ReadBdAddr),
            _ => None,
        }
    }
}
