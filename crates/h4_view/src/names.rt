//! The names of commands and events (Core 5.1, Volume 2 Part E, 7).

ghost use Rattle.std.specs.Prelude.{◌≡◌};
ghost use Rattle.h4_view.specs.Names.{command_name, event_name};

/// The name of the command of that opcode, or `Other`.
pub(crate) fn command_name(opcode: u16) -> &'static str
    ensures { result.now ≡ command_name opcode }
{
    match opcode {
        0x0405 => "CreateConnection",
        0x0406 => "Disconnect",
        0x0409 => "AcceptConnection",
        0x0C03 => "Reset",
        0x0C1A => "WriteScanEnable",
        0x1005 => "ReadBufferSize",
        0x1009 => "ReadBdAddr",
        _ => "Other",
    }
}

/// The name of the event of that code, or `Other`.
pub(crate) fn event_name(code: u8) -> &'static str
    ensures { result.now ≡ event_name code }
{
    match code {
        0x03 => "ConnectionComplete",
        0x04 => "ConnectionRequest",
        0x05 => "DisconnectionComplete",
        0x0E => "CommandComplete",
        0x0F => "CommandStatus",
        0x13 => "CompletedPackets",
        _ => "Other",
    }
}
