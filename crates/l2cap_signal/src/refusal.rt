/// Why a command was refused. Each variant has the command's code, and its identifier where the
/// payload reaches as far.
#[derive(Clone, Copy, Debug, PartialEq, Eq)]
pub enum SignalRefusal {
    /// The identifier is 0.
    ZeroIdentifier { code: u8, identifier: Option<u8> },
    /// The stated length passes the end of the payload, or is none that the code has; or one to three
    /// octets are left, which are no command.
    BadLength { code: u8, identifier: Option<u8> },
    /// No command has the code.
    UnknownCode { code: u8, identifier: Option<u8> },
    /// The payload is longer than 672 octets. Code and identifier are those of its first command.
    AboveMtu { code: u8, identifier: Option<u8> },
}
