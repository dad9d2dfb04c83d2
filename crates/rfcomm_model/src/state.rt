//! The parts of a multiplexer's state.

/// Why a multiplexer was closed.
#[derive(Clone, Copy, Debug, PartialEq, Eq)]
pub enum MuxReason {
    /// The peer answered DM to something other than an own DISC.
    Dm = 1,
    /// It was closed in order: the peer's DISC was answered by UA, or the own one on the control
    /// channel was answered.
    Disc = 2,
    /// The peer does without credit based flow control (RFCOMM 1.2, 6.5).
    NoCreditFlow = 3,
    /// The peer sent information without a credit.
    Overdrawn = 4,
    /// A frame or a control message was refused.
    BadFrame = 5,
    /// The peer granted more credits than can be held.
    CreditOverflow = 7,
}

/// A command of the multiplexer's own.
#[derive(Clone, Copy, Debug, PartialEq, Eq)]
pub enum Command {
    /// SABM on the control channel.
    OpenControl,
    /// PN for the user channel.
    Agree,
    /// SABM on the user channel.
    OpenUser,
    /// MSC for the user channel.
    Signal,
    /// DISC on the user channel.
    LeaveUser,
    /// DISC on the control channel.
    LeaveControl,
}

/// What a multiplexer asks of its peer: one command at a time.
#[derive(Clone, Copy, Debug, PartialEq, Eq)]
pub enum Asks {
    Nothing,
    /// The command waits to be sent.
    Due(Command),
    /// The command was sent, and its answer has not come.
    Awaited(Command),
}

/// Which of the two MSC commands for the user channel were answered.
#[derive(Clone, Copy, Debug, PartialEq, Eq)]
pub enum Readiness {
    Neither,
    /// The own one, by the peer.
    Own,
    /// The peer's.
    Peer,
    Both,
}
