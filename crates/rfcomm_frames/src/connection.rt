//! How far a data link connection of the multiplexer is.

ghost use Rattle.std.specs.Prelude.{◌≡◌};
ghost use Rattle.rfcomm_frames.specs.Connections.{other_role, turned, is_left};

use crate::frame::MuxKind;

/// The two sides of a multiplexer (RFCOMM 1.2, 5.2): the initiator opened the L2CAP channel that it
/// stands on, and opens its channels.
#[derive(Clone, Copy, Debug, PartialEq, Eq)]
pub enum Role {
    Initiator,
    Responder,
}

/// A data link connection: the control channel or a channel of its own (TS 07.10, 5.4.1 and 5.4.2).
#[derive(Clone, Copy, Debug, PartialEq, Eq)]
pub enum Dlc {
    /// The initiator has not asked for it.
    Idle,
    /// The initiator asked for it with SABM.
    Asked,
    /// The responder agreed with UA.
    Open,
    /// It was closed by DISC, and stays closed.
    Ended,
}

impl Role {
    /// The other side.
    pub fn other(self) -> Role
        ensures { result ≡ other_role self }
    {
        match self {
            Role::Initiator => Role::Responder,
            Role::Responder => Role::Initiator,
        }
    }
}

impl Dlc {
    /// What the connection is once a side sent a frame of this kind on it, with the P/F bit.
    pub fn turned(self, from: Role, kind: MuxKind) -> Dlc
        ensures { result ≡ turned from kind self }
    {
        match (from, kind, self) {
            (Role::Initiator, MuxKind::Sabm, Dlc::Idle) => Dlc::Asked,
            (Role::Responder, MuxKind::Ua, Dlc::Asked) => Dlc::Open,
            (Role::Initiator, MuxKind::Disc, Dlc::Asked) => Dlc::Ended,
            (_, MuxKind::Disc, Dlc::Open) => Dlc::Ended,
            _ => self,
        }
    }

    /// Whether DISC of this side closes the connection: one that is open, and from the initiator also
    /// one that was asked for.
    pub fn is_left(self, from: Role) -> bool
        ensures { result ≡ is_left from self }
    {
        match self {
            Dlc::Open => true,
            Dlc::Asked => matches!(from, Role::Initiator),
            Dlc::Idle | Dlc::Ended => false,
        }
    }
}
