//! How far a side is in closing its multiplexer.

ghost use Rattle.std.specs.Prelude.{◌≡◌};
ghost use Rattle.rfcomm_frames.specs.Ending.{closing_said, closing_heard, awaits_user, awaits_control};

use crate::frame::{MuxFrame, MuxKind};

/// How far a side is in closing its multiplexer: DISC on the user channel, and behind its answer
/// DISC on the control channel (RFCOMM 1.2, 5.2).
#[derive(Clone, Copy, Debug, PartialEq, Eq)]
pub enum Closing {
    NotBegun,
    /// The own DISC on the user channel waits for its answer.
    LeavingUser,
    /// That DISC was answered.
    UserLeft,
    /// The own DISC on the control channel waits for its answer.
    LeavingControl,
}

impl Closing {
    /// How far it is once the side itself sent a frame.
    pub fn said(self, dlci: u8, frame: &MuxFrame<'_>) -> Closing
        ensures { result ≡ closing_said dlci frame.now.kind frame.now.dlci frame.now.pf self }
    {
        match frame.kind {
            MuxKind::Disc if frame.pf && frame.dlci == 0 => Closing::LeavingControl,
            MuxKind::Disc if frame.pf && frame.dlci == dlci => Closing::LeavingUser,
            _ => self,
        }
    }

    /// How far it is once the peer sent a frame.
    pub fn heard(self, dlci: u8, frame: &MuxFrame<'_>) -> Closing
        ensures { result ≡ closing_heard dlci frame.now.kind frame.now.dlci frame.now.pf self }
    {
        let answers = match frame.kind {
            MuxKind::Ua => frame.pf,
            MuxKind::Dm => true,
            _ => false,
        };
        if answers
            && frame.dlci != 0
            && frame.dlci == dlci
            && matches!(self, Closing::LeavingUser)
        {
            return Closing::UserLeft;
        }
        self
    }

    /// Whether the own DISC on the user channel waits for its answer.
    pub fn awaits_user(self) -> bool
        ensures { result ≡ awaits_user self }
    {
        matches!(self, Closing::LeavingUser)
    }

    /// Whether the own DISC on the control channel waits for its answer.
    pub fn awaits_control(self) -> bool
        ensures { result ≡ awaits_control self }
    {
        matches!(self, Closing::LeavingControl)
    }
}
