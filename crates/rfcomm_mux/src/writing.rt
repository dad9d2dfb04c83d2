//! The frames that a multiplexer sends (TS 07.10, 5.2.1; RFCOMM 1.2, 5.1.3).

ghost use Rattle.std.specs.Prelude.{◌≡◌, [], true, None};
ghost use Rattle.rfcomm_frames.specs.Frames.{plain};
ghost use Rattle.rfcomm_model.specs.Written.{commanding, command_frame, response_frame, message_frame, grant_frame, data_frame};

use rfcomm_frames::{MuxFrame, MuxKind, Role};

/// The C/R bit of a side's commands and UIH frames.
pub(crate) fn commanding(role: Role) -> bool
    ensures { result ≡ commanding role }
{
    match role {
        Role::Initiator => true,
        Role::Responder => false,
    }
}

/// A frame without information, with the P/F bit.
fn bare(dlci: u8, cr: bool, kind: MuxKind) -> MuxFrame<'static>
    ensures { plain result ≡ record { dlci = dlci; cr = cr; kind = kind; pf = true; credits = None; octets = [] } }
{
    MuxFrame {
        dlci,
        cr,
        kind,
        pf: true,
        credits: None,
        octets: &[],
    }
}

/// SABM or DISC of a side.
pub(crate) fn command_frame(role: Role, kind: MuxKind, dlci: u8) -> MuxFrame<'static>
    ensures { plain result ≡ command_frame role kind dlci }
{
    bare(dlci, commanding(role), kind)
}

/// UA or DM of a side.
pub(crate) fn response_frame(role: Role, kind: MuxKind, dlci: u8) -> MuxFrame<'static>
    ensures { plain result ≡ response_frame role kind dlci }
{
    bare(dlci, !commanding(role), kind)
}

/// A control message of a side.
pub(crate) fn control_frame(role: Role, octets: &[u8]) -> MuxFrame<'_>
    ensures { plain result ≡ message_frame role octets.now }
{
    data_frame(role, 0, octets)
}

/// A grant of a side.
pub(crate) fn grant_frame(role: Role, dlci: u8, credits: u8) -> MuxFrame<'static>
    ensures { plain result ≡ grant_frame role dlci credits }
{
    MuxFrame {
        dlci,
        cr: commanding(role),
        kind: MuxKind::Uih,
        pf: true,
        credits: Some(credits),
        octets: &[],
    }
}

/// Information of a side on a channel.
pub(crate) fn data_frame(role: Role, dlci: u8, octets: &[u8]) -> MuxFrame<'_>
    ensures { plain result ≡ data_frame role dlci octets.now }
{
    MuxFrame {
        dlci,
        cr: commanding(role),
        kind: MuxKind::Uih,
        pf: false,
        credits: None,
        octets,
    }
}
