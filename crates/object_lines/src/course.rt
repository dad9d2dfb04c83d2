//! How far the multiplexer of a link is, by the frames that pass.

ghost use Rattle.std.specs.Prelude.{◌≡◌, ◌==◌, ◌&&◌, ◌||◌, option_map};
ghost use Rattle.rfcomm_frames.specs.Frames.{plain};
ghost use Rattle.rfcomm_frames.specs.Connections.{dlc_after, is_left};
ghost use Rattle.rfcomm_frames.specs.Multiplexing.{passing, carries_on, connections_after, is_role, is_data};
ghost use Rattle.rfcomm_frames.specs.Ending.{no_course, course_after, is_closed_by, is_last};
ghost use Rattle.link_talk.specs.Packets.{role_of};
ghost use Rattle.link_talk.specs.Frames.{frame_in};
ghost use Rattle.object_lines.specs.Streams.{plain_connections, plain_course, plain_framed};

use capture::Flow;
use link_talk::Party;
use rfcomm_frames::{Closing, Dlc, MuxFrame, MuxKind, Role, frame_of};

/// How far the control channel and the user channel are.
#[derive(Clone, Copy, Debug)]
pub(crate) struct Connections {
    control: Dlc,
    user: Dlc,
}

/// The connections, and how far a side is in closing its multiplexer.
#[derive(Clone, Copy, Debug)]
pub(crate) struct Course {
    pub(crate) connections: Connections,
    closing: Closing,
}

/// A frame, and the side that it came from.
#[derive(Clone, Copy, Debug)]
pub(crate) struct Framed<'a> {
    from: Role,
    pub(crate) frame: MuxFrame<'a>,
}

pub(crate) fn role_of(party: &Party, flow: Flow) -> Role
    ensures { result ≡ role_of party.now flow }
{
    match flow {
        Flow::Out => party.role,
        Flow::Into => party.role.other(),
    }
}

/// The frame that an SDU is, if it is not refused.
pub(crate) fn frame_in(from: Role, sdu: &[u8]) -> Option<Framed<'_>>
    ensures { option_map plain_framed result ≡ frame_in from sdu.now }
{
    match frame_of(sdu) {
        Ok(frame) => Some(Framed { from, frame }),
        Err(_) => None,
    }
}

fn dlc_after(framed: &Framed<'_>, dlci: u8, dlc: Dlc) -> Dlc
    ensures { result ≡ passing dlci (plain_framed framed.now) dlc }
{
    if framed.frame.dlci == dlci && framed.frame.pf {
        return dlc.turned(framed.from, framed.frame.kind);
    }
    dlc
}

/// Whether a side sent a frame.
fn is_from(side: Role, framed: &Framed<'_>) -> bool
    ensures { result ≡ is_role side framed.now.from }
{
    matches!(
        (side, framed.from),
        (Role::Initiator, Role::Initiator) | (Role::Responder, Role::Responder)
    )
}

/// Whether a side sends information on a channel with a frame.
pub(crate) fn is_data(dlci: u8, way: Role, framed: &Framed<'_>) -> bool
    ensures { result ≡ is_data dlci way (plain_framed framed.now) }
{
    is_from(way, framed) && framed.frame.dlci == dlci && matches!(framed.frame.kind, MuxKind::Uih)
}

impl Connections {
    pub(crate) fn carries_on(&self) -> bool
        ensures { result ≡ carries_on (plain_connections self.now) }
    {
        matches!(self.user, Dlc::Open) && !matches!(self.control, Dlc::Ended)
    }

    /// Whether DISC of a side on a channel closes one of the two.
    fn are_left(&self, dlci: u8, from: Role, on: u8) -> bool
        ensures { result ≡ (((on == 0) && is_left from self.now.control) || ((on == dlci) && is_left from self.now.user)) }
    {
        on == 0 && self.control.is_left(from) || on == dlci && self.user.is_left(from)
    }

    fn hear(&mut self, dlci: u8, framed: &Framed<'_>)
        ensures { plain_connections self.new ≡ connections_after dlci (plain_connections self.old) (plain_framed framed.now) }
    {
        self.control = dlc_after(framed, 0, self.control);
        self.user = dlc_after(framed, dlci, self.user);
    }
}

impl Course {
    pub(crate) fn new() -> Course
        ensures { plain_course result ≡ no_course }
    {
        Course {
            connections: Connections {
                control: Dlc::Idle,
                user: Dlc::Idle,
            },
            closing: Closing::NotBegun,
        }
    }

    pub(crate) fn hear(&mut self, dlci: u8, side: Role, framed: &Framed<'_>)
        ensures { plain_course self.new ≡ course_after dlci side (plain_course self.old) (plain_framed framed.now) }
    {
        self.connections.hear(dlci, framed);
        self.closing = if is_from(side, framed) {
            self.closing.said(dlci, &framed.frame)
        } else {
            self.closing.heard(dlci, &framed.frame)
        };
    }

    /// Whether a frame closes the multiplexer of a side in order.
    pub(crate) fn is_last(&self, dlci: u8, side: Role, framed: &Framed<'_>) -> bool
        ensures { result ≡ is_last dlci side (plain_course self.now) (plain_framed framed.now) }
    {
        !is_from(side, framed) && self.is_closed_by(dlci, framed.from, &framed.frame)
    }

    fn is_closed_by(&self, dlci: u8, peer: Role, frame: &MuxFrame<'_>) -> bool
        ensures { result ≡ is_closed_by dlci peer (plain_connections self.now.connections) self.now.closing frame.now.kind frame.now.dlci frame.now.pf }
    {
        match frame.kind {
            MuxKind::Ua => frame.pf && frame.dlci == 0 && self.closing.awaits_control(),
            MuxKind::Dm if frame.dlci == 0 => true,
            MuxKind::Dm => frame.dlci == dlci && !self.closing.awaits_user(),
            MuxKind::Disc => frame.pf && self.connections.are_left(dlci, peer, frame.dlci),
            MuxKind::Sabm | MuxKind::Uih => false,
        }
    }
}
