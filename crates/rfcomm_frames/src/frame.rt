ghost use Rattle.std.specs.Prelude.{◌≡◌, if◌then◌else◌};
ghost use Rattle.rfcomm_frames.specs.Frames.{carries, has_credits};

/// The kinds of frames that RFCOMM uses (TS 07.10, 5.2.1.3; RFCOMM 1.2, 4.2).
#[derive(Clone, Copy, Debug, PartialEq, Eq)]
pub enum MuxKind {
    /// SABM: asks to open a channel.
    Sabm,
    /// UA: agrees to an SABM or a DISC.
    Ua,
    /// DM: there is no such channel.
    Dm,
    /// DISC: asks to close a channel.
    Disc,
    /// UIH: carries information, and alone may.
    Uih,
}

/// A frame of RFCOMM (TS 07.10, 5.2.1; RFCOMM 1.2, 5.1). What it lends are octets of its own octets.
#[derive(Clone, Copy, Debug, PartialEq, Eq)]
pub struct MuxFrame<'a> {
    /// The channel, 0 to 63; 0 is the control channel.
    pub dlci: u8,
    /// The C/R bit: which side sends, and whether it commands or responds.
    pub cr: bool,
    pub kind: MuxKind,
    /// The P/F bit. In UIH on a channel other than 0 it says that a credit octet is there.
    pub pf: bool,
    /// The frames that the peer may send besides, in UIH with the P/F bit on a channel other than 0,
    /// and in no other frame (RFCOMM 1.2, 6.5.2).
    pub credits: Option<u8>,
    /// The information, at most 32,767 octets, and none in a frame other than UIH.
    pub octets: &'a [u8],
}

/// Whether frames of a kind carry information.
pub(crate) fn carries(kind: MuxKind) -> bool
    ensures { result ≡ carries kind }
{
    matches!(kind, MuxKind::Uih)
}

/// Whether a credit octet is there: in UIH with the P/F bit, on a channel other than 0
/// (RFCOMM 1.2, 6.5.2).
pub(crate) fn has_credits(dlci: u8, kind: MuxKind, pf: bool) -> bool
    ensures { result ≡ has_credits dlci kind pf }
{
    carries(kind) && pf && dlci != 0
}

/// How many octets the check word is over, of a frame with `end` octets of address, control and
/// length: the first two in UIH (RFCOMM 1.2, 5.1.1).
pub(crate) fn covered_size(kind: MuxKind, end: usize) -> usize
    ensures { result ≡ (if carries kind then 2 else end) }
{
    if carries(kind) { 2 } else { end }
}
