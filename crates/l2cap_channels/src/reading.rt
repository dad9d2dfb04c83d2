//! What a PDU is for the channel that it came in for.

ghost use Rattle.std.specs.Prelude.{◌≡◌, drop};

use ertm_frames::{Frame, FrameRefusal};

/// How long the header of a PDU is, in octets (Core 5.1, Volume 3 Part A, 3.1).
const HEADER: usize = 4;

/// What a PDU is for the channel that it came in for.
#[derive(Clone, Copy)]
pub(crate) enum Reading<'a> {
    /// The channel does not take it.
    Nothing,
    /// An SDU, in basic mode.
    Basic(&'a [u8]),
    /// A frame, or why it is none, where a machine carries the SDUs.
    Framed(Result<Frame<'a>, FrameRefusal>),
}

/// What follows the header of a PDU.
pub(crate) fn payload_of(pdu: &[u8]) -> &[u8]
    ensures { result.now ≡ drop 4 pdu.now }
{
    if pdu.len() < HEADER {
        return &[];
    }
    &pdu[HEADER..]
}
