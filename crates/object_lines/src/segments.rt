//! What an I-frame carries of an SDU, and what it makes of one that has begun.

ghost use Rattle.std.specs.Prelude.{◌≡◌, ◌++◌, Bool, false, [], IfOk, List, Some, None, option_map, option_to_list, ℕ};
ghost use Rattle.ertm_frames.specs.Frames.{plain};
ghost use Rattle.ertm_frames.specs.Reading.{frame_in};
ghost use Rattle.ertm_frames.specs.Joining.{begins, ends, joint};
ghost use Rattle.link_talk.specs.Picks.{pick, pick_in};
ghost use Rattle.object_lines.specs.Ears.{plain_segment, plain_begun, plain_joint, plain_sdu};

use crate::octets::octet_at;
use bt_base::NoMemory;
use ertm_frames::{Frame, frame_of};
use std::alloc::Global;

/// What an I-frame carries of an SDU.
#[derive(Clone, Copy, Debug)]
pub(crate) struct Segment<'p> {
    sar: u8,
    total: u16,
    octets: &'p [u8],
}

/// An SDU of which the start has come.
#[derive(Debug, Drop)]
pub(crate) struct Begun {
    total: u16,
    octets: Vec<u8>,
}

/// An SDU that is whole.
#[derive(Debug, Drop)]
pub(crate) enum Sdu<'p> {
    /// It came in one PDU.
    Lent(&'p [u8]),
    Joined(Vec<u8>),
}

/// What a segment makes of the SDU that has begun, or of none.
#[derive(Debug, Drop)]
pub(crate) enum Joint<'p> {
    Misplaced,
    Begins(Begun),
    Ends(Sdu<'p>),
}

impl Sdu<'_> {
    pub(crate) fn octets(&self) -> &[u8]
        ensures { result.now ≡ plain_sdu self.now }
    {
        match self {
            Sdu::Lent(octets) => octets,
            Sdu::Joined(octets) => octets,
        }
    }
}

/// Whether a PDU may be the I-frame with a number, by the first octet of its control field. Where it may not its check
/// word need not be reckoned.
fn may_have(pdu: &[u8], number: u8) -> bool
    ensures { result ≡ false → (most : ℕ) → pick_in number (frame_in most pdu.now) ≡ [] }
{
    let low = octet_at(pdu, 4);
    if low % 2 == 1 {
        return false;
    }
    low / 2 % 64 == number % 64
}

/// The frame that a PDU is, for a receiver that takes so many octets.
fn frame_in(pdu: &[u8], most: u16) -> Option<Frame<'_>>
    ensures { option_map plain result ≡ frame_in most pdu.now }
{
    match frame_of(pdu, most) {
        Ok(frame) => Some(frame),
        Err(_) => None,
    }
}

/// The segment of a frame, if it has the number.
fn picked<'p>(frame: &Frame<'p>, number: u8) -> Option<Segment<'p>>
    ensures { option_to_list (option_map plain_segment result) ≡ pick number (plain frame.now) }
{
    match *frame {
        Frame::I {
            tx,
            sar,
            total,
            octets,
            ..
        } if tx == number % 64 => Some(Segment { sar, total, octets }),
        _ => None,
    }
}

/// The segment of a PDU, if it is the I-frame with the number.
pub(crate) fn segment_of(pdu: &[u8], most: u16, number: u8) -> Option<Segment<'_>>
    ensures { option_to_list (option_map plain_segment result) ≡ pick_in number (frame_in most pdu.now) }
{
    if !may_have(pdu, number) {
        return None;
    }
    match frame_in(pdu, most) {
        Some(frame) => picked(&frame, number),
        None => None,
    }
}

fn begins<'p>(begun: Begun) -> Joint<'p>
    ensures { plain_joint result ≡ begins (plain_begun begun) }
{
    if usize::from(begun.total) < begun.octets.len() {
        return Joint::Misplaced;
    }
    Joint::Begins(begun)
}

fn ends<'p>(begun: Begun) -> Joint<'p>
    ensures { plain_joint result ≡ ends (plain_begun begun) }
{
    if begun.octets.len() == usize::from(begun.total) {
        return Joint::Ends(Sdu::Joined(begun.octets));
    }
    Joint::Misplaced
}

/// What a segment makes where no SDU has begun.
fn joint_between<'p>(alloc: Global, segment: &Segment<'p>) -> Result<Joint<'p>, NoMemory>
    ensures { IfOk result (λ made. plain_joint made ≡ joint None (plain_segment segment.now)) }
{
    match segment.sar {
        0 => Ok(Joint::Ends(Sdu::Lent(segment.octets))),
        1 => Ok(begins(Begun {
            total: segment.total,
            octets: Vec::from_slice(alloc, segment.octets)?,
        })),
        _ => Ok(Joint::Misplaced),
    }
}

/// What a segment makes of an SDU that has begun.
fn joint_within<'p>(mut begun: Begun, segment: &Segment<'p>) -> Result<Joint<'p>, NoMemory>
    ensures { IfOk result (λ made. plain_joint made ≡ joint (Some (plain_begun begun)) (plain_segment segment.now)) }
{
    if segment.sar < 2 {
        return Ok(Joint::Misplaced);
    }
    begun.octets.extend_from_slice(segment.octets)?;
    match segment.sar {
        2 => Ok(ends(begun)),
        _ => Ok(begins(begun)),
    }
}

pub(crate) fn joint_of<'p>(
    alloc: Global,
    begun: Option<Begun>,
    segment: &Segment<'p>,
) -> Result<Joint<'p>, NoMemory>
    ensures { IfOk result (λ made. plain_joint made ≡ joint (option_map plain_begun begun) (plain_segment segment.now)) }
{
    match begun {
        None => joint_between(alloc, segment),
        Some(begun) => joint_within(begun, segment),
    }
}
