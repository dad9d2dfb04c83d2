//! A PDU as a frame.

ghost use Rattle.std.specs.Prelude.{◌≡◌, ◌≢◌, ◌≤◌, ◌<◌, ◌+◌, ◌/◌, ◌%◌, ◌↔◌, ℕ, IsTrue, length};
ghost use Rattle.ertm_frames.specs.Answers.{answer, word_at, IsAnswer, IsSupervisory, IsStart, HasReservedBit};
ghost use Rattle.ertm_frames.specs.Steps.{IsJudged, IsChecked, IsMeasured};

use crate::frame::{Frame, SKind, START};
use crate::refusal::FrameRefusal;
use byteorder::{ByteOrder, LittleEndian};
use check_words::fcs16;

/// The frame that a whole PDU spells, with its basic header (Core 5.1, Volume 3 Part A, 3.3).
///
/// In this order: `Short` for a PDU below eight octets or with a length field that is not its length
/// less four, `BadFcs` where the check word does not hold, `ReservedSet` for an S-frame with a
/// reserved bit or with octets, `BadStart` for a start of an SDU without the SDU's length, `AboveMps`
/// for more than `mps` octets behind the control field and that length.
pub fn frame_of<'a>(pdu: &'a [u8], mps: u16) -> Result<Frame<'a>, FrameRefusal>
    ensures { IsAnswer mps pdu.now (answer result) }
{
    let control = checked(pdu)?;
    judged(control, &pdu[6..pdu.len() - 2], mps)
}

/// The number in the two octets from `place` on.
fn word_at(octets: &[u8], place: usize) -> u16
    requires { place + 2 ≤ length octets.now }
    ensures { result ≡ word_at place octets.now }
{
    LittleEndian::read_u16(&octets[place..])
}

/// The control field of a PDU that is whole and whose check word holds.
fn checked(pdu: &[u8]) -> Result<u16, FrameRefusal>
    ensures { IsChecked pdu.now result }
{
    if pdu.len() < 8 || word_at(pdu, 0) as usize + 4 != pdu.len() {
        return Err(FrameRefusal::Short);
    }
    let end = pdu.len() - 2;
    if fcs16(&pdu[..end]) != word_at(pdu, end) {
        return Err(FrameRefusal::BadFcs);
    }
    Ok(word_at(pdu, 4))
}

/// The frame of a control field and what follows it.
fn judged(control: u16, body: &[u8], mps: u16) -> Result<Frame<'_>, FrameRefusal>
    ensures { IsJudged mps control body.now (answer result) }
{
    if control % 2 == 1 {
        return supervisory(control, body);
    }
    if control / 0x4000 == u16::from(START) {
        return start(control, body, mps);
    }
    measured(control, 0, body, mps)
}

/// The S-frame of a control field and what follows it.
fn supervisory(control: u16, body: &[u8]) -> Result<Frame<'_>, FrameRefusal>
    requires { IsSupervisory control }
    ensures { (mps : ℕ) → IsJudged mps control body.now (answer result) }
{
    if has_reserved_bit(control) || !body.is_empty() {
        return Err(FrameRefusal::ReservedSet);
    }
    let kind = match control / 0x04 % 4 {
        0 => SKind::Rr,
        1 => SKind::Rej,
        2 => SKind::Rnr,
        _ => SKind::Srej,
    };
    Ok(Frame::S {
        kind,
        poll: control / 0x10 % 2 == 1,
        last: control / 0x80 % 2 == 1,
        req: (control / 0x100 % 64) as u8,
    })
}

fn has_reserved_bit(control: u16) -> bool
    ensures { IsTrue result ↔ HasReservedBit control }
{
    control / 0x02 % 2 != 0 || control / 0x20 % 4 != 0 || control / 0x4000 != 0
}

/// The I-frame that starts an SDU: the SDU's length stands before the octets.
fn start(control: u16, body: &[u8], mps: u16) -> Result<Frame<'_>, FrameRefusal>
    requires { IsStart control }
    ensures { IsJudged mps control body.now (answer result) }
{
    if body.len() < 2 {
        return Err(FrameRefusal::BadStart);
    }
    measured(control, word_at(body, 0), &body[2..], mps)
}

/// The I-frame of a control field, an SDU's length and octets, where they are not too many.
fn measured(control: u16, total: u16, octets: &[u8], mps: u16) -> Result<Frame<'_>, FrameRefusal>
    ensures { IsMeasured mps control total octets.now (answer result) }
{
    if octets.len() > mps as usize {
        return Err(FrameRefusal::AboveMps);
    }
    Ok(Frame::I {
        tx: (control / 0x02 % 64) as u8,
        last: control / 0x80 % 2 == 1,
        req: (control / 0x100 % 64) as u8,
        sar: (control / 0x4000) as u8,
        total,
        octets,
    })
}
