//! What an SDU, and the information of a frame on the control channel, are read as.

ghost use Rattle.std.specs.Prelude.{◌≡◌, ◌<◌, ◌≤◌, IfOk, length, drop};
ghost use Rattle.bt_base.specs.Octets.{IsOctets};
ghost use Rattle.rfcomm_frames.specs.Answers.{answer};
ghost use Rattle.rfcomm_frames.specs.Controls.{plain_control, IsControl};
ghost use Rattle.rfcomm_frames.specs.ControlAnswers.{control_answer};
ghost use Rattle.rfcomm_frames.specs.FrameReading.{frame_answer, message_answer};

use rfcomm_frames::{Control, MuxFrame, MuxRefusal, control_of, frame_of};

/// The frame that an SDU is, or why it is none.
pub(crate) fn frame_in<'a>(sdu: &'a [u8]) -> Result<MuxFrame<'a>, MuxRefusal>
    ensures answer { answer result ≡ frame_answer sdu.now }
    ensures dlci { IfOk result (λ frame. frame.dlci < 64) }
{
    frame_of(sdu)
}

/// The control message at the front of octets and how many octets it has, or why there is none.
pub(crate) fn message_in<'a>(octets: &'a [u8]) -> Result<(Control<'a>, usize), MuxRefusal>
    ensures answer { control_answer result ≡ message_answer octets.now }
    ensures used { IfOk result (λ found. found.1 ≤ length octets.now) }
    ensures some { IfOk result (λ found. 0 < found.1) }
    ensures fits { IfOk result (λ found. IsControl (plain_control found.0)) }
    ensures octets { IsOctets octets.now }
{
    control_of(octets)
}

/// The octets behind so many at the front.
pub(crate) fn behind(octets: &[u8], used: usize) -> &[u8]
    requires { used ≤ length octets.now }
    ensures { result.now ≡ drop used octets.now }
{
    &octets[used..]
}
