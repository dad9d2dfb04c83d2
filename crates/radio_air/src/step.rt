//! What is to be done with a piece of a frame.

ghost use Rattle.std.specs.Prelude.{◌≡◌, ◌≤◌, length};
ghost use Rattle.acl_fragments.specs.Pieces.{pdu_length};
ghost use Rattle.acl_fragments.specs.Answers.{start_answer};
ghost use Rattle.radio_model.specs.Radio.{frame_limit};
ghost use Rattle.radio_air.specs.Plain.{IsStep};

use byteorder::{ByteOrder, LittleEndian};

/// What is to be done with a piece of a frame.
#[derive(Clone, Copy, Debug)]
pub(crate) enum Step {
    /// It completes the frame.
    Whole,
    /// More octets are wanted.
    More,
    /// It is dropped, and what was begun before it.
    Drop,
}

/// What a start wants, judged by itself (Core 5.1, Volume 3 Part A, 3.1).
pub(crate) fn start_step(piece: &[u8]) -> Step
    ensures { IsStep result piece.now (start_answer frame_limit piece.now) }
{
    if piece.len() < 4 {
        return Step::Drop;
    }
    let whole = 4 + usize::from(LittleEndian::read_u16(piece));
    if whole < piece.len() {
        Step::Drop
    } else if whole == piece.len() {
        Step::Whole
    } else {
        Step::More
    }
}
