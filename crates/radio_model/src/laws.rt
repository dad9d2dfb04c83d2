//! Laws of the air, for every frame and every fate. They speak of the definitions alone, which the
//! contracts of the radio cite.

ghost use Rattle.radio_model.specs.Laws.{OneFateMore, OneFrameMore};

/// What is heard on one direction of a link grows by what comes of the frame at the position that
/// the fates before led to.
pub fn one_fate_more()
    ensures { OneFateMore }
{}

/// Frames that are said later change nothing of what was heard.
pub fn one_frame_more()
    ensures { OneFrameMore }
{}
