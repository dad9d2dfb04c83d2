//! Laws of the frames and their octets, for every PDU.

ghost use Rattle.ertm_frames.specs.Laws.{OneAnswer, OneFrame, OneSdu, OneSduList, WrittenIsRead, ChangedFramesAreSeen};
ghost use Rattle.ertm_frames.specs.Joining.{JoinedIsRight, LongestIsOne};
ghost use Rattle.ertm_frames.specs.Reading.{AnswerIsWorkedOut};
ghost use Rattle.ertm_frames.specs.PickingLaws.{PickedIsRight, PickedIsOne, SdusAreSpelled, NumbersAreOne, PollWaitsIsRight};

/// A PDU has one answer: one frame that it spells, or one refusal.
pub fn one_answer()
    ensures answer { OneAnswer }
    ensures frame { OneFrame }
{}

/// Segments are those of at most one SDU, and of at most one list of SDUs.
pub fn one_reading_of_segments()
    ensures sdu { OneSdu }
    ensures list { OneSduList }
{}

/// A frame that was written is the one that is read.
pub fn written_is_read()
    ensures { WrittenIsRead }
{}

/// A frame with a change in two neighbouring octets is refused as `Short` or `BadFcs`.
pub fn changed_frames_are_seen()
    ensures { ChangedFramesAreSeen }
{}

/// The answer to a PDU, worked out.
pub fn answers_are_worked_out()
    ensures { AnswerIsWorkedOut }
{}

/// The segments that a receiver takes of frames, and the SDUs of the longest front of segments that
/// spells any, are these and no others.
pub fn one_reading_of_frames()
    ensures picked { PickedIsRight }
    ensures only_picked { PickedIsOne }
    ensures joined { JoinedIsRight }
    ensures only_joined { LongestIsOne }
    ensures spelled { SdusAreSpelled }
{}

/// The numbers of frames that were given, and whether the answer to a poll is awaited.
pub fn one_reading_of_passages()
    ensures numbers { NumbersAreOne }
    ensures waits { PollWaitsIsRight }
{}
