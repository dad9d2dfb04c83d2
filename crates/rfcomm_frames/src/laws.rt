//! Laws of the frames and control messages and their octets, for all octets.

ghost use Rattle.rfcomm_frames.specs.FrameReading.{FrameIsAnswered, MessageIsAnswered, SpelledIsAnswered};
ghost use Rattle.rfcomm_frames.specs.ObexPackets.{ObexPacketsAreRight, ObexPacketsAreOne};
ghost use Rattle.rfcomm_frames.specs.LookingBack.{LooksBack};
ghost use Rattle.rfcomm_frames.specs.Laws.{OneAnswer, OneFrame, OneControlAnswer, OneControl, WrittenIsRead, WrittenControlIsRead, WrongLengthsAreRefused, WrongValuesAreRefused, WrittenIsNoLonger, WrittenControlIsNoLonger, ChangedFramesAreSeen, ChangedOctetsAreSeen, AreWorkedValues};

/// Octets have one answer: one frame that they spell, or one refusal.
pub fn one_answer()
    ensures answer { OneAnswer }
    ensures frame { OneFrame }
{}

/// So have octets that should begin with a control message.
pub fn one_control_answer()
    ensures answer { OneControlAnswer }
    ensures control { OneControl }
{}

/// What was written is what is read: a frame, and a control message with whatever is behind it.
pub fn written_is_read()
    ensures frame { WrittenIsRead }
    ensures control { WrittenControlIsRead }
{}

/// Octets whose length field does not fit what is there, in a frame or in a control message, are
/// refused as `LengthMismatch`.
pub fn wrong_lengths_are_refused()
    ensures frame { WrongLengthsAreRefused }
    ensures control { WrongValuesAreRefused }
{}

/// What was read may be written, in no more octets than it was read from.
pub fn written_is_no_longer()
    ensures frame { WrittenIsNoLonger }
    ensures control { WrittenControlIsNoLonger }
{}

/// A change within eight neighbouring bits of what the check word is over, or of the check word, is
/// seen where the check word is over as many octets as before; and no frame without information
/// becomes another one without information by one changed octet.
pub fn changed_frames_are_seen()
    ensures bits { ChangedFramesAreSeen }
    ensures octets { ChangedOctetsAreSeen }
{}

/// The definitions give octets that were worked out by hand.
pub fn worked_values()
    ensures { AreWorkedValues }
{}

/// The functions that read frames and control messages give these answers.
pub fn functions_answer()
    ensures frame { FrameIsAnswered }
    ensures control { MessageIsAnswered }
    ensures spelled { SpelledIsAnswered }
{}

/// A stream of octets is split into OBEX packets by their lengths, in one way.
pub fn obex_packets_are_split()
    ensures right { ObexPacketsAreRight }
    ensures one { ObexPacketsAreOne }
{}

/// What is read of connections in one pass is what looking back over all frames says.
pub fn one_pass_looks_back()
    ensures { LooksBack }
{}
