//! Laws of the end of a channel: what a host answers to requests for it, and what the responses come to.
#![tactic(auto)]

ghost use Rattle.disconnection_laws.specs.Ended.{AnsweredEndsAreEnded};
ghost use Rattle.disconnection_laws.specs.Waits.{EndsAreAnswered};

/// Whatever happens to a host: where it answered a request for the end of a channel, its own talk has that channel, for the endpoint of the peer that the
/// answer names, and it has ended.
pub fn answered_ends_are_ended()
    ensures { AnsweredEndsAreEnded }
{}

/// Whatever a link loses, repeats and damages: each response that comes in to a request for the end of a channel ends its wait, where the peer grants no two
/// endpoints to one.
pub fn ends_are_answered()
    ensures { EndsAreAnswered }
{
    channel_laws::laws::final_responses_end_waits();
}

ghost use Rattle.disconnection_laws.specs.Met.{EndsAreMet};

/// Whatever a link loses, repeats and damages: each copy of a request for the end of a channel that comes in is responded to, and each response to it ends its
/// wait, where an answer has room, one such request waits at a time, its identifiers have not come round, and the peer asks for no end itself.
pub fn ends_are_met()
    ensures { EndsAreMet }
{
    channel_laws::laws::copies_have_responses();
    ends_are_answered();
}
