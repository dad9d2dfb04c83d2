//! Laws of the options of a channel: what a host answers to requests for them, what the responses come to, and how often the requests are given.
#![tactic(auto)]

ghost use Rattle.configuration_laws.specs.Asked.{EndsAreAskedFor};
ghost use Rattle.configuration_laws.specs.Met.{OptionsAreCounted, OptionsAreMet, StayingRemains};

/// Whatever a link loses, repeats and damages: where one end answered a request for the end of a channel, the other end asked for it.
pub fn ends_are_asked_for()
    ensures { EndsAreAskedFor }
{}

/// So the channel of a host that asked for no end of it remains at its peer, if the peer gave up none of its own requests for that.
pub fn staying_remains()
    ensures { StayingRemains }
{
    ends_are_asked_for();
}

/// Whatever a link loses, repeats and damages: each copy of a request for the options of a channel that comes in is responded to, and each response to it
/// ends its wait, where an answer has room, the identifiers of the host that asks have not come round, and the channel remains at its peer.
pub fn options_are_met()
    ensures { OptionsAreMet }
{
    channel_laws::laws::copies_have_responses();
    channel_laws::laws::final_responses_end_waits();
}

/// There a request for options is given for the t-th time only behind t - 1 turns that disturb: they repeat, lose or damage what is under way, or fire a timer
/// while the link is not quiet.
pub fn options_are_counted()
    ensures { OptionsAreCounted }
{
    channel_laws::laws::disturbances_are_counted();
    channel_laws::laws::met_is_heeded();
    options_are_met();
}
