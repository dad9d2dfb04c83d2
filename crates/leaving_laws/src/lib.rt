//! What the requests for the options of a channel cost that their host leaves.
#![tactic(auto)]

ghost use Rattle.leaving_laws.specs.Left.{OptionsOfLeftAreCounted};

/// Whatever a link loses, repeats and damages: of a channel that a host leaves the request for options is given for the t-th time only behind t - 1 turns that disturb, also where the other host has
/// answered the request for the end, so that no copy of it is responded to any more: where the request for the end is, that for options is until the host leaves, and when the timer fires while the link
/// is quiet no copy of the request for the end waits to be given.
pub fn options_of_left_are_counted()
    ensures { OptionsOfLeftAreCounted }
{
    channel_laws::laws::met_is_heeded();
}
