//! How long the channels of a host last: for what it closes one by itself, and when none of this comes.
#![tactic(auto)]

ghost use Rattle.lasting_laws.specs.Ends.{FewUpsetsEndNone};
ghost use Rattle.lasting_laws.specs.Lasting.{ChannelsLast};

/// A host whose profile asks for no end asks for the end of no channel, and closes none, where no machine of it closes, no request of it for options is given as
/// often as it tries, and each response to a request for options that it hears or says is success.
pub fn channels_last()
    ensures { ChannelsLast }
{}

/// Whatever a link loses, repeats and damages: of two hosts one whose profile asks for no end asks for the end of no channel, and closes none, while fewer turns
/// upset than its machines try, where its timer finds no request for options that was given as often as it tries, both hosts answer such requests with success, and
/// the other host has each enhanced channel there that it has.
pub fn few_upsets_end_none()
    ensures { FewUpsetsEndNone }
{
    recovered_laws::machines_are_paid();
}
