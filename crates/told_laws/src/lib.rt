//! What a host is told of the ends of its channels, where few turns upset.
#![tactic(auto)]

ghost use Rattle.told_laws.specs.Limits.{FewTurnsLimitNone};
ghost use Rattle.told_laws.specs.Told.{FewTurnsTellMildly};

/// Whatever a link loses, repeats and damages, while fewer turns upset than two hosts try: where one's profile asks for no channel and no end, the other is told of no channel that its peer closed, not that its
/// question for the features was lost, and of no limit that a request or a machine met on a channel whose end the first one has not answered. Neither is told that a request for the end of a channel
/// that it closed was lost.
pub fn few_turns_tell_mildly()
    ensures { FewTurnsTellMildly }
{
    channel_laws::laws::features_are_heeded();
    channel_laws::laws::met_is_heeded();
    configuration_laws::ends_are_asked_for();
    configuration_laws::options_are_met();
    recovered_laws::calm_is_quiet();
    recovered_laws::machines_are_paid();
    staying_laws::few_turns_close_none();
    staying_laws::few_turns_end_none_of_both();
}

/// So the first of them meets no limit on a channel for whose end it did not ask, nor on one that is open in basic mode, also while it leaves that.
pub fn few_turns_limit_none()
    ensures { FewTurnsLimitNone }
{
    channel_laws::laws::met_is_heeded();
    recovered_laws::calm_is_quiet();
    staying_laws::few_turns_end_none_of_both();
    few_turns_tell_mildly();
}
