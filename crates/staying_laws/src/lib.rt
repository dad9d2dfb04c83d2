//! That the channels of a host stay while its peer has them, where few turns upset.
#![tactic(auto)]

ghost use Rattle.staying_laws.specs.Stays.{FewTurnsCloseNone, FewTurnsEndNoneOfBoth, FewTurnsKeepPeers};

/// Whatever a link loses, repeats and damages, while fewer turns upset than two hosts try: where one's profile asks for no end, the other asks for one end at a time with
/// identifiers that have not come round, and both answer requests for options with success, each enhanced channel of the first one is there at the other, at each moment.
pub fn few_turns_keep_peers()
    ensures { FewTurnsKeepPeers }
{
    channel_laws::laws::met_is_heeded();
    forgoing_laws::few_disturbances_forgo_none();
    disconnection_laws::ends_are_met();
    disconnection_laws::answered_ends_are_ended();
    configuration_laws::options_are_met();
    configuration_laws::staying_remains();
    configuration_laws::ends_are_asked_for();
    lasting_laws::few_upsets_end_none();
    recovered_laws::calm_is_quiet();
    recovered_laws::machines_are_paid();
    forgoing_laws::few_turns_end_none();
}

/// And the other one closes no channel, in either mode, that remains at the first one, which gives up no request for an end.
pub fn few_turns_close_none()
    ensures { FewTurnsCloseNone }
{
    channel_laws::laws::met_is_heeded();
    forgoing_laws::few_disturbances_forgo_none();
    disconnection_laws::ends_are_met();
    disconnection_laws::answered_ends_are_ended();
    configuration_laws::options_are_met();
    configuration_laws::staying_remains();
    configuration_laws::ends_are_asked_for();
    lasting_laws::few_upsets_end_none();
    recovered_laws::calm_is_quiet();
    recovered_laws::machines_are_paid();
    forgoing_laws::few_turns_end_none();
}

/// So the first one asks for the end of no channel, and the other gives up none of its requests for one.
pub fn few_turns_end_none_of_both()
    ensures { FewTurnsEndNoneOfBoth }
{
    few_turns_keep_peers();
    forgoing_laws::few_turns_end_none();
}
