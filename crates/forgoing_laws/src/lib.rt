//! What hosts give up while few turns disturb: no request is spent when a timer fires, so none for the end of a channel is given up.
#![tactic(auto)]

ghost use Rattle.forgoing_laws.specs.Forgone.{FewDisturbancesForgoNone, FewDisturbancesSpendNone};
ghost use Rattle.forgoing_laws.specs.Lasts.{FewTurnsEndNone};

/// Whatever a link loses, repeats and damages: where each copy of a request that comes in is responded to, each response to it ends its wait, and fewer turns disturb
/// than the host tries, its timer never finds the request spent: given as often as the host tries.
pub fn few_disturbances_spend_none()
    ensures { FewDisturbancesSpendNone }
{
    channel_laws::laws::met_is_heeded();
}

/// So a host gives up no request for the end of a channel, where that is so of each of these.
pub fn few_disturbances_forgo_none()
    ensures { FewDisturbancesForgoNone }
{
    few_disturbances_spend_none();
}

/// Whatever a link loses, repeats and damages, while fewer turns upset than two hosts try: one whose profile asks for no channel and no end, and which grants one
/// endpoint alone to each of the other's, asks for the end of no channel, where an answer has room, the other one asks for one end at a time, the identifiers of neither
/// come round, the other has each enhanced channel there that the first one has, and both answer requests for options with success. Then the other's requests for ends are heeded, and it gives up none; the first one's requests for options are heeded, and so are the
/// other's while it did not ask for the end; and each channel for whose end it did not ask remains at the first one.
pub fn few_turns_end_none()
    ensures { FewTurnsEndNone }
{
    channel_laws::laws::met_is_heeded();
    few_disturbances_forgo_none();
    disconnection_laws::ends_are_met();
    configuration_laws::options_are_met();
    configuration_laws::staying_remains();
    lasting_laws::few_upsets_end_none();
    recovered_laws::calm_is_quiet();
}
