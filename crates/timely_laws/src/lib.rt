//! That requests for options come in time while few turns upset, so that all succeed.
#![tactic(auto)]

ghost use Rattle.timely_laws.specs.Timely.{FewTurnsAnswerWell};

/// Whatever a link loses, repeats and damages, while fewer turns upset than two hosts try: where they wish the same, the profile of one asks for no channel and no end, and of
/// the other one channel counts at a time, both answer all requests for options with success. Each that comes in, and is not the last one again, finds a channel that is not
/// open, and that its host has not closed.
pub fn few_turns_answer_well()
    ensures { FewTurnsAnswerWell }
{
    accepting_laws::all_in_time_succeed();
    configuration_laws::ends_are_asked_for();
    configuration_laws::staying_remains();
    disconnection_laws::answered_ends_are_ended();
    lateness_laws::heard_options_are_last();
    lateness_laws::no_options_come_late();
    lateness_laws::no_part_waits();
    lateness_laws::one_channel_asks_once();
    lateness_laws::peers_are_apart();
    lateness_laws::options_are_asked_once();
    lateness_laws::remaining_asks_once();
    leaving_laws::options_of_left_are_counted();
    recovered_laws::calm_is_quiet();
    staying_laws::few_turns_close_none();
    staying_laws::few_turns_end_none_of_both();
}
