//! What the limits on how often something is sent come to in a run: which words have to be adverse before one is reached.
#![tactic(auto)]

ghost use Rattle.limit_laws.specs.GoesOn.{FewWordsAnswerWell, FewWordsGoOn, FewWordsTellMildly, LinksAreOrderly};
ghost use Rattle.limit_laws.specs.Spares.{FewWordsLimitNone};
ghost use Rattle.limit_laws.specs.Upsets.{MachinesOutlastWords, UpsetsCostWords};

/// On each link of a run at most so many turns upset as words of the run are adverse: those that lose, repeat, change or cut a frame, and those that fire a timer.
pub fn upsets_cost_words()
    ensures { UpsetsCostWords }
{
    recovered_laws::settled_upset_no_more();
}

/// So while fewer words of a run are adverse than its scenario has the hosts try, neither a timer nor a frame closes a retransmission machine of a channel that
/// both hosts have and neither has closed.
pub fn machines_outlast_words()
    ensures { MachinesOutlastWords }
{
    upsets_cost_words();
    pair_laws::pairs_are_carried();
    recovered_laws::machines_are_paid();
    channel_laws::laws::agreements_are_on_heard();
}

/// Then both hosts ask in order: their identifiers rise, host a asks for one end at a time, and host b, whose profile asks for nothing, grants one endpoint alone to each
/// of host a's.
pub fn links_are_orderly()
    ensures { LinksAreOrderly }
{
    upsets_cost_words();
    pair_laws::pairs_are_carried();
    host_laws::laws::servers_ask_for_nothing();
    channel_laws::laws::pipes::none_is_called();
    channel_laws::laws::pipes::grants_are_single();
    asking_laws::ends_are_asked_singly();
    asking_laws::identifiers_rise_on_links();
}

/// So both answer all requests for options with success.
pub fn few_words_answer_well()
    ensures { FewWordsAnswerWell }
{
    links_are_orderly();
    asking_laws::one_counts_on_links();
    accepting_laws::wishes_meet();
    timely_laws::few_turns_answer_well();
}

/// And host b asks for the end of no channel, and closes none; its requests for options are responded to, and host a's for ends, none of which it gives up; and each
/// channel for whose end host a did not ask remains at host b.
pub fn few_words_go_on()
    ensures { FewWordsGoOn }
{
    links_are_orderly();
    few_words_answer_well();
    staying_laws::few_turns_end_none_of_both();
}

/// And host a is told of no channel that host b closed, not that its question for features was lost, and of no limit that was met on a channel that remains at host b; and neither is told that
/// a request for the end of a channel that it closed was lost.
pub fn few_words_tell_mildly()
    ensures { FewWordsTellMildly }
{
    links_are_orderly();
    few_words_answer_well();
    channel_laws::laws::connections_are_met();
    channel_laws::laws::names_are_apart();
    host_laws::laws::clients_ask_in_order();
    told_laws::few_turns_tell_mildly();
}

/// And on each link, at each moment, host a is told of no limit that was met on a channel for whose end it did not ask, nor on one that was open in basic mode: so of none but on an enhanced channel that
/// it leaves, and on one that it left before it was open.
pub fn few_words_limit_none()
    ensures { FewWordsLimitNone }
{
    links_are_orderly();
    few_words_answer_well();
    channel_laws::laws::connections_are_met();
    channel_laws::laws::names_are_apart();
    host_laws::laws::clients_ask_in_order();
    told_laws::few_turns_limit_none();
}
