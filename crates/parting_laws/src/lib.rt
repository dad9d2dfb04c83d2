//! Laws of which pushes do not end as closed by their peer, over the capture of a run alone, and of which do not end since a limit was met.
#![tactic(auto)]

ghost use Rattle.parting_laws.specs.Limits.{FewWordsLimitPush};
ghost use Rattle.parting_laws.specs.Parting.{FewWordsPartNone};

/// While fewer words of a run are adverse than its scenario has the hosts try, no push of it ends as closed by its peer: over either transport host b closes no channel of host a, and never
/// ends their link. So such an end shows at least so many losses, repeats, damages, cuts and timers.
pub fn few_words_part_none()
    ensures { FewWordsPartNone }
{
    limit_laws::few_words_tell_mildly();
    pair_laws::laws::disturbances_cost_words();
}

/// And a push of such a run ends since a limit was met only where this is the one of its own request to the service records: at each moment host a's channels met none, nor did its
/// requests for them, for their options and their ends, or its question for the features.
pub fn few_words_limit_push()
    ensures { FewWordsLimitPush }
{
    pair_laws::laws::disturbances_cost_words();
    limit_laws::few_words_limit_none();
}
