//! What the requests of both hosts cost.

ghost use Rattle.pair_laws.specs.Costs.{DisturbancesCostWords, RequestsCostWords};
ghost use Rattle.pair_laws.specs.OnWords.{LinksTakeWords};

/// On each link of both hosts of a run at most so many turns of their pair disturb as words of the run are adverse: those that lose, repeat, change
/// or cut a frame, and those that fire a timer. When something comes in, an answer has room.
pub fn disturbances_cost_words()
    ensures { DisturbancesCostWords }
{}

/// So on each link of a run host a's question for the peer's features, and each request of it for a channel, is given for the t-th time only behind t - 1
/// adverse words; host b's profile asks for nothing. So is each request of which, while fewer words were adverse than the hosts try, each copy that comes in
/// is responded to, and each response ends the wait.
pub fn requests_cost_words()
    ensures { RequestsCostWords }
{
    channel_laws::laws::tries_are_kept();
    channel_laws::laws::disturbances_are_counted();
    channel_laws::laws::features_are_heeded();
    channel_laws::laws::met_is_heeded();
    channel_laws::laws::connections_are_met();
    channel_laws::laws::names_are_apart();
    host_laws::laws::clients_ask_in_order();
    host_laws::laws::servers_ask_for_nothing();
}

/// The turns of each link of a run are those of words, wherever the run broke off: each begins where both hosts are silent, with a PDU that is handed over,
/// lost, repeated or damaged, or with timers that fire, and behind it both say all that they have to say. No more words go wrong than turns disturb, where the
/// timers of a link on which nothing is under way, of one host or of both, cost nothing.
pub fn links_take_words()
    ensures { LinksTakeWords }
{}
