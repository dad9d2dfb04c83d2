//! How often both hosts of a run give their requests, against its words.

ghost use Rattle.cost_laws.specs.Ends.{EndsCostWords};
ghost use Rattle.cost_laws.specs.Options.{OptionsCostWords};
ghost use Rattle.cost_laws.specs.Runs.{RunsPayRequests};

/// On each link of a run the requests for options of both hosts are given for the t-th time only behind t - 1 adverse words; also those for a channel that host a leaves.
pub fn options_cost_words()
    ensures { OptionsCostWords }
{
    channel_laws::laws::tries_are_kept();
    leaving_laws::options_of_left_are_counted();
    limit_laws::few_words_go_on();
    pair_laws::laws::requests_cost_words();
}

/// On each link of a run the requests of both hosts for the ends of channels are given for the t-th time only behind t - 1 adverse words. On each link host b grants
/// one endpoint alone to each of host a's.
pub fn ends_cost_words()
    ensures { EndsCostWords }
{
    channel_laws::laws::pipes::grants_are_single();
    channel_laws::laws::tries_are_kept();
    pair_laws::laws::requests_cost_words();
    limit_laws::few_words_go_on();
}

/// In each run, wherever it broke off, and on each link, each request of either host, for a channel, its options, its end or the peer's features, is given for the t-th
/// time only behind t - 1 adverse words: what the hosts of a scenario ask of their channels is as those laws want it.
pub fn runs_pay_requests()
    ensures { RunsPayRequests }
{
    channel_laws::laws::tries_are_kept();
    channel_laws::laws::disturbances_are_counted();
    channel_laws::laws::features_are_heeded();
    channel_laws::laws::connections_are_met();
    channel_laws::laws::pipes::none_is_called();
    leaving_laws::options_of_left_are_counted();
    limit_laws::few_words_go_on();
    pair_laws::laws::requests_cost_words();
}
