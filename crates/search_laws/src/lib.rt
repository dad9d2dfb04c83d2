//! How often the client of a run sends its request to the service records, against the words of the run.
#![tactic(auto)]

ghost use Rattle.search_laws.specs.Searches.{SearchesCostWords, TriesStay, FiringsLeaveTries};
ghost use Rattle.search_laws.specs.Taken.{SearchesAreTaken, LinksTakeRequests};

/// Where at each rest at which nothing is under way, of a run whose inbox does not lack memory, a request that awaits its reply was sent no more often than words were adverse, each request to
/// the service records is sent for the t-th time only behind t - 1 adverse words: a timer that fires alone costs one itself.
pub fn searches_cost_words()
    ensures { SearchesCostWords }
{}

/// A client has all the while as many tries as its settings say.
pub fn tries_stay()
    ensures { TriesStay }
{}

/// Then while fewer words are adverse than that, its timer finds a try left each time that it fires for a request, and ends no push.
pub fn firings_leave_tries()
    ensures { FiringsLeaveTries }
{}

/// On each link a request that awaits its reply was sent no more often than the client's channel to the service records took one there.
pub fn searches_are_taken()
    ensures { SearchesAreTaken }
{}

/// So it is on the link of a run that is up: its client began there with all its tries.
pub fn links_take_requests()
    ensures { LinksTakeRequests }
{}
