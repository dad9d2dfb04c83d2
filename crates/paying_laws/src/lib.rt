//! Laws of what the requests for service records of a run cost.
#![tactic(auto)]

ghost use Rattle.paying_laws.specs.Paid.{SearchesArePaid, StandingSearchesArePaid};
ghost use Rattle.paying_laws.specs.Runs.{SearchesAreAnswered};

/// Host b of a run whose inbox does not lack memory answers each request of service discovery in the act in which it hears it: where the run is at rest, and nothing but searches are known to
/// host b on its link, each of its channels took as many SDUs as came up there.
pub fn searches_are_answered()
    ensures { SearchesAreAnswered }
{}

/// Where such a run is at rest and nothing is under way, host a's channel to the service records took no more requests than words were adverse: of a channel that both hosts have, for whose end
/// neither asked, and on which no reply came.
pub fn searches_are_paid()
    ensures { SearchesArePaid }
{}

/// So each request of the client that awaits its reply at such a rest was sent no more often than words were adverse: where, while fewer were adverse than the hosts try, its channel stands so.
pub fn standing_searches_are_paid()
    ensures { StandingSearchesArePaid }
{}
