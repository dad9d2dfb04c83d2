//! How many passes of a run find something to do on an enhanced channel of both hosts.
#![tactic(auto)]

ghost use Rattle.count_laws.specs.Coming.{LinksHearByWords};
ghost use Rattle.count_laws.specs.Counted.{RestsRecover, RunsRecover};

/// At each moment of a link of a run at which both hosts are silent, and wherever the run broke off: of all words of the link so far no more find something to
/// do on an enhanced channel that both have open than two for each segment that they put, and 256 for each adverse word of the run, less those that the two
/// ends of the channel may still need. So it is where the run is at rest.
pub fn runs_recover()
    ensures each { RunsRecover }
    ensures rest { RestsRecover }
{
    pair_laws::pairs_are_carried();
    passing_laws::channels_recover();
}

/// On each link of a run no more PDUs come in at both hosts together than words of the link hand one over, and than words of it go wrong: so the passes that hand
/// something over are counted by the words of the links.
pub fn links_hear_by_words()
    ensures { LinksHearByWords }
{}
