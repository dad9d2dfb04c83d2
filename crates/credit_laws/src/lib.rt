//! Laws on the credits of RFCOMM that both hosts hold, over what passed on their channels.
#![tactic(auto)]

ghost use Rattle.credit_laws.specs.Clients.{ClientsAreCovered};
ghost use Rattle.credit_laws.specs.Covered.{GrantsCoverSpending};
ghost use Rattle.credit_laws.specs.Fronts.{CreditsAreKept};
ghost use Rattle.credit_laws.specs.Moved.{MovedHoldSome};
ghost use Rattle.credit_laws.specs.Runs.{HeardRunsHoldCredits, RunsHoldCredits};
ghost use Rattle.credit_laws.specs.Serving.{ServersAreCovered};
ghost use Rattle.credit_laws.specs.Staying.{RunsStaySolvent};
ghost use Rattle.credit_laws.specs.Seen.{CoveredHoldSome, EarlierIsCovered};

/// At every moment, whatever the peer sends and whatever is asked of a side, also where it refuses its peer or ignores something for want of
/// room: the SDUs that passed grant it at least what it spent. So the credits that it holds, a whole number, are never below nothing.
pub fn grants_cover_spending()
    ensures { GrantsCoverSpending }
{}

/// What a host says last on a link grants it nothing: so its talk is covered without it, where it is covered with it.
pub fn earlier_is_covered()
    ensures { EarlierIsCovered }
{}

/// Where the SDUs on each channel of RFCOMM grant a host at least what it spent there, the credits that it holds on the link are never below
/// nothing.
pub fn covered_hold_some()
    ensures { CoveredHoldSome }
{}

/// At each moment what came to a server on the channel of its multiplexer since that was last closed granted it at least what it spent there, whatever
/// came: where what goes is what it lends, its inbox does not lack memory, and no frame waits where one comes.
pub fn servers_are_covered()
    ensures { ServersAreCovered }
{}

/// What a host gave up takes none of the credits that it holds: where its own talk covers what it spent, so does what moved. Its peer gives each of its
/// endpoints to one of the host's, which the host asked for once; and what the host sends goes over a channel that it has.
pub fn moved_hold_some()
    ensures { MovedHoldSome }
{}

/// In each run of a scenario, wherever it broke off and whatever was given up, the credits that host b holds by the capture over RFCOMM are not below
/// nothing: where what goes is what its server lends, and its inbox does not lack memory; and where no frame waits as one comes.
pub fn runs_hold_credits()
    ensures { RunsHoldCredits }
{}

/// So it is as well where each request is heard, or where requests may be missed and calls of its inbox fail, but not for want of memory: frames may
/// wait then while some others come.
pub fn heard_runs_hold_credits()
    ensures { HeardRunsHoldCredits }
{}

/// Where a host holds credits at the end of each run whose ports answer so and whose words lose nothing over RFCOMM, it holds some at each moment of
/// such a run.
pub fn credits_are_kept()
    ensures { CreditsAreKept }
{}

/// At each moment of each run, wherever it broke off and whatever its ports answer, the credits that either host holds by the capture are not below nothing:
/// its shelf answers in octets, its inbox does not lack memory, and over RFCOMM its words lose nothing.
pub fn runs_stay_solvent()
    ensures { RunsStaySolvent }
{}

/// A client over RFCOMM, from the opening of its channel on, whatever it hears and whenever it is asked, and whatever its shelf answers: where each
/// frame goes that it asks to send, the frames that came granted it at least what it spent.
pub fn clients_are_covered()
    ensures { ClientsAreCovered }
{}
