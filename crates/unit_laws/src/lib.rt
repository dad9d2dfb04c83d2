//! What a whole host holds, was told and said is read off its own units: the packets that move between it and its controller. So are the channels of
//! both hosts, and what a client comes to.
#![tactic(auto)]

ghost use Rattle.unit_laws.specs.Calls.{CallsAreRuns};
ghost use Rattle.unit_laws.specs.Capacity.{BuffersAreRead};
ghost use Rattle.unit_laws.specs.Gaining.{ClientsCome};
ghost use Rattle.unit_laws.specs.Holding.{ChannelsAreSeen, ChannelsAreTimed};
ghost use Rattle.unit_laws.specs.Laws.{LinesAreRead, UnitsAreTalk};
ghost use Rattle.unit_laws.specs.Living.{HostsLiveByUnits};
ghost use Rattle.scenario_laws.specs.world_model.specs.Machines.{Upper};

/// Whatever comes to a host, and whatever it does, its ledger is what its units say, and so are its link and the PDU that is coming in.
pub fn lines_are_read<S, G>()
    ensures { (U : Upper S G) → LinesAreRead U }
{}

/// And its controller takes one packet more exactly where its units say so.
pub fn buffers_are_read<S, G>()
    ensures { (U : Upper S G) → BuffersAreRead U }
{}

/// Where a host hears one thing at a time, what it was told and said is what its units have of its links.
pub fn units_are_talk<S, G>()
    ensures { (U : Upper S G) → UnitsAreTalk U }
{}

/// All that a host does by itself, and what it makes of a unit, is a run of it over units: what it puts out are their octets.
pub fn calls_are_runs<S, G>()
    ensures { (U : Upper S G) → CallsAreRuns U }
{}

/// So a client and a server live by their own units: on each link their own talk is what moved there, but for what they gave up, and behind it what they
/// let wait.
#[tactic(auto, using(crate::proofs::Living::hosts_live_by_units))]
pub fn hosts_live_by_units()
    ensures { HostsLiveByUnits }
{}

/// The channels of both are those that their own units say, each as far as it says there; each stays open exactly where they say so, and one whose end its
/// host asked for is open only where they had it open; where the host has said all, by what moved alone, but for what it gave up.
#[tactic(auto, using(crate::proofs::Holding::channels_are_seen))]
pub fn channels_are_seen()
    ensures { ChannelsAreSeen }
{}

/// And they are those of a run to which happened what moved on the link, and where the timer fired between, each in its place: so what the host gave up
/// is of that run.
#[tactic(auto, using(crate::proofs::Holding::channels_are_timed))]
pub fn channels_are_timed()
    ensures { ChannelsAreTimed }
{}

/// A client is what it is of what happened to it on the links that its own units have.
pub fn clients_come()
    ensures { ClientsCome }
{}
