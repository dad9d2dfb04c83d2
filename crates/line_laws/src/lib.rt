//! A host over `host_link` as a host of the world: what it put out is read off its octets, each of its calls is that of its station,
//! and where it has done all that it can its station has stopped.
#![tactic(auto)]

ghost use Rattle.line_laws.specs.Laws.{CallsAreSeen, EndsAreSeen, OrdersAreRead, StationsAreSeen, StrivesAreSeen, HeardIsSeen, TakenIsSeen, SpentHostsStop};
ghost use Rattle.radio_world.specs.world_model.specs.Machines.{Upper};

/// The orders that a host may put out are read off their octets.
#[tactic(auto, using(crate::proofs::Reading::orders_are_read))]
pub fn orders_are_octets()
    ensures { OrdersAreRead }
{}

/// A host that is made, and what it makes of itself by a call, is what its octets say.
pub fn stations_are_seen<S, G>()
    ensures starts { (U : Upper S G) → StationsAreSeen U }
    ensures strives { (U : Upper S G) → StrivesAreSeen U }
{}

/// Where it may ask for a link, or for its end, it does so as its station does.
pub fn links_are_seen<S, G>()
    ensures calls { (U : Upper S G) → CallsAreSeen U }
    ensures ends { (U : Upper S G) → EndsAreSeen U }
{}

/// What it makes of what comes to it, and of what its controller took, is what its octets say.
#[tactic(auto, using(crate::proofs::Coming::taken_is_seen))]
pub fn what_comes_is_seen<S, G>()
    ensures heard { (U : Upper S G) → HeardIsSeen U }
    ensures taken { (U : Upper S G) → TakenIsSeen U }
{}

/// A host that has done all that it can, and put out nothing more than was taken, can do nothing more by itself.
#[tactic(auto, using(crate::proofs::Stopping::spent_hosts_stop))]
pub fn spent_hosts_stop<S, G>()
    ensures { (U : Upper S G) → SpentHostsStop U }
{}
