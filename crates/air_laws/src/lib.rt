//! Laws of the capture of two hosts with any upper machines, whatever their ports answer: what
//! the air did, and how pushes follow one another.
#![tactic(auto)]

ghost use Rattle.air_laws.specs.Accounts.{BuffersAreKept, CapturesAreHonest};
ghost use Rattle.air_laws.specs.AirLaws.{AirIsKept, AirIsObeyed, PushesAreMarked};
ghost use Rattle.air_laws.specs.Crowded.{CrowdsAreTold, FramesAreTold};
ghost use Rattle.air_laws.specs.Example.{ExampleRuns};
ghost use Rattle.air_laws.specs.Heard.{LinksAreHeard};
ghost use Rattle.turn_laws.specs.world_model.specs.Machines.{Upper};

/// What comes into the hosts is what the words hand over, in each run, wherever it broke off.
pub fn air_is_kept<S, T, G, H>()
    ensures { (U : Upper S G) (V : Upper T H) → AirIsKept U V }
{}

/// A run that is at rest obeyed its words: those without an entry found nothing to act on.
pub fn air_is_obeyed<S, T, G, H>()
    ensures { (U : Upper S G) (V : Upper T H) → AirIsObeyed U V }
{}

/// The frames that wait in the air are those that the capture has; so where the radio has no room for one, the capture is
/// crowded.
pub fn frames_wait_as_told<S, T, G, H>()
    ensures frames { (U : Upper S G) (V : Upper T H) → FramesAreTold U V }
    ensures crowds { (U : Upper S G) (V : Upper T H) → CrowdsAreTold U V }
{}

/// Pushes are in turn, and the links of each lie within it.
pub fn pushes_are_marked<S, T, G, H>()
    ensures { (U : Upper S G) (V : Upper T H) → PushesAreMarked U V }
{}

/// At each moment a host has no more packets outstanding than its controller takes, and no more
/// than 64.
pub fn buffers_are_kept<S, T, G, H>()
    ensures { (U : Upper S G) (V : Upper T H) → BuffersAreKept U V }
{}

/// A controller says of no handle that more packets were completed than went out on it, and each
/// packet out of a host has the handle of the last link that it was told of.
pub fn captures_are_honest<S, T, G, H>()
    ensures { (U : Upper S G) (V : Upper T H) → CapturesAreHonest U V }
{}

/// The n-th link of one host is the n-th of the other, and what came into each on it is what comes of
/// what went out of the other, by fates that it met in order.
pub fn links_are_heard<S, T, G, H>()
    ensures { (U : Upper S G) (V : Upper T H) → LinksAreHeard U V }
{}

/// The laws say something: two machines that they hold of, and a whole run of them.
#[tactic(auto, using(crate::proofs::Exampling::example_runs))]
pub fn an_example_runs()
    ensures { ExampleRuns }
{}
