//! How the pure world comes to rest, for every two machines and whatever their ports answer.
#![tactic(auto)]

ghost use Rattle.rest_laws.specs.Laws.{SettledRests};
ghost use Rattle.rest_laws.specs.Settling.{SettlingEnds};
ghost use Rattle.station_laws.specs.world_model.specs.Machines.{Upper};

/// Where nothing moves without a word, the world is at rest: so a word may act.
#[tactic(auto, using(crate::proofs::Resting::settled_rests))]
pub fn settled_worlds_rest<S, T, G, H>()
    ensures { (U : Upper S G) (V : Upper T H) → SettledRests U V }
{}

/// Whatever happens without a word comes to an end, so that a word may act.
#[tactic(auto, using(crate::proofs::Settling::settling_ends))]
pub fn worlds_settle<S, T, G, H>()
    ensures { (U : Upper S G) (V : Upper T H) → SettlingEnds U V }
{}
