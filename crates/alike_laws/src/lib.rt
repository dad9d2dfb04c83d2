//! Beginnings that a machine cannot tell apart: what happens from the one happens from the other.
#![tactic(auto)]

ghost use Rattle.alike_laws.specs.Twins.{RestIsOfTwins, RunsAreOfTwins};
ghost use Rattle.run_laws.specs.world_model.specs.Machines.{Upper};

/// Where both machines of a world may begin in either of two states that they cannot tell apart, a run from the ones is a run from
/// the others: it leads to the same world, but for a machine that has heard nothing.
pub fn runs_are_of_twins<S, T, G, H>()
    ensures { (U : Upper S G) (V : Upper T H) → RunsAreOfTwins U V }
{}

/// And the one world is at rest where the other is.
#[tactic(auto, using(crate::proofs::Twins::rest_is_of_twins))]
pub fn rest_is_of_twins<S, T, G, H>()
    ensures { (U : Upper S G) (V : Upper T H) → RestIsOfTwins U V }
{}
