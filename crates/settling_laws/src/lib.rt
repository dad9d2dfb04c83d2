//! How much may still happen in the pure world without a word, for two machines that say at most so much more with each thing that
//! they hear.
#![tactic(auto)]

ghost use Rattle.settling_laws.specs.Weights.{SettlingIsBounded};
ghost use Rattle.rest_laws.specs.world_model.specs.Machines.{Upper};

/// One number falls with each entry that the capture gains without a word, whatever the ports answer: so many follow at most.
#[tactic(auto, using(crate::proofs::Bounding::settling_is_bounded))]
pub fn settlings_are_bounded<S, T, G, H>()
    ensures { (U : Upper S G) (V : Upper T H) → SettlingIsBounded U V }
{}
