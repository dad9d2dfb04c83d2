//! Laws of how the links of pushes are lost, over the capture of a run alone, whatever shelf and inbox answer and whatever the script says.
#![tactic(auto)]

ghost use Rattle.drop_laws.specs.Dropped.{RunsLoseByDrops};

/// A push ends with `link-lost` only where the word `drop` broke its link: in its part of the capture host a is told that its link ended with reason 08 (connection timeout), behind that word, and ahead
/// of that nothing ended its link and nothing cancelled it.
pub fn runs_lose_by_drops()
    ensures { RunsLoseByDrops }
{}
