//! Laws of why pushes end, over the capture of a run alone, whatever shelf and inbox answer and whatever the script says.
#![tactic(auto)]

ghost use Rattle.cause_laws.specs.Shown.{RunsShowCauses};

/// Each push that ended has the cause of its outcome in its part of the capture: one that is done or refused, or that found no service, a piece of a PDU that
/// came into host a, and by the next word host a has heard what says so; one whose link was lost, that host a was told so; one that its
/// peer closed, a PDU or that end of the link; one at its limit, or whose peer is at fault, a PDU or a word; and a push is cancelled exactly where the word `cancel` stands
/// in its part.
pub fn runs_show_causes()
    ensures { RunsShowCauses }
{}
