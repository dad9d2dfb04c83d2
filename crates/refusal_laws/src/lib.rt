//! With which results a host is told that a channel was refused.
#![tactic(auto)]

ghost use Rattle.refusal_laws.specs.Refused.{RefusalsHaveResults};

/// Whatever happens to the channels of a link: where a host is told that its peer refused a channel, the result is neither 0, which grants one,
/// nor 1, behind which another response follows.
pub fn refusals_have_results()
    ensures { RefusalsHaveResults }
{}
