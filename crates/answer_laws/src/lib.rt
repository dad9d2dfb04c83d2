//! Laws of the answers of an inbox that a server uses up.
#![tactic(auto)]

ghost use Rattle.answer_laws.specs.Memory.{UnfailedLackedNone};

/// A server that has not failed lacked memory at no call of its inbox: none of the answers that were used up was want of memory.
pub fn unfailed_lacked_none()
    ensures { UnfailedLackedNone }
{}
