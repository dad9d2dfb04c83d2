//! A client over RFCOMM that keeps to the rules, read off the frames that pass alone: a server loses nothing of what it sends.
#![tactic(auto)]

ghost use Rattle.carried_laws.specs.Orderly.{OrderlyMayCome};
ghost use Rattle.carried_laws.specs.Sample.{APushIsInOrder};

/// Where each frame of the client comes in order, all may come to a server over RFCOMM: no request is ignored, and nothing is refused.
pub fn orderly_may_come()
    ensures { OrderlyMayCome }
{}

/// There is such a client: one push, octet for octet, is in order from its first frame to its last.
pub fn a_push_is_in_order()
    ensures { APushIsInOrder }
{}
