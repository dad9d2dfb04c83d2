//! Laws of two hosts with any upper machines, whatever their ports answer: what happens between them,
//! PDU by PDU, is a run of the world of turns.
#![tactic(auto)]

ghost use Rattle.turn_laws.specs.Laws.{BrokenGoesOn, CarriedIsTurned, HearsWhatWasSaid, HearsWhenQuiet, LinksWithinPushes, PushesInTurn, SameLinks, SameWords};
ghost use Rattle.turn_laws.specs.WorldLaws.{BrokenWorldGoesOn, OrdersAreSpelled, WorldIsTurned};
ghost use Rattle.world_model.specs.Machines.{Upper};

/// Whatever the machines, a run that ends at rest is a run of turns.
pub fn runs_are_turns<S, T, G, H>()
    ensures { (U : Upper S G) (V : Upper T H) → CarriedIsTurned U V }
{}

/// It has the words that were turned.
#[tactic(auto, using(crate::proofs::Running::same_words))]
pub fn turns_have_the_words()
    ensures { SameWords }
{}

/// A run that broke off goes on as a run of turns.
pub fn broken_runs_go_on<S, T, G, H>()
    ensures { (U : Upper S G) (V : Upper T H) → BrokenGoesOn U V }
{}

/// A host hears a PDU only where all that it said has moved, and it has nothing to say.
pub fn hosts_hear_when_quiet<S, T, G, H>()
    ensures { (U : Upper S G) (V : Upper T H) → HearsWhenQuiet U V }
{}

/// A host hears on each link what came of what the other said, by the fates that it met.
#[tactic(auto, using(crate::proofs::Linking::hears_what_was_said))]
pub fn hosts_hear_what_was_said<S, T, G, H>()
    ensures { (U : Upper S G) (V : Upper T H) → HearsWhatWasSaid U V }
{}

/// Each host was told of as many links as the other.
#[tactic(auto, using(crate::proofs::Linking::same_links))]
pub fn hosts_have_the_same_links<S, T, G, H>()
    ensures { (U : Upper S G) (V : Upper T H) → SameLinks U V }
{}

/// Pushes are in turn, and each link of host a lies within one.
#[tactic(auto, using(crate::proofs::Pushing::pushes_in_turn))]
pub fn pushes_are_in_turn<S, T, G, H>()
    ensures { (U : Upper S G) (V : Upper T H) → PushesInTurn U V }
{}

/// A host is told what became of a link only while a push goes on.
#[tactic(auto, using(crate::proofs::Pushing::links_within_pushes))]
pub fn links_are_within_pushes<S, T, G, H>()
    ensures { (U : Upper S G) (V : Upper T H) → LinksWithinPushes U V }
{}

/// Whatever the machines, a run of the world that ends at rest is a run of turns, with the same words, machines and frames in the
/// air; and what each host was told and said, link by link, is what the capture has.
pub fn worlds_are_turns<S, T, G, H>()
    ensures { (U : Upper S G) (V : Upper T H) → WorldIsTurned U V }
{}

/// A run of the world that broke off goes on as a run of turns, from what the capture has.
pub fn broken_worlds_go_on<S, T, G, H>()
    ensures { (U : Upper S G) (V : Upper T H) → BrokenWorldGoesOn U V }
{}

/// A radio makes of a packet what it makes of the order that the packet spells.
#[tactic(auto, using(crate::proofs::Spelling::orders_are_spelled))]
pub fn orders_are_their_packets()
    ensures { OrdersAreSpelled }
{}
