//! The way back: each run of turns is the run of some world, for every two machines. So no law of runs is empty.
#![tactic(auto)]

ghost use Rattle.run_laws.specs.Embedding.{RestIsOfLess, RunsAreOfLess};
ghost use Rattle.run_laws.specs.Breaking.{FrontsAreRuns, WrittenIsHappened};
ghost use Rattle.run_laws.specs.Laws.{TurnsArePlayed};
ghost use Rattle.station_laws.specs.world_model.specs.Machines.{Upper};

/// Whatever the machines, a run of turns in which both hosts say all that they have to say is the run of some world, with the same
/// words, machines and frames in the air.
#[tactic(auto, using(crate::proofs::Playing::turns_are_played))]
pub fn turns_are_worlds<S, T, G, H>()
    ensures { (U : Upper S G) (V : Upper T H) → TurnsArePlayed U V }
{}

/// Where a machine is another one that keeps something more, what happens in its world happens in the world of the other.
#[tactic(auto, using(crate::proofs::Embedding::runs_are_of_less))]
pub fn runs_are_of_less<S, M, T, N, G, H>()
    ensures { (embed_a : S → M) (embed_b : T → N) (U : Upper S G) (U' : Upper M G) (V : Upper T H) (V' : Upper N H) → RunsAreOfLess embed_a embed_b U U' V V' }
{}

/// And it is at rest where that is.
#[tactic(auto, using(crate::proofs::Embedding::rest_is_of_less))]
pub fn rest_is_of_less<S, M, T, N, G, H>()
    ensures { (embed_a : S → M) (embed_b : T → N) (U : Upper S G) (U' : Upper M G) (V : Upper T H) (V' : Upper N H) → RestIsOfLess embed_a embed_b U U' V V' }
{}

/// A run that broke off with an entry written, and its packet not heard or half heard, goes on with one more happening, from both hosts
/// as they were: so early ends need no laws of their own.
pub fn written_entries_happen<S, T, G, H>()
    ensures { (U : Upper S G) (V : Upper T H) → WrittenIsHappened U V }
{}

/// And each front of a capture, wherever it was cut, is the capture of a run.
#[tactic(auto, using(crate::proofs::Breaking::fronts_are_runs))]
pub fn fronts_are_captures<S, T, G, H>()
    ensures { (U : Upper S G) (V : Upper T H) → FrontsAreRuns U V }
{}
