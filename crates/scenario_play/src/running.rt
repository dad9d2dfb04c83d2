//! A world of any two hosts goes from its beginning to the end of its last push.

ghost use Rattle.std.specs.Prelude.{◌≡◌, List, length, min, vec_len, IfOk, OnErr, OnOk};
ghost use Rattle.push_terms.specs.declared.word.Side.TheVariants as sides;
ghost use Rattle.capture.specs.Air.{words_of};
ghost use Rattle.noting_laws.specs.rest_laws.specs.Premises.{AreOrderly};
ghost use Rattle.radio_world.specs.Calls.{LacksAt, MayStart, new_world, ports_of};
ghost use Rattle.radio_world.specs.Causes.{Blames};
ghost use Rattle.scenario_play.specs.Through.{BreaksThroughAt, MayWantAt, RunsThroughAt};

use bt_base::{NoMemory, Sink};
use push_script::{Runs, Scenario};
use push_terms::{Outcome, Peaks};
use radio_world::{Client, Host, Measured, World, WorldFault};
use std::alloc::Global;

/// Lets a world start, turns the words of a script, and ends its last push. It needs a world that may start, and refuses as its calls do.
fn run_through<P, A: Client<P>, Q, B: Host<Q>, T: Sink>(
    world: &mut World<A, B>,
    script: &Runs,
    shelf: &mut P,
    inbox: &mut Q,
    trace: &mut T,
) -> Result<(), WorldFault>
    requires orderly { AreOrderly A.Host.machine B.machine }
    requires sides { (A.Host.side ≡ sides.A) × (B.side ≡ sides.B) }
    requires may { MayStart A.Host B.Host world.old shelf.old inbox.old }
    ensures runs { OnOk result (RunsThroughAt A.Host B.Host (words_of script.now) world.old (ports_of T.Sink shelf.old inbox.old trace.old) world.new (ports_of T.Sink shelf.new inbox.new trace.new)) }
    ensures each { OnOk result (length world.new.scene.pushes.outcomes ≡ length world.old.scene.pushes.names) }
    ensures sound { OnOk result (A.Host.is_sound world.new.a shelf.new) }
    ensures breaks { OnErr result (BreaksThroughAt A.Host B.Host (words_of script.now) world.old (ports_of T.Sink shelf.old inbox.old trace.old) (ports_of T.Sink shelf.new inbox.new trace.new)) }
    ensures blames { Blames (T.faults trace.old) (T.faults trace.new) result }
    ensures lacks { LacksAt A.Host B.Host (words_of script.now) world.old (ports_of T.Sink shelf.old inbox.old trace.old) (ports_of T.Sink shelf.new inbox.new trace.new) result }
{
    world.start(trace, shelf, inbox)?;
    world.turn_all(script, trace, shelf, inbox)?;
    world.finish(trace, shelf)?;
    Ok(())
}

/// Room for what comes of so many objects.
fn reserved(alloc: Global, count: usize) -> Result<Vec<Outcome>, NoMemory>
    ensures { IfOk result (λ outcomes. vec_len outcomes ≡ count) }
{
    Ok(vec![in alloc; Outcome::ScriptEnded; count]?)
}

/// Plays a scenario in the world of two new hosts, and answers what came of its objects, and the world. What that takes is reserved
/// before anything happens. It needs orderly machines and ports as new hosts need them; it refuses as `run_through` does, and
/// `NoMemory` where what it reserves cannot be had.
pub(crate) fn play_out<P, A: Client<P>, Q, B: Host<Q>, T: Sink>(
    alloc: Global,
    scenario: &Scenario,
    shelf: &mut P,
    inbox: &mut Q,
    trace: &mut T,
) -> Result<(Vec<Outcome>, World<A, B>), WorldFault>
    requires orderly { AreOrderly A.Host.machine B.machine }
    requires sides { (A.Host.side ≡ sides.A) × (B.side ≡ sides.B) }
    requires unused { A.Host.is_unused shelf.old × B.is_unused inbox.old }
    ensures runs { IfOk result (λ end. RunsThroughAt A.Host B.Host (words_of scenario.now.script) (new_world A.Host B.Host scenario.now) (ports_of T.Sink shelf.old inbox.old trace.old) end.1 (ports_of T.Sink shelf.new inbox.new trace.new)) }
    ensures outcomes { IfOk result (λ end. end.0.items ≡ end.1.scene.pushes.outcomes) }
    ensures each { IfOk result (λ end. length end.0.items ≡ length scenario.now.names) }
    ensures sound { IfOk result (λ end. A.Host.is_sound end.1.a shelf.new) }
    ensures breaks { OnErr result (BreaksThroughAt A.Host B.Host (words_of scenario.now.script) (new_world A.Host B.Host scenario.now) (ports_of T.Sink shelf.old inbox.old trace.old) (ports_of T.Sink shelf.new inbox.new trace.new)) }
    ensures blames { Blames (T.faults trace.old) (T.faults trace.new) result }
    ensures lacks { MayWantAt A.Host B.Host (words_of scenario.now.script) (new_world A.Host B.Host scenario.now) (ports_of T.Sink shelf.old inbox.old trace.old) (ports_of T.Sink shelf.new inbox.new trace.new) result }
{
    let mut world = World::<A, B>::new::<P, Q>(alloc, scenario)?;
    let mut outcomes = reserved(alloc, scenario.names.len())?;
    run_through(&mut world, &scenario.script, shelf, inbox, trace)?;
    outcomes.copy_from_slice(world.outcomes());
    Ok((outcomes, world))
}

/// The greatest numbers that were reached in a world, which is let go. Those of the buffers stand still at 65,535.
pub(crate) fn peaks_of<P, A: Measured<P>, Q, B: Measured<Q>>(
    world: World<A, B>,
    _shelf: &P,
    _inbox: &Q,
) -> Peaks
    ensures buffers { (result.buffers_a ≡ min world.scene.medium.peak_a 65535) × (result.buffers_b ≡ min world.scene.medium.peak_b 65535) }
    ensures windows { (result.window_a ≡ A.frames_sent world.a) × (result.window_b ≡ B.frames_sent world.b) }
    ensures credits { (result.credits_a ≡ A.credits_held world.a) × (result.credits_b ≡ B.credits_held world.b) }
{
    world.peaks::<P, Q>()
}
