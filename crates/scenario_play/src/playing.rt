//! A scenario is played to its end.

ghost use Rattle.std.specs.Prelude.{◌≡◌, ◌≤◌, ◌⊎◌, false, length, IfOk, OnErr, OnOk};
ghost use Rattle.bt_base.specs.Counts.{HasRisen};
ghost use Rattle.noting_laws.specs.obex_session.specs.Counting.{counts_of, HasRisenBy};
ghost use Rattle.radio_world.specs.Causes.{Blames};
ghost use Rattle.radio_world.specs.Shortages.{Lacks};
ghost use Rattle.scenario_play.specs.Breaking.{IsBroken, IsWanting};
ghost use Rattle.scenario_play.specs.Failing.{shelf_faults};
ghost use Rattle.scenario_play.specs.Playing.{KeepsShelf, IsPlayed};

use crate::running::{peaks_of, play_out};
use bt_base::{Inbox, Shelf, Sink};
use bt_host::{ClientHost, ServerHost};
use push_script::Scenario;
use push_terms::{Outcome, Peaks};
use radio_world::WorldFault;
use std::alloc::Global;

/// What a scenario came to.
#[derive(Drop)]
pub struct Played {
    /// What came of its objects, in their order.
    pub outcomes: Vec<Outcome>,
    /// The greatest numbers that were reached. Those of the buffers stand still at 65,535.
    pub peaks: Peaks,
}

/// Plays a scenario: host a pushes its objects, which lie on the shelf, and host b stores in the inbox what arrives, while the
/// words of the script are turned. What happens stands in the trace.
///
/// At most so many pushes end since the shelf failed as its count of faults rose by (`faulted`).
///
/// The inbox may have no object pending. `TraceFault` where the trace fails, and `NoMemory` where none could be had: `lacks` says why.
/// Then `breaks` says how far it came: what the trace gained is the capture of a run so far, and a front of its next entry.
pub fn play<F: Shelf, I: Inbox, T: Sink>(
    alloc: Global,
    scenario: &Scenario,
    shelf: &mut F,
    inbox: &mut I,
    trace: &mut T,
) -> Result<Played, WorldFault>
    requires none_pending { I.is_pending inbox.old ≡ false }
    ensures plays { IfOk result (λ played. IsPlayed scenario.now (F.content shelf.old) (I.content inbox.old) (I.content inbox.new) (T.content trace.old) (T.content trace.new) played.outcomes.items played.peaks (counts_of I.faults I.shortages inbox.old) (counts_of I.faults I.shortages inbox.new)) }
    ensures faulted { IfOk result (λ played. HasRisenBy (shelf_faults played.outcomes.items) (F.faults shelf.old) (F.faults shelf.new)) }
    ensures each { IfOk result (λ played. length played.outcomes.items ≡ length scenario.now.names) }
    ensures shelf { OnOk result (KeepsShelf (F.content shelf.old) (F.content shelf.new) (F.faults shelf.old) (F.faults shelf.new) (F.shortages shelf.old) (F.shortages shelf.new)) }
    ensures breaks { OnErr result (IsBroken scenario.now (F.content shelf.old) (I.content inbox.old) (I.content inbox.new) (T.content trace.old) (T.content trace.new) (counts_of I.faults I.shortages inbox.old) (counts_of I.faults I.shortages inbox.new)) }
    ensures left { OnErr result (KeepsShelf (F.content shelf.old) (F.content shelf.new) (F.faults shelf.old) (F.faults shelf.new) (F.shortages shelf.old) (F.shortages shelf.new) ⊎ HasRisen (F.shortages shelf.old) (F.shortages shelf.new)) }
    ensures inbox { I.shortages inbox.old ≤ I.shortages inbox.new }
    ensures blames { Blames (T.faults trace.old) (T.faults trace.new) result }
    ensures lacks { Lacks (T.shortages trace.old) (T.shortages trace.new) (IsWanting scenario.now (I.content inbox.old) (I.content inbox.new) (T.content trace.old) (T.content trace.new) (HasRisen (F.shortages shelf.old) (F.shortages shelf.new)) (HasRisen (I.shortages inbox.old) (I.shortages inbox.new))) result }
{
    let (outcomes, world) = play_out::<F, ClientHost, I, ServerHost, T>(
        alloc, scenario, shelf, inbox, trace,
    )?;
    let peaks = peaks_of(world, shelf, inbox);
    Ok(Played { outcomes, peaks })
}
