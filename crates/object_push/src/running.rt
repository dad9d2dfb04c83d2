//! A scenario is played over ports that are watched.

ghost use Rattle.std.specs.Prelude.{◌≡◌, ◌≤◌, ◌||◌, ℕ, false, length, IfErr, IfOk, IsErrOf, is_ok};
ghost use Rattle.bt_base.specs.Counts.{HasRisen};
ghost use Rattle.btpush_forms.specs.h4_view.specs.View.{IsAnswered};
ghost use Rattle.watched_ports.specs.Gains.{Keeps};
ghost use Rattle.watched_ports.specs.Pasts.{IsSink, IsShelf, IsInbox};
ghost use Rattle.scenario_play.specs.obex_session.specs.Counting.{counts_of, HasRisenBy};
ghost use Rattle.scenario_play.specs.Breaking.{IsBroken};
ghost use Rattle.scenario_play.specs.Failing.{shelf_faults};
ghost use Rattle.scenario_play.specs.Playing.{IsPlayed};
ghost use Rattle.object_push.specs.Halting.{HasReason};
ghost use Rattle.object_push.specs.Playing.{lent_by, trace_by, shelf_by, inbox_by, GoesOn};

use crate::halting::{Ended, end_of};
use bt_base::{Inbox, Shelf, Sink};
use push_script::Scenario;
use radio_world::WorldFault;
use scenario_play::play;
use std::alloc::Global;
use std::marker::Brand;
use watched_ports::{
    LentInbox, LentShelf, LentSink, Past, WatchedInbox, WatchedShelf, WatchedSink,
};

/// Whether one of the ports found no memory.
fn any_short(shelf: bool, inbox: bool, trace: bool) -> bool
    ensures { result ≡ (shelf || inbox || trace) }
{
    shelf || inbox || trace
}

/// Plays a scenario over ports that are watched from now on, and gives them back. No object may be pending in the inbox.
fn play_watched<PF: Past, PB: Past, PT: Past, F: LentShelf, B: LentInbox, T: LentSink>(
    alloc: Global,
    scenario: &Scenario,
    shelf: F,
    inbox: B,
    trace: T,
) -> (Result<Ended, WorldFault>, F, B, T)
    requires pending { B.is_pending inbox ≡ false }
    requires shelf { IsShelf PF.shelf (F.name shelf) (F.content shelf) (F.faults shelf) (F.shortages shelf) (F.absences shelf) }
    requires inbox { IsInbox PB.inbox (B.name inbox) (B.content inbox) (B.faults inbox) (B.shortages inbox) }
    requires trace { IsSink PT.sink (T.name trace) (T.faults trace) (T.shortages trace) }
    ensures plays { IfOk result.0 (λ ended. IsPlayed scenario.now (F.content shelf) (B.content inbox) (B.content result.2) (T.content trace) (T.content result.3) ended.played.outcomes.items ended.played.peaks (counts_of B.faults B.shortages inbox) (counts_of B.faults B.shortages result.2)) }
    ensures each { IfOk result.0 (λ ended. length ended.played.outcomes.items ≡ length scenario.now.names) }
    ensures kept { IfOk result.0 (λ ended. Keeps PB.inbox.content ended.kept (B.content result.2)) }
    ensures faulted { IfOk result.0 (λ ended. HasRisenBy (shelf_faults ended.played.outcomes.items) (F.faults shelf) (F.faults result.1)) }
    ensures breaks { IfErr result.0 (λ fault. IsBroken scenario.now (F.content shelf) (B.content inbox) (B.content result.2) (T.content trace) (T.content result.3) (counts_of B.faults B.shortages inbox) (counts_of B.faults B.shortages result.2)) }
    ensures reason { IfErr result.0 (λ fault. HasReason fault scenario.now (B.content inbox) (B.content result.2) (T.content trace) (T.content result.3) (HasRisen PT.sink.faults (T.faults result.3)) (HasRisen PT.sink.shortages (T.shortages result.3)) (HasRisen (F.shortages shelf) (F.shortages result.1)) (HasRisen (B.shortages inbox) (B.shortages result.2))) }
    ensures grows { (kept : ℕ) × Keeps PB.inbox.content kept (B.content result.2) }
    ensures names { (F.name result.1 ≡ PF.shelf.name) × (B.name result.2 ≡ PB.inbox.name) × (T.name result.3 ≡ PT.sink.name) }
    ensures trace_faults { IsAnswered PT.sink.faults (T.faults result.3) (IsErrOf result.0 WorldFault.TraceFault) }
    ensures trace_short { IsAnswered PT.sink.shortages (T.shortages result.3) (IsErrOf result.0 WorldFault.NoMemory) }
    ensures shelf_content { F.content result.1 ≡ PF.shelf.content }
    ensures shelf_faults { PF.shelf.faults ≤ F.faults result.1 }
    ensures shelf_absences { PF.shelf.absences ≤ F.absences result.1 }
    ensures shelf_short { IsAnswered PF.shelf.shortages (F.shortages result.1) (is_ok result.0 ≡ false) }
    ensures inbox_faults { PB.inbox.faults ≤ B.faults result.2 }
    ensures inbox_short { IsAnswered PB.inbox.shortages (B.shortages result.2) (is_ok result.0 ≡ false) }
{
    let mut shelf: WatchedShelf<F, PF> = WatchedShelf::new(shelf);
    let mut inbox: WatchedInbox<B, PB> = WatchedInbox::new(inbox);
    let mut trace: WatchedSink<T, PT> = WatchedSink::new(trace);
    let played = play(alloc, scenario, &mut shelf, &mut inbox, &mut trace);
    let short = any_short(shelf.short, inbox.short, trace.short);
    let end = end_of(played, inbox.kept, trace.failed, short);
    let WatchedShelf { shelf, .. } = shelf;
    let WatchedInbox { inbox, .. } = inbox;
    let WatchedSink { sink, .. } = trace;
    (end, shelf, inbox, sink)
}

/// The same over a trace that is borrowed.
fn play_traced<PF: Past, PB: Past, F: LentShelf, B: LentInbox, T: Sink>(
    alloc: Global,
    scenario: &Scenario,
    shelf: F,
    inbox: B,
    trace: &mut T,
) -> (Result<Ended, WorldFault>, F, B)
    requires pending { B.is_pending inbox ≡ false }
    requires shelf { IsShelf PF.shelf (F.name shelf) (F.content shelf) (F.faults shelf) (F.shortages shelf) (F.absences shelf) }
    requires inbox { IsInbox PB.inbox (B.name inbox) (B.content inbox) (B.faults inbox) (B.shortages inbox) }
    ensures names { (F.name result.1 ≡ PF.shelf.name) × (B.name result.2 ≡ PB.inbox.name) }
    ensures goes { let at = lent_by (trace_by T.content T.faults T.shortages) (shelf_by F.content F.faults F.shortages F.absences) (inbox_by B.content B.faults B.shortages) in GoesOn scenario.now (at trace.old shelf inbox) (at trace.new result.1 result.2) result.0 }
{
    let (end, shelf, inbox, _trace) = play_watched::<PF, PB, Brand, F, B, &mut T>(
        alloc, scenario, shelf, inbox, trace,
    );
    (end, shelf, inbox)
}

/// The same over a trace and an inbox that are borrowed.
fn play_stored<PF: Past, F: LentShelf, B: Inbox, T: Sink>(
    alloc: Global,
    scenario: &Scenario,
    shelf: F,
    inbox: &mut B,
    trace: &mut T,
) -> (Result<Ended, WorldFault>, F)
    requires pending { B.is_pending inbox.old ≡ false }
    requires shelf { IsShelf PF.shelf (F.name shelf) (F.content shelf) (F.faults shelf) (F.shortages shelf) (F.absences shelf) }
    ensures name { F.name result.1 ≡ PF.shelf.name }
    ensures goes { let at = lent_by (trace_by T.content T.faults T.shortages) (shelf_by F.content F.faults F.shortages F.absences) (inbox_by B.content B.faults B.shortages) in GoesOn scenario.now (at trace.old shelf inbox.old) (at trace.new result.1 inbox.new) result.0 }
{
    let (end, shelf, _inbox) = play_traced::<PF, Brand, F, &mut B, T>(
        alloc, scenario, shelf, inbox, trace,
    );
    (end, shelf)
}

/// Plays a scenario, and counts what the inbox stores. No object may be pending in it.
///
/// `TraceFault` where the trace failed. `NoMemory` where a port found none, or none could be had for the play. Then the trace has the
/// capture of a run so far, and a front of its next entry.
pub(crate) fn play_on<F: Shelf, B: Inbox, T: Sink>(
    alloc: Global,
    scenario: &Scenario,
    shelf: &mut F,
    inbox: &mut B,
    trace: &mut T,
) -> Result<Ended, WorldFault>
    requires pending { B.is_pending inbox.old ≡ false }
    ensures { let at = lent_by (trace_by T.content T.faults T.shortages) (shelf_by F.content F.faults F.shortages F.absences) (inbox_by B.content B.faults B.shortages) in GoesOn scenario.now (at trace.old shelf.old inbox.old) (at trace.new shelf.new inbox.new) result }
{
    let (end, _shelf) = play_stored::<Brand, &mut F, B, T>(alloc, scenario, shelf, inbox, trace);
    end
}
