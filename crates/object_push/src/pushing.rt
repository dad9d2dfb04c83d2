//! The form `push`: a scenario is read and run, and what came of it is written.

ghost use Rattle.std.specs.Prelude.{◌≡◌, ◌≢◌, ◌≤◌, false, [], IfSome};
ghost use Rattle.btpush_forms.specs.h4_view.specs.View.{IsAnswered};
ghost use Rattle.btpush_forms.specs.Run.{HasCauses, HasEnded};
ghost use Rattle.object_push.specs.Ports.{ports_of};
ghost use Rattle.object_push.specs.Pushing.{IsShort, Pushes};
ghost use Rattle.object_push.specs.Running.{Runs};

use crate::laws::runs_tell;
use crate::reporting::{refuse, report};
use crate::running::play_on;
use bt_base::{Inbox, Shelf, Sink, Source};
use btpush_forms::{GatherFault, Status, gather};
use push_script::{Scenario, ScriptFault, scenario_of};
use radio_world::WorldFault;
use std::alloc::Global;

/// Runs a scenario, and writes the report on it where it came to its end.
fn run_scenario<K: Sink, T: Sink, F: Shelf, B: Inbox>(
    alloc: Global,
    scenario: &Scenario,
    sink: &mut K,
    trace: &mut T,
    shelf: &mut F,
    inbox: &mut B,
) -> Status
    requires pending { B.is_pending inbox.old ≡ false }
    ensures runs { let at = ports_of K.Sink T.Sink F.Shelf B.Inbox in Runs scenario.now (at sink.old trace.old shelf.old inbox.old) (at sink.new trace.new shelf.new inbox.new) result }
    ensures causes { HasCauses 0 0 (K.faults sink.old) (K.faults sink.new) (T.faults trace.old) (T.faults trace.new) result }
    ensures sink_short { IsAnswered (K.shortages sink.old) (K.shortages sink.new) (result ≡ Status.NoMemory) }
    ensures trace_short { IsAnswered (T.shortages trace.old) (T.shortages trace.new) (result ≡ Status.NoMemory) }
    ensures shelf_content { F.content shelf.new ≡ F.content shelf.old }
    ensures shelf_faults { F.faults shelf.old ≤ F.faults shelf.new }
    ensures shelf_absences { F.absences shelf.old ≤ F.absences shelf.new }
    ensures shelf_short { IsAnswered (F.shortages shelf.old) (F.shortages shelf.new) (IsShort (T.faults trace.old) (T.faults trace.new) result) }
    ensures inbox_faults { B.faults inbox.old ≤ B.faults inbox.new }
    ensures inbox_short { IsAnswered (B.shortages inbox.old) (B.shortages inbox.new) (IsShort (T.faults trace.old) (T.faults trace.new) result) }
{
    match play_on(alloc, scenario, shelf, inbox, trace) {
        Ok(ended) => report(scenario, &ended, sink),
        Err(WorldFault::TraceFault) => Status::WriteFault,
        Err(WorldFault::NoMemory) => Status::NoMemory,
    }
}

/// Reads a scenario from the source and runs it: the objects of the shelf are pushed, what is received goes into the inbox, the capture of
/// it into the trace and the report into the sink. Every scenario that can be read is played.
///
/// `Ok` comes where every push is done, and `SomeFailed` where one is not. `InputRefused` comes where the text is no scenario, and the sink
/// gets the line that tells where and why; trace, shelf and inbox are untouched then. `ReadFault` and `WriteFault` come where a port failed.
/// `NoMemory` comes before the trace has anything, where a port found no memory, or where the air is crowded. Where shelf or inbox found none
/// and the trace failed, `WriteFault` comes. No object may be pending in the inbox.
pub fn push<S: Source, K: Sink, T: Sink, F: Shelf, B: Inbox>(
    alloc: Global,
    source: &mut S,
    sink: &mut K,
    trace: &mut T,
    shelf: &mut F,
    inbox: &mut B,
) -> Status
    requires pending { B.is_pending inbox.old ≡ false }
    ensures pushes { IfSome (S.content source.old) (λ input. let at = ports_of K.Sink T.Sink F.Shelf B.Inbox in Pushes input (S.content source.new) (at sink.old trace.old shelf.old inbox.old) (at sink.new trace.new shelf.new inbox.new) ((trace.new ≡ trace.old) × (shelf.new ≡ shelf.old) × (inbox.new ≡ inbox.old)) result) }
    ensures known { result ≢ Status.BadWords }
    ensures finish { HasEnded result → IfSome (S.content source.new) (λ left. left ≡ []) }
    ensures causes { HasCauses (S.faults source.old) (S.faults source.new) (K.faults sink.old) (K.faults sink.new) (T.faults trace.old) (T.faults trace.new) result }
    ensures source_short { IsAnswered (S.shortages source.old) (S.shortages source.new) (result ≡ Status.NoMemory) }
    ensures sink_short { IsAnswered (K.shortages sink.old) (K.shortages sink.new) (result ≡ Status.NoMemory) }
    ensures trace_short { IsAnswered (T.shortages trace.old) (T.shortages trace.new) (result ≡ Status.NoMemory) }
    ensures shelf_content { F.content shelf.new ≡ F.content shelf.old }
    ensures shelf_faults { F.faults shelf.old ≤ F.faults shelf.new }
    ensures shelf_absences { F.absences shelf.old ≤ F.absences shelf.new }
    ensures shelf_short { IsAnswered (F.shortages shelf.old) (F.shortages shelf.new) (IsShort (T.faults trace.old) (T.faults trace.new) result) }
    ensures inbox_faults { B.faults inbox.old ≤ B.faults inbox.new }
    ensures inbox_short { IsAnswered (B.shortages inbox.old) (B.shortages inbox.new) (IsShort (T.faults trace.old) (T.faults trace.new) result) }
{
    let text = match gather(alloc, source) {
        Ok(text) => text,
        Err(GatherFault::ReadFault) => return Status::ReadFault,
        Err(GatherFault::NoMemory) => return Status::NoMemory,
    };
    let scenario = match scenario_of(alloc, &text) {
        Ok(scenario) => scenario,
        Err(ScriptFault::Refused(line, refusal)) => return refuse(line, refusal, sink),
        Err(ScriptFault::NoMemory) => return Status::NoMemory,
    };
    runs_tell();
    run_scenario(alloc, &scenario, sink, trace, shelf, inbox)
}
