//! What is told of a scenario: why it is refused, or what came of it.

ghost use Rattle.std.specs.Prelude.{◌≡◌, List, length};
ghost use Rattle.std.specs.List.{list_all};
ghost use Rattle.bt_base.specs.Counts.{HasRisen};
ghost use Rattle.btpush_forms.specs.h4_view.specs.View.{IsAnswered};
ghost use Rattle.push_script.specs.Refusals.{refusal_line};
ghost use Rattle.push_script.specs.Reports.{report_text};
ghost use Rattle.btpush_forms.specs.Refusing.{Refuses};
ghost use Rattle.btpush_forms.specs.Run.{HasCauses};
ghost use Rattle.object_push.specs.Running.{is_done, Reports};

use crate::halting::Ended;
use bt_base::{PortFault, Sink};
use btpush_forms::Status;
use push_script::{Scenario, ScriptRefusal, put_refusal, put_report};
use push_terms::Outcome;

/// Writes the line that tells of a refused scenario.
pub(crate) fn refuse<K: Sink>(line: u32, refusal: ScriptRefusal, sink: &mut K) -> Status
    ensures refuses { Refuses (refusal_line line refusal) (K.content sink.old) (K.content sink.new) result }
    ensures causes { HasCauses 0 0 (K.faults sink.old) (K.faults sink.new) 0 0 result }
    ensures sink_short { IsAnswered (K.shortages sink.old) (K.shortages sink.new) (result ≡ Status.NoMemory) }
{
    match put_refusal(line, refusal, sink) {
        Ok(()) => Status::InputRefused,
        Err(PortFault::Failed) => Status::WriteFault,
        Err(PortFault::NoMemory) => Status::NoMemory,
    }
}

fn is_done(outcome: Outcome) -> bool
    ensures { result ≡ is_done outcome }
{
    matches!(outcome, Outcome::Done)
}

/// Whether everything that was to be pushed is done.
fn all_done(outcomes: &[Outcome]) -> bool
    ensures { result ≡ list_all is_done outcomes.now }
{
    outcomes.iter().all(|outcome| is_done(*outcome))
}

/// Writes the report on what came of a scenario. It takes no memory but what the sink takes.
pub(crate) fn report<K: Sink>(scenario: &Scenario, ended: &Ended, sink: &mut K) -> Status
    requires each { length ended.now.played.outcomes.items ≡ length scenario.now.names }
    ensures reports { Reports (report_text scenario.now.names ended.now.played.outcomes.items ended.now.kept ended.now.played.peaks) ended.now.played.outcomes.items (K.content sink.old) (K.content sink.new) (HasRisen (K.shortages sink.old) (K.shortages sink.new)) result }
    ensures causes { HasCauses 0 0 (K.faults sink.old) (K.faults sink.new) 0 0 result }
    ensures sink_short { IsAnswered (K.shortages sink.old) (K.shortages sink.new) (result ≡ Status.NoMemory) }
{
    let outcomes = ended.played.outcomes.as_slice();
    match put_report(scenario, outcomes, ended.kept, &ended.played.peaks, sink) {
        Ok(()) if all_done(outcomes) => Status::Ok,
        Ok(()) => Status::SomeFailed,
        Err(PortFault::Failed) => Status::WriteFault,
        Err(PortFault::NoMemory) => Status::NoMemory,
    }
}
