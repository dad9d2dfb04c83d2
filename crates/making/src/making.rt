//! The form `make`: the scenario of a number is run, and what came of it is told.

ghost use Rattle.std.specs.Prelude.{◌≡◌, length};
ghost use Rattle.bt_base.specs.Counts.{HasRisen};
ghost use Rattle.btpush_forms.specs.h4_view.specs.View.{IsAnswered};
ghost use Rattle.btpush_forms.specs.Run.{HasCauses, HasEnded};
ghost use Rattle.btpush_forms.specs.Ports.{written};
ghost use Rattle.making.specs.Counting.{done_lines, octets_counted};
ghost use Rattle.making.specs.Making.{IsKnown, Makes, Sums};
ghost use Rattle.making.specs.Summary.{summary_text};

use crate::counting::{done_in, octets_in};
use crate::memory_ports::{MemoryPorts, ports_for};
use crate::summary::put_summary;
use bt_base::{PortFault, Sink};
use btpush_forms::Status;
use object_push::push;
use std::alloc::Global;

/// Tells what came of a run that ended so.
fn tell<K: Sink>(end: Status, ports: &MemoryPorts, sink: &mut K) -> Status
    requires { HasEnded end }
    ensures sums { Sums (summary_text (done_lines 8 ports.now.report.text.items) (length ports.now.inbox.contents.stored) (octets_counted ports.now.inbox.contents.stored)) end (K.content sink.old) (K.content sink.new) (HasRisen (K.shortages sink.old) (K.shortages sink.new)) result }
    ensures causes { HasCauses 0 0 (K.faults sink.old) (K.faults sink.new) 0 0 result }
    ensures sink_short { IsAnswered (K.shortages sink.old) (K.shortages sink.new) (result ≡ Status.NoMemory) }
{
    let done = done_in(&ports.report.text);
    let kept = ports.inbox.len() as u64;
    let octets = octets_in(&ports.inbox);
    match put_summary(done, kept, octets, sink) {
        Ok(()) => end,
        Err(PortFault::Failed) => Status::WriteFault,
        Err(PortFault::NoMemory) => Status::NoMemory,
    }
}

/// Makes the scenario of a number with its eight objects and runs it over ports in memory: the capture of the run goes into the trace, and
/// its summary into the sink. The summary has three lines: how many of the eight pushes are done, how many objects were stored, and how
/// many octets these have together.
///
/// `Ok` comes where every push is done, and `SomeFailed` where one is not. `WriteFault` comes where the sink or the trace failed. `NoMemory`
/// comes before anything is told, where a port found no memory, or where the air is crowded.
pub fn make<K: Sink, T: Sink>(alloc: Global, number: u32, sink: &mut K, trace: &mut T) -> Status
    ensures makes { Makes number (written K.Sink sink.old) (written K.Sink sink.new) (written T.Sink trace.old) (written T.Sink trace.new) result }
    ensures known { IsKnown result }
    ensures causes { HasCauses 0 0 (K.faults sink.old) (K.faults sink.new) (T.faults trace.old) (T.faults trace.new) result }
    ensures sink_short { IsAnswered (K.shortages sink.old) (K.shortages sink.new) (result ≡ Status.NoMemory) }
    ensures trace_short { IsAnswered (T.shortages trace.old) (T.shortages trace.new) (result ≡ Status.NoMemory) }
{
    let Ok(mut ports) = ports_for(alloc, number) else {
        return Status::NoMemory;
    };
    let end = push(
        alloc,
        &mut ports.source,
        &mut ports.report,
        trace,
        &mut ports.shelf,
        &mut ports.inbox,
    );
    match end {
        Status::Ok | Status::SomeFailed => tell(end, &ports, sink),
        _ => end,
    }
}
