//! A sink over memory.

ghost use Rattle.std.specs.Prelude.{◌≡◌, ◌↔◌, [], Some, IfOk, IsErrOf, IsTrue};
ghost use Rattle.bt_base.specs.Counts.{HasCause};
ghost use Rattle.bt_base.specs.Streams.{IsPut};
ghost use Rattle.ready_ports.specs.Memory.{MemoryWritten, no_calls, is_next_failing};
ghost use Rattle.bt_base.specs.declared.ports.PortFault.TheVariants.{Failed};

use crate::calls::CallPlan;
use bt_base::{NoMemory, PortFault, Sink};
use std::alloc::Global;
use std::marker::Model;

/// A sink that keeps what is written in memory, and tells its content.
#[derive(Drop)]
pub struct MemSink {
    octets: Vec<u8>,
    calls: CallPlan,
}

impl Model for MemSink {
    ghost Value = { MemoryWritten };

    ghost view = { λ sink. record { written = sink.octets.items; calls = sink.calls } };
}

impl MemSink {
    /// An empty sink. The calls whose numbers, from 1, are in `failing` answer `Failed` and write
    /// nothing.
    pub fn new(alloc: Global, failing: &[u32]) -> Result<MemSink, NoMemory>
        ensures { IfOk result (λ sink. sink ≡ record { written = []; calls = no_calls failing.now }) }
    {
        Ok(MemSink {
            octets: Vec::new(alloc),
            calls: CallPlan::new(alloc, failing)?,
        })
    }

    /// What was written.
    pub fn octets(&self) -> &[u8]
        ensures { result.now ≡ self.now.written }
    {
        &self.octets
    }
}

impl Sink for MemSink {
    ghost content = { λ sink. Some sink.written };

    ghost faults = { λ sink. sink.calls.faults };

    ghost shortages = { λ sink. sink.calls.shortages };

    fn put(&mut self, piece: &[u8]) -> Result<(), PortFault>
        ensures put { IsPut (Some self.old.written) (Some self.new.written) piece.now result }
        ensures cause { HasCause self.old.calls.faults self.new.calls.faults self.old.calls.shortages self.new.calls.shortages result }
        ensures exactly { IsErrOf result Failed ↔ IsTrue (is_next_failing self.old.calls) }
    {
        self.calls.call()?;
        if self.octets.extend_from_slice(piece).is_err() {
            return Err(self.calls.fall_short());
        }
        Ok(())
    }
}
