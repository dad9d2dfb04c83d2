//! A source over memory.

ghost use Rattle.std.specs.Prelude.{◌≡◌, ◌≤◌, Some, length, drop, vec_len, IfOk};
ghost use Rattle.bt_base.specs.Counts.{HasCause};
ghost use Rattle.bt_base.specs.Streams.{IsRead};
ghost use Rattle.ready_ports.specs.Memory.{MemoryToRead, no_calls, read_answer};

use crate::calls::CallPlan;
use bt_base::{NoMemory, PortFault, Source};
use std::alloc::Global;
use std::marker::Model;

/// A source over octets in memory, which tells its content.
#[derive(Drop)]
pub struct MemSource {
    octets: Vec<u8>,
    at: usize,
    step: usize,
    calls: CallPlan,
}

impl Model for MemSource {
    ghost Value = { MemoryToRead };

    ghost view = { λ source. record { left = drop source.at source.octets.items; step = source.step; calls = source.calls } };

    ghost invariant = { λ source. (1 ≤ source.step) × (source.at ≤ vec_len source.octets) };
}

impl MemSource {
    /// A source of these octets that hands out at most `step` of them in a call. The calls whose
    /// numbers, from 1, are in `failing` answer `Failed`.
    pub fn new(
        alloc: Global,
        octets: &[u8],
        step: usize,
        failing: &[u32],
    ) -> Result<MemSource, NoMemory>
        requires { 1 ≤ step }
        ensures { IfOk result (λ source. source ≡ record { left = octets.now; step = step; calls = no_calls failing.now }) }
    {
        Ok(MemSource {
            octets: Vec::from_slice(alloc, octets)?,
            at: 0,
            step,
            calls: CallPlan::new(alloc, failing)?,
        })
    }
}

impl Source for MemSource {
    ghost content = { λ source. Some source.left };

    ghost faults = { λ source. source.calls.faults };

    ghost shortages = { λ source. source.calls.shortages };

    fn read(&mut self, into: &mut [u8]) -> Result<usize, PortFault>
        ensures read { IsRead (Some self.old.left) (Some self.new.left) into.old into.new result }
        ensures cause { HasCause self.old.calls.faults self.new.calls.faults self.old.calls.shortages self.new.calls.shortages result }
        ensures exactly { result ≡ read_answer self.old (length into.old) }
    {
        self.calls.call()?;
        let left = &self.octets[self.at..];
        let n = into.len().min(self.step).min(left.len());
        into[..n].copy_from_slice(&left[..n]);
        self.at += n;
        Ok(n)
    }
}
