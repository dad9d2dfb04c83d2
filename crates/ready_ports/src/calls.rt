//! The calls of a port over memory: which are to fail, and what they counted.

ghost use Rattle.std.specs.Prelude.{◌≡◌, ◌==◌, ℕ, List, IfOk, if◌then◌else◌, Ok, Err};
ghost use Rattle.std.specs.List.{list_any};
ghost use Rattle.bt_base.specs.Counts.{HasCause};
ghost use Rattle.ready_ports.specs.Memory.{Calls, no_calls, is_next_failing, called, failed, short};
ghost use Rattle.bt_base.specs.declared.ports.PortFault.TheVariants.{Failed};

use bt_base::{NoMemory, PortFault};
use std::alloc::Global;
use std::marker::Model;

/// Counts the calls of a port and makes those fail that are to.
#[derive(Drop)]
pub(crate) struct CallPlan {
    failing: Vec<u32>,
    made: u64,
    faults: u64,
    shortages: u64,
}

impl Model for CallPlan {
    ghost Value = { Calls };

    ghost view = { λ plan. record { failing = plan.failing.items; made = plan.made; faults = plan.faults; shortages = plan.shortages } };
}

fn has_number(numbers: &[u32], number: u64) -> bool
    ensures { result ≡ list_any (λ n. n == number) numbers.now }
{
    numbers.iter().any(|n| u64::from(*n) == number)
}

impl CallPlan {
    pub(crate) fn new(alloc: Global, failing: &[u32]) -> Result<CallPlan, NoMemory>
        ensures { IfOk result (λ plan. plan ≡ no_calls failing.now) }
    {
        Ok(CallPlan {
            failing: Vec::from_slice(alloc, failing)?,
            made: 0,
            faults: 0,
            shortages: 0,
        })
    }

    /// Counts a call, and fails it where it is to fail.
    pub(crate) fn call(&mut self) -> Result<(), PortFault>
        ensures counts { self.new ≡ called self.old }
        ensures answers { result ≡ (if is_next_failing self.old then Err Failed else Ok tt) }
        ensures cause { HasCause self.old.faults self.new.faults self.old.shortages self.new.shortages result }
    {
        self.made = self.made.saturating_add(1);
        if has_number(&self.failing, self.made) {
            self.faults = self.faults.saturating_add(1);
            return Err(PortFault::Failed);
        }
        Ok(())
    }

    /// Counts a fault, and answers it.
    pub(crate) fn fail(&mut self) -> PortFault
        ensures counts { self.new ≡ failed self.old }
        ensures answers { result ≡ Failed }
    {
        self.faults = self.faults.saturating_add(1);
        PortFault::Failed
    }

    /// Counts a shortage, and answers it.
    pub(crate) fn fall_short(&mut self) -> PortFault
        ensures counts { self.new ≡ short self.old }
        ensures answers { result ≡ PortFault.NoMemory }
    {
        self.shortages = self.shortages.saturating_add(1);
        PortFault::NoMemory
    }
}
