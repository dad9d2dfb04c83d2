//! What a port over the real system counts of its own faults.

ghost use Rattle.std.specs.Prelude.{◌≡◌, Err};
ghost use Rattle.bt_base.specs.Counts.{HasCause};

use bt_base::PortFault;

/// How often a port has failed, and how often it has found no memory.
#[derive(Drop)]
pub(crate) struct FaultCounts {
    pub(crate) faults: u64,
    pub(crate) shortages: u64,
}

impl FaultCounts {
    /// The counts of a port that was not called yet.
    pub(crate) fn new() -> FaultCounts
        ensures faults { result.faults ≡ 0 }
        ensures shortages { result.shortages ≡ 0 }
    {
        FaultCounts {
            faults: 0,
            shortages: 0,
        }
    }

    /// Counts the fault, and answers it.
    pub(crate) fn fail<T>(&mut self, fault: PortFault) -> Result<T, PortFault>
        ensures answers { result ≡ Err fault }
        ensures cause { HasCause self.old.faults self.new.faults self.old.shortages self.new.shortages result }
    {
        match fault {
            PortFault::Failed => self.faults = self.faults.saturating_add(1),
            PortFault::NoMemory => self.shortages = self.shortages.saturating_add(1),
        }
        Err(fault)
    }
}
