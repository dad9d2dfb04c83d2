//! A report that is kept in memory.

ghost use Rattle.std.specs.Prelude.{◌≡◌, [], Some};

use bt_base::{PortFault, Sink};
use std::alloc::Global;

/// A sink that keeps a report in memory, and tells it. It never fails; where it finds no memory it keeps what it has.
#[derive(Drop)]
pub(crate) struct Report {
    pub(crate) text: Vec<u8>,
    pub(crate) shortages: u64,
}

impl Report {
    /// An empty report.
    pub(crate) fn new(alloc: Global) -> Report
        ensures text { result.text.items ≡ [] }
        ensures shortages { result.shortages ≡ 0 }
    {
        Report {
            text: Vec::new(alloc),
            shortages: 0,
        }
    }
}

impl Sink for Report {
    ghost content = { λ report. Some report.text.items };

    ghost faults = { λ report. 0 };

    ghost shortages = { λ report. report.shortages };

    fn put(&mut self, piece: &[u8]) -> Result<(), PortFault> {
        if self.text.extend_from_slice(piece).is_err() {
            self.shortages = self.shortages.saturating_add(1);
            return Err(PortFault::NoMemory);
        }
        Ok(())
    }
}
