//! The ports in memory over which a made scenario is run.

ghost use Rattle.std.specs.Prelude.{IfOk};
ghost use Rattle.making.specs.MadePorts.{AreMade};

use crate::report::Report;
use crate::text_source::TextSource;
use bt_base::NoMemory;
use push_script::{make_scenario, put_scenario};
use ready_ports::{MemInbox, MemShelf};
use std::alloc::Global;

/// The ports in memory over which a scenario is run, but its trace.
#[derive(Drop)]
pub(crate) struct MemoryPorts {
    /// The text of the scenario.
    pub(crate) source: TextSource,
    /// What is reported of its run.
    pub(crate) report: Report,
    /// The objects that it pushes.
    pub(crate) shelf: MemShelf,
    /// The objects that are stored.
    pub(crate) inbox: MemInbox,
}

/// Makes the scenario of a number with its objects, and the ports over which it is run.
pub(crate) fn ports_for(alloc: Global, number: u32) -> Result<MemoryPorts, NoMemory>
    ensures { IfOk result (AreMade number) }
{
    let mut shelf = MemShelf::new(alloc, &[])?;
    let scenario = make_scenario(alloc, number, &mut shelf)?;
    let text = put_scenario(alloc, &scenario)?;
    let inbox = MemInbox::new(alloc, &[])?;
    Ok(MemoryPorts {
        source: TextSource::new(text),
        report: Report::new(alloc),
        shelf,
        inbox,
    })
}
