//! Entries of the capture, written as they happen.

ghost use Rattle.std.specs.Prelude.{◌≡◌, ◌≤◌, length, OnOk};
ghost use Rattle.bt_base.specs.Streams.{gained, GainedFront};
ghost use Rattle.capture.specs.Entries.{IsEntry, entry_octets};
ghost use Rattle.capture.specs.Lent.{plain_entry};
ghost use Rattle.radio_world.specs.Causes.{Blames};
ghost use Rattle.radio_world.specs.Shortages.{LacksByTrace};

use crate::fault::WorldFault;
use bt_base::{PortFault, Sink};
use capture::{Entry, put_entry};

/// The longest entry: an ACL packet of 1,021 octets with its header, behind a tag and a length.
const LONGEST_ENTRY: usize = 1029;

/// Writes an entry to the trace. It needs one of at most 1,029 octets.
pub(crate) fn record<T: Sink>(entry: &Entry<'_>, trace: &mut T) -> Result<(), WorldFault>
    requires entry { IsEntry (plain_entry entry.now) }
    requires short { length (entry_octets (plain_entry entry.now)) ≤ LONGEST_ENTRY }
    ensures entry { IsEntry (plain_entry entry.now) }
    ensures ok { OnOk result (T.content trace.new ≡ gained (T.content trace.old) (entry_octets (plain_entry entry.now))) }
    ensures front { GainedFront (T.content trace.old) (T.content trace.new) (entry_octets (plain_entry entry.now)) }
    ensures blames { Blames (T.faults trace.old) (T.faults trace.new) result }
    ensures lacks { LacksByTrace (T.shortages trace.old) (T.shortages trace.new) result }
{
    let mut room = [0; LONGEST_ENTRY];
    let n = put_entry(entry, &mut room);
    match trace.put(&room[..n]) {
        Ok(()) => Ok(()),
        Err(PortFault::Failed) => Err(WorldFault::TraceFault),
        Err(PortFault::NoMemory) => Err(WorldFault::NoMemory),
    }
}
