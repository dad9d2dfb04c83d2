//! A whole capture from its octets.

ghost use Rattle.std.specs.Prelude.{MatchResult};
ghost use Rattle.capture.specs.Entries.{IsCapture};
ghost use Rattle.capture.specs.Lent.{plain_entries};
ghost use Rattle.capture.specs.CaptureReading.{IsFault};

use crate::entry::Entry;
use crate::entry_refusal::CaptureFault;
use crate::reading::entry_of;
use std::alloc::Global;

/// The entries of a capture, in their order.
///
/// `Refused` tells the first place where octets are left and no entry stands, and why: it is what
/// `entry_of` answers there. `NoMemory` is answered for want of memory alone.
pub fn entries_of<'a>(alloc: Global, octets: &'a [u8]) -> Result<Vec<Entry<'a>>, CaptureFault>
    ensures { MatchResult result
        (λ entries. IsCapture octets.now (plain_entries entries.items))
        (λ fault. IsFault octets.now fault) }
{
    let mut entries = Vec::new(alloc);
    let mut rest = octets;
    while !rest.is_empty() {
        let (entry, used) = match entry_of(rest) {
            Ok(found) => found,
            Err(refusal) => {
                return Err(CaptureFault::Refused(refusal, octets.len() - rest.len()));
            }
        };
        if entries.push(entry).is_err() {
            return Err(CaptureFault::NoMemory);
        }
        rest = &rest[used..];
    }
    Ok(entries)
}
