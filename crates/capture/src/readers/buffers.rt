//! The packets that a controller holds of its host.

ghost use Rattle.std.specs.Prelude.{◌≡◌, ◌+◌, ◌≤◌, ◌<◌, ℕ, List, IfOk, fold, map, length, suc};
ghost use Rattle.hci_packets.specs.Events.{entries_of};
ghost use Rattle.acl_credits.specs.Histories.{Completed, outstanding_after};
ghost use Rattle.capture.specs.Buffers.{buffer_events, outstanding_on_link, outstanding, all_outstanding};
ghost use Rattle.capture.specs.Lent.{plain_entries, plain_move, plain_link};

use crate::entry::Entry;
use crate::flow::Flow;
use crate::readers::linking::{is_event, link_up};
use crate::readers::{Link, Move};
use bt_base::NoMemory;
use byteorder::{ByteOrder, LittleEndian};
use h4_framing::Unit;
use push_terms::Side;
use std::alloc::Global;

const COMPLETED_PACKETS: u8 = 0x13;

/// What is outstanding on a handle once entries of Number Of Completed Packets came for it.
fn given_back(waiting: usize, handle: u16, entries: &[u8]) -> usize
    ensures value { result ≡ fold (outstanding_after handle) waiting (map (λ entry. Completed entry.0 entry.1) (entries_of entries.now)) }
    ensures fewer { result ≤ waiting }
{
    let mut left = waiting;
    let mut rest = entries;
    while let [a, b, c, d, behind @ ..] = rest {
        let number = usize::from(LittleEndian::read_u16(&[*c, *d]));
        if LittleEndian::read_u16(&[*a, *b]) == handle && number <= left {
            left -= number;
        }
        rest = behind;
    }
    left
}

/// What is outstanding on a handle after one packet more.
fn after(waiting: usize, handle: u16, moved: &Move<'_>) -> usize
    requires { waiting + 1 ≤ usize.MAX }
    ensures value { result ≡ fold (outstanding_after handle) waiting (buffer_events (plain_move moved.now)) }
    ensures more { result ≤ waiting + 1 }
{
    match (moved.flow, moved.unit) {
        (Flow::Out, Unit::Acl { word, .. }) if word % 0x1000 == handle => waiting + 1,
        (Flow::Into, Unit::Event { code, params })
            if code == COMPLETED_PACKETS && is_event(code, params) => {
            given_back(waiting, handle, &params[1..])
        }
        _ => waiting,
    }
}

/// What is outstanding on a link.
fn on_link(link: &Link<'_>) -> usize
    ensures { result ≡ outstanding_on_link (plain_link link.now) }
{
    let mut waiting = 0;
    for moved in &link.moves {
        waiting = after(waiting, link.handle, moved);
    }
    waiting
}

/// How many packets of a host are outstanding on a handle at the end (Core 5.1, Volume 2 Part E,
/// 4.1.1).
pub fn outstanding(
    alloc: Global,
    entries: &[Entry<'_>],
    host: Side,
    handle: u16,
) -> Result<usize, NoMemory>
    ensures { IfOk result (λ packets. packets ≡ outstanding host (plain_entries entries.now) handle) }
{
    match link_up(alloc, entries, host)? {
        Some(link) if link.handle == handle => Ok(on_link(&link)),
        _ => Ok(0),
    }
}

/// How many packets of a host are outstanding at the end.
pub fn all_outstanding(alloc: Global, entries: &[Entry<'_>], host: Side) -> Result<usize, NoMemory>
    ensures { IfOk result (λ packets. packets ≡ all_outstanding host (plain_entries entries.now)) }
{
    match link_up(alloc, entries, host)? {
        Some(link) => Ok(on_link(&link)),
        None => Ok(0),
    }
}
