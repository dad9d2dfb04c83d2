use crate::capture_samples::{OPENING, PUSH, START};
use bt_base::NoMemory;
use capture::readers::*;
use capture::{Entry, entries_of};
use codec_tests::tables::rows;
use push_script::Side;
use std::alloc::Global;

/// Adds the octets of entries, each given by its tag and its payload.
fn push_entries(octets: &mut Vec<u8>, entries: &[(u8, &[u8])]) -> Result<(), NoMemory> {
    for (tag, payload) in entries {
        let length = u16::try_from(payload.len()).unwrap_or(0);
        octets.push(*tag)?;
        octets.extend_from_slice(&length.to_be_bytes())?;
        octets.extend_from_slice(*payload)?;
    }
    Ok(())
}

/// The octets of a capture: the start of both hosts, the opening of a channel, and what follows.
pub(crate) fn octets_of(alloc: Global, follows: &[(u8, &[u8])]) -> Result<Vec<u8>, NoMemory> {
    let mut octets = Vec::new(alloc);
    push_entries(&mut octets, START)?;
    push_entries(&mut octets, OPENING)?;
    push_entries(&mut octets, follows)?;
    Ok(octets)
}

/// How many packets both hosts have outstanding after so many entries behind the start.
const OUTSTANDING: [(usize, usize, usize); 5] = [
    (0, 0, 0),
    (1, 1, 0),
    (2, 0, 0),
    (14, 0, 2),
    (15, 0, 0),
];

/// Whether so many packets of each host are outstanding at the end of these entries.
fn are_outstanding(alloc: Global, front: &[Entry<'_>], a: usize, b: usize) -> bool {
    all_outstanding(alloc, front, Side::A) == Ok(a)
        && outstanding(alloc, front, Side::B, 1) == Ok(b)
}

/// Whether the rows say how many are outstanding in the course of a push.
fn outstand_in_turn(alloc: Global, entries: &[Entry<'_>]) -> bool {
    for (count, a, b) in rows(&OUTSTANDING) {
        let right = match entries.get(..START.len().saturating_add(*count)) {
            Some(front) => are_outstanding(alloc, front, *a, *b),
            None => false,
        };
        if !right {
            return false;
        }
    }
    true
}

/// Whether so many packets moved at host a, whose link was given up.
fn has_moves(alloc: Global, entries: &[Entry<'_>], count: usize) -> bool {
    let is_right = match moves(alloc, entries, Side::A) {
        Ok(moved) => moved.len() == count,
        Err(_) => false,
    };
    is_right && matches!(link_up(alloc, entries, Side::A), Ok(None))
}

/// Whether so many PDUs came on a link.
fn has_pdus(alloc: Global, link: &Link<'_>, count: usize) -> bool {
    match pdus(alloc, link) {
        Ok(heard) => heard.len() == count,
        Err(_) => false,
    }
}

/// Whether host b had one link, on which so many PDUs came.
fn has_link(alloc: Global, entries: &[Entry<'_>], count: usize) -> bool {
    match links(alloc, entries, Side::B) {
        Ok(found) => match found.as_slice() {
            [link] => has_pdus(alloc, link, count),
            _ => false,
        },
        Err(_) => false,
    }
}

/// Whether a push is read off its capture.
fn is_read(alloc: Global, octets: &[u8]) -> bool {
    match entries_of(alloc, octets) {
        Ok(entries) => {
            outstand_in_turn(alloc, &entries)
                && has_moves(alloc, &entries, 33)
                && has_link(alloc, &entries, 14)
        }
        Err(_) => false,
    }
}

#[test]
fn links_packets_and_pdus_of_a_push(rt: HostRuntime) {
    let is_right = match octets_of(rt.alloc(), PUSH) {
        Ok(octets) => is_read(rt.alloc(), &octets),
        Err(_) => false,
    };
    assert!(rt; is_right);
}
