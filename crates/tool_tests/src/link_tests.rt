//! Captures of one link of host b: what it heard there, and the objects that the view of its capture ends with.

use crate::enhanced_samples::{DAMAGED, DUPLICATE, ENHANCED, MISSING, SEGMENTS};
use crate::link_samples::{
    BASIC, CUT_OFF, IN_PARTS, LEFT, NOT_ANSWERED, OLD_ANSWER, PAST_END, REPEATED, Said, UNOPENED,
};
use crate::mixed_samples::{ENHANCED_CUT, LOST_COPY, RFCOMM_CUT, TWO_TRANSPORTS};
use crate::rfcomm_samples::{RFCOMM, RFCOMM_CLOSED, RFCOMM_UNOPENED};
use crate::tagged_tests::has_objects;
use bt_base::NoMemory;
use capture::Flow;
use codec_tests::tables::rows;
use std::alloc::Global;

/// A link of host b comes up with handle 1.
const COMES: &[u8] =
    b"\x03\x00\x0B\x01\x09\x04\x07\x0A\x00\x00\x00\x00\x00\x01\x04\x00\x0E\x04\x03\x0B\x00\x01\x00\x0A\x00\x00\x00\x00\x00\x01\x00";

/// It ends.
const ENDS: &[u8] = b"\x04\x00\x07\x04\x05\x04\x00\x01\x00\x13";

/// What moved on the link, and the lines of the objects that host b heard.
const CAPTURES: [(Said, &str); 21] = [
    (BASIC, "object 0061 2\n"),
    (CUT_OFF, ""),
    (PAST_END, "object 0062 2\n"),
    (REPEATED, "object 0061 2\n"),
    (OLD_ANSWER, ""),
    (NOT_ANSWERED, "object 0061 2\n"),
    (LEFT, ""),
    (UNOPENED, ""),
    (ENHANCED, "object 0061 2\n"),
    (SEGMENTS, "object 0061 2\n"),
    (DUPLICATE, "object 0061 2\n"),
    (DAMAGED, "object 0061 2\n"),
    (MISSING, ""),
    (IN_PARTS, "object 0061 2\n"),
    (RFCOMM, "object 0061 2\n"),
    (RFCOMM_CLOSED, ""),
    (RFCOMM_UNOPENED, ""),
    (TWO_TRANSPORTS, "object 0061 2\nobject 0062 2\n"),
    (LOST_COPY, "object 0061 2\n"),
    (ENHANCED_CUT, ""),
    (RFCOMM_CUT, ""),
];

/// Adds the entry of a PDU in one packet of the link.
fn push_said(octets: &mut Vec<u8>, flow: Flow, pdu: &[u8]) -> Result<(), NoMemory> {
    let size = u16::try_from(pdu.len()).unwrap_or(0);
    let (tag, boundary) = match flow {
        Flow::Out => (0x03, 0x00),
        Flow::Into => (0x04, 0x20),
    };
    octets.push(tag)?;
    octets.extend_from_slice(&size.saturating_add(5).to_be_bytes())?;
    octets.extend_from_slice(&[0x02, 0x01, boundary])?;
    octets.extend_from_slice(&size.to_le_bytes())?;
    octets.extend_from_slice(pdu)?;
    Ok(())
}

/// The capture of a link on which this moved.
fn capture_of(alloc: Global, said: Said) -> Result<Vec<u8>, NoMemory> {
    let mut octets = Vec::from_slice(alloc, COMES)?;
    for (flow, pdu) in said {
        push_said(&mut octets, *flow, *pdu)?;
    }
    octets.extend_from_slice(ENDS)?;
    Ok(octets)
}

/// Whether the view of the capture of a link ends with these lines.
fn link_has_objects(alloc: Global, said: Said, lines: &[u8]) -> bool {
    match capture_of(alloc, said) {
        Ok(octets) => has_objects(alloc, &octets, b"\n", lines),
        Err(_) => false,
    }
}

#[test]
fn objects_are_those_that_the_packets_spell(rt: HostRuntime) {
    for (said, lines) in rows(&CAPTURES) {
        assert!(rt; link_has_objects(rt.alloc(), *said, lines.as_bytes()));
    }
}
