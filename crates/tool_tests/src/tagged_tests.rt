use crate::capture_reader_tests::octets_of;
use crate::capture_samples::{CUT_OFF, NAMELESS, PUSH, REFUSED, TWO_CHANNELS};
use crate::showing::{View, is_shown, is_written_of, parts_are_shown, shows};
use codec_tests::tables::rows;
use ready_ports::MemSink;
use std::alloc::Global;

/// Entries of a capture and the lines of each: pieces of one handle at two hosts and in two directions,
/// a channel that both directions of host a tell, words, and the begin and end of a push.
const CAPTURE: [(&[u8], &str); 9] = [
    (b"\x06\x00\x02\x00\x01", "0 begin 1\n"),
    (b"\x01\x00\x04\x01\x03\x0C\x00", "5 a> cmd 0C03 Reset -\n"),
    (
        b"\x01\x00\x11\x02\x01\x00\x0C\x00\x08\x00\x01\x00\x02\x01\x04\x00\x01\x00\x40\x00",
        "12 a> acl 0001 12\n  pdu 0001 8\n  sig 02 01 ConnectionRequest 01004000\n",
    ),
    (
        b"\x01\x00\x09\x02\x01\x00\x04\x00\x08\x00\x50\x00",
        "32 a> acl 0001 4\n",
    ),
    (
        b"\x02\x00\x15\x02\x01\x20\x10\x00\x0C\x00\x01\x00\x03\x01\x08\x00\x41\x00\x40\x00\x00\x00\x00\x00",
        "44 a< acl 2001 16\n  pdu 0001 12\n  sig 03 01 ConnectionResponse 4100400000000000\n",
    ),
    (
        b"\x02\x00\x0D\x02\x01\x20\x08\x00\x04\x00\x40\x00\x07\x00\x01\x00",
        "68 a< acl 2001 8\n  pdu 0040 4\n  sdp bad\n",
    ),
    (
        b"\x04\x00\x0A\x02\x01\x10\x05\x00\x01\x00\x40\x00\xAA",
        "84 b< acl 1001 5\n  drop StrayContinuation\n",
    ),
    (
        b"\x05\x00\x0F\x00\x00\x00\x00\x00\x00\x00\x07lose ab",
        "97 word 7 lose ab\n",
    ),
    (b"\x07\x00\x06\x00\x01done", "115 end 1 done\n"),
];

/// Inputs that are no captures, and what is written of each.
const FAULTS: [(&[u8], &str); 6] = [
    (b"\x09\x00\x00", "refused offset 0 BadTag\n"),
    (
        b"\x06\x00\x02\x00\x01\x00",
        "0 begin 1\nrefused offset 5 BadTag\n",
    ),
    (b"\x06\x00\x02\x00", "refused offset 0 Truncated\n"),
    (b"\x05\x00\x03\x00\x00\x00", "refused offset 0 BadRecord\n"),
    (
        b"\x05\x00\x0C\x00\x00\x00\x00\x00\x00\x00\x00pass",
        "refused offset 0 BadRecord\n",
    ),
    (
        b"\x01\x00\x05\x01\x03\x0C\x00\x00",
        "refused offset 0 BadRecord\n",
    ),
];

#[test]
fn captures_are_shown(rt: HostRuntime) {
    assert!(rt; parts_are_shown(rt.alloc(), View::Tagged, rows(&CAPTURE)));
}

#[test]
fn first_faults_of_captures(rt: HostRuntime) {
    for (octets, text) in rows(&FAULTS) {
        assert!(rt; is_shown(rt.alloc(), View::Tagged, *octets, text.as_bytes()));
    }
}

/// Captures, and the lines of the objects that host b heard in each.
const PUSHES: [(&[(u8, &[u8])], &str); 5] = [
    (PUSH, "object 0061 2\n"),
    (CUT_OFF, ""),
    (TWO_CHANNELS, "object 0061 2\nobject 0062 0\n"),
    (REFUSED, ""),
    (NAMELESS, ""),
];

/// Whether the view of a capture is that of its entries, and these lines behind it, in whatever pieces it is read.
fn ends_with(alloc: Global, octets: &[u8], lines: &[u8], entries: &[u8]) -> bool {
    shows(alloc, View::Tagged, octets, 65_536, entries, lines)
        && shows(alloc, View::Tagged, octets, 1, entries, lines)
}

/// Whether the view of the entries alone ends so, and that of the capture is the same with these lines behind it.
pub(crate) fn has_objects(alloc: Global, octets: &[u8], end: &[u8], lines: &[u8]) -> bool {
    match MemSink::new(alloc, &[]) {
        Ok(mut sink) => {
            is_written_of(alloc, View::Entries, octets, 65_536, &mut sink)
                && sink.octets().ends_with(end)
                && ends_with(alloc, octets, lines, sink.octets())
        }
        Err(_) => false,
    }
}

/// The same of a capture that goes on so behind its opening.
fn push_has_objects(alloc: Global, follows: &[(u8, &[u8])], lines: &[u8]) -> bool {
    match octets_of(alloc, follows) {
        Ok(octets) => has_objects(alloc, &octets, b"\n", lines),
        Err(_) => false,
    }
}

#[test]
fn objects_stand_behind_the_entries(rt: HostRuntime) {
    for (follows, lines) in rows(&PUSHES) {
        assert!(rt; push_has_objects(rt.alloc(), *follows, lines.as_bytes()));
    }
}

/// Whether a capture behind whose push stands no entry has no objects.
fn has_none_where_cut(alloc: Global) -> bool {
    match octets_of(alloc, PUSH) {
        Ok(mut octets) => {
            octets.push(0x09).is_ok() && has_objects(alloc, &octets, b" BadTag\n", b"")
        }
        Err(_) => false,
    }
}

#[test]
fn cut_captures_have_no_objects(rt: HostRuntime) {
    assert!(rt; has_none_where_cut(rt.alloc()));
}
