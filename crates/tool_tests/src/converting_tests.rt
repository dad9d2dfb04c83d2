use btsnoop::*;
use codec_tests::tables::rows;
use push_terms::Side;
use ready_ports::{MemSink, MemSource};
use std::alloc::Global;

/// A capture of both hosts, with entries that are no packets and say nothing that they should.
const CAPTURE: &[u8] =
    b"\x01\x00\x04\x01\x03\x0C\x00\x05\x00\x02\x00\x00\x02\x00\x07\x04\x0E\x04\x01\x03\x0C\x00\x03\x00\x06\x02\x01\x20\x01\x00\x55\x02\x00\x06\x02\x01\x20\x01\x00\x55\x01\x00\x05\x03\x01\x00\x01\x66\x07\x00\x00";

/// The file of each host.
const FILES: [(Side, &[u8]); 2] = [
    (
        Side::A,
        b"\x62\x74\x73\x6E\x6F\x6F\x70\x00\x00\x00\x00\x01\x00\x00\x03\xEA\
          \x00\x00\x00\x04\x00\x00\x00\x04\x00\x00\x00\x02\x00\x00\x00\x00\x00\xE0\x3A\xB4\x4A\x67\x60\x00\x01\x03\x0C\x00\
          \x00\x00\x00\x07\x00\x00\x00\x07\x00\x00\x00\x03\x00\x00\x00\x00\x00\xE0\x3A\xB4\x4A\x67\x60\x01\x04\x0E\x04\x01\x03\x0C\x00\
          \x00\x00\x00\x06\x00\x00\x00\x06\x00\x00\x00\x01\x00\x00\x00\x00\x00\xE0\x3A\xB4\x4A\x67\x60\x02\x02\x01\x20\x01\x00\x55\
          \x00\x00\x00\x05\x00\x00\x00\x05\x00\x00\x00\x00\x00\x00\x00\x00\x00\xE0\x3A\xB4\x4A\x67\x60\x03\x03\x01\x00\x01\x66",
    ),
    (
        Side::B,
        b"\x62\x74\x73\x6E\x6F\x6F\x70\x00\x00\x00\x00\x01\x00\x00\x03\xEA\x00\x00\x00\x06\x00\x00\x00\x06\x00\x00\x00\x00\x00\x00\x00\x00\x00\xE0\x3A\xB4\x4A\x67\x60\x00\x02\x01\x20\x01\x00\x55",
    ),
];

/// Inputs that are no captures, and the first fault of each.
const FAULTS: [(&[u8], SnoopFault); 7] = [
    (
        b"\x09\x00\x00",
        SnoopFault::Refused(SnoopRefusal::BadTag, 0),
    ),
    (
        b"\x06\x00\x00\x00",
        SnoopFault::Refused(SnoopRefusal::BadTag, 3),
    ),
    (
        b"\x06\x00\x00\x06\x00\x02\x00",
        SnoopFault::Refused(SnoopRefusal::Truncated, 3),
    ),
    (b"\x01\xFF", SnoopFault::Refused(SnoopRefusal::Truncated, 0)),
    (
        b"\x01\x00\x03\x01\x03\x0C",
        SnoopFault::Refused(SnoopRefusal::BadRecord, 0),
    ),
    (
        b"\x04\x00\x05\x01\x03\x0C\x00\x00",
        SnoopFault::Refused(SnoopRefusal::BadRecord, 0),
    ),
    (
        b"\x03\x00\x00",
        SnoopFault::Refused(SnoopRefusal::BadRecord, 0),
    ),
];

/// What a capture that is read in pieces of so many octets, one at least, comes to. Nothing where memory runs out.
fn converted(
    alloc: Global,
    side: Side,
    capture: &[u8],
    step: usize,
    sink: &mut MemSink,
) -> Option<Result<(), SnoopFault>> {
    match MemSource::new(alloc, capture, step.max(1), &[]) {
        Ok(mut source) => Some(convert(alloc, side, &mut source, sink)),
        Err(_) => None,
    }
}

/// Whether a capture that is read in pieces of so many octets becomes that file.
fn becomes(alloc: Global, side: Side, file: &[u8], step: usize) -> bool {
    match MemSink::new(alloc, &[]) {
        Ok(mut sink) => {
            converted(alloc, side, CAPTURE, step, &mut sink) == Some(Ok(()))
                && sink.octets() == file
        }
        Err(_) => false,
    }
}

/// Whether that is the first fault of an input.
fn is_fault(alloc: Global, input: &[u8], fault: SnoopFault) -> bool {
    match MemSink::new(alloc, &[]) {
        Ok(mut sink) => converted(alloc, Side::A, input, 2, &mut sink) == Some(Err(fault)),
        Err(_) => false,
    }
}

#[test]
fn files_of_both_hosts(rt: HostRuntime) {
    for (side, file) in rows(&FILES) {
        assert!(rt; becomes(rt.alloc(), *side, *file, 65_536));
        assert!(rt; becomes(rt.alloc(), *side, *file, 1));
    }
}

#[test]
fn first_faults(rt: HostRuntime) {
    for (capture, fault) in rows(&FAULTS) {
        assert!(rt; is_fault(rt.alloc(), *capture, *fault));
    }
}
