use codec_tests::tables::rows;
use std::alloc::Global;
use tagged_entries::{FirstRecord, first_record};

/// Octets and what stands at their front, as text.
const FRONTS: [(&[u8], &str); 8] = [
    (b"", "Cut(3)"),
    (b"\x07", "Cut(3)"),
    (b"\x01\x02", "Cut(515)"),
    (b"\x01\x00\x02\xFF", "Cut(5)"),
    (b"\x06\x00\x01\x09\x0A", "Whole { tag: 6, payload: [9] }"),
    (b"\x05\x00\x00", "Whole { tag: 5, payload: [] }"),
    (b"\x00\x00", "BadTag"),
    (b"\x08", "BadTag"),
];

/// Whether what stands at the front of octets is told so.
fn is_told(alloc: Global, octets: &[u8], front: &str) -> bool {
    match format!(in alloc; "{:?}", first_record(octets)) {
        Ok(told) => told.as_str() == front,
        Err(_) => false,
    }
}

#[test]
fn fronts_are_told(rt: HostRuntime) {
    for (octets, front) in rows(&FRONTS) {
        assert!(rt; is_told(rt.alloc(), *octets, *front));
    }
}
