use btsnoop::*;
use codec_tests::tables::rows;
use std::alloc::Global;
use std::test::*;

/// A file of one record, the command Reset.
const RESET: [u8; 44] = [
    0x62, 0x74, 0x73, 0x6E, 0x6F, 0x6F, 0x70, 0x00, 0x00, 0x00, 0x00, 0x01, 0x00, 0x00, 0x03, 0xEA,
    0x00, 0x00, 0x00, 0x04, 0x00, 0x00, 0x00, 0x04, 0x00, 0x00, 0x00, 0x02, 0x00, 0x00, 0x00, 0x00,
    0x00, 0xE0, 0x3A, 0xB4, 0x4A, 0x67, 0x60, 0x00, 0x01, 0x03, 0x0C, 0x00,
];

/// A file as a phone writes it: packets were lost, flags have further bits, and of a packet of 300
/// octets five are kept, of one of 255 none.
const PHONE: [u8; 69] = [
    0x62, 0x74, 0x73, 0x6E, 0x6F, 0x6F, 0x70, 0x00, 0x00, 0x00, 0x00, 0x01, 0x00, 0x00, 0x03, 0xEA,
    0x00, 0x00, 0x01, 0x2C, 0x00, 0x00, 0x00, 0x05, 0x80, 0x00, 0x00, 0x11, 0x00, 0x00, 0x00, 0x07,
    0x00, 0xE2, 0x5B, 0x01, 0x02, 0x03, 0x04, 0x05, 0x02, 0x01, 0x20, 0x27, 0x01, 0x00, 0x00, 0x00,
    0xFF, 0x00, 0x00, 0x00, 0x00, 0x00, 0x00, 0x00, 0x03, 0x00, 0x00, 0x00, 0x08, 0x00, 0xE2, 0x5B,
    0x01, 0x02, 0x03, 0x04, 0x06,
];

/// Files that are no whole ones, and what their end is answered with.
const FAULTS: [(&[u8], SnoopRefusal, u64); 12] = [
    (&[], SnoopRefusal::Truncated, 0),
    (b"btsnoop", SnoopRefusal::Truncated, 0),
    (b"BTSnoop\0", SnoopRefusal::BadMagic, 0),
    (b"btsnoop\0\0\0\0\x02", SnoopRefusal::BadVersion, 8),
    (b"btsnoop\0\0\0\0\x01\0\0\x03", SnoopRefusal::Truncated, 0),
    (
        b"btsnoop\0\0\0\0\x01\0\0\x03\xE9",
        SnoopRefusal::BadLink,
        12,
    ),
    (
        b"btsnoop\0\0\0\0\x01\0\0\x03\xEB",
        SnoopRefusal::BadLink,
        12,
    ),
    (
        b"btsnoop\0\0\0\0\x01\0\0\x03\xEC",
        SnoopRefusal::BadLink,
        12,
    ),
    (
        b"btsnoop\0\0\0\0\x01\0\0\x03\xEA\0",
        SnoopRefusal::Truncated,
        16,
    ),
    (
        b"btsnoop\0\0\0\0\x01\0\0\x03\xEA\0\x01\0\x05\0\x01\0\x05",
        SnoopRefusal::BadLength,
        16,
    ),
    (
        b"btsnoop\0\0\0\0\x01\0\0\x03\xEA\0\0\0\x03\0\0\0\x04",
        SnoopRefusal::BadLength,
        16,
    ),
    (
        b"btsnoop\0\0\0\0\x01\0\0\x03\xEA\0\x01\0\x04\0\x01\0\x04",
        SnoopRefusal::Truncated,
        16,
    ),
];

/// What the end of a file means to a reader that is fed octet by octet.
fn end_at(reader: &mut Reader, file: &[u8]) -> Result<(), (SnoopRefusal, u64)> {
    for octet in file {
        let _taken = reader.take(&[*octet]);
    }
    reader.end()
}

/// Whether the end of a file means that to a new reader.
fn ends(alloc: Global, file: &[u8], end: Result<(), (SnoopRefusal, u64)>) -> bool {
    match Reader::new(alloc) {
        Ok(mut reader) => end_at(&mut reader, file) == end,
        Err(_) => false,
    }
}

/// Whether the answer is a record with these numbers and octets.
fn is_record(
    taken: &SnoopTaken<'_>,
    numbers: (u32, u32, u32, u64),
    octets: &[u8],
    used: usize,
) -> bool {
    match taken {
        SnoopTaken::Record(item, n) => {
            (item.original, item.flags, item.drops, item.time) == numbers
                && item.octets == octets
                && *n == used
        }
        _ => false,
    }
}

#[test]
fn refusals(rt: HostRuntime) {
    for (file, refusal, place) in rows(&FAULTS) {
        assert!(rt; ends(rt.alloc(), *file, Err((*refusal, *place))));
    }
    assert!(rt; ends(rt.alloc(), &RESET, Ok(())));
    assert!(rt; ends(rt.alloc(), &PHONE, Ok(())));
    assert!(rt; ends(rt.alloc(), &RESET[..43], Err((SnoopRefusal::Truncated, 16))));
    assert!(rt; ends(rt.alloc(), &PHONE[..68], Err((SnoopRefusal::Truncated, 45))));
}

/// The numbers of both records of the phone.
const CUT: (u32, u32, u32, u64) = (300, 0x8000_0011, 7, 0x00E2_5B01_0203_0405);

const EMPTY: (u32, u32, u32, u64) = (255, 3, 8, 0x00E2_5B01_0203_0406);

/// Whether a reader finds both.
fn reads_phone(reader: &mut Reader) -> bool {
    matches!(reader.take(&PHONE), SnoopTaken::Header(16))
        && is_record(&reader.take(&PHONE[16..]), CUT, &[2, 1, 0x20, 0x27, 1], 29)
        && reader.place() == 45
        && matches!(reader.take(&PHONE[45..60]), SnoopTaken::More)
        && is_record(&reader.take(&PHONE[60..]), EMPTY, &[], 9)
        && reader.place() == 69
}

#[test]
fn records_of_a_phone(rt: HostRuntime) -> Result<(), Fail> {
    let mut reader = Reader::new(rt.alloc())?;
    assert!(rt; reads_phone(&mut reader));
    Ok(())
}

#[test]
#[tactic(auto, using(btsnoop::proofs::Items::header_size))]
fn written_header(rt: HostRuntime) {
    let mut into = [7u8; 17];
    assert!(rt; put_header(&mut into) == 16);
    assert!(rt;
        into.as_slice()
            == [
                0x62u8, 0x74, 0x73, 0x6E, 0x6F, 0x6F, 0x70, 0, 0, 0, 0, 1, 0, 0, 0x03, 0xEA, 7,
            ]
            .as_slice()
    );
}

#[test]
#[tactic(auto, using(btsnoop::proofs::Items::record_size))]
fn written_record(rt: HostRuntime) {
    let reset = Record {
        original: 4,
        flags: 2,
        drops: 0,
        time: 0x00E0_3AB4_4A67_6000,
        octets: &[1, 3, 0x0C, 0],
    };
    let mut into = [7u8; 29];
    assert!(rt; put_record(&reset, &mut into) == 28);
    assert!(rt;
        into.as_slice()
            == [
                0u8, 0, 0, 4, 0, 0, 0, 4, 0, 0, 0, 2, 0, 0, 0, 0, 0, 0xE0, 0x3A, 0xB4, 0x4A, 0x67,
                0x60, 0, 1, 3, 0x0C, 0, 7,
            ]
            .as_slice()
    );
}
