ghost use Rattle.std.specs.Prelude.{◌≡◌, ◌≤◌, length};
ghost use Rattle.capture.specs.declared.entry.Entry.TheVariants.{Moved};
ghost use Rattle.capture.specs.Entries.{IsEntry, entry_octets};
ghost use Rattle.capture.specs.Lent.{plain_entry};

use capture::*;
use codec_tests::tables::rows;
use h4_framing::Unit;
use push_script::{Outcome, Side, Way, Word};
use std::alloc::Global;

/// The command Reset out of host a.
const RESET: [u8; 7] = [0x01, 0x00, 0x04, 0x01, 0x03, 0x0C, 0x00];

/// Whether an entry is written as these octets, and read of them, with others behind them, as one
/// that is written so.
fn is_spelled(entry: &Entry<'_>, octets: &[u8]) -> bool
    requires entry { IsEntry (plain_entry entry.now) }
    requires room { length (entry_octets (plain_entry entry.now)) ≤ 32 }
{
    let mut written = [0xFF; 32];
    let count = put_entry(entry, &mut written);
    if &written[..count] != octets {
        return false;
    }
    let (read, used) = match entry_of(&written) {
        Ok(found) => found,
        Err(_) => return false,
    };
    if used != count {
        return false;
    }
    let mut again = [0xFF; 32];
    put_entry(&read, &mut again) == count && again == written
}

fn moved<'a>(side: Side, flow: Flow, unit: Unit<'a>) -> Entry<'a>
    ensures { result ≡ Moved side flow unit.entry }
{
    Entry::Moved { side, flow, unit }
}

#[test]
fn packets_written_and_read_again(rt: HostRuntime) {
    let reset = Unit::Command {
        opcode: 0x0C03,
        params: &[],
    };
    let event = Unit::Event {
        code: 0x13,
        params: &[0],
    };
    let data = Unit::Acl {
        word: 0x2001,
        octets: &[9],
    };
    let voice = Unit::Sync {
        word: 0x0102,
        octets: &[],
    };
    assert!(rt; is_spelled(&moved(Side::A, Flow::Out, reset), &RESET));
    assert!(rt;
        is_spelled(
            &moved(Side::A, Flow::Into, event),
            b"\x02\x00\x04\x04\x13\x01\x00"
        )
    );
    assert!(rt;
        is_spelled(
            &moved(Side::B, Flow::Out, data),
            b"\x03\x00\x06\x02\x01\x20\x01\x00\x09"
        )
    );
    assert!(rt;
        is_spelled(
            &moved(Side::B, Flow::Into, voice),
            b"\x04\x00\x04\x03\x02\x01\x00"
        )
    );
}

#[test]
fn words_and_pushes_written_and_read_again(rt: HostRuntime) {
    let lost = Entry::Acted {
        ordinal: 258,
        word: Word::Lose(Way::Ab),
    };
    assert!(rt;
        is_spelled(
            &lost,
            b"\x05\x00\x0F\x00\x00\x00\x00\x00\x00\x01\x02lose ab"
        )
    );
    assert!(rt; is_spelled(&Entry::Begun(1), b"\x06\x00\x02\x00\x01"));
    assert!(rt;
        is_spelled(
            &Entry::Ended(258, Outcome::Done),
            b"\x07\x00\x06\x01\x02done"
        )
    );
    assert!(rt;
        is_spelled(
            &Entry::Ended(1, Outcome::Refused(0xC3)),
            b"\x07\x00\x0C\x00\x01refused C3"
        )
    );
}

/// Octets, and why no entry stands at their front.
const REFUSALS: [(&[u8], EntryRefusal); 16] = [
    (b"\x09\x00\x00", EntryRefusal::BadTag),
    (b"\x00", EntryRefusal::BadTag),
    (b"\x08\x00\x05\x00", EntryRefusal::BadTag),
    (b"", EntryRefusal::Truncated),
    (b"\x01", EntryRefusal::Truncated),
    (b"\x01\x00", EntryRefusal::Truncated),
    (b"\x01\x00\x04\x01\x03\x0C", EntryRefusal::Truncated),
    (b"\x06\x00\x03\x00\x01", EntryRefusal::Truncated),
    (b"\x01\x00\x05\x01\x03\x0C\x00\x00", EntryRefusal::BadRecord),
    (b"\x01\x00\x03\x01\x03\x0C\x00", EntryRefusal::BadRecord),
    (b"\x02\x00\x01\x05", EntryRefusal::BadRecord),
    (
        b"\x05\x00\x0C\x00\x00\x00\x00\x00\x00\x00\x00pass",
        EntryRefusal::BadRecord,
    ),
    (
        b"\x05\x00\x0E\x00\x00\x00\x00\x00\x00\x00\x011 pass",
        EntryRefusal::BadRecord,
    ),
    (b"\x06\x00\x01\x01", EntryRefusal::BadRecord),
    (b"\x06\x00\x03\x00\x01\x00", EntryRefusal::BadRecord),
    (b"\x07\x00\x02\x00\x01", EntryRefusal::BadRecord),
];

#[test]
fn no_entries(rt: HostRuntime) {
    for (octets, refusal) in rows(&REFUSALS) {
        assert!(rt; matches!(entry_of(*octets), Err(answer) if answer == *refusal));
    }
}

/// A capture of two entries.
const BEGIN_RESET: [u8; 12] = [
    0x06, 0x00, 0x02, 0x00, 0x01, 0x01, 0x00, 0x04, 0x01, 0x03, 0x0C, 0x00,
];

/// Whether these are its entries.
fn are_begin_and_reset(entries: &[Entry<'_>]) -> bool {
    matches!(
        entries,
        [
            Entry::Begun(1),
            Entry::Moved {
                side: Side::A,
                flow: Flow::Out,
                unit: Unit::Command {
                    opcode: 0x0C03,
                    params: []
                }
            }
        ]
    )
}

/// Whether they are read.
fn are_read(alloc: Global) -> bool {
    match entries_of(alloc, &BEGIN_RESET) {
        Ok(entries) => are_begin_and_reset(&entries),
        Err(_) => false,
    }
}

/// Whether no octets are a capture without entries.
fn nothing_is_read(alloc: Global) -> bool {
    match entries_of(alloc, b"") {
        Ok(entries) => entries.is_empty(),
        Err(_) => false,
    }
}

/// Inputs that are no captures, and where they stop to be.
const NO_CAPTURES: [(&[u8], EntryRefusal, usize); 3] = [
    (b"\x06\x00\x02\x00\x01\x09\x00\x00", EntryRefusal::BadTag, 5),
    (
        b"\x06\x00\x02\x00\x01\x01\x00\x04",
        EntryRefusal::Truncated,
        5,
    ),
    (
        b"\x01\x00\x04\x01\x03\x0C\x00\x06\x00\x00",
        EntryRefusal::BadRecord,
        7,
    ),
];

/// Whether an input stops to be a capture there.
fn is_none_at(alloc: Global, octets: &[u8], refusal: EntryRefusal, place: usize) -> bool {
    match entries_of(alloc, octets) {
        Ok(_) => false,
        Err(fault) => fault == CaptureFault::Refused(refusal, place),
    }
}

#[test]
fn whole_captures(rt: HostRuntime) {
    assert!(rt; are_read(rt.alloc()));
    assert!(rt; nothing_is_read(rt.alloc()));
    for (octets, refusal, place) in rows(&NO_CAPTURES) {
        assert!(rt; is_none_at(rt.alloc(), *octets, *refusal, *place));
    }
}
