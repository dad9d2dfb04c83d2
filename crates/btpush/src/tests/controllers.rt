//! A host that receives: whole streams of a controller, and all that the host says to them.

use crate::tests::full_inbox::FullInbox;
use crate::tests::pushing::INBOX;
use crate::tests::runs::{Failing, Left, Run, Stored, WELL, ends, ends_into, plain, rows};
use bt_base::NoMemory;
use btpush_forms::Status;
use std::alloc::Global;

/// What a controller says, and what the host says to that.
type Row = (&'static [u8], &'static [u8]);

/// The first command of a host.
const RESET: &[u8] = b"\x01\x03\x0C\x00";

/// The answer to it, and the next command.
const FIRST: [Row; 1] = [(b"\x04\x0E\x04\x01\x03\x0C\x00", b"\x01\x05\x10\x00")];

/// From the first command to a link that is up: 75 octets.
const START: [Row; 7] = [
    (b"\x04\x0E\x04\x01\x03\x0C\x00", b"\x01\x05\x10\x00"),
    (
        b"\x04\x0E\x0B\x01\x05\x10\x00\xFD\x03\x00\x08\x00\x00\x00",
        b"\x01\x09\x10\x00",
    ),
    (
        b"\x04\x0E\x0A\x01\x09\x10\x00\x0B\x00\x00\x00\x00\x00",
        b"\x01\x1A\x0C\x01\x03",
    ),
    (b"\x04\x0E\x04\x01\x1A\x0C\x00", b""),
    (
        b"\x04\x04\x0A\x0A\x00\x00\x00\x00\x00\x00\x00\x00\x01",
        b"\x01\x09\x04\x07\x0A\x00\x00\x00\x00\x00\x01",
    ),
    (b"\x04\x0F\x04\x00\x01\x09\x04", b""),
    (
        b"\x04\x03\x0B\x00\x01\x00\x0A\x00\x00\x00\x00\x00\x01\x00",
        b"",
    ),
];

/// A channel to the service records, with its options: 672 octets.
const CHANNEL: [Row; 2] = [
    (
        b"\x02\x01\x20\x0C\x00\x08\x00\x01\x00\x02\x01\x04\x00\x01\x00\x40\x00",
        b"\x02\x01\x00\x10\x00\x0C\x00\x01\x00\x03\x01\x08\x00\x40\x00\x40\x00\x00\x00\x00\x00",
    ),
    (
        b"\x02\x01\x20\x10\x00\x0C\x00\x01\x00\x04\x02\x08\x00\x40\x00\x00\x00\x01\x02\xA0\x02",
        b"\x02\x01\x00\x0E\x00\x0A\x00\x01\x00\x05\x02\x06\x00\x40\x00\x00\x00\x00\x00\x02\x01\x00\x10\x00\x0C\x00\x01\x00\x04\x01\x08\x00\x40\x00\x00\x00\x01\x02\xA0\x02",
    ),
];

/// Commands at an open link: one that is not known, a question for the features, an echo, one that is none, and a channel
/// whose options are too small.
const COMMANDS: [Row; 6] = [
    (
        b"\x02\x01\x20\x08\x00\x04\x00\x01\x00\x20\x05\x00\x00",
        b"\x02\x01\x00\x0A\x00\x06\x00\x01\x00\x01\x05\x02\x00\x00\x00",
    ),
    (
        b"\x02\x01\x20\x0A\x00\x06\x00\x01\x00\x0A\x03\x02\x00\x02\x00",
        b"\x02\x01\x00\x10\x00\x0C\x00\x01\x00\x0B\x03\x08\x00\x02\x00\x00\x00\xA8\x00\x00\x00",
    ),
    (
        b"\x02\x01\x20\x0A\x00\x06\x00\x01\x00\x08\x04\x02\x00\xAA\xBB",
        b"\x02\x01\x00\x0A\x00\x06\x00\x01\x00\x09\x04\x02\x00\xAA\xBB",
    ),
    (
        b"\x02\x01\x20\x0A\x00\x06\x00\x01\x00\x08\x00\x02\x00\xAA\xBB",
        b"",
    ),
    (
        b"\x02\x01\x20\x0C\x00\x08\x00\x01\x00\x02\x06\x04\x00\x01\x00\x41\x00",
        b"\x02\x01\x00\x10\x00\x0C\x00\x01\x00\x03\x06\x08\x00\x40\x00\x41\x00\x00\x00\x00\x00",
    ),
    (
        b"\x02\x01\x20\x10\x00\x0C\x00\x01\x00\x04\x07\x08\x00\x40\x00\x00\x00\x01\x02\x2F\x00",
        b"\x02\x01\x00\x12\x00\x0E\x00\x01\x00\x05\x07\x0A\x00\x41\x00\x00\x00\x01\x00\x01\x02\x30\x00",
    ),
];

/// An enhanced channel for objects, with its options.
const OPENING: [Row; 3] = [
    (
        b"\x02\x01\x20\x0C\x00\x08\x00\x01\x00\x02\x01\x04\x00\x01\x10\x40\x00",
        b"\x02\x01\x00\x10\x00\x0C\x00\x01\x00\x03\x01\x08\x00\x40\x00\x40\x00\x00\x00\x00\x00",
    ),
    (
        b"\x02\x01\x20\x1B\x00\x17\x00\x01\x00\x04\x02\x13\x00\x40\x00\x00\x00\x01\x02\x00\x04\x04\x09\x03\x0A\x04\x00\x00\x00\x00\xF2\x03",
        b"\x02\x01\x00\x19\x00\x15\x00\x01\x00\x05\x02\x11\x00\x40\x00\x00\x00\x00\x00\x04\x09\x03\x0A\x04\xD0\x07\xE0\x2E\xF2\x03\x02\x01\x00\x1B\x00\x17\x00\x01\x00\x04\x01\x13\x00\x40\x00\x00\x00\x01\x02\x00\x04\x04\x09\x03\x0A\x04\x00\x00\x00\x00\xF2\x03",
    ),
    (
        b"\x02\x01\x20\x0E\x00\x0A\x00\x01\x00\x05\x01\x06\x00\x40\x00\x00\x00\x00\x00",
        b"",
    ),
];

/// The object `a` with two octets, in one frame; the acknowledgement and the response.
const OBJECT: [Row; 1] = [(
    b"\x02\x01\x20\x1C\x00\x18\x00\x40\x00\x00\x00\x82\x00\x14\x01\x00\x07\x00\x61\x00\x00\xC3\x00\x00\x00\x02\x49\x00\x05\x68\x69\x0C\xDC",
    b"\x02\x01\x00\x08\x00\x04\x00\x40\x00\x01\x01\xD4\x14\x02\x01\x00\x0B\x00\x07\x00\x40\x00\x00\x01\xA0\x00\x03\x26\x2B",
)];

/// The same object in three packets of single response mode: the first has its response, the second is heard in silence, and the
/// last has its response.
const IN_SILENCE: [Row; 3] = [
    (
        b"\x02\x01\x20\x19\x00\x15\x00\x40\x00\x00\x00\x02\x00\x11\x01\x00\x07\x00\x61\x00\x00\xC3\x00\x00\x00\x02\x97\x01\x56\x86",
        b"\x02\x01\x00\x08\x00\x04\x00\x40\x00\x01\x01\xD4\x14\x02\x01\x00\x0D\x00\x09\x00\x40\x00\x00\x01\x90\x00\x05\x97\x01\x61\x62",
    ),
    (
        b"\x02\x01\x20\x0F\x00\x0B\x00\x40\x00\x02\x01\x02\x00\x07\x48\x00\x04\x68\x15\x68",
        b"\x02\x01\x00\x08\x00\x04\x00\x40\x00\x01\x02\x94\x15",
    ),
    (
        b"\x02\x01\x20\x0F\x00\x0B\x00\x40\x00\x04\x01\x82\x00\x07\x49\x00\x04\x69\x7F\x3C",
        b"\x02\x01\x00\x08\x00\x04\x00\x40\x00\x01\x03\x55\xD5\x02\x01\x00\x0B\x00\x07\x00\x40\x00\x02\x03\xA0\x00\x03\x5E\x53",
    ),
];

/// A stream: rows, and octets behind them to which the host says nothing; and what comes of it.
struct Stream {
    rows: [&'static [Row]; 3],
    tail: &'static [u8],
    status: Status,
    /// What the trace has then.
    told: &'static str,
    /// The objects that are stored then.
    stored: &'static [Stored],
}

/// Whole streams, and streams that are refused.
const STREAMS: [Stream; 11] = [
    Stream {
        rows: [&START, &CHANNEL, &[]],
        tail: b"",
        status: Status::Ok,
        told: "",
        stored: &[],
    },
    Stream {
        rows: [&START, &COMMANDS, &[]],
        tail: b"",
        status: Status::Ok,
        told: "",
        stored: &[],
    },
    Stream {
        rows: [&START, &OPENING, &OBJECT],
        tail: b"",
        status: Status::Ok,
        told: "",
        stored: INBOX,
    },
    Stream {
        rows: [&START, &OPENING, &IN_SILENCE],
        tail: b"",
        status: Status::Ok,
        told: "",
        stored: INBOX,
    },
    Stream {
        rows: [&[], &[], &[]],
        tail: b"",
        status: Status::Ok,
        told: "",
        stored: &[],
    },
    Stream {
        rows: [&[], &[], &[]],
        tail: b"\x02\x01\x20\xFE\x03",
        status: Status::InputRefused,
        told: "refused offset 4 AclTooLong\n",
        stored: &[],
    },
    Stream {
        rows: [&[], &[], &[]],
        tail: b"\x04\x0E\x04\x01\x03\x0C\x0C",
        status: Status::InputRefused,
        told: "refused offset 0 CommandFailed\n",
        stored: &[],
    },
    Stream {
        rows: [&FIRST, &[], &[]],
        tail: b"\x04\x0E\x0B\x01\x05\x10\x00\x1A\x00\x00\x08\x00\x00\x00",
        status: Status::InputRefused,
        told: "refused offset 7 BadBuffers\n",
        stored: &[],
    },
    Stream {
        rows: [&FIRST, &[], &[]],
        tail: b"\x05\x00",
        status: Status::InputRefused,
        told: "refused offset 7 BadIndicator\n",
        stored: &[],
    },
    Stream {
        rows: [&START, &[], &[]],
        tail: b"\x02\x01\x20\x0C\x00\x08\x00\x01\x00\x02\x01\x04\x00\x01\x00\x40",
        status: Status::InputRefused,
        told: "refused offset 75 Truncated\n",
        stored: &[],
    },
    Stream {
        rows: [&[], &[], &[]],
        tail: b"\x02\x01\x20\x0C",
        status: Status::InputRefused,
        told: "refused offset 0 Truncated\n",
        stored: &[],
    },
];

/// What a controller says in these rows, and the octets behind them.
fn heard_in(alloc: Global, parts: &[&[Row]], tail: &[u8]) -> Result<Vec<u8>, NoMemory> {
    let mut octets = Vec::new(alloc);
    for part in parts {
        for (says, _) in *part {
            octets.extend_from_slice(*says)?;
        }
    }
    octets.extend_from_slice(tail)?;
    Ok(octets)
}

/// What the host says in these rows, behind its first command.
fn said_in(alloc: Global, parts: &[&[Row]]) -> Result<Vec<u8>, NoMemory> {
    let mut octets = Vec::from_slice(alloc, RESET)?;
    for part in parts {
        for (_, answer) in *part {
            octets.extend_from_slice(*answer)?;
        }
    }
    Ok(octets)
}

/// Whether a stream comes to what is said of it, where its host hears these octets.
fn comes_true(alloc: Global, stream: &Stream, heard: &[u8], step: usize) -> bool {
    let given = Run {
        step,
        ..plain("receive", heard)
    };
    match said_in(alloc, &stream.rows) {
        Ok(said) => {
            let left = Left {
                status: stream.status,
                sink: &said,
                trace: stream.told.as_bytes(),
            };
            ends(alloc, &given, &left, stream.stored)
        }
        Err(_) => false,
    }
}

/// Whether a stream comes to what is said of it, over a source that hands out so many octets at a time.
fn holds(alloc: Global, stream: &Stream, step: usize) -> bool {
    match heard_in(alloc, &stream.rows, stream.tail) {
        Ok(heard) => comes_true(alloc, stream, &heard, step),
        Err(_) => false,
    }
}

#[test]
fn streams_are_heard(rt: HostRuntime) {
    for stream in rows(&STREAMS) {
        assert!(rt; holds(rt.alloc(), stream, 1));
        assert!(rt; holds(rt.alloc(), stream, 3));
        assert!(rt; holds(rt.alloc(), stream, 1000));
    }
}

/// Ports that fail in mid-stream; what comes of it, and what the sink has then. The source hands out eight octets at a time.
const FAULTS: [(Failing, Left<'static>); 4] = [
    (
        Failing {
            source: &[1],
            ..WELL
        },
        Left {
            status: Status::ReadFault,
            sink: b"\x01\x03\x0C\x00",
            trace: b"",
        },
    ),
    (
        Failing {
            source: &[2],
            ..WELL
        },
        Left {
            status: Status::ReadFault,
            sink: b"\x01\x03\x0C\x00\x01\x05\x10\x00",
            trace: b"",
        },
    ),
    (
        Failing { sink: &[1], ..WELL },
        Left {
            status: Status::WriteFault,
            sink: b"",
            trace: b"",
        },
    ),
    (
        Failing { sink: &[3], ..WELL },
        Left {
            status: Status::WriteFault,
            sink: b"\x01\x03\x0C\x00\x01\x05\x10\x00",
            trace: b"",
        },
    ),
];

/// Whether the start of a host leaves this over ports that fail.
fn start_leaves(alloc: Global, failing: Failing, left: &Left<'_>) -> bool {
    match heard_in(alloc, &[&START], b"") {
        Ok(heard) => {
            let given = Run {
                step: 8,
                failing,
                ..plain("receive", &heard)
            };
            ends(alloc, &given, left, &[])
        }
        Err(_) => false,
    }
}

/// Whether a refusal that cannot be told leaves a fault of writing.
fn refusal_is_lost(alloc: Global) -> bool {
    let failing = Failing {
        trace: &[1],
        ..WELL
    };
    let given = Run {
        failing,
        ..plain("receive", b"\x05")
    };
    let left = Left {
        status: Status::WriteFault,
        sink: RESET,
        trace: b"",
    };
    ends(alloc, &given, &left, &[])
}

#[test]
fn ports_may_fail(rt: HostRuntime) {
    for (failing, left) in rows(&FAULTS) {
        assert!(rt; start_leaves(rt.alloc(), *failing, left));
    }
    assert!(rt; refusal_is_lost(rt.alloc()));
}

/// Whether a host whose inbox finds no memory for the object that it hears of ends with that, behind all that it said before.
fn is_short_of(alloc: Global, heard: &[u8]) -> bool {
    let mut inbox = FullInbox::new();
    match said_in(alloc, &[&START, &OPENING]) {
        Ok(said) => {
            let left = Left {
                status: Status::NoMemory,
                sink: &said,
                trace: b"",
            };
            ends_into(alloc, &plain("receive", heard), &mut inbox, &left) && inbox.shortages() == 1
        }
        Err(_) => false,
    }
}

/// The same of a stream with an object.
fn is_short(alloc: Global) -> bool {
    match heard_in(alloc, &[&START, &OPENING, &OBJECT], b"") {
        Ok(heard) => is_short_of(alloc, &heard),
        Err(_) => false,
    }
}

#[test]
fn an_inbox_may_be_full(rt: HostRuntime) {
    assert!(rt; is_short(rt.alloc()));
}
