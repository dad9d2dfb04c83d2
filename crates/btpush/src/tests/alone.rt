//! The forms without hosts, and words that ask for none.

ghost use Rattle.std.specs.Prelude.{None};

use crate::tests::full_inbox::FullInbox;
use crate::tests::runs::{Failing, Left, Run, Tail, WELL, ends, ends_over, plain, rows};
use bt_base::{PortFault, Source};
use btpush_forms::Status;
use std::alloc::Global;

/// A line of words, the source, and what the run leaves.
struct Row {
    line: &'static str,
    source: &'static [u8],
    left: Left<'static>,
}

/// HCI_Reset and its CommandComplete.
const TWO_PACKETS: [u8; 11] = [1, 3, 12, 0, 4, 14, 4, 1, 3, 12, 0];

/// A broken start, and synchronous data.
const DATA: [u8; 12] = [2, 1, 0x20, 2, 0, 9, 9, 3, 5, 0, 1, 7];

/// A connection request, a PDU in one piece.
const REQUEST: [u8; 17] = [2, 1, 0x20, 12, 0, 8, 0, 1, 0, 2, 1, 4, 0, 1, 0, 0x40, 0];

/// A PDU in one piece, one in two with a piece of another link between them, which has an octet too
/// many, and one with a command of identifier 0.
const JOINED: [u8; 62] = [
    2, 1, 0x20, 12, 0, 8, 0, 1, 0, 2, 1, 4, 0, 1, 0, 0x40, 0, //
    2, 1, 0x20, 6, 0, 8, 0, 1, 0, 2, 1, //
    2, 2, 0x20, 4, 0, 0, 0, 0x40, 0, //
    2, 1, 0x10, 7, 0, 4, 0, 1, 0, 0x40, 0, 9, //
    2, 1, 0x20, 8, 0, 4, 0, 1, 0, 2, 0, 0, 0, //
];

/// A group that a start leaves unfinished, one that the end of its link forgets, and a broadcast.
const BROKEN: [u8; 46] = [
    2, 1, 0x20, 4, 0, 1, 0, 1, 0, //
    2, 1, 0x20, 4, 0, 1, 0, 1, 0, //
    4, 5, 4, 0, 1, 0, 0x13, //
    2, 1, 0x10, 1, 0, 7, //
    2, 1, 0x60, 1, 0, 7, //
    4, 5, 1, 0, //
    1, 6, 4, 1, 0, //
];

/// HCI_Reset on a UART.
const RESET: [u8; 4] = [1, 3, 12, 0];

/// A capture of HCI_Reset at host a.
const CAPTURE: [u8; 7] = [0x01, 0x00, 0x04, 0x01, 0x03, 0x0C, 0x00];

/// The btsnoop file of host a.
const FILE: [u8; 44] = [
    0x62, 0x74, 0x73, 0x6E, 0x6F, 0x6F, 0x70, 0x00, 0x00, 0x00, 0x00, 0x01, 0x00, 0x00, 0x03, 0xEA,
    0x00, 0x00, 0x00, 0x04, 0x00, 0x00, 0x00, 0x04, 0x00, 0x00, 0x00, 0x02, 0x00, 0x00, 0x00, 0x00,
    0x00, 0xE0, 0x3A, 0xB4, 0x4A, 0x67, 0x60, 0x00, 0x01, 0x03, 0x0C, 0x00,
];

/// The file of a host without packets.
const HEADER: [u8; 16] = [
    0x62, 0x74, 0x73, 0x6E, 0x6F, 0x6F, 0x70, 0x00, 0x00, 0x00, 0x00, 0x01, 0x00, 0x00, 0x03, 0xEA,
];

/// The entries of a line that loses nothing: it is established, and then a unit goes and is acknowledged.
const CARRIED: [u8; 117] = [
    0x08, 0x00, 0x08, 0xC0, 0x00, 0x2F, 0x00, 0xD0, 0x01, 0x7E, 0xC0, // SYNC
    0x0A, 0x00, 0x08, 0xC0, 0x00, 0x2F, 0x00, 0xD0, 0x01, 0x7E, 0xC0, // SYNC
    0x0A, 0x00, 0x08, 0xC0, 0x00, 0x2F, 0x00, 0xD0, 0x02, 0x7D, 0xC0, // SYNC RESPONSE
    0x08, 0x00, 0x08, 0xC0, 0x00, 0x2F, 0x00, 0xD0, 0x02, 0x7D, 0xC0, // SYNC RESPONSE
    0x08, 0x00, 0x0A, 0xC0, 0x00, 0x3F, 0x00, 0xDB, 0xDC, 0x03, 0xFC, 0x04, 0xC0, // CONFIG
    0x0A, 0x00, 0x0A, 0xC0, 0x00, 0x3F, 0x00, 0xDB, 0xDC, 0x03, 0xFC, 0x04, 0xC0, // CONFIG
    0x0A, 0x00, 0x0A, 0xC0, 0x00, 0x3F, 0x00, 0xDB, 0xDC, 0x04, 0x7B, 0x04, 0xC0, // CONFIG RESPONSE
    0x08, 0x00, 0x0A, 0xC0, 0x00, 0x3F, 0x00, 0xDB, 0xDC, 0x04, 0x7B, 0x04, 0xC0, // CONFIG RESPONSE
    0x08, 0x00, 0x09, 0xC0, 0x80, 0x31, 0x00, 0x4E, 0x03, 0x0C, 0x00, 0xC0, // the unit
    0x0A, 0x00, 0x06, 0xC0, 0x08, 0x00, 0x00, 0xF7, 0xC0, // its acknowledgement
];

/// Those of a line that loses: the draws of the number 1 lose the ninth packet first, which is the unit.
const CARRIED_AGAIN: [u8; 129] = [
    0x08, 0x00, 0x08, 0xC0, 0x00, 0x2F, 0x00, 0xD0, 0x01, 0x7E, 0xC0, // SYNC
    0x0A, 0x00, 0x08, 0xC0, 0x00, 0x2F, 0x00, 0xD0, 0x01, 0x7E, 0xC0, // SYNC
    0x0A, 0x00, 0x08, 0xC0, 0x00, 0x2F, 0x00, 0xD0, 0x02, 0x7D, 0xC0, // SYNC RESPONSE
    0x08, 0x00, 0x08, 0xC0, 0x00, 0x2F, 0x00, 0xD0, 0x02, 0x7D, 0xC0, // SYNC RESPONSE
    0x08, 0x00, 0x0A, 0xC0, 0x00, 0x3F, 0x00, 0xDB, 0xDC, 0x03, 0xFC, 0x04, 0xC0, // CONFIG
    0x0A, 0x00, 0x0A, 0xC0, 0x00, 0x3F, 0x00, 0xDB, 0xDC, 0x03, 0xFC, 0x04, 0xC0, // CONFIG
    0x0A, 0x00, 0x0A, 0xC0, 0x00, 0x3F, 0x00, 0xDB, 0xDC, 0x04, 0x7B, 0x04, 0xC0, // CONFIG RESPONSE
    0x08, 0x00, 0x0A, 0xC0, 0x00, 0x3F, 0x00, 0xDB, 0xDC, 0x04, 0x7B, 0x04, 0xC0, // CONFIG RESPONSE
    0x09, 0x00, 0x09, 0xC0, 0x80, 0x31, 0x00, 0x4E, 0x03, 0x0C, 0x00, 0xC0, // the unit, lost
    0x08, 0x00, 0x09, 0xC0, 0x80, 0x31, 0x00, 0x4E, 0x03, 0x0C, 0x00, 0xC0, // again
    0x0A, 0x00, 0x06, 0xC0, 0x08, 0x00, 0x00, 0xF7, 0xC0, // its acknowledgement
];

const ROWS: [Row; 22] = [
    Row {
        line: "decode",
        source: &TWO_PACKETS,
        left: Left {
            status: Status::Ok,
            sink: b"0 cmd 0C03 Reset -\n4 evt 0E CommandComplete 01030C00\n",
            trace: b"",
        },
    },
    Row {
        line: "decode",
        source: b"",
        left: Left {
            status: Status::Ok,
            sink: b"",
            trace: b"",
        },
    },
    Row {
        line: "decode",
        source: b"\x05",
        left: Left {
            status: Status::InputRefused,
            sink: b"refused offset 0 BadIndicator\n",
            trace: b"",
        },
    },
    Row {
        line: "decode",
        source: &DATA,
        left: Left {
            status: Status::Ok,
            sink: b"0 acl 2001 2\n  drop ShortStart\n7 sync 0005 1\n",
            trace: b"",
        },
    },
    Row {
        line: "decode",
        source: b"\x02\x01\x20\x02\x00\x09",
        left: Left {
            status: Status::InputRefused,
            sink: b"refused offset 0 Truncated\n",
            trace: b"",
        },
    },
    Row {
        line: "decode",
        source: b"\x02\x01\x20\x02\x00\x09\x09\x03\x05",
        left: Left {
            status: Status::InputRefused,
            sink: b"0 acl 2001 2\n  drop ShortStart\nrefused offset 7 Truncated\n",
            trace: b"",
        },
    },
    Row {
        line: "decode",
        source: &REQUEST,
        left: Left {
            status: Status::Ok,
            sink: b"0 acl 2001 12\n  pdu 0001 8\n  sig 02 01 ConnectionRequest 01004000\n",
            trace: b"",
        },
    },
    Row {
        line: "decode",
        source: b"\x02\x01\x20\x0C\x00\x08\x00\x01\x00\x02\x01\x04\x00\x01\x00\x40",
        left: Left {
            status: Status::InputRefused,
            sink: b"refused offset 0 Truncated\n",
            trace: b"",
        },
    },
    Row {
        line: "decode",
        source: &JOINED,
        left: Left {
            status: Status::Ok,
            sink: b"0 acl 2001 12\n  pdu 0001 8\n  sig 02 01 ConnectionRequest 01004000\n17 acl 2001 6\n28 acl 2002 4\n  pdu 0040 0\n  data 0\n37 acl 1001 7\n  drop Overrun\n49 acl 2001 8\n  pdu 0001 4\n  sig bad ZeroIdentifier\n",
            trace: b"",
        },
    },
    Row {
        line: "decode",
        source: &BROKEN,
        left: Left {
            status: Status::Ok,
            sink: b"0 acl 2001 4\n9 acl 2001 4\n  unfinished\n18 evt 05 DisconnectionComplete 00010013\n25 acl 1001 1\n  drop StrayContinuation\n31 acl 6001 1\n  drop BadWord\n37 evt 05 DisconnectionComplete 00\n  bad ShortParams\n41 cmd 0406 Disconnect 00\n  bad ShortParams\n",
            trace: b"",
        },
    },
    Row {
        line: "decode --tagged",
        source: &CAPTURE,
        left: Left {
            status: Status::Ok,
            sink: b"0 a> cmd 0C03 Reset -\n",
            trace: b"",
        },
    },
    Row {
        line: "--tagged decode",
        source: b"\x09\x00\x00",
        left: Left {
            status: Status::InputRefused,
            sink: b"refused offset 0 BadTag\n",
            trace: b"",
        },
    },
    Row {
        line: "decode --snoop",
        source: &FILE,
        left: Left {
            status: Status::Ok,
            sink: b"16 > cmd 0C03 Reset -\n",
            trace: b"",
        },
    },
    Row {
        line: "decode --snoop",
        source: b"btsnoop\x00\x00\x00\x00\x01\x00\x00\x03\xEA\x00\x00\x00\x04\x00\x00\x00\x04\x00\x00\x00\x02\x00\x00\x00\x00\x00\xE0\x3A\xB4\x4A\x67\x60\x00\x01\x03\x0C",
        left: Left {
            status: Status::InputRefused,
            sink: b"refused offset 16 Truncated\n",
            trace: b"",
        },
    },
    Row {
        line: "snoop --side a",
        source: &CAPTURE,
        left: Left {
            status: Status::Ok,
            sink: &FILE,
            trace: b"",
        },
    },
    Row {
        line: "--side=b snoop",
        source: &CAPTURE,
        left: Left {
            status: Status::Ok,
            sink: &HEADER,
            trace: b"",
        },
    },
    Row {
        line: "snoop --side b",
        source: b"\x01\x00\x01\x05",
        left: Left {
            status: Status::InputRefused,
            sink: &HEADER,
            trace: b"refused offset 0 BadRecord\n",
        },
    },
    Row {
        line: "wire",
        source: &RESET,
        left: Left {
            status: Status::Ok,
            sink: &RESET,
            trace: &CARRIED,
        },
    },
    Row {
        line: "--number=1 wire",
        source: &RESET,
        left: Left {
            status: Status::Ok,
            sink: &RESET,
            trace: &CARRIED_AGAIN,
        },
    },
    Row {
        line: "wire",
        source: b"\x01\x03\x0C\x00\x05",
        left: Left {
            status: Status::InputRefused,
            sink: b"",
            trace: b"\x08\x00\x08\xC0\x00\x2F\x00\xD0\x01\x7E\xC0\x0A\x00\x08\xC0\x00\x2F\x00\xD0\x01\x7E\xC0\x0A\x00\x08\xC0\x00\x2F\x00\xD0\x02\x7D\xC0\x08\x00\x08\xC0\x00\x2F\x00\xD0\x02\x7D\xC0\x08\x00\x0A\xC0\x00\x3F\x00\xDB\xDC\x03\xFC\x04\xC0\x0A\x00\x0A\xC0\x00\x3F\x00\xDB\xDC\x03\xFC\x04\xC0\x0A\x00\x0A\xC0\x00\x3F\x00\xDB\xDC\x04\x7B\x04\xC0refused offset 4 BadIndicator\n",
        },
    },
    Row {
        line: "wire",
        source: b"\x02\x01\x20\xFC\x0F",
        left: Left {
            status: Status::InputRefused,
            sink: b"",
            trace: b"\x08\x00\x08\xC0\x00\x2F\x00\xD0\x01\x7E\xC0\x0A\x00\x08\xC0\x00\x2F\x00\xD0\x01\x7E\xC0\x0A\x00\x08\xC0\x00\x2F\x00\xD0\x02\x7D\xC0\x08\x00\x08\xC0\x00\x2F\x00\xD0\x02\x7D\xC0\x08\x00\x0A\xC0\x00\x3F\x00\xDB\xDC\x03\xFC\x04\xC0\x0A\x00\x0A\xC0\x00\x3F\x00\xDB\xDC\x03\xFC\x04\xC0\x0A\x00\x0A\xC0\x00\x3F\x00\xDB\xDC\x04\x7B\x04\xC0refused offset 4 AclTooLong\n",
        },
    },
    Row {
        line: "wire",
        source: b"\x01\x03\x0C",
        left: Left {
            status: Status::InputRefused,
            sink: b"",
            trace: b"\x08\x00\x08\xC0\x00\x2F\x00\xD0\x01\x7E\xC0\x0A\x00\x08\xC0\x00\x2F\x00\xD0\x01\x7E\xC0\x0A\x00\x08\xC0\x00\x2F\x00\xD0\x02\x7D\xC0\x08\x00\x08\xC0\x00\x2F\x00\xD0\x02\x7D\xC0\x08\x00\x0A\xC0\x00\x3F\x00\xDB\xDC\x03\xFC\x04\xC0\x0A\x00\x0A\xC0\x00\x3F\x00\xDB\xDC\x03\xFC\x04\xC0\x0A\x00\x0A\xC0\x00\x3F\x00\xDB\xDC\x04\x7B\x04\xC0refused offset 0 Truncated\n",
        },
    },
];

/// Whether a run comes to what its row says, over a source that hands out three octets at a time.
fn comes_true(alloc: Global, row: &Row, failing: Failing) -> bool {
    let given = Run {
        line: row.line,
        input: row.source,
        step: 3,
        objects: &[],
        failing,
    };
    ends(alloc, &given, &row.left, &[])
}

#[test]
fn forms_come_to_their_ends(rt: HostRuntime) {
    for row in rows(&ROWS) {
        assert!(rt; comes_true(rt.alloc(), row, WELL));
    }
}

/// Ports that fail in mid-stream, and what comes of it.
const FAULTS: [(Failing, Row); 3] = [
    (
        Failing {
            source: &[3],
            ..WELL
        },
        Row {
            line: "decode",
            source: &TWO_PACKETS,
            left: Left {
                status: Status::ReadFault,
                sink: b"0 cmd 0C03 Reset -\n",
                trace: b"",
            },
        },
    ),
    (
        Failing { sink: &[4], ..WELL },
        Row {
            line: "decode",
            source: &TWO_PACKETS,
            left: Left {
                status: Status::WriteFault,
                sink: b"0 cmd 0C03 Reset -\n",
                trace: b"",
            },
        },
    ),
    (
        Failing {
            trace: &[1],
            ..WELL
        },
        Row {
            line: "snoop --side a",
            source: b"\x01\x00\x04\x01\x03\x0C\x00\x08",
            left: Left {
                status: Status::WriteFault,
                sink: &FILE,
                trace: b"",
            },
        },
    ),
];

#[test]
fn faults_of_ports_have_their_status(rt: HostRuntime) {
    for (failing, row) in rows(&FAULTS) {
        assert!(rt; comes_true(rt.alloc(), row, *failing));
    }
}

/// Lines that are no form of the program.
const BAD_LINES: [&str; 13] = [
    "",
    "decoder",
    "push --tagged",
    "push --number 1",
    "decode --tagged --snoop",
    "snoop",
    "make",
    "make --number 01",
    "make --number 4294967296",
    "make --number 1 --tagged",
    "receive --tagged",
    "wire --tagged",
    "wire --number 01",
];

/// The line on the usage.
const USAGE: Left<'static> = Left {
    status: Status::BadWords,
    sink: b"usage: btpush decode|push|receive|make|snoop|wire [--tagged] [--snoop] [--side S] [--number N]\n",
    trace: b"",
};

/// Whether a line gets the usage.
fn gets_the_usage(alloc: Global, line: &str) -> bool {
    ends(alloc, &plain(line, &TWO_PACKETS), &USAGE, &[])
}

#[test]
fn other_words_get_the_usage(rt: HostRuntime) {
    for line in rows(&BAD_LINES) {
        assert!(rt; gets_the_usage(rt.alloc(), *line));
    }
}

/// Packets of data up to four octets before the greatest length of an input, and `last` behind
/// them. Each read of 65,536 octets gives one packet: its head is written, and its data are what
/// stands in the slice. So a test of inputs of that length takes neither memory nor time.
#[derive(Drop)]
struct LongSource<'a> {
    packets: u32,
    last: &'a [u8],
}

impl<'a> Source for LongSource<'a> {
    ghost content = { λ _. None };

    ghost faults = { λ _. 0 };

    ghost shortages = { λ _. 0 };

    fn read(&mut self, into: &mut [u8]) -> Result<usize, PortFault> {
        if into.len() < 65_536 {
            let n = into.len().min(self.last.len());
            into[..n].copy_from_slice(&self.last[..n]);
            self.last = &self.last[n..];
            return Ok(n);
        }
        self.packets = self.packets.saturating_add(1);
        if self.packets < 1024 {
            into[..5].copy_from_slice(&[2, 1, 0x10, 0xFB, 0xFF]);
            return Ok(65_536);
        }
        into[..5].copy_from_slice(&[2, 1, 0x10, 0xF7, 0xFF]);
        Ok(65_532)
    }
}

/// What stands four octets before the greatest length, and how the view of the whole input ends.
const LAST_PACKETS: [(&[u8], Status, &str); 10] = [
    (&[1, 3, 12, 0], Status::Ok, "67108860 cmd 0C03 Reset -\n"),
    (
        &[],
        Status::Ok,
        "67043328 acl 1001 65527\n  drop StrayContinuation\n",
    ),
    (
        &[1, 3, 12],
        Status::InputRefused,
        "refused offset 67108860 Truncated\n",
    ),
    (
        &[4, 14, 1],
        Status::InputRefused,
        "refused offset 67108860 Truncated\n",
    ),
    (
        &[4, 14, 2],
        Status::InputRefused,
        "refused offset 67108864 TooLong\n",
    ),
    (
        &[2],
        Status::InputRefused,
        "refused offset 67108864 TooLong\n",
    ),
    (
        &[1, 3, 12, 1],
        Status::InputRefused,
        "refused offset 67108864 TooLong\n",
    ),
    (
        &[1, 3, 12, 1, 0],
        Status::InputRefused,
        "refused offset 67108864 TooLong\n",
    ),
    (
        &[1, 3, 12, 0, 5],
        Status::InputRefused,
        "refused offset 67108864 TooLong\n",
    ),
    (
        &[5],
        Status::InputRefused,
        "refused offset 67108860 BadIndicator\n",
    ),
];

/// Whether the view of the greatest input with these octets at its end ends so.
fn long_view_ends(alloc: Global, last: &[u8], status: Status, text: &str) -> bool {
    let mut source = LongSource { packets: 0, last };
    let mut inbox = FullInbox::new();
    let tail = Tail {
        status,
        sink: text.as_bytes(),
    };
    ends_over(alloc, &plain("decode", b""), &mut source, &mut inbox, &tail)
}

#[test]
fn packets_end_within_the_greatest_length(rt: HostRuntime) {
    for (last, status, text) in rows(&LAST_PACKETS) {
        assert!(rt; long_view_ends(rt.alloc(), *last, *status, *text));
    }
}
