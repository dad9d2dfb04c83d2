//! Scenarios that are made from numbers: their summaries, and what their captures tell.

use crate::tests::runs::{Failing, Judge, Run, WELL, contains_all, ends, plain, rows, shows};
use btpush_forms::Status;
use std::alloc::Global;

/// A line with a number, the ports that fail, and what comes of it: the status, what the sink has, parts of the capture, and the lines that its
/// view ends with.
struct Row {
    line: &'static str,
    failing: Failing,
    status: Status,
    said: &'static str,
    parts: &'static [&'static [u8]],
    lines: &'static str,
}

impl Judge for Row {
    fn judges(&self, alloc: Global, status: Status, sink: &[u8], trace: &[u8]) -> bool {
        status == self.status
            && sink == self.said.as_bytes()
            && contains_all(trace, self.parts)
            && (self.lines.is_empty() || shows(alloc, trace, self.lines.as_bytes()))
    }
}

/// The begin of the first push, and the end of the eighth, as entries of the capture.
const FIRST_BEGINS: &[u8] = &[0x06, 0x00, 0x02, 0x00, 0x01];

const LAST_IS_DONE: &[u8] = &[0x07, 0x00, 0x06, 0x00, 0x08, b'd', b'o', b'n', b'e'];

/// The 41st word of a script, `lose ab`, and the 42nd, `repeat ab`.
const LOSE: &[u8] = &[
    0x05, 0x00, 0x0F, 0x00, 0x00, 0x00, 0x00, 0x00, 0x00, 0x00, 0x29, b'l', b'o', b's', b'e', b' ',
    b'a', b'b',
];

const REPEAT: &[u8] = &[
    0x05, 0x00, 0x11, 0x00, 0x00, 0x00, 0x00, 0x00, 0x00, 0x00, 0x2A, b'r', b'e', b'p', b'e', b'a',
    b't', b' ', b'a', b'b',
];

/// The last lines of the view of the capture of the number 2: the objects that host b heard.
const OBJECTS: &str =
    "object 006D0031 20908\nobject 006D0032 22817\nobject 006D0033 20239\nobject 006D0034 22914\nobject 006D0035 25837\nobject 006D0036 27095\nobject 006D0037 29976\nobject 006D0038 27865\n";

/// Over RFCOMM.
const OVER_RFCOMM: Row = Row {
    line: "make --number 1",
    failing: WELL,
    status: Status::Ok,
    said: "done 8 of 8\nkept 8\noctets 197331\n",
    parts: &[FIRST_BEGINS, LAST_IS_DONE],
    lines: "",
};

/// Over L2CAP, where a frame is lost and one is repeated.
const OVER_L2CAP: Row = Row {
    line: "make --number 2",
    failing: WELL,
    status: Status::Ok,
    said: "done 8 of 8\nkept 8\noctets 197651\n",
    parts: &[FIRST_BEGINS, LOSE, REPEAT, LAST_IS_DONE],
    lines: OBJECTS,
};

/// Ports that fail.
const FAILING: [Row; 2] = [
    // The sink fails as the summary is written.
    Row {
        line: "--number=4294967295 make",
        failing: Failing { sink: &[1], ..WELL },
        status: Status::WriteFault,
        said: "",
        parts: &[FIRST_BEGINS, LAST_IS_DONE],
        lines: "",
    },
    // The trace fails, and nothing is told.
    Row {
        line: "make --number 0",
        failing: Failing {
            trace: &[20],
            ..WELL
        },
        status: Status::WriteFault,
        said: "",
        parts: &[FIRST_BEGINS],
        lines: "",
    },
];

/// Whether a number comes to what its row says.
fn comes_true(alloc: Global, row: &Row) -> bool {
    let given = Run {
        failing: row.failing,
        ..plain(row.line, b"nothing of this is read")
    };
    ends(alloc, &given, row, &[])
}

#[test]
fn a_number_over_rfcomm(rt: HostRuntime) {
    assert!(rt; comes_true(rt.alloc(), &OVER_RFCOMM));
}

#[test]
fn a_number_over_l2cap(rt: HostRuntime) {
    assert!(rt; comes_true(rt.alloc(), &OVER_L2CAP));
}

#[test]
fn ports_that_fail_are_told(rt: HostRuntime) {
    for row in rows(&FAILING) {
        assert!(rt; comes_true(rt.alloc(), row));
    }
}
