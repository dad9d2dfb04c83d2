//! Pushes over ports that fail, and texts that are no scenario.

use crate::tests::full_inbox::FullInbox;
use crate::tests::pushing::{ABORT, INBOX, SHELF, pushed};
use crate::tests::runs::{
    Content, Failing, Judge, Left, Run, Stored, WELL, contains, ends, ends_into, plain, rows,
};
use btpush_forms::Status;
use std::alloc::Global;

/// A scenario whose ports fail, and what comes of it: the status, how the sink begins and ends, what is stored, and whether ABORT stands in the
/// capture.
struct Row {
    text: &'static str,
    objects: &'static [(&'static str, Content)],
    failing: Failing,
    status: Status,
    said: &'static str,
    ends: &'static str,
    stored: &'static [Stored],
    aborts: bool,
}

impl Judge for Row {
    fn judges(&self, _alloc: Global, status: Status, sink: &[u8], trace: &[u8]) -> bool {
        status == self.status
            && sink.starts_with(self.said.as_bytes())
            && sink.ends_with(self.ends.as_bytes())
            && contains(trace, ABORT) == self.aborts
    }
}

const SMALL: &str = "transport l2cap\nobject a\nradio\n1216 pass\n";

const LARGE: &str = "transport l2cap\nobject a\nradio\n30000 pass\n";

const ROWS: &[Row] = &[
    // The inbox fails as the object is to be stored: begin, append, commit.
    Row {
        text: SMALL,
        objects: SHELF,
        failing: Failing {
            inbox: &[3],
            ..WELL
        },
        status: Status::SomeFailed,
        said: "1 refused D0 a\nkept 0\n",
        ends: "\nwindow 1 1\ncredits 0 0\n",
        stored: &[],
        aborts: false,
    },
    // The shelf fails at the third piece of the object.
    Row {
        text: LARGE,
        objects: &[("a", Content::Filled(3500))],
        failing: Failing {
            shelf: &[4],
            ..WELL
        },
        status: Status::SomeFailed,
        said: "1 shelf a\nkept 0\n",
        ends: "\nwindow 2 1\ncredits 0 0\n",
        stored: &[],
        aborts: true,
    },
    // The shelf fails as it is asked for the length.
    Row {
        text: SMALL,
        objects: SHELF,
        failing: Failing {
            shelf: &[1],
            ..WELL
        },
        status: Status::SomeFailed,
        said: "1 shelf a\nkept 0\nbuffers 0 0\nwindow 0 0\ncredits 0 0\n",
        ends: "",
        stored: &[],
        aborts: false,
    },
    // The sink fails as the report is written: all else is as it was to be.
    Row {
        text: SMALL,
        objects: SHELF,
        failing: Failing { sink: &[1], ..WELL },
        status: Status::WriteFault,
        said: "",
        ends: "",
        stored: INBOX,
        aborts: false,
    },
    // The trace fails, at its first call and later.
    Row {
        text: SMALL,
        objects: SHELF,
        failing: Failing {
            trace: &[1],
            ..WELL
        },
        status: Status::WriteFault,
        said: "",
        ends: "",
        stored: &[],
        aborts: false,
    },
    Row {
        text: SMALL,
        objects: SHELF,
        failing: Failing {
            trace: &[20],
            ..WELL
        },
        status: Status::WriteFault,
        said: "",
        ends: "",
        stored: &[],
        aborts: false,
    },
    Row {
        text: SMALL,
        objects: SHELF,
        failing: Failing {
            trace: &[60],
            ..WELL
        },
        status: Status::WriteFault,
        said: "",
        ends: "",
        stored: &[],
        aborts: false,
    },
    // The source fails.
    Row {
        text: SMALL,
        objects: SHELF,
        failing: Failing {
            source: &[2],
            ..WELL
        },
        status: Status::ReadFault,
        said: "",
        ends: "",
        stored: &[],
        aborts: false,
    },
    // A push that is given up ahead of its last packet.
    Row {
        text: "transport l2cap\nobject a\nradio\n36 pass\n1 cancel\n30000 pass\n",
        objects: &[("a", Content::Filled(20_000))],
        failing: WELL,
        status: Status::SomeFailed,
        said: "1 cancelled a\nkept 0\n",
        ends: "\nwindow 2 1\ncredits 0 0\n",
        stored: &[],
        aborts: true,
    },
];

/// Whether a scenario comes to what its row says.
fn comes_true(alloc: Global, row: &Row) -> bool {
    let given = Run {
        failing: row.failing,
        ..pushed(row.text, row.objects)
    };
    ends(alloc, &given, row, row.stored)
}

#[test]
fn ports_that_fail_are_told(rt: HostRuntime) {
    for row in rows(ROWS) {
        assert!(rt; comes_true(rt.alloc(), row));
    }
}

/// Texts that are no scenario, and what is said of them.
const REFUSED: &[(&str, &str)] = &[
    ("", "refused line 1 NoTransport\n"),
    (
        "transport l2cap\ncolor red\n",
        "refused line 2 UnknownKey\n",
    ),
    (
        "transport l2cap\nwindow 64\n",
        "refused line 2 OutOfRange\n",
    ),
    ("transport l2cap\nwindow 33\n", "refused line 3 NoObject\n"),
    ("transport l2cap\nradio\n", "refused line 2 NoObject\n"),
    (
        "transport rfcomm\nobject a\nradio\n1 lose ab\n",
        "refused line 4 LossyRfcomm\n",
    ),
    (
        "transport l2cap\n# twice\ntransport l2cap",
        "refused line 3 Repeated\n",
    ),
    (
        "transport l2cap\nobject\nobject a\n",
        "refused line 2 BadLine\n",
    ),
];

/// Whether a text is refused with that line, and nothing else is touched.
fn is_refused(alloc: Global, text: &str, said: &str) -> bool {
    let left = Left {
        status: Status::InputRefused,
        sink: said.as_bytes(),
        trace: b"",
    };
    ends(alloc, &pushed(text, SHELF), &left, &[])
}

#[test]
fn texts_are_refused(rt: HostRuntime) {
    for (text, said) in rows(REFUSED) {
        assert!(rt; is_refused(rt.alloc(), *text, *said));
    }
}

/// Comments of a length, read by 65,536 octets at a time, the reads that fail, and what comes of it. A fault behind the octets that are kept is a
/// fault of reading still.
const COMMENTS: &[(usize, &[u32], Left<'static>)] = &[
    (
        1_048_576,
        &[],
        Left {
            status: Status::InputRefused,
            sink: b"refused line 2 NoTransport\n",
            trace: b"",
        },
    ),
    (
        1_048_577,
        &[],
        Left {
            status: Status::InputRefused,
            sink: b"refused line 0 TooLong\n",
            trace: b"",
        },
    ),
    (
        1_300_000,
        &[19],
        Left {
            status: Status::ReadFault,
            sink: b"",
            trace: b"",
        },
    ),
];

/// A comment of that length.
fn comment(alloc: Global, length: usize) -> Option<Vec<u8>> {
    vec![in alloc; b'#'; length].ok()
}

/// Whether a comment of that length leaves this where the source fails so, and nothing else is touched.
fn comment_leaves(alloc: Global, length: usize, source: &'static [u32], left: &Left<'_>) -> bool {
    match comment(alloc, length) {
        Some(text) => {
            let failing = Failing { source, ..WELL };
            let given = Run {
                failing,
                ..plain("push", &text)
            };
            ends(alloc, &given, left, &[])
        }
        None => false,
    }
}

#[test]
fn lengths_have_their_limits(rt: HostRuntime) {
    for (length, failing, left) in rows(COMMENTS) {
        assert!(rt; comment_leaves(rt.alloc(), *length, *failing, left));
    }
}

/// A run that wants memory, and says nothing for that.
struct Short;

impl Judge for Short {
    fn judges(&self, _alloc: Global, status: Status, sink: &[u8], _trace: &[u8]) -> bool {
        status == Status::NoMemory && sink.is_empty()
    }
}

/// Whether a push into a full inbox ends so.
fn is_short(alloc: Global) -> bool {
    let mut inbox = FullInbox::new();
    ends_into(alloc, &pushed(SMALL, SHELF), &mut inbox, &Short)
}

#[test]
fn a_full_inbox_is_told(rt: HostRuntime) {
    assert!(rt; is_short(rt.alloc()));
}
