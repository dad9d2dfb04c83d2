//! Links that lose, repeat and damage frames, or break: what both hosts say then, frame by frame.

use crate::tests::pushing::{A, ABORT, B, HI, NOTHING, Row, pushed};
use crate::tests::runs::{Content, Judge, ends, rows};
use btpush_forms::Status;
use capture::{Entry, Flow, entries_of};
use h4_framing::Unit;
use push_terms::Side;
use std::alloc::Global;

/// A host, whether PDUs went out of it or came to it, how these begin, and how often that was. Each stands in one packet.
type Count = (Side, Flow, &'static [u8], usize);

/// A scenario, what it comes to, and how often some of its PDUs moved.
struct Case {
    row: Row,
    counts: &'static [Count],
}

/// A configuration response, and the request for the service.
const AGREEMENT: &[u8] = &[
    0x0A, 0x00, 0x01, 0x00, 0x05, 0x01, 0x06, 0x00, 0x40, 0x00, 0x00, 0x00, 0x00, 0x00,
];

const SERVICE_REQUEST: &[u8] = &[0x15, 0x00, 0x40, 0x00, 0x06];

/// The I-frame 1 of a host, which has the whole PUT of `hi`; the three of which the first has a start, where at most 48 octets stand in each.
const WHOLE: &[u8] = &[0x18, 0x00, 0x41, 0x00, 0x02];

const FIRST: &[u8] = &[0x34, 0x00, 0x41, 0x00, 0x02];

const SECOND: &[u8] = &[0x34, 0x00, 0x41, 0x00, 0x04];

const THIRD: &[u8] = &[0x1C, 0x00, 0x41, 0x00, 0x06];

/// The I-frame with the success response to that PUT, and the RR for it.
const STORED: &[u8] = &[0x07, 0x00, 0x41, 0x00, 0x02, 0x02, 0xA0, 0x00, 0x03];

const RECEIVED: &[u8] = &[0x04, 0x00, 0x41, 0x00, 0x01, 0x02];

/// A poll, the answer to it, and a REJ.
const POLL: &[u8] = &[0x04, 0x00, 0x41, 0x00, 0x11];

const ANSWER: &[u8] = &[0x04, 0x00, 0x41, 0x00, 0x81];

const REJECT: &[u8] = &[0x04, 0x00, 0x41, 0x00, 0x05];

const CASES: &[Case] = &[
    // The link breaks where the success response waits as the first frame to host a: the object is stored, and is not pushed again.
    Case {
        row: Row {
            text: "transport l2cap\nobject a\nobject b\nradio\n24 pass\n1 drop\n2832 pass\n",
            objects: &[("a", HI), ("b", NOTHING)],
            status: Status::SomeFailed,
            begins: "1 link-lost a\n2 done b\nkept 2\nbuffers ",
            ends: "\nwindow 1 1\ncredits 0 0\n",
            stored: &[(A, HI), (B, NOTHING)],
            packets: &[],
            absent: &[],
        },
        counts: &[
            (Side::A, Flow::Out, WHOLE, 1),
            (Side::B, Flow::Out, RECEIVED, 2),
            (Side::A, Flow::Into, RECEIVED, 2),
            (Side::B, Flow::Out, STORED, 2),
            (Side::A, Flow::Into, STORED, 1),
        ],
    },
    // An I-frame and the REJ for it are lost: host a polls, and sends again from the frame that the answer asks for. A repeat of that answer
    // changes nothing.
    Case {
        row: Row {
            text: "transport l2cap\nmps 48\nobject a\nradio\n22 pass\n1 lose ab\n1 pass\n1 lose ba\n1 timer a\n2 pass\n1 repeat ba\n3600 pass\n",
            objects: &[("a", Content::Filled(100))],
            status: Status::Ok,
            begins: "1 done a\nkept 1\nbuffers ",
            ends: "\nwindow 3 1\ncredits 0 0\n",
            stored: &[(A, Content::Filled(100))],
            packets: &[],
            absent: &[],
        },
        counts: &[
            (Side::A, Flow::Out, FIRST, 2),
            (Side::A, Flow::Out, SECOND, 2),
            (Side::A, Flow::Out, THIRD, 2),
            (Side::B, Flow::Into, FIRST, 1),
            (Side::B, Flow::Into, SECOND, 2),
            (Side::B, Flow::Into, THIRD, 2),
            (Side::B, Flow::Out, REJECT, 1),
            (Side::A, Flow::Into, REJECT, 0),
            (Side::A, Flow::Out, POLL, 1),
            (Side::B, Flow::Out, ANSWER, 1),
            (Side::A, Flow::Into, ANSWER, 2),
        ],
    },
    // The same I-frame is lost as often as it may be sent.
    Case {
        row: Row {
            text: "transport l2cap\ntries 2\nobject a\nobject b\nradio\n22 pass\n1 lose ab\n3 pass\n1 lose ab\n2832 pass\n",
            objects: &[("a", HI), ("b", NOTHING)],
            status: Status::SomeFailed,
            begins: "1 retry-limit a\n2 done b\nkept 1\nbuffers ",
            ends: "\nwindow 1 1\ncredits 0 0\n",
            stored: &[(B, NOTHING)],
            packets: &[],
            absent: &[],
        },
        counts: &[
            (Side::A, Flow::Out, WHOLE, 2),
            (Side::B, Flow::Into, WHOLE, 0),
        ],
    },
    // One I-frame is damaged behind its head, and the next in its check word: both are dropped and sent again.
    Case {
        row: Row {
            text: "transport l2cap\nmps 48\nobject a\nradio\n22 pass\n1 damage ab 4 0001\n1 damage ab 54 0001\n3600 pass\n",
            objects: &[("a", Content::Filled(100))],
            status: Status::Ok,
            begins: "1 done a\nkept 1\nbuffers ",
            ends: "\nwindow 3 1\ncredits 0 0\n",
            stored: &[(A, Content::Filled(100))],
            packets: &[],
            absent: &[],
        },
        counts: &[
            (Side::A, Flow::Out, FIRST, 2),
            (Side::A, Flow::Out, SECOND, 2),
            (Side::B, Flow::Into, FIRST, 2),
            (Side::B, Flow::Into, SECOND, 2),
            (Side::B, Flow::Out, REJECT, 1),
        ],
    },
    // A request for the service is damaged, which no check word shows: it is lost, and is asked again.
    Case {
        row: Row {
            text: "transport l2cap\nobject a\nradio\n6 pass\n1 damage ab 8 0001\n2432 pass\n",
            objects: &[("a", HI)],
            status: Status::Ok,
            begins: "1 done a\nkept 1\nbuffers ",
            ends: "\nwindow 1 1\ncredits 0 0\n",
            stored: &[(A, HI)],
            packets: &[],
            absent: &[],
        },
        counts: &[
            (Side::A, Flow::Out, SERVICE_REQUEST, 2),
            (Side::B, Flow::Into, SERVICE_REQUEST, 1),
        ],
    },
    // The configuration response of host a is lost: host b takes the request for the service as agreement. Its own request, which its timer
    // sent once more, gets the same response.
    Case {
        row: Row {
            text: "transport l2cap\nobject a\nradio\n5 pass\n1 lose ab\n1 timer b\n2432 pass\n",
            objects: &[("a", HI)],
            status: Status::Ok,
            begins: "1 done a\nkept 1\nbuffers ",
            ends: "\nwindow 1 1\ncredits 0 0\n",
            stored: &[(A, HI)],
            packets: &[],
            absent: &[],
        },
        counts: &[
            (Side::A, Flow::Out, AGREEMENT, 2),
            (Side::B, Flow::Into, AGREEMENT, 1),
            (Side::A, Flow::Out, SERVICE_REQUEST, 1),
        ],
    },
    // The same, where it is the air that repeats the request.
    Case {
        row: Row {
            text: "transport l2cap\nobject a\nradio\n4 pass\n1 repeat ba\n1 lose ab\n2432 pass\n",
            objects: &[("a", HI)],
            status: Status::Ok,
            begins: "1 done a\nkept 1\nbuffers ",
            ends: "\nwindow 1 1\ncredits 0 0\n",
            stored: &[(A, HI)],
            packets: &[],
            absent: &[],
        },
        counts: &[
            (Side::A, Flow::Out, AGREEMENT, 2),
            (Side::B, Flow::Into, AGREEMENT, 1),
            (Side::A, Flow::Out, SERVICE_REQUEST, 1),
        ],
    },
];

/// Whether a packet is one that is counted.
fn is_counted(entry: &Entry<'_>, count: &Count) -> bool {
    let Entry::Moved {
        side,
        flow,
        unit: Unit::Acl { octets, .. },
    } = *entry
    else {
        return false;
    };
    side == count.0 && flow == count.1 && octets.starts_with(count.2)
}

/// How often what is counted stands in a capture.
fn times_in(entries: &[Entry<'_>], count: &Count) -> usize {
    let mut times = 0usize;
    for entry in entries {
        if is_counted(entry, count) {
            times = times.saturating_add(1);
        }
    }
    times
}

/// Whether everything is counted as often as it should be.
fn all_fit(entries: &[Entry<'_>], counts: &[Count]) -> bool {
    for count in counts {
        if times_in(entries, count) != count.3 {
            return false;
        }
    }
    true
}

impl Judge for Case {
    fn judges(&self, alloc: Global, status: Status, sink: &[u8], trace: &[u8]) -> bool {
        let fits = match entries_of(alloc, trace) {
            Ok(entries) => all_fit(&entries, self.counts),
            Err(_) => false,
        };
        fits && self.row.judges(alloc, status, sink, trace)
    }
}

/// Whether a scenario comes to what its row says, and everything is counted as often as it should be.
fn comes_true(alloc: Global, case: &Case) -> bool {
    ends(
        alloc,
        &pushed(case.row.text, case.row.objects),
        case,
        case.row.stored,
    )
}

#[test]
fn what_is_lost_is_said_again(rt: HostRuntime) {
    for case in rows(CASES) {
        assert!(rt; comes_true(rt.alloc(), case));
    }
}

/// Objects of more than 130 I-frames, of which the first copies of the frames 31, 63, 64 and 127 are lost: their numbers wrap twice. In single
/// response mode, and where each packet waits for its response.
const WRAPPED: [Row; 2] = [
    Row {
        text: "transport l2cap\nsrm on\nwindow 32\ntries 20\nobject a\nradio\n84 pass\n1 lose ab\n96 pass\n2 lose ab\n159 pass\n1 lose ab\n2244800 pass\n",
        objects: &[("a", Content::Filled(70_000))],
        status: Status::Ok,
        begins: "1 done a\nkept 1\nbuffers ",
        ends: "\nwindow 32 1\ncredits 0 0\n",
        stored: &[(A, Content::Filled(70_000))],
        packets: &[],
        absent: &[ABORT],
    },
    Row {
        text: "transport l2cap\nmtu 32767\nmps 500\nobex 32767\nwindow 32\ntries 20\nobject a\nradio\n81 pass\n1 lose ab\n96 pass\n2 lose ab\n133 pass\n1 lose ab\n20000 pass\n",
        objects: &[("a", Content::Filled(70_000))],
        status: Status::Ok,
        begins: "1 done a\nkept 1\nbuffers ",
        ends: "\nwindow 32 1\ncredits 0 0\n",
        stored: &[(A, Content::Filled(70_000))],
        packets: &[],
        absent: &[ABORT],
    },
];

/// The numbers of I-frames that came to host b one right behind the other, where those between them were lost.
const JUMPS: [(u8, u8); 3] = [(30, 32), (62, 1), (62, 0)];

/// The number of the I-frame that came to host b on the channel of Object Push, where an entry is one: behind the head of its PDU stands its
/// control field, whose bit 0 is clear.
fn number_of(entry: &Entry<'_>) -> Option<u8> {
    let Entry::Moved {
        side: Side::B,
        flow: Flow::Into,
        unit: Unit::Acl { octets, .. },
    } = *entry
    else {
        return None;
    };
    match octets {
        [_, _, 0x41, 0x00, control, ..] if control % 2 == 0 => Some(control / 2 % 64),
        _ => None,
    }
}

/// How often the second of two numbers comes right behind the first.
fn times_behind(entries: &[Entry<'_>], pair: (u8, u8)) -> usize {
    let (mut last, mut times) = (None, 0usize);
    for entry in entries {
        if let Some(number) = number_of(entry) {
            if last == Some(pair.0) && number == pair.1 {
                times = times.saturating_add(1);
            }
            last = Some(number);
        }
    }
    times
}

/// Whether each jump comes once.
fn all_jump(entries: &[Entry<'_>]) -> bool {
    for pair in rows(&JUMPS) {
        if times_behind(entries, *pair) != 1 {
            return false;
        }
    }
    true
}

/// A scenario and what it comes to, where the I-frames of the capture jump.
#[derive(Clone, Copy)]
struct Jumping<'a>(&'a Row);

impl<'a> Judge for Jumping<'a> {
    fn judges(&self, alloc: Global, status: Status, sink: &[u8], trace: &[u8]) -> bool {
        let jump = match entries_of(alloc, trace) {
            Ok(entries) => all_jump(&entries),
            Err(_) => false,
        };
        jump && self.0.judges(alloc, status, sink, trace)
    }
}

/// Whether a scenario comes to what its row says, and the I-frames of its capture jump where they should.
fn jumps_true(alloc: Global, row: &Row) -> bool {
    ends(
        alloc,
        &pushed(row.text, row.objects),
        &Jumping(row),
        row.stored,
    )
}

#[test]
fn numbers_of_frames_wrap_over_losses(rt: HostRuntime) {
    for row in rows(&WRAPPED) {
        assert!(rt; jumps_true(rt.alloc(), row));
    }
}
