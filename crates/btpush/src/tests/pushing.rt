//! Pushes: scenarios of every kind, and what comes of them.

use crate::tests::runs::{
    Content, Judge, Run, Stored, WELL, contains_all, contains_none, ends, rows, shows,
};
use btpush_forms::Status;
use std::alloc::Global;

/// A scenario, its objects, and what comes of it: the status, how the report begins and ends, what is stored, packets that stand in the
/// capture, and packets that do not.
pub(crate) struct Row {
    pub(crate) text: &'static str,
    pub(crate) objects: &'static [(&'static str, Content)],
    pub(crate) status: Status,
    pub(crate) begins: &'static str,
    pub(crate) ends: &'static str,
    pub(crate) stored: &'static [Stored],
    pub(crate) packets: &'static [&'static [u8]],
    pub(crate) absent: &'static [&'static [u8]],
}

impl Judge for Row {
    fn judges(&self, _alloc: Global, status: Status, sink: &[u8], trace: &[u8]) -> bool {
        status == self.status
            && sink.starts_with(self.begins.as_bytes())
            && sink.ends_with(self.ends.as_bytes())
            && contains_all(trace, self.packets)
            && contains_none(trace, self.absent)
            && !trace.is_empty()
    }
}

/// The name `a`, and `b`, in UTF-16 units.
pub(crate) const A: &[u16] = &[0x61];

pub(crate) const B: &[u16] = &[0x62];

pub(crate) const HI: Content = Content::Text(b"hi");

pub(crate) const NOTHING: Content = Content::Text(b"");

/// A shelf with the one object `hi` under the name `a`, and an inbox that stored it.
pub(crate) const SHELF: &[(&'static str, Content)] = &[("a", HI)];

pub(crate) const INBOX: &[Stored] = &[(A, HI)];

/// CONNECT, the PUT of `hi` under the name `a`, and the response to it.
const CONNECT: &[u8] = &[0x80, 0x00, 0x07, 0x10, 0x00, 0x04, 0x00];

pub(crate) const PUT: &[u8] = &[
    0x82, 0x00, 0x14, 0x01, 0x00, 0x07, 0x00, 0x61, 0x00, 0x00, 0xC3, 0x00, 0x00, 0x00, 0x02, 0x49,
    0x00, 0x05, 0x68, 0x69,
];

const SUCCESS: &[u8] = &[0xA0, 0x00, 0x03];

/// The PUT of an empty object.
const EMPTY_PUT: &[u8] = &[
    0x82, 0x00, 0x12, 0x01, 0x00, 0x07, 0x00, 0x61, 0x00, 0x00, 0xC3, 0x00, 0x00, 0x00, 0x00, 0x49,
    0x00, 0x03,
];

/// ABORT.
pub(crate) const ABORT: &[u8] = &[0xFF, 0x00, 0x03];

const ROWS: &[Row] = &[
    Row {
        text: "transport l2cap\nobject a\nradio\n1216 pass\n",
        objects: &[("a", HI)],
        status: Status::Ok,
        begins: "1 done a\nkept 1\nbuffers ",
        ends: "\nwindow 1 1\ncredits 0 0\n",
        stored: &[(A, HI)],
        packets: &[CONNECT, PUT, SUCCESS],
        absent: &[ABORT],
    },
    Row {
        text: "transport l2cap\nobject a\nradio\n1200 pass\n",
        objects: &[("a", NOTHING)],
        status: Status::Ok,
        begins: "1 done a\nkept 1\nbuffers ",
        ends: "\nwindow 1 1\ncredits 0 0\n",
        stored: &[(A, NOTHING)],
        packets: &[CONNECT, EMPTY_PUT, SUCCESS],
        absent: &[ABORT],
    },
    Row {
        text: "transport l2cap\nobject a\nradio\n8 pass\n",
        objects: &[("a", HI)],
        status: Status::SomeFailed,
        begins: "1 script-ended a\nkept 0\nbuffers ",
        ends: "\ncredits 0 0\n",
        stored: &[],
        packets: &[],
        absent: &[PUT, ABORT],
    },
    Row {
        text: "transport l2cap\nacl 27 1\nobject a\nradio\n1216 pass\n",
        objects: &[("a", HI)],
        status: Status::Ok,
        begins: "1 done a\nkept 1\nbuffers 1 1\nwindow 1 1\ncredits 0 0\n",
        ends: "",
        stored: &[(A, HI)],
        packets: &[],
        absent: &[],
    },
    Row {
        text: "transport l2cap\nserves rfcomm\nobject a\nradio\n1216 pass\n",
        objects: &[("a", HI)],
        status: Status::SomeFailed,
        begins: "1 no-service a\nkept 0\nbuffers ",
        ends: "\nwindow 0 0\ncredits 0 0\n",
        stored: &[],
        packets: &[],
        absent: &[CONNECT],
    },
    Row {
        text: "transport rfcomm\ncredits 1\nobject a\nradio\n9200 pass\n",
        objects: &[("a", Content::Filled(1000))],
        status: Status::Ok,
        begins: "1 done a\nkept 1\nbuffers ",
        ends: "\nwindow 0 0\ncredits 1 1\n",
        stored: &[(A, Content::Filled(1000))],
        packets: &[],
        absent: &[ABORT],
    },
    Row {
        text: "transport l2cap\nobject a\nradio\n1 drop\n1216 pass\n",
        objects: &[("a", HI)],
        status: Status::SomeFailed,
        begins: "1 link-lost a\nkept 0\nbuffers 1 0\nwindow 0 0\ncredits 0 0\n",
        ends: "",
        stored: &[],
        packets: &[],
        absent: &[CONNECT],
    },
    Row {
        text: "transport l2cap\ntries 2\nobject a\nradio\n2 timer a\n2000 pass\n",
        objects: &[("a", HI)],
        status: Status::SomeFailed,
        begins: "1 retry-limit a\nkept 0\nbuffers 1 0\nwindow 0 0\ncredits 0 0\n",
        ends: "",
        stored: &[],
        packets: &[],
        absent: &[CONNECT],
    },
    Row {
        text: "transport l2cap\nobject a\nobject b\nradio\n1 cancel\n2416 pass\n",
        objects: &[("a", HI), ("b", NOTHING)],
        status: Status::SomeFailed,
        begins: "1 cancelled a\n2 done b\nkept 1\nbuffers ",
        ends: "\nwindow 1 1\ncredits 0 0\n",
        stored: &[(B, NOTHING)],
        packets: &[],
        absent: &[PUT, ABORT],
    },
    Row {
        text: "transport l2cap\nobject a\nradio\n1 lose ab\n2432 pass\n",
        objects: &[("a", HI)],
        status: Status::Ok,
        begins: "1 done a\nkept 1\nbuffers ",
        ends: "\nwindow 1 1\ncredits 0 0\n",
        stored: &[(A, HI)],
        packets: &[CONNECT, PUT, SUCCESS],
        absent: &[ABORT],
    },
    Row {
        text: "transport l2cap\nobject a\nobject b\nradio\n1 lose ab\n1 drop\n2832 pass\n",
        objects: &[("a", HI), ("b", NOTHING)],
        status: Status::SomeFailed,
        begins: "1 link-lost a\n2 done b\nkept 1\nbuffers ",
        ends: "\nwindow 1 1\ncredits 0 0\n",
        stored: &[(B, NOTHING)],
        packets: &[],
        absent: &[PUT, ABORT],
    },
    Row {
        text: "transport l2cap\nwindow 63\nmps 48\nsrm on\ntries 20\nobject a\nradio\n60 pass\n1 lose ab\n101600 pass\n",
        objects: &[("a", Content::Filled(6200))],
        status: Status::Ok,
        begins: "1 done a\nkept 1\nbuffers ",
        ends: "\ncredits 0 0\n",
        stored: &[(A, Content::Filled(6200))],
        packets: &[],
        absent: &[ABORT],
    },
    Row {
        text: "transport rfcomm\nobject a\nradio\n1216 pass\n",
        objects: &[("a", HI)],
        status: Status::Ok,
        begins: "1 done a\nkept 1\nbuffers ",
        ends: "\nwindow 0 0\ncredits 7 7\n",
        stored: &[(A, HI)],
        packets: &[],
        absent: &[ABORT],
    },
    Row {
        text: "transport l2cap\nacl 27 1\nchunk 1\nmtu 255\nmps 48\nobex 255\nobject a\nobject b\nradio\n20000 pass\n",
        objects: &[("a", Content::Filled(1000)), ("b", Content::Filled(1000))],
        status: Status::Ok,
        begins: "1 done a\n2 done b\nkept 2\nbuffers 1 1\n",
        ends: "\nwindow 6 1\ncredits 0 0\n",
        stored: &[(A, Content::Filled(1000)), (B, Content::Filled(1000))],
        packets: &[],
        absent: &[],
    },
    Row {
        text: "transport l2cap\nsrm on\nwindow 32\nmps 100\nobject a\nobject b\nradio\n40 pass\n1 lose ab\n7 pass\n1 lose ba\n2 damage ab 9 0101\n1 repeat ab\n40 pass\n2 cut ab 1\n90000 pass\n",
        objects: &[("a", Content::Filled(20000)), ("b", Content::Filled(20000))],
        status: Status::Ok,
        begins: "1 done a\n2 done b\nkept 2\nbuffers ",
        ends: "\nwindow 32 1\ncredits 0 0\n",
        stored: &[(A, Content::Filled(20000)), (B, Content::Filled(20000))],
        packets: &[],
        absent: &[],
    },
    Row {
        text: "transport l2cap\nobject a\nobject b\nradio\n20 pass\n1 drop\n9000 pass\n",
        objects: &[("a", Content::Filled(20000)), ("b", Content::Filled(20000))],
        status: Status::SomeFailed,
        begins: "1 link-lost a\n2 done b\nkept 1\nbuffers ",
        ends: "\nwindow 2 1\ncredits 0 0\n",
        stored: &[(B, Content::Filled(20000))],
        packets: &[],
        absent: &[],
    },
    Row {
        text: "transport rfcomm\ncredits 1\nobject a\nobject b\nradio\n40 pass\n1 cancel\n90000 pass\n",
        objects: &[("a", Content::Filled(20000)), ("b", Content::Filled(20000))],
        status: Status::SomeFailed,
        begins: "1 cancelled a\n2 done b\nkept 1\nbuffers ",
        ends: "\nwindow 0 0\ncredits 1 1\n",
        stored: &[(B, Content::Filled(20000))],
        packets: &[],
        absent: &[],
    },
    Row {
        text: "transport l2cap\ntries 2\nobject a\nradio\n1 lose ab\n1 pass\n1 lose ab\n1216 pass\n",
        objects: &[("a", HI)],
        status: Status::SomeFailed,
        begins: "1 retry-limit a\nkept 0\nbuffers ",
        ends: "\nwindow 0 0\ncredits 0 0\n",
        stored: &[],
        packets: &[],
        absent: &[CONNECT],
    },
    Row {
        text: "transport rfcomm\nserves l2cap\nobject a\nradio\n1216 pass\n",
        objects: &[("a", HI)],
        status: Status::SomeFailed,
        begins: "1 no-service a\nkept 0\nbuffers ",
        ends: "\nwindow 0 0\ncredits 0 0\n",
        stored: &[],
        packets: &[],
        absent: &[CONNECT],
    },
    Row {
        text: "transport l2cap\nobject c\nobject b\nradio\n1216 pass\n",
        objects: &[("b", HI)],
        status: Status::SomeFailed,
        begins: "1 shelf c\n2 done b\nkept 1\nbuffers ",
        ends: "\nwindow 1 1\ncredits 0 0\n",
        stored: &[(B, HI)],
        packets: &[],
        absent: &[],
    },
    Row {
        text: "transport l2cap\nobject a\nobject b\nradio\n1 pass\n",
        objects: &[("a", HI), ("b", HI)],
        status: Status::SomeFailed,
        begins: "1 script-ended a\n2 script-ended b\nkept 0\nbuffers ",
        ends: "\nwindow 0 0\ncredits 0 0\n",
        stored: &[],
        packets: &[],
        absent: &[CONNECT],
    },
];

/// A push of these objects in a scenario.
pub(crate) fn pushed<'a>(text: &'a str, objects: &'static [(&'static str, Content)]) -> Run<'a> {
    Run {
        line: "push",
        input: text.as_bytes(),
        step: 7,
        objects,
        failing: WELL,
    }
}

/// Whether a scenario comes to what its row says.
fn comes_true(alloc: Global, row: &Row) -> bool {
    ends(alloc, &pushed(row.text, row.objects), row, row.stored)
}

#[test]
fn scenarios_come_to_what_they_should(rt: HostRuntime) {
    for row in rows(ROWS) {
        assert!(rt; comes_true(rt.alloc(), row));
    }
}

/// Three objects over a link that loses and repeats, with a window of 32 and single response mode.
const LONG: Row = Row {
    text: "transport l2cap\nsrm on\nwindow 32\nobject card.vcf\nobject photo.jpg\nobject größe.txt\nradio\n60 pass\n1 lose ab\n200 pass\n1 lose ba\n1 repeat ab\n6455000 pass\n",
    objects: &[
        ("card.vcf", Content::Filled(312)),
        ("photo.jpg", Content::Filled(200_000)),
        ("größe.txt", Content::Filled(1204)),
    ],
    status: Status::Ok,
    begins: "1 done card.vcf\n2 done photo.jpg\n3 done größe.txt\nkept 3\nbuffers ",
    ends: "\nwindow 32 1\ncredits 0 0\n",
    stored: &[
        (
            &[0x63, 0x61, 0x72, 0x64, 0x2E, 0x76, 0x63, 0x66],
            Content::Filled(312),
        ),
        (
            &[0x70, 0x68, 0x6F, 0x74, 0x6F, 0x2E, 0x6A, 0x70, 0x67],
            Content::Filled(200_000),
        ),
        (
            &[0x67, 0x72, 0xF6, 0xDF, 0x65, 0x2E, 0x74, 0x78, 0x74],
            Content::Filled(1204),
        ),
    ],
    packets: &[],
    absent: &[ABORT],
};

#[test]
fn three_objects_cross_a_link_that_loses(rt: HostRuntime) {
    assert!(rt; comes_true(rt.alloc(), &LONG));
}

/// What the view of a capture ends with.
struct Shows(&'static [u8]);

impl Judge for Shows {
    fn judges(&self, alloc: Global, status: Status, _sink: &[u8], trace: &[u8]) -> bool {
        status == Status::Ok && shows(alloc, trace, self.0)
    }
}

/// Whether the view of the capture of a push of `hi` ends with the line of that object.
fn tells_its_object(alloc: Global) -> bool {
    let given = pushed("transport l2cap\nobject a\nradio\n1216 pass\n", SHELF);
    ends(alloc, &given, &Shows(b"\nobject 0061 2\n"), INBOX)
}

#[test]
fn a_capture_tells_its_object(rt: HostRuntime) {
    assert!(rt; tells_its_object(rt.alloc()));
}
