use crate::tables::rows;
use sdp_client::*;
use std::alloc::Global;

fn is_asked(query: &mut Query, request: &[u8]) -> bool {
    let mut into = [0xAA; 48];
    match query.next_request(&mut into) {
        Some(end) => &into[..end] == request,
        None => false,
    }
}

const FIRST_REQUEST: [u8; 21] = [
    0x06, 0x00, 0x01, 0x00, 0x10, 0x35, 0x03, 0x19, 0x11, 0x05, 0x01, 0x00, 0x35, 0x06, 0x09, 0x00,
    0x04, 0x09, 0x02, 0x00, 0x00,
];

const SERVED: Found = Found::Service(Target {
    l2cap: Some(0x1001),
    rfcomm: Some(9),
});

/// The requests of a query, the replies to them, and what is found.
const PARTS: [(&[u8], &[u8], Found); 3] = [
    (
        &FIRST_REQUEST,
        &[
            0x07, 0x00, 0x01, 0x00, 0x13, 0x00, 0x0E, 0x35, 0x1E, 0x35, 0x1C, 0x09, 0x00, 0x04,
            0x35, 0x11, 0x35, 0x03, 0x19, 0x01, 0x00, 0x02, 0x00, 0x0E,
        ],
        Found::More,
    ),
    (
        &[
            0x06, 0x00, 0x02, 0x00, 0x12, 0x35, 0x03, 0x19, 0x11, 0x05, 0x01, 0x00, 0x35, 0x06,
            0x09, 0x00, 0x04, 0x09, 0x02, 0x00, 0x02, 0x00, 0x0E,
        ],
        &[
            0x07, 0x00, 0x02, 0x00, 0x13, 0x00, 0x0E, 0x35, 0x05, 0x19, 0x00, 0x03, 0x08, 0x09,
            0x35, 0x03, 0x19, 0x00, 0x08, 0x09, 0x02, 0x02, 0x00, 0x1C,
        ],
        Found::More,
    ),
    (
        &[
            0x06, 0x00, 0x03, 0x00, 0x12, 0x35, 0x03, 0x19, 0x11, 0x05, 0x01, 0x00, 0x35, 0x06,
            0x09, 0x00, 0x04, 0x09, 0x02, 0x00, 0x02, 0x00, 0x1C,
        ],
        &[
            0x07, 0x00, 0x03, 0x00, 0x07, 0x00, 0x04, 0x00, 0x09, 0x10, 0x01, 0x00,
        ],
        SERVED,
    ),
];

/// Whether a query asks and finds as the rows say, and asks each thing once.
fn is_joined(query: &mut Query) -> bool {
    for (request, reply, found) in rows(&PARTS) {
        if !is_asked(query, *request)
            || is_asked(query, *request)
            || query.on_reply(*reply) != *found
        {
            return false;
        }
    }
    true
}

#[test]
fn an_answer_in_parts_is_joined(rt: HostRuntime) {
    let mut query = Query::new(rt.alloc()).expect(&rt, "a query");
    assert!(rt; is_joined(&mut query));
}

const WHOLE_REPLY: [u8; 40] = [
    0x07, 0x00, 0x01, 0x00, 0x23, 0x00, 0x20, 0x35, 0x1E, 0x35, 0x1C, 0x09, 0x00, 0x04, 0x35, 0x11,
    0x35, 0x03, 0x19, 0x01, 0x00, 0x35, 0x05, 0x19, 0x00, 0x03, 0x08, 0x09, 0x35, 0x03, 0x19, 0x00,
    0x08, 0x09, 0x02, 0x00, 0x09, 0x10, 0x01, 0x00,
];

const WRONG: Found = Found::Refused(QueryReason::WrongTransaction);

/// A reply to another request.
const OTHER_REPLY: [u8; 7] = [0x01, 0x00, 0x02, 0x00, 0x02, 0x00, 0x04];

/// Whether replies that are none to what was asked change nothing.
fn asks_on(query: &mut Query) -> bool {
    query.on_reply(&WHOLE_REPLY) == WRONG
        && is_asked(query, &FIRST_REQUEST)
        && query.on_reply(&OTHER_REPLY) == WRONG
}

/// Whether what is asked again is found, and asked no more then.
fn finds_once(query: &mut Query) -> bool {
    query.resend();
    let is_found = is_asked(query, &FIRST_REQUEST) && query.on_reply(&WHOLE_REPLY) == SERVED;
    query.resend();
    is_found && !is_asked(query, &FIRST_REQUEST) && query.on_reply(&WHOLE_REPLY) == WRONG
}

#[test]
fn a_reply_to_another_request_changes_nothing(rt: HostRuntime) {
    let mut query = Query::new(rt.alloc()).expect(&rt, "a query");
    assert!(rt; asks_on(&mut query) && finds_once(&mut query));
}

/// Replies that end a query.
const REFUSALS: [(&[u8], QueryReason); 8] = [
    (&[0x07, 0x00], QueryReason::BadReply),
    (
        &[0x01, 0x00, 0x01, 0x00, 0x02, 0x00, 0x04],
        QueryReason::ErrorCode(4),
    ),
    (&[0x01, 0x00, 0x01, 0x00, 0x01, 0x04], QueryReason::BadReply),
    (
        &[0x03, 0x00, 0x01, 0x00, 0x05, 0x00, 0x02, 0x35, 0x00, 0x00],
        QueryReason::BadReply,
    ),
    // a count past the parameters, no octets before a continuation state, and one of 17 octets
    (
        &[0x07, 0x00, 0x01, 0x00, 0x05, 0x00, 0x03, 0x35, 0x00, 0x00],
        QueryReason::BadReply,
    ),
    (
        &[0x07, 0x00, 0x01, 0x00, 0x04, 0x00, 0x00, 0x01, 0x00],
        QueryReason::BadReply,
    ),
    (
        &[
            0x07, 0x00, 0x01, 0x00, 0x15, 0x00, 0x01, 0x35, 0x11, 0x00, 0x00, 0x00, 0x00, 0x00,
            0x00, 0x00, 0x00, 0x00, 0x00, 0x00, 0x00, 0x00, 0x00, 0x00, 0x00, 0x00,
        ],
        QueryReason::BadReply,
    ),
    // an answer with something behind it
    (
        &[
            0x07, 0x00, 0x01, 0x00, 0x06, 0x00, 0x03, 0x35, 0x00, 0x00, 0x00,
        ],
        QueryReason::BadReply,
    ),
];

/// Whether a query that begins anew ends for good with that reply.
fn is_refused(query: &mut Query, reply: &[u8], reason: QueryReason) -> bool {
    query.reset();
    is_asked(query, &FIRST_REQUEST)
        && query.on_reply(reply) == Found::Refused(reason)
        && query.on_reply(&WHOLE_REPLY) == Found::Refused(reason)
        && !is_asked(query, &FIRST_REQUEST)
}

/// Whether each reply of the rows ends it.
fn all_are_refused(query: &mut Query) -> bool {
    for (reply, reason) in rows(&REFUSALS) {
        if !is_refused(query, *reply, *reason) {
            return false;
        }
    }
    true
}

#[test]
fn refusals_are_for_good(rt: HostRuntime) {
    let mut query = Query::new(rt.alloc()).expect(&rt, "a query");
    assert!(rt; all_are_refused(&mut query));
}

/// Whether an answer of 4097 octets is refused.
fn finds_too_much(query: &mut Query) -> bool {
    let mut reply = [0; 4105];
    reply[..7].copy_from_slice(&[0x07, 0x00, 0x01, 0x10, 0x04, 0x10, 0x01]);
    is_asked(query, &FIRST_REQUEST)
        && query.on_reply(&reply) == Found::Refused(QueryReason::TooLong)
}

#[test]
fn an_answer_of_4097_octets_is_too_long(rt: HostRuntime) {
    let mut query = Query::new(rt.alloc()).expect(&rt, "a query");
    assert!(rt; finds_too_much(&mut query));
}

/// What a query finds in a whole answer of at most 48 octets.
fn found_of(alloc: Global, answer: &[u8]) -> Option<Found> {
    if answer.len() > 48 {
        return None;
    }
    let Ok(mut query) = Query::new(alloc) else {
        return None;
    };
    if !is_asked(&mut query, &FIRST_REQUEST) {
        return None;
    }
    let count = answer.len() as u8;
    let end = 7 + answer.len();
    let mut reply = [0; 56];
    reply[..7].copy_from_slice(&[0x07, 0x00, 0x01, 0x00, 3 + count, 0x00, count]);
    reply[7..end].copy_from_slice(answer);
    Some(query.on_reply(&reply[..=end]))
}

const BY_RFCOMM: Found = Found::Service(Target {
    l2cap: None,
    rfcomm: Some(5),
});

const BY_L2CAP: Found = Found::Service(Target {
    l2cap: Some(0x1005),
    rfcomm: None,
});

/// Answers, and what a query finds in them.
const WAYS: [(&[u8], Found); 7] = [
    (&[0x35, 0x00], Found::NoService),
    (&[0x35, 0x02, 0x35, 0x00], Found::NoService),
    // the PSM of service discovery, and the server channel 31
    (
        &[
            0x35, 0x16, 0x35, 0x14, 0x09, 0x02, 0x00, 0x09, 0x00, 0x01, 0x09, 0x00, 0x04, 0x35,
            0x09, 0x35, 0x05, 0x19, 0x00, 0x03, 0x08, 0x1F, 0x35, 0x00,
        ],
        Found::NoService,
    ),
    // two service records: the first has no PSM that a service may have
    (
        &[
            0x35, 0x10, 0x35, 0x06, 0x09, 0x02, 0x00, 0x09, 0x00, 0x02, 0x35, 0x06, 0x09, 0x02,
            0x00, 0x09, 0x10, 0x05,
        ],
        BY_L2CAP,
    ),
    // RFCOMM in four octets
    (
        &[
            0x35, 0x10, 0x35, 0x0E, 0x09, 0x00, 0x04, 0x35, 0x09, 0x35, 0x07, 0x1A, 0x00, 0x00,
            0x00, 0x03, 0x08, 0x05,
        ],
        BY_RFCOMM,
    ),
    // an identifier without a value, and a service record that is no sequence
    (
        &[0x35, 0x05, 0x35, 0x03, 0x09, 0x02, 0x00],
        Found::Refused(QueryReason::BadReply),
    ),
    (
        &[0x35, 0x02, 0x08, 0x00],
        Found::Refused(QueryReason::BadReply),
    ),
];

#[test]
fn the_first_way_that_is_named_counts(rt: HostRuntime) {
    for (answer, found) in rows(&WAYS) {
        assert!(rt; found_of(rt.alloc(), answer) == Some(*found));
    }
}
