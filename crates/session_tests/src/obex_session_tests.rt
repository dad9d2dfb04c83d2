ghost use Rattle.std.specs.Prelude.{◌≡◌, ◌≤◌, ◌<◌, ◌^◌, None, IsSome, is_some, length};
ghost use Rattle.obex_session.specs.Rules.{is_under_way, progress_in};

use obex_headers::ObexRefusal;
use obex_session::{Answered, ClientSession, PutNext, Reply, ServerSession};
use ready_ports::{MemInbox, MemShelf};
use std::alloc::Global;
use std::test::Fail;

/// CONNECT with version 1.0, no flags and a maximum of 1,024 octets.
const CONNECT: [u8; 7] = [0x80, 0x00, 0x07, 0x10, 0x00, 0x04, 0x00];

/// Its response, with the same maximum.
const CONNECTED: [u8; 7] = [0xA0, 0x00, 0x07, 0x10, 0x00, 0x04, 0x00];

const SUCCESS: [u8; 3] = [0xA0, 0x00, 0x03];

const CONTINUE: [u8; 3] = [0x90, 0x00, 0x03];

/// Single response mode is confirmed.
const CONFIRMED: [u8; 5] = [0x90, 0x00, 0x05, 0x97, 0x01];

const BAD: [u8; 3] = [0xC0, 0x00, 0x03];

const TOO_LARGE: [u8; 3] = [0xCD, 0x00, 0x03];

const FAILED: [u8; 3] = [0xD0, 0x00, 0x03];

const NOT_IMPLEMENTED: [u8; 3] = [0xD1, 0x00, 0x03];

/// `hi`, named `a`, in one packet.
const PUT_HI: [u8; 20] = [
    0x82, 0x00, 0x14, 0x01, 0x00, 0x07, 0x00, 0x61, 0x00, 0x00, 0xC3, 0x00, 0x00, 0x00, 0x02, 0x49,
    0x00, 0x05, 0x68, 0x69,
];

/// An object without octets, named `a`.
const PUT_NOTHING: [u8; 18] = [
    0x82, 0x00, 0x12, 0x01, 0x00, 0x07, 0x00, 0x61, 0x00, 0x00, 0xC3, 0x00, 0x00, 0x00, 0x00, 0x49,
    0x00, 0x03,
];

/// The first PUT of an object named `a`, with `h`.
const PUT_H: [u8; 14] = [
    0x02, 0x00, 0x0E, 0x01, 0x00, 0x07, 0x00, 0x61, 0x00, 0x00, 0x48, 0x00, 0x04, 0x68,
];

/// The same with single response mode.
const PUT_H_SINGLE: [u8; 16] = [
    0x02, 0x00, 0x10, 0x01, 0x00, 0x07, 0x00, 0x61, 0x00, 0x00, 0x97, 0x01, 0x48, 0x00, 0x04, 0x68,
];

/// A further PUT with `i`.
const PUT_I: [u8; 7] = [0x02, 0x00, 0x07, 0x48, 0x00, 0x04, 0x69];

/// The final PUT with `!`.
const PUT_END: [u8; 7] = [0x82, 0x00, 0x07, 0x49, 0x00, 0x04, 0x21];

/// A Name alone.
const PUT_NAME: [u8; 10] = [0x02, 0x00, 0x0A, 0x01, 0x00, 0x07, 0x00, 0x61, 0x00, 0x00];

const ABORT: [u8; 3] = [0xFF, 0x00, 0x03];

const DISCONNECT: [u8; 3] = [0x81, 0x00, 0x03];

/// A PUT that states another length than it has.
const TORN: [u8; 4] = [0x02, 0x00, 0x05, 0x48];

const GET: [u8; 3] = [0x83, 0x00, 0x03];

/// Nothing is said.
const SILENCE: [u8; 0] = [];

/// Whether a packet is answered so; no octets stand for silence.
fn answers(session: &mut ServerSession, inbox: &mut MemInbox, packet: &[u8], wanted: &[u8]) -> bool
    requires { is_some inbox.old.contents.pending ≡ is_under_way (progress_in session.old.course) }
    ensures { is_some inbox.new.contents.pending ≡ is_under_way (progress_in session.new.course) }
{
    let mut into = [0u8; 9];
    match session.on_packet(packet, inbox, &mut into) {
        Reply::Respond(count) => count <= 9 && &into[..count] == wanted,
        Reply::Silent => wanted.is_empty(),
        Reply::NoMemory => false,
    }
}

/// How many packets are answered as they should be, up to the first that is not.
fn rows_answered(
    session: &mut ServerSession,
    inbox: &mut MemInbox,
    rows: &[(&[u8], &[u8])],
) -> usize
    requires { is_some inbox.old.contents.pending ≡ is_under_way (progress_in session.old.course) }
    ensures { is_some inbox.new.contents.pending ≡ is_under_way (progress_in session.new.course) }
{
    for (i, (packet, wanted)) in rows.iter().enumerate() {
        if !answers(session, inbox, packet, wanted) {
            return i;
        }
    }
    rows.len()
}

/// Whether the inbox holds one object, named `a`, with these octets.
fn holds(inbox: &MemInbox, octets: &[u8]) -> bool {
    inbox.len() == 1
        && inbox.name_at(0) == Some([0x61u16].as_slice())
        && inbox.octets_at(0) == Some(octets)
}

/// What a client says, how each packet is answered, and what is stored then. The calls of the inbox of these numbers fail.
struct Talk {
    maximum: u16,
    single: bool,
    failing: &'static [u32],
    rows: &'static [(&'static [u8], &'static [u8])],
    stored: Option<&'static [u8]>,
}

const PUSH: Talk = Talk {
    maximum: 1024,
    single: false,
    failing: &[],
    rows: &[
        (&CONNECT, &CONNECTED),
        (&PUT_HI, &SUCCESS),
        (&DISCONNECT, &SUCCESS),
    ],
    stored: Some(b"hi"),
};

const SEVERAL_PACKETS: Talk = Talk {
    maximum: 255,
    single: false,
    failing: &[],
    rows: &[
        (&PUT_H_SINGLE, &CONTINUE),
        (&PUT_I, &CONTINUE),
        (&PUT_END, &SUCCESS),
    ],
    stored: Some(b"hi!"),
};

const SINGLE_RESPONSE: Talk = Talk {
    maximum: 255,
    single: true,
    failing: &[],
    rows: &[
        (&PUT_H_SINGLE, &CONFIRMED),
        (&PUT_I, &SILENCE),
        (&PUT_END, &SUCCESS),
        (&PUT_I, &BAD),
    ],
    stored: Some(b"hi!"),
};

const BREAKS_A_RULE: Talk = Talk {
    maximum: 255,
    single: false,
    failing: &[],
    rows: &[
        (&PUT_H, &CONTINUE),
        (&PUT_H, &BAD),
        (&PUT_I, &BAD),
        (&PUT_END, &BAD),
        (&PUT_NAME, &CONTINUE),
        (&[0x82, 0x00, 0x03], &BAD),
        (&PUT_H, &CONTINUE),
        (&TORN, &BAD),
        (&PUT_H, &CONTINUE),
        (&GET, &NOT_IMPLEMENTED),
        (&[0x80], &[0xC0, 0x00, 0x07, 0x10, 0x00, 0x00, 0xFF]),
        (&PUT_H, &CONTINUE),
        (&ABORT, &SUCCESS),
        (&PUT_END, &BAD),
    ],
    stored: None,
};

/// After a refusal in single response mode the rest is passed over.
const PASSED_OVER: Talk = Talk {
    maximum: 255,
    single: true,
    failing: &[],
    rows: &[
        (&PUT_H_SINGLE, &CONFIRMED),
        (&TORN, &BAD),
        (&PUT_I, &SILENCE),
        (&TORN, &BAD),
        (&PUT_I, &SILENCE),
        (&PUT_END, &SILENCE),
        (&PUT_I, &BAD),
        (&PUT_H_SINGLE, &CONFIRMED),
        (&PUT_H, &BAD),
        (&PUT_H, &CONTINUE),
        (&PUT_I, &CONTINUE),
        (&PUT_H, &BAD),
        (&PUT_H_SINGLE, &CONFIRMED),
        (&PUT_NAME, &BAD),
        (&ABORT, &SUCCESS),
        (&PUT_I, &BAD),
        (&PUT_HI, &SUCCESS),
    ],
    stored: Some(b"hi"),
};

/// A call of the inbox that fails is answered as an internal error.
const FAILING_INBOX: Talk = Talk {
    maximum: 255,
    single: true,
    failing: &[1, 3, 6, 8],
    rows: &[
        (&PUT_HI, &FAILED),
        (&PUT_H_SINGLE, &FAILED),
        (&PUT_I, &BAD),
        (&PUT_H_SINGLE, &CONFIRMED),
        (&PUT_I, &FAILED),
        (&PUT_I, &SILENCE),
        (&ABORT, &SUCCESS),
        (&PUT_NAME, &CONTINUE),
        (&DISCONNECT, &FAILED),
    ],
    stored: None,
};

/// Whether all is answered as a talk says, and stored.
fn is_talked(session: &mut ServerSession, inbox: &mut MemInbox, talk: &Talk) -> bool
    requires { is_some inbox.old.contents.pending ≡ is_under_way (progress_in session.old.course) }
{
    rows_answered(session, inbox, talk.rows) == talk.rows.len()
        && match talk.stored {
            Some(octets) => holds(inbox, octets),
            None => inbox.is_empty(),
        }
}

/// The same at a new server.
fn is_right(alloc: Global, talk: &Talk) -> bool {
    match MemInbox::new(alloc, talk.failing) {
        Ok(mut inbox) => {
            let mut session = ServerSession::new(talk.maximum.clamp(255, 32767), talk.single);
            is_talked(&mut session, &mut inbox, talk)
        }
        Err(_none) => false,
    }
}

#[test]
fn packets_are_answered(rt: HostRuntime) {
    assert!(rt; is_right(rt.alloc(), &PUSH));
    assert!(rt; is_right(rt.alloc(), &SEVERAL_PACKETS));
    assert!(rt; is_right(rt.alloc(), &SINGLE_RESPONSE));
    assert!(rt; is_right(rt.alloc(), &BREAKS_A_RULE));
    assert!(rt; is_right(rt.alloc(), &PASSED_OVER));
    assert!(rt; is_right(rt.alloc(), &FAILING_INBOX));
}

/// Whether a name of 256 units is too large.
fn name_is_too_large(session: &mut ServerSession, inbox: &mut MemInbox) -> bool
    requires { is_some inbox.old.contents.pending ≡ is_under_way (progress_in session.old.course) }
{
    let mut packet = [0u8; 520];
    packet[0] = 0x02;
    packet[1] = 0x02;
    packet[2] = 0x08;
    packet[3] = 0x01;
    packet[4] = 0x02;
    packet[5] = 0x05;
    answers(session, inbox, &packet, &TOO_LARGE)
}

#[test]
fn a_long_name_is_too_large(rt: HostRuntime) -> Result<(), Fail> {
    let mut inbox = MemInbox::new(rt.alloc(), &[])?;
    let mut session = ServerSession::new(1024, false);
    assert!(rt; name_is_too_large(&mut session, &mut inbox));
    Ok(())
}

/// Whether a lost link drops the object that is under way.
fn drops_its_object(session: &mut ServerSession, inbox: &mut MemInbox) -> bool
    requires { is_some inbox.old.contents.pending ≡ is_under_way (progress_in session.old.course) }
{
    answers(session, inbox, &PUT_H, &CONTINUE)
        && session.is_under_way()
        && session.link_down(inbox) == Ok(())
        && !session.is_under_way()
        && answers(session, inbox, &PUT_END, &BAD)
        && inbox.is_empty()
}

#[test]
fn a_lost_link_drops_the_object(rt: HostRuntime) -> Result<(), Fail> {
    let mut inbox = MemInbox::new(rt.alloc(), &[])?;
    let mut session = ServerSession::new(255, true);
    assert!(rt; drops_its_object(&mut session, &mut inbox));
    Ok(())
}

/// The PUT of an object `a` of `size` octets, and what follows it.
fn put_a(
    client: &mut ClientSession,
    size: u32,
    shelf: &mut MemShelf,
    limit: u16,
    request: &mut [u8; 32767],
) -> PutNext
    requires { 255 ≤ limit }
{
    client.put_next("a", size, shelf, limit, request)
}

/// Whether the packets of a push of `hi` are written.
fn writes_push(shelf: &mut MemShelf) -> bool {
    let mut request = [0u8; 32767];
    let mut client = ClientSession::new(1024, false);
    client.connect(&mut request) == 7
        && request.starts_with(&CONNECT)
        && client.on_response(&CONNECTED) == Answered::Go
        && put_a(&mut client, 2, shelf, 1024, &mut request) == PutNext::Packet(20, true)
        && request.starts_with(&PUT_HI)
        && put_a(&mut client, 2, shelf, 1024, &mut request) == PutNext::Wait
}

#[test]
fn packets_of_a_push_are_written(rt: HostRuntime) -> Result<(), Fail> {
    let mut shelf = MemShelf::new(rt.alloc(), &[])?;
    assert!(rt; shelf.add("a", b"hi").is_ok() && writes_push(&mut shelf));
    Ok(())
}

/// Whether an empty object is put, and one of a shelf that is empty is not.
fn writes_empty_push(shelf: &mut MemShelf) -> bool {
    let mut request = [0u8; 32767];
    let mut client = ClientSession::new(1024, false);
    if put_a(&mut client, 0, shelf, 1024, &mut request) != PutNext::Packet(18, true)
        || !request.starts_with(&PUT_NOTHING)
    {
        return false;
    }
    client.reset();
    put_a(&mut client, 1, shelf, 1024, &mut request) == PutNext::ShelfFault
}

#[test]
fn an_empty_object_is_put_without_the_shelf(rt: HostRuntime) -> Result<(), Fail> {
    let mut shelf = MemShelf::new(rt.alloc(), &[])?;
    assert!(rt; writes_empty_push(&mut shelf));
    Ok(())
}

/// What a client makes of a response to CONNECT.
fn answer_to_connect(response: &[u8]) -> Answered {
    let mut request = [0u8; 7];
    let mut client = ClientSession::new(255, true);
    let _len = client.connect(&mut request);
    client.on_response(response)
}

/// Responses to CONNECT, and what a client makes of each.
const RESPONSES: [(&[u8], Answered); 6] = [
    (&CONNECTED, Answered::Go),
    (&SUCCESS, Answered::Bad(ObexRefusal::Short)),
    (
        &[0xA0, 0x00, 0x07, 0x10, 0x00, 0x00, 0xFE],
        Answered::Bad(ObexRefusal::BadLength),
    ),
    (
        &[0xA0, 0x00, 0x07, 0x20, 0x00, 0x04, 0x00],
        Answered::Bad(ObexRefusal::BadVersion),
    ),
    (
        &[0xC0, 0x00, 0x09, 0x10, 0x00, 0x04, 0x00, 0x98, 0x01],
        Answered::Srmp,
    ),
    (
        &[0xC0, 0x00, 0x07, 0x10, 0x00, 0x04, 0x00],
        Answered::Refused(0xC0),
    ),
];

#[test]
fn responses_to_connect_are_judged_in_order(rt: HostRuntime) {
    for (response, wanted) in RESPONSES.iter() {
        assert!(rt; answer_to_connect(*response) == *wanted);
    }
}

/// A server's response to a request, as the client takes it; there is none in silence.
fn exchange(
    client: &mut ClientSession,
    server: &mut ServerSession,
    inbox: &mut MemInbox,
    request: &[u8],
) -> Option<Answered>
    requires waits { IsSome client.old.awaited }
    requires pending { is_some inbox.old.contents.pending ≡ is_under_way (progress_in server.old.course) }
    ensures { is_some inbox.new.contents.pending ≡ is_under_way (progress_in server.new.course) }
{
    let mut response = [0u8; 9];
    match server.on_packet(request, inbox, &mut response) {
        Reply::Respond(count) if count <= 9 => Some(client.on_response(&response[..count])),
        _ => None,
    }
}

/// Puts the next packet of an object `a` of `size` octets to a server; `None` where it is not put.
fn put_on(
    client: &mut ClientSession,
    server: &mut ServerSession,
    shelf: &mut MemShelf,
    inbox: &mut MemInbox,
    size: u32,
) -> Option<Option<Answered>>
    requires { is_some inbox.old.contents.pending ≡ is_under_way (progress_in server.old.course) }
    ensures { is_some inbox.new.contents.pending ≡ is_under_way (progress_in server.new.course) }
{
    let mut request = [0u8; 32767];
    match client.put_next("a", size, shelf, 32767, &mut request) {
        PutNext::Packet(count, _) if count <= 32767 => {
            Some(exchange(client, server, inbox, &request[..count]))
        }
        _ => None,
    }
}

/// How many responses came until the object was stored.
fn responses_until_done(
    client: &mut ClientSession,
    server: &mut ServerSession,
    shelf: &mut MemShelf,
    inbox: &mut MemInbox,
    size: u32,
) -> Option<u32>
    requires { is_some inbox.old.contents.pending ≡ is_under_way (progress_in server.old.course) }
{
    let mut count = 0u32;
    for _round in 0..100_000u32 {
        match put_on(client, server, shelf, inbox, size) {
            Some(Some(Answered::Done)) => return Some(count.saturating_add(1)),
            Some(Some(Answered::Go)) => count = count.saturating_add(1),
            Some(None) => {}
            _ => return None,
        }
    }
    None
}

/// The greatest size of an object.
const MOST_OCTETS: usize = 16_777_215;

/// Carries an object from a shelf into an inbox that holds nothing, and answers how many responses came.
fn carry(shelf: &mut MemShelf, inbox: &mut MemInbox, single: bool, maximum: u16) -> Option<u32>
    requires { inbox.old.contents.pending ≡ None }
{
    let mut client = ClientSession::new(maximum.clamp(255, 32767), single);
    let mut server = ServerSession::new(maximum.clamp(255, 32767), single);
    responses_until_done(&mut client, &mut server, shelf, inbox, 16_777_215)
}

/// Whether an object is carried into a new inbox with so many responses, and is whole there.
fn is_carried(
    alloc: Global,
    shelf: &mut MemShelf,
    object: &[u8],
    single: bool,
    maximum: u16,
    responses: u32,
) -> bool {
    match MemInbox::new(alloc, &[]) {
        Ok(mut inbox) => {
            carry(shelf, &mut inbox, single, maximum) == Some(responses)
                && inbox.octets_at(0) == Some(object)
        }
        Err(_none) => false,
    }
}

/// The same from a new shelf.
fn is_carried_whole(
    alloc: Global,
    object: &[u8],
    single: bool,
    maximum: u16,
    responses: u32,
) -> bool
    requires { length object.now < 2 ^ 32 }
{
    match MemShelf::new(alloc, &[]) {
        Ok(mut shelf) => {
            shelf.add("a", object).is_ok()
                && is_carried(alloc, &mut shelf, object, single, maximum, responses)
        }
        Err(_none) => false,
    }
}

/// The same of the greatest object.
fn greatest_is_carried(alloc: Global, single: bool, maximum: u16, responses: u32) -> bool {
    let Ok(mut object) = vec![in alloc; 0x5Au8; MOST_OCTETS] else {
        return false;
    };
    if let Some(octet) = object.get_mut(9_000_000) {
        *octet = 1;
    }
    object.len() == MOST_OCTETS && is_carried_whole(alloc, &object, single, maximum, responses)
}

#[test]
fn the_greatest_object_is_carried(rt: HostRuntime) {
    assert!(rt; greatest_is_carried(rt.alloc(), false, 32767, 513));
}

#[test]
fn the_greatest_object_is_carried_in_single_response_mode(rt: HostRuntime) {
    assert!(rt; greatest_is_carried(rt.alloc(), true, 255, 2));
}
