ghost use Rattle.std.specs.Prelude.{◌≡◌, None, is_some};
ghost use Rattle.push_client.specs.push_model.specs.Sessions.{is_pending};

use bt_base::{Psm, Settings};
use push_profile::PushServer;
use ready_ports::MemInbox;
use std::alloc::Global;

/// A search for Object Push, with its transaction, for the protocols and the PSM.
const SEARCH: [u8; 21] = [
    0x06, 0x00, 0x01, 0x00, 0x10, 0x35, 0x03, 0x19, 0x11, 0x05, 0x01, 0x00, 0x35, 0x06, 0x09, 0x00,
    0x04, 0x09, 0x02, 0x00, 0x00,
];

/// Its reply where both transports are served.
const REPLY: [u8; 40] = [
    0x07, 0x00, 0x01, 0x00, 0x23, 0x00, 0x20, 0x35, 0x1E, 0x35, 0x1C, 0x09, 0x00, 0x04, 0x35, 0x11,
    0x35, 0x03, 0x19, 0x01, 0x00, 0x35, 0x05, 0x19, 0x00, 0x03, 0x08, 0x09, 0x35, 0x03, 0x19, 0x00,
    0x08, 0x09, 0x02, 0x00, 0x09, 0x10, 0x01, 0x00,
];

/// CONNECT with version 1.0, no flags and a maximum of 1,024 octets.
const CONNECT: [u8; 7] = [0x80, 0x00, 0x07, 0x10, 0x00, 0x04, 0x00];

/// Its response, with the same maximum.
const CONNECTED: [u8; 7] = [0xA0, 0x00, 0x07, 0x10, 0x00, 0x04, 0x00];

/// `hi`, named `a`, in one packet.
const PUT_HI: [u8; 20] = [
    0x82, 0x00, 0x14, 0x01, 0x00, 0x07, 0x00, 0x61, 0x00, 0x00, 0xC3, 0x00, 0x00, 0x00, 0x02, 0x49,
    0x00, 0x05, 0x68, 0x69,
];

/// The first PUT of an object named `a`, with `h`.
const PUT_H: [u8; 14] = [
    0x02, 0x00, 0x0E, 0x01, 0x00, 0x07, 0x00, 0x61, 0x00, 0x00, 0x48, 0x00, 0x04, 0x68,
];

/// The final PUT with `!`.
const PUT_END: [u8; 7] = [0x82, 0x00, 0x07, 0x49, 0x00, 0x04, 0x21];

const DISCONNECT: [u8; 3] = [0x81, 0x00, 0x03];

const SUCCESS: [u8; 3] = [0xA0, 0x00, 0x03];

const CONTINUE: [u8; 3] = [0x90, 0x00, 0x03];

const BAD: [u8; 3] = [0xC0, 0x00, 0x03];

/// SABM on the control channel, and its UA.
const OPEN_CONTROL: [u8; 4] = [0x03, 0x3F, 0x01, 0x1C];

const CONTROL_OPEN: [u8; 4] = [0x03, 0x73, 0x01, 0xD7];

/// Channels of servers, by their PSM: of service records, of RFCOMM, of objects.
const SEARCHES: u16 = 0x0001;

const FRAMES: u16 = 0x0003;

const OBJECTS: u16 = 0x1001;

/// The channel of an SDU, the SDU, and what answers it.
type Answer<'a> = (u16, &'a [u8], &'a [u8]);

/// Whether an SDU on a channel is answered so.
fn answers(
    server: &mut PushServer,
    inbox: &mut MemInbox,
    psm: Psm,
    sdu: &[u8],
    wanted: &[u8],
) -> bool
    requires { is_some inbox.old.contents.pending ≡ is_pending server.old.listener.service.sessions }
    ensures { is_some inbox.new.contents.pending ≡ is_pending server.new.listener.service.sessions }
{
    if server.on_sdu(psm, sdu, inbox).is_err() {
        return false;
    }
    let is_right = server.next_sdu() == Some(psm) && server.sdu() == wanted;
    server.stepped();
    is_right
}

/// How many SDUs are answered as they should be, up to the first that is not.
fn rows_answered(server: &mut PushServer, inbox: &mut MemInbox, rows: &[Answer<'_>]) -> usize
    requires { is_some inbox.old.contents.pending ≡ is_pending server.old.listener.service.sessions }
    ensures { is_some inbox.new.contents.pending ≡ is_pending server.new.listener.service.sessions }
{
    for (i, (number, sdu, wanted)) in rows.iter().enumerate() {
        let Some(psm) = Psm::of(*number) else {
            return i;
        };
        if !answers(server, inbox, psm, sdu, wanted) {
            return i;
        }
    }
    rows.len()
}

/// What a push says, and how it is answered.
const PUSH: [Answer<'static>; 6] = [
    (SEARCHES, &SEARCH, &REPLY),
    (FRAMES, &OPEN_CONTROL, &CONTROL_OPEN),
    (OBJECTS, &CONNECT, &CONNECTED),
    (OBJECTS, &PUT_HI, &SUCCESS),
    (OBJECTS, &PUT_END, &BAD),
    (OBJECTS, &DISCONNECT, &SUCCESS),
];

/// Whether a push is answered, and its object is stored.
fn is_answered(server: &mut PushServer, inbox: &mut MemInbox) -> bool
    requires { is_some inbox.old.contents.pending ≡ is_pending server.old.listener.service.sessions }
{
    rows_answered(server, inbox, &PUSH) == 6
        && inbox.len() == 1
        && inbox.name_at(0) == Some([0x61u16].as_slice())
        && inbox.octets_at(0) == Some(b"hi".as_slice())
}

/// Behind an object under way no other may begin.
const UNDER_WAY: [Answer<'static>; 3] = [
    (OBJECTS, &PUT_H, &CONTINUE),
    (OBJECTS, &PUT_H, &BAD),
    (OBJECTS, &PUT_H, &CONTINUE),
];

/// Behind its end another may.
const ENDED: [Answer<'static>; 2] = [(OBJECTS, &PUT_END, &BAD), (OBJECTS, &PUT_H, &CONTINUE)];

/// Whether an object under way ends with its channel.
fn ends_with_its_channel(server: &mut PushServer, inbox: &mut MemInbox) -> bool
    requires { is_some inbox.old.contents.pending ≡ is_pending server.old.listener.service.sessions }
    ensures { is_some inbox.new.contents.pending ≡ is_pending server.new.listener.service.sessions }
{
    let Some(psm) = Psm::of(OBJECTS) else {
        return false;
    };
    rows_answered(server, inbox, &UNDER_WAY) == 3
        && server.channel_down(psm, inbox).is_ok()
        && rows_answered(server, inbox, &ENDED) == 2
}

/// Whether an object under way ends with the link.
fn ends_with_the_link(server: &mut PushServer, inbox: &mut MemInbox) -> bool
    requires { is_some inbox.old.contents.pending ≡ is_pending server.old.listener.service.sessions }
{
    server.link_down(inbox).is_ok() && rows_answered(server, inbox, &ENDED[..1]) == 1
}

/// Whether it ends with both, and nothing is stored.
fn ends_with_both(server: &mut PushServer, inbox: &mut MemInbox) -> bool
    requires { is_some inbox.old.contents.pending ≡ is_pending server.old.listener.service.sessions }
{
    ends_with_its_channel(server, inbox) && ends_with_the_link(server, inbox) && inbox.is_empty()
}

/// Whether a new server answers a push, or an object under way at it ends with its channel and its link.
fn new_server_is_right(alloc: Global, inbox: &mut MemInbox, pushes: bool) -> bool
    requires { inbox.old.contents.pending ≡ None }
{
    match PushServer::new(alloc, &Settings::plain()) {
        Ok(mut server) => {
            if pushes {
                is_answered(&mut server, inbox)
            } else {
                ends_with_both(&mut server, inbox)
            }
        }
        Err(_) => false,
    }
}

/// The same with a new inbox.
fn is_right(alloc: Global, pushes: bool) -> bool {
    match MemInbox::new(alloc, &[]) {
        Ok(mut inbox) => new_server_is_right(alloc, &mut inbox, pushes),
        Err(_) => false,
    }
}

#[test]
fn a_push_is_answered(rt: HostRuntime) {
    assert!(rt; is_right(rt.alloc(), true));
}

#[test]
fn an_object_under_way_ends_with_its_channel_and_its_link(rt: HostRuntime) {
    assert!(rt; is_right(rt.alloc(), false));
}
