ghost use Rattle.std.specs.Prelude.{◌<◌, ◌^◌, length};

use bt_base::{NoMemory, Psm, Settings, Transport};
use push_client::{CloseCause, Outcome, ProfileEvent, PushClient, Step};
use ready_ports::MemShelf;
use std::alloc::Global;

/// A search for Object Push, with its transaction, for the protocols and the PSM.
const SEARCH: [u8; 21] = [
    0x06, 0x00, 0x01, 0x00, 0x10, 0x35, 0x03, 0x19, 0x11, 0x05, 0x01, 0x00, 0x35, 0x06, 0x09, 0x00,
    0x04, 0x09, 0x02, 0x00, 0x00,
];

/// Its reply: server channel 9 of RFCOMM, and PSM 1001.
const REPLY: [u8; 40] = [
    0x07, 0x00, 0x01, 0x00, 0x23, 0x00, 0x20, 0x35, 0x1E, 0x35, 0x1C, 0x09, 0x00, 0x04, 0x35, 0x11,
    0x35, 0x03, 0x19, 0x01, 0x00, 0x35, 0x05, 0x19, 0x00, 0x03, 0x08, 0x09, 0x35, 0x03, 0x19, 0x00,
    0x08, 0x09, 0x02, 0x00, 0x09, 0x10, 0x01, 0x00,
];

/// CONNECT with version 1.0, no flags and a maximum of 1,024 octets, and its response.
const CONNECT: [u8; 7] = [0x80, 0x00, 0x07, 0x10, 0x00, 0x04, 0x00];

const CONNECTED: [u8; 7] = [0xA0, 0x00, 0x07, 0x10, 0x00, 0x04, 0x00];

/// CONNECT is refused.
const NOT_CONNECTED: [u8; 7] = [0xD0, 0x00, 0x07, 0x10, 0x00, 0x04, 0x00];

/// `hi`, named `a`, in one packet.
const PUT_HI: [u8; 20] = [
    0x82, 0x00, 0x14, 0x01, 0x00, 0x07, 0x00, 0x61, 0x00, 0x00, 0xC3, 0x00, 0x00, 0x00, 0x02, 0x49,
    0x00, 0x05, 0x68, 0x69,
];

const ABORT: [u8; 3] = [0xFF, 0x00, 0x03];

const DISCONNECT: [u8; 3] = [0x81, 0x00, 0x03];

const CONTINUE: [u8; 3] = [0x90, 0x00, 0x03];

const SUCCESS: [u8; 3] = [0xA0, 0x00, 0x03];

/// Frames of the multiplexer, by hand: those of the client, and those of its peer.
const OPEN_CONTROL: [u8; 4] = [0x03, 0x3F, 0x01, 0x1C];

const CONTROL_DONE: [u8; 4] = [0x03, 0x73, 0x01, 0xD7];

const OFFER: [u8; 14] = [
    0x03, 0xEF, 0x15, 0x83, 0x11, 0x12, 0xF0, 0x00, 0x00, 0x7F, 0x00, 0x00, 0x07, 0x70,
];

const ACCEPTANCE: [u8; 14] = [
    0x01, 0xEF, 0x15, 0x81, 0x11, 0x12, 0xE0, 0x00, 0x00, 0x7F, 0x00, 0x00, 0x07, 0xAA,
];

const OPEN_USER: [u8; 4] = [0x4B, 0x3F, 0x01, 0x32];

const USER_DONE: [u8; 4] = [0x4B, 0x73, 0x01, 0xF9];

const OWN_STATUS: [u8; 8] = [0x03, 0xEF, 0x09, 0xE3, 0x05, 0x4B, 0x8D, 0x70];

const STATUS_HEARD: [u8; 8] = [0x01, 0xEF, 0x09, 0xE1, 0x05, 0x4B, 0x8D, 0xAA];

const PEER_STATUS: [u8; 8] = [0x01, 0xEF, 0x09, 0xE3, 0x05, 0x4B, 0x8D, 0xAA];

const HEARD_STATUS: [u8; 8] = [0x03, 0xEF, 0x09, 0xE1, 0x05, 0x4B, 0x8D, 0x70];

const CONNECT_FRAME: [u8; 11] = [
    0x4B, 0xEF, 0x0F, 0x80, 0x00, 0x07, 0x10, 0x00, 0x04, 0x00, 0xCE,
];

const CONNECTED_FRAME: [u8; 11] = [
    0x49, 0xEF, 0x0F, 0xA0, 0x00, 0x07, 0x10, 0x00, 0x04, 0x00, 0x14,
];

const PUT_FRAME: [u8; 24] = [
    0x4B, 0xEF, 0x29, 0x82, 0x00, 0x14, 0x01, 0x00, 0x07, 0x00, 0x61, 0x00, 0x00, 0xC3, 0x00, 0x00,
    0x00, 0x02, 0x49, 0x00, 0x05, 0x68, 0x69, 0xCE,
];

const SUCCESS_FRAME: [u8; 7] = [0x49, 0xEF, 0x07, 0xA0, 0x00, 0x03, 0x14];

const DISCONNECT_FRAME: [u8; 7] = [0x4B, 0xEF, 0x07, 0x81, 0x00, 0x03, 0xCE];

const CLOSE_USER: [u8; 4] = [0x4B, 0x53, 0x01, 0xD3];

const CLOSE_CONTROL: [u8; 4] = [0x03, 0x53, 0x01, 0xFD];

/// What is told of the channel of a row, or of the link.
#[derive(Clone, Copy)]
enum Told<'a> {
    Nothing,
    Up,
    Down(u8),
    Open(u16),
    Closed,
    Heard(&'a [u8]),
    Features,
    Late,
}

/// The PSM of a channel, what is told, the step that follows it, and the octets of its SDU.
type Row<'a> = (Psm, Told<'a>, Step, &'a [u8]);

fn tell(client: &mut PushClient, psm: Psm, told: &Told<'_>) {
    match told {
        Told::Nothing => {}
        Told::Up => client.on(ProfileEvent::LinkUp),
        Told::Down(reason) => client.on(ProfileEvent::LinkDown(*reason)),
        Told::Open(mtu) => client.on(ProfileEvent::ChannelOpen(psm, *mtu)),
        Told::Closed => client.on(ProfileEvent::ChannelClosed(psm, CloseCause::Own)),
        Told::Heard(sdu) => client.on(ProfileEvent::Sdu(psm, sdu)),
        Told::Features => client.on(ProfileEvent::Features(Some(0xA8))),
        Told::Late => client.on(ProfileEvent::Timer),
    }
}

/// The push of the object `a` begins.
fn begins(client: &mut PushClient, shelf: &mut MemShelf) -> Result<(), NoMemory> {
    client.begin("a", shelf)
}

/// Whether this step is next, with this SDU. It is done then.
fn steps(client: &mut PushClient, shelf: &mut MemShelf, wanted: Step, octets: &[u8]) -> bool {
    let step = client.advance(shelf);
    let has_sdu = matches!(step, Step::SendSdu(_));
    let is_right = step == wanted && (!has_sdu || client.octets() == octets);
    client.stepped();
    is_right
}

/// How many rows are followed, up to the first that is not.
fn rows_followed(client: &mut PushClient, shelf: &mut MemShelf, rows: &[Row<'_>]) -> usize {
    for (i, (psm, told, wanted, octets)) in rows.iter().enumerate() {
        tell(client, *psm, told);
        if !steps(client, shelf, *wanted, octets) {
            return i;
        }
    }
    rows.len()
}

/// Whether all rows are followed.
fn follows(client: &mut PushClient, shelf: &mut MemShelf, rows: &[Row<'_>]) -> bool {
    rows_followed(client, shelf, rows) == rows.len()
}

/// The rows of a search, up to the end of its channel.
fn searches<'a>(records: Psm) -> [Row<'a>; 5] {
    [
        (records, Told::Nothing, Step::MakeLink, &[]),
        (records, Told::Up, Step::OpenChannel(records), &[]),
        (records, Told::Open(672), Step::SendSdu(records), &SEARCH),
        (
            records,
            Told::Heard(&REPLY),
            Step::CloseChannel(records),
            &[],
        ),
        (records, Told::Nothing, Step::Wait, &[]),
    ]
}

/// The rows that end a push with its channel and its link.
fn ends<'a>(channel: Psm, outcome: Outcome) -> [Row<'a>; 3] {
    [
        (channel, Told::Closed, Step::BreakLink, &[]),
        (channel, Told::Down(0x16), Step::Ended(outcome), &[]),
        (channel, Told::Nothing, Step::Wait, &[]),
    ]
}

/// The rows from the end of a search over L2CAP to CONNECT.
fn connects<'a>(records: Psm, objects: Psm) -> [Row<'a>; 3] {
    [
        (records, Told::Closed, Step::AskFeatures, &[]),
        (objects, Told::Features, Step::OpenChannel(objects), &[]),
        (objects, Told::Open(1024), Step::SendSdu(objects), &CONNECT),
    ]
}

/// The row from there to the PUT.
fn puts<'a>(objects: Psm) -> [Row<'a>; 1] {
    [(
        objects,
        Told::Heard(&CONNECTED),
        Step::SendSdu(objects),
        &PUT_HI,
    )]
}

/// The rows from its response, or that to ABORT, to the end of the channel.
fn leaves<'a>(objects: Psm) -> [Row<'a>; 2] {
    [
        (
            objects,
            Told::Heard(&SUCCESS),
            Step::SendSdu(objects),
            &DISCONNECT,
        ),
        (
            objects,
            Told::Heard(&SUCCESS),
            Step::CloseChannel(objects),
            &[],
        ),
    ]
}

/// The rows in which the multiplexer is opened.
fn opens<'a>(records: Psm, frames: Psm) -> [Row<'a>; 7] {
    [
        (records, Told::Closed, Step::OpenChannel(frames), &[]),
        (
            frames,
            Told::Open(133),
            Step::SendSdu(frames),
            &OPEN_CONTROL,
        ),
        (
            frames,
            Told::Heard(&CONTROL_DONE),
            Step::SendSdu(frames),
            &OFFER,
        ),
        (
            frames,
            Told::Heard(&ACCEPTANCE),
            Step::SendSdu(frames),
            &OPEN_USER,
        ),
        (
            frames,
            Told::Heard(&USER_DONE),
            Step::SendSdu(frames),
            &OWN_STATUS,
        ),
        (frames, Told::Heard(&STATUS_HEARD), Step::Wait, &[]),
        (
            frames,
            Told::Heard(&PEER_STATUS),
            Step::SendSdu(frames),
            &HEARD_STATUS,
        ),
    ]
}

/// The rows in which the object goes through it, and it is closed.
fn puts_through<'a>(frames: Psm) -> [Row<'a>; 6] {
    [
        (frames, Told::Nothing, Step::SendSdu(frames), &CONNECT_FRAME),
        (
            frames,
            Told::Heard(&CONNECTED_FRAME),
            Step::SendSdu(frames),
            &PUT_FRAME,
        ),
        (
            frames,
            Told::Heard(&SUCCESS_FRAME),
            Step::SendSdu(frames),
            &DISCONNECT_FRAME,
        ),
        (
            frames,
            Told::Heard(&SUCCESS_FRAME),
            Step::SendSdu(frames),
            &CLOSE_USER,
        ),
        (
            frames,
            Told::Heard(&USER_DONE),
            Step::SendSdu(frames),
            &CLOSE_CONTROL,
        ),
        (
            frames,
            Told::Heard(&CONTROL_DONE),
            Step::CloseChannel(frames),
            &[],
        ),
    ]
}

/// Whether a push begins and its CONNECT is sent.
fn connects_anew(
    client: &mut PushClient,
    shelf: &mut MemShelf,
    records: Psm,
    objects: Psm,
) -> bool {
    begins(client, shelf).is_ok()
        && follows(client, shelf, &searches(records))
        && follows(client, shelf, &connects(records, objects))
}

/// Whether a push over L2CAP goes well.
fn goes_over_l2cap(
    client: &mut PushClient,
    shelf: &mut MemShelf,
    records: Psm,
    objects: Psm,
) -> bool {
    connects_anew(client, shelf, records, objects)
        && client.may_cancel()
        && follows(client, shelf, &puts(objects))
        && follows(client, shelf, &leaves(objects))
        && follows(client, shelf, &ends(objects, Outcome::Done))
        && client.idle()
}

/// Whether a push over RFCOMM goes well.
fn goes_over_rfcomm(
    client: &mut PushClient,
    shelf: &mut MemShelf,
    records: Psm,
    frames: Psm,
) -> bool {
    begins(client, shelf).is_ok()
        && follows(client, shelf, &searches(records))
        && follows(client, shelf, &opens(records, frames))
        && follows(client, shelf, &puts_through(frames))
        && follows(client, shelf, &ends(frames, Outcome::Done))
}

/// A push whose CONNECT was sent, where this is told then, has this outcome.
fn has_outcome(
    client: &mut PushClient,
    shelf: &mut MemShelf,
    objects: Psm,
    told: &Told<'_>,
    outcome: Outcome,
) -> bool {
    tell(client, objects, told);
    let is_right = client.outcome() == Some(outcome);
    tell(client, objects, &Told::Down(0x13));
    is_right && steps(client, shelf, Step::Ended(outcome), &[])
}

/// What is told once CONNECT was sent, and the outcome.
const CAUSES: [(Told<'static>, Outcome); 3] = [
    (Told::Heard(&NOT_CONNECTED), Outcome::Refused(0xD0)),
    (Told::Heard(&SUCCESS), Outcome::PeerFault(5, 1)),
    (Told::Down(0x08), Outcome::LinkLost),
];

/// Whether the cause of each row is told, and then that the shelf failed.
fn tells_causes(client: &mut PushClient, shelf: &mut MemShelf, records: Psm, objects: Psm) -> bool {
    for (told, outcome) in CAUSES.iter() {
        if !connects_anew(client, shelf, records, objects)
            || !has_outcome(client, shelf, objects, told, *outcome)
        {
            return false;
        }
    }
    begins(client, shelf).is_ok() && steps(client, shelf, Step::Ended(Outcome::ShelfFault), &[])
}

/// How many SDUs go out ahead of this one, each answered with CONTINUE.
fn sent_ahead_of(
    client: &mut PushClient,
    shelf: &mut MemShelf,
    objects: Psm,
    wanted: &[u8],
) -> usize {
    for count in 0..100 {
        if steps(client, shelf, Step::SendSdu(objects), wanted) {
            return count;
        }
        tell(client, objects, &Told::Heard(&CONTINUE));
    }
    100
}

/// Whether the object is aborted behind two PUTs.
fn aborts(client: &mut PushClient, shelf: &mut MemShelf, records: Psm, objects: Psm) -> bool {
    if !connects_anew(client, shelf, records, objects) {
        return false;
    }
    tell(client, objects, &Told::Heard(&CONNECTED));
    sent_ahead_of(client, shelf, objects, &ABORT) == 2
        && follows(client, shelf, &leaves(objects))
        && follows(client, shelf, &ends(objects, Outcome::ShelfFault))
}

/// Whether a search is asked once more as the timer fires, and the push is cancelled then.
fn asks_again(client: &mut PushClient, shelf: &mut MemShelf, records: Psm) -> bool {
    let rows = searches(records);
    let is_asked = begins(client, shelf).is_ok()
        && rows_followed(client, shelf, &rows[..3]) == 3
        && client.armed();
    tell(client, records, &Told::Late);
    is_asked && steps(client, shelf, Step::SendSdu(records), &SEARCH)
}

/// Whether a push whose search was sent ends where it is cancelled.
fn is_cancelled(client: &mut PushClient, shelf: &mut MemShelf, records: Psm) -> bool {
    client.cancel();
    steps(client, shelf, Step::CloseChannel(records), &[])
        && follows(client, shelf, &ends(records, Outcome::Cancelled))
}

/// What a client and its shelf go through.
#[derive(Clone, Copy)]
enum Course {
    /// Two pushes over L2CAP, and one over RFCOMM.
    OverL2cap,
    OverRfcomm,
    /// Pushes that end early, each for another cause.
    Causes,
    /// A push whose shelf fails behind two PUTs.
    Abort,
    /// A search that is asked again, and is cancelled then.
    Search,
}

/// Whether a client and its shelf go through that, where these are the PSMs of records, of objects and of frames.
fn goes_through(
    client: &mut PushClient,
    shelf: &mut MemShelf,
    course: Course,
    psms: (Psm, Psm, Psm),
) -> bool {
    let (records, objects, frames) = psms;
    match course {
        Course::OverL2cap => {
            goes_over_l2cap(client, shelf, records, objects)
                && goes_over_l2cap(client, shelf, records, objects)
        }
        Course::OverRfcomm => goes_over_rfcomm(client, shelf, records, frames),
        Course::Causes => tells_causes(client, shelf, records, objects),
        Course::Abort => aborts(client, shelf, records, objects),
        Course::Search => {
            asks_again(client, shelf, records) && is_cancelled(client, shelf, records)
        }
    }
}

/// Whether a new client over a transport goes through that.
fn new_client_goes(
    alloc: Global,
    shelf: &mut MemShelf,
    transport: Transport,
    course: Course,
) -> bool {
    let (Some(records), Some(objects), Some(frames)) = (
        Psm::of(0x0001),
        Psm::of(0x1001),
        Psm::of(0x0003),
    ) else {
        return false;
    };
    let mut settings = Settings::plain();
    settings.transport = transport;
    match PushClient::new(alloc, &settings) {
        Ok(mut client) => goes_through(&mut client, shelf, course, (records, objects, frames)),
        Err(_) => false,
    }
}

/// The same with a new shelf that holds one object, `a`, and fails at these calls.
fn goes(alloc: Global, transport: Transport, object: &[u8], failing: &[u32], course: Course) -> bool
    requires { length object.now < 2 ^ 32 }
{
    match MemShelf::new(alloc, failing) {
        Ok(mut shelf) => {
            shelf.add("a", object).is_ok() && new_client_goes(alloc, &mut shelf, transport, course)
        }
        Err(_) => false,
    }
}

#[test]
fn objects_are_pushed(rt: HostRuntime) {
    assert!(rt; goes(rt.alloc(), Transport::L2cap, b"hi", &[], Course::OverL2cap));
    assert!(rt;
        goes(
            rt.alloc(),
            Transport::Rfcomm,
            b"hi",
            &[],
            Course::OverRfcomm
        )
    );
}

#[test]
fn the_first_cause_is_told(rt: HostRuntime) {
    assert!(rt; goes(rt.alloc(), Transport::L2cap, b"hi", &[4], Course::Causes));
}

#[test]
fn what_was_put_is_aborted_where_the_shelf_fails(rt: HostRuntime) {
    assert!(rt;
        goes(
            rt.alloc(),
            Transport::L2cap,
            &[0x55; 3000],
            &[4],
            Course::Abort
        )
    );
}

#[test]
fn a_search_is_asked_again_and_given_up(rt: HostRuntime) {
    assert!(rt; goes(rt.alloc(), Transport::L2cap, b"hi", &[], Course::Search));
}
