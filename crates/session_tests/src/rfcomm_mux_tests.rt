ghost use Rattle.std.specs.Prelude.{◌≤◌};

use rfcomm_frames::fcs8;
use rfcomm_mux::{Mux, MuxReason, MuxUp};
use std::alloc::Global;
use std::test::Fail;

/// Room for an SDU.
const ROOM: usize = 32_767;

/// Frames of an opening user channel 18, by hand: those of the initiator, and those of the responder.
const OPEN_CONTROL: [u8; 4] = [0x03, 0x3F, 0x01, 0x1C];

const CONTROL_OPEN: [u8; 4] = [0x03, 0x73, 0x01, 0xD7];

const OFFER: [u8; 14] = [
    0x03, 0xEF, 0x15, 0x83, 0x11, 0x12, 0xF0, 0x00, 0x00, 0x7F, 0x00, 0x00, 0x07, 0x70,
];

const ACCEPTANCE: [u8; 14] = [
    0x01, 0xEF, 0x15, 0x81, 0x11, 0x12, 0xE0, 0x00, 0x00, 0x7F, 0x00, 0x00, 0x07, 0xAA,
];

const OPEN_USER: [u8; 4] = [0x4B, 0x3F, 0x01, 0x32];

/// What an SDU brings up.
fn hears<'a>(mux: &mut Mux, sdu: &'a [u8]) -> MuxUp<'a> {
    mux.on_sdu(sdu)
}

/// Whether an SDU brings nothing up.
fn hears_nothing(mux: &mut Mux, sdu: &[u8]) -> bool {
    matches!(hears(mux, sdu), MuxUp::Nothing)
}

/// Whether an SDU closes a multiplexer for this reason.
fn closes_with(mux: &mut Mux, sdu: &[u8], reason: MuxReason) -> bool {
    matches!(hears(mux, sdu), MuxUp::Closed(found) if found == reason)
}

/// Whether the next SDU of a multiplexer is this one.
fn says(mux: &mut Mux, sdu: &[u8]) -> bool {
    let mut into = [0; ROOM];
    match mux.next_sdu(&mut into) {
        Some(n) => into.get(..n) == Some(sdu),
        None => false,
    }
}

/// A multiplexer has nothing to say.
fn is_silent(mux: &mut Mux) -> bool {
    let mut into = [0; ROOM];
    mux.next_sdu(&mut into).is_none()
}

/// A multiplexer is as it was made, with this frame size; whether it can have that.
fn renews(mux: &mut Mux, frame: u16) -> bool {
    if frame < 23 || frame > mux.largest() {
        return false;
    }
    mux.reset(frame);
    true
}

/// How many octets are taken to be sent, where a multiplexer is open.
fn sends(mux: &mut Mux, octets: &[u8]) -> Option<usize> {
    if mux.is_open() {
        Some(mux.send(octets))
    } else {
        None
    }
}

/// Whether a client opens a channel with these frames, and begins anew where it is renewed.
fn opens_by_hand(mux: &mut Mux) -> bool {
    says(mux, &OPEN_CONTROL)
        && is_silent(mux)
        && hears_nothing(mux, &CONTROL_OPEN)
        && says(mux, &OFFER)
        && hears_nothing(mux, &ACCEPTANCE)
        && says(mux, &OPEN_USER)
        && !mux.is_open()
        && renews(mux, 100)
        && says(mux, &OPEN_CONTROL)
}

#[test]
fn an_opening_by_hand(rt: HostRuntime) -> Result<(), Fail> {
    let mut mux = Mux::client(rt.alloc(), 9, 127, 7)?;
    assert!(rt; opens_by_hand(&mut mux));
    Ok(())
}

/// What one side has to say goes to the other: how many octets come of it, all of them this one. `None` where it has nothing to say, and a
/// number that is too great where another octet comes.
fn passes(from: &mut Mux, to: &mut Mux, octet: u8) -> Option<usize> {
    let mut into = [0; ROOM];
    let n = from.next_sdu(&mut into)?;
    match to.on_sdu(into.get(..n)?) {
        MuxUp::Bytes(octets) if octets.iter().all(|x| *x == octet) => Some(octets.len()),
        MuxUp::Bytes(_) => Some(usize::MAX),
        _ => Some(0),
    }
}

/// What both sides have to say goes from one to the other, until neither has more. Answers how many
/// octets came to the second one, all of them this one; the greatest number where there is no rest.
fn joined(first: &mut Mux, second: &mut Mux, octet: u8) -> usize {
    let mut came: usize = 0;
    for _ in 0..100 {
        let forth = passes(first, second, octet);
        let back = passes(second, first, octet);
        came = came.saturating_add(forth.unwrap_or(0));
        if forth.is_none() && back.is_none() {
            return came;
        }
    }
    usize::MAX
}

/// Whether nothing is heard at the server until both sides rest, and they are ready then.
fn are_ready(client: &mut Mux, server: &mut Mux) -> bool {
    joined(client, server, 0) == 0 && client.is_ready() && server.is_ready()
}

/// Carries octets, of which no more than a frame is taken at a time, and answers how many were sent and how many came.
fn carry(client: &mut Mux, server: &mut Mux) -> (usize, usize) {
    let octets = [0xAA; 1000];
    let (mut sent, mut came): (usize, usize) = (0, 0);
    for _ in 0..8 {
        let taken = sends(client, octets.get(sent..).unwrap_or(&[])).unwrap_or(usize::MAX);
        if taken > 127 || sends(client, &[1]) != Some(0) {
            return (sent, came);
        }
        sent = sent.saturating_add(taken);
        came = came.saturating_add(joined(client, server, 0xAA));
    }
    (sent, came)
}

/// Whether both sides are closed where the client closes.
fn are_closed(client: &mut Mux, server: &mut Mux) -> bool {
    client.close();
    joined(client, server, 0) == 0
        && client.closed() == Some(MuxReason::Disc)
        && server.closed() == Some(MuxReason::Disc)
}

/// Whether a thousand octets are carried, and both sides can begin anew behind their end.
fn carry_and_renew(client: &mut Mux, server: &mut Mux) -> bool {
    are_ready(client, server)
        && carry(client, server) == (1000, 1000)
        && are_closed(client, server)
        && renews(server, 300)
        && renews(client, 64)
        && are_ready(client, server)
}

/// A frame whose check word, in the last octet, is made.
fn checked<const N: usize>(mut sdu: [u8; N]) -> [u8; N] {
    if N >= 4 {
        let covered = if sdu[1] / 0x20 == 7 { 2 } else { 3 };
        sdu[N - 1] = fcs8(&sdu[..covered]);
    }
    sdu
}

/// Whether the second of two SDUs closes a multiplexer, which hears nothing more then.
fn ends_at(mux: &mut Mux, first: &[u8], second: &[u8], reason: MuxReason) -> bool {
    hears_nothing(mux, first)
        && closes_with(mux, second, reason)
        && mux.closed() == Some(reason)
        && hears_nothing(mux, &OFFER)
        && mux.closed() == Some(reason)
}

/// Two SDUs of the initiator, and why the second closes a responder: SABM, DISC, DM on the control channel and on channel 18, and PN. The check
/// word of the second is made, where it ends with 0.
const ENDS: [(&[u8], &[u8], MuxReason); 9] = [
    (&OPEN_CONTROL, &[0x01, 0x1F, 0x01, 0], MuxReason::Dm),
    (&OPEN_CONTROL, &[0x49, 0x1F, 0x01, 0], MuxReason::Dm),
    (&OPEN_CONTROL, &[0x03, 0x53, 0x01, 0], MuxReason::Disc),
    (&OPEN_CONTROL, &OPEN_USER, MuxReason::NoCreditFlow),
    (
        &OPEN_CONTROL,
        &[
            0x03, 0xEF, 0x15, 0x83, 0x11, 0x12, 0x00, 0x00, 0x00, 0x7F, 0x00, 0x00, 0x07, 0,
        ],
        MuxReason::NoCreditFlow,
    ),
    (
        &OPEN_CONTROL,
        &[
            0x03, 0xEF, 0x15, 0x83, 0x11, 0x12, 0xF0, 0x00, 0x00, 0x16, 0x00, 0x00, 0x07, 0,
        ],
        MuxReason::BadFrame,
    ),
    (
        &OPEN_CONTROL,
        &[
            0x03, 0xEF, 0x15, 0x83, 0x11, 0x14, 0x00, 0x00, 0x00, 0x16, 0x00, 0x00, 0x07, 0,
        ],
        MuxReason::BadFrame,
    ),
    (
        &OFFER,
        &[0x03, 0xEF, 0x05, 0x83, 0x11, 0],
        MuxReason::BadFrame,
    ),
    (&OFFER, &[0x03, 0x3F, 0x01, 0x1D], MuxReason::BadFrame),
];

/// The SDU of a row, its check word made where it ends with 0.
fn completed(sdu: &[u8]) -> [u8; 14] {
    let mut whole = [0; 14];
    let n = sdu.len().min(14);
    whole[..n].copy_from_slice(&sdu[..n]);
    if n >= 4 && whole[n - 1] == 0 {
        let covered = if whole[1] / 0x20 == 7 { 2 } else { 3 };
        whole[n - 1] = fcs8(&whole[..covered]);
    }
    whole
}

/// Whether each row closes a responder so.
fn all_end(mux: &mut Mux) -> bool {
    for (first, second, reason) in ENDS.iter() {
        let whole = completed(*second);
        let n = second.len().min(14);
        if !renews(mux, 127) || !ends_at(mux, *first, &whole[..n], *reason) {
            return false;
        }
    }
    true
}

#[test]
fn ends_of_a_responder(rt: HostRuntime) -> Result<(), Fail> {
    let mut mux = Mux::server(rt.alloc(), 9, 127, 7)?;
    assert!(rt; all_end(&mut mux));
    Ok(())
}

/// Whether an empty frame costs nothing, one with information a credit, and no data goes without one.
fn overdraws(server: &mut Mux) -> bool {
    let empty = checked([0x4B, 0xEF, 0x01, 0]);
    let data = checked([0x4B, 0xEF, 0x03, 0xAA, 0]);
    let elsewhere = checked([0x53, 0xEF, 0x03, 0xAA, 0]);
    for _ in 0..7 {
        if !hears_nothing(server, &empty)
            || !hears_nothing(server, &elsewhere)
            || !matches!(hears(server, &data), MuxUp::Bytes([0xAA]))
        {
            return false;
        }
    }
    closes_with(server, &data, MuxReason::Overdrawn) && is_silent(server)
}

/// Whether, where 7 credits are held, 257 times 255 more are too many.
fn overflows(server: &mut Mux) -> bool {
    let grant = checked([0x4B, 0xFF, 0x01, 0xFF, 0]);
    for _ in 0..256 {
        if !hears_nothing(server, &grant) {
            return false;
        }
    }
    closes_with(server, &grant, MuxReason::CreditOverflow)
}

/// Whether DISC of an open channel ends it, and what comes behind it, which is all answered, does not.
fn is_left(server: &mut Mux) -> bool {
    let leave_user = checked([0x4B, 0x53, 0x01, 0]);
    closes_with(server, &leave_user, MuxReason::Disc)
        && hears_nothing(server, &leave_user)
        && hears_nothing(server, &OPEN_CONTROL)
        && hears_nothing(server, &checked([0x03, 0x53, 0x01, 0]))
}

/// Whether credits are counted at a server.
fn counts_credits(client: &mut Mux, server: &mut Mux) -> bool {
    are_ready(client, server)
        && overdraws(server)
        && renews(server, 127)
        && renews(client, 127)
        && are_ready(client, server)
        && overflows(server)
}

/// Whether DISC of an open channel is answered by UA, and the next one there by DM; SABM by DM.
fn has_last_answers(client: &mut Mux, server: &mut Mux) -> bool {
    are_ready(client, server)
        && is_left(server)
        && says(server, &checked([0x4B, 0x73, 0x01, 0]))
        && says(server, &checked([0x4B, 0x1F, 0x01, 0]))
        && says(server, &checked([0x03, 0x1F, 0x01, 0]))
        && says(server, &checked([0x03, 0x73, 0x01, 0]))
        && is_silent(server)
}

/// What a client and a server go through together.
#[derive(Clone, Copy)]
enum Course {
    Carriage,
    Credits,
    Answers,
}

/// Whether a new client, whose frames have 127 octets, goes through that with a server.
fn client_goes(alloc: Global, server: &mut Mux, credits: u8, course: Course) -> bool
    requires credits { (1 ≤ credits) × (credits ≤ 40) }
{
    match Mux::client(alloc, 9, 127, credits) {
        Ok(mut client) => match course {
            Course::Carriage => carry_and_renew(&mut client, server),
            Course::Credits => counts_credits(&mut client, server),
            Course::Answers => has_last_answers(&mut client, server),
        },
        Err(_none) => false,
    }
}

/// The same with a new server; both give as many credits at first.
fn goes(alloc: Global, frame: u16, credits: u8, course: Course) -> bool
    requires frame { (23 ≤ frame) × (frame ≤ 32761) }
    requires credits { (1 ≤ credits) × (credits ≤ 40) }
{
    match Mux::server(alloc, 9, frame, credits) {
        Ok(mut server) => client_goes(alloc, &mut server, credits, course),
        Err(_none) => false,
    }
}

#[test]
fn a_thousand_octets_with_one_credit(rt: HostRuntime) {
    assert!(rt; goes(rt.alloc(), 300, 1, Course::Carriage));
}

#[test]
fn credits(rt: HostRuntime) {
    assert!(rt; goes(rt.alloc(), 127, 7, Course::Credits));
}

#[test]
fn last_answers(rt: HostRuntime) {
    assert!(rt; goes(rt.alloc(), 127, 7, Course::Answers));
}

/// TEST, a question for settings, a command that is not understood, PN for another channel.
const QUESTIONS: [u8; 25] = [
    0x03, 0xEF, 0x2B, 0x23, 0x05, 1, 2, 0x93, 0x03, 0x4B, 0x63, 0x01, 0x83, 0x11, 0x14, 0xF0, 0, 0,
    0x7F, 0, 0, 7, 0x21, 0x01, 0,
];

/// The settings that answer the question for them.
const SETTINGS: [u8; 14] = [
    0x01, 0xEF, 0x15, 0x91, 0x11, 0x4B, 0x03, 0x03, 0, 0x11, 0x13, 0x7F, 0x3F, 0,
];

/// Whether a server answers each.
fn answers_questions(mux: &mut Mux) -> bool {
    hears_nothing(mux, &checked(QUESTIONS))
        && says(mux, &checked([0x01, 0xEF, 0x09, 0x21, 0x05, 1, 2, 0]))
        && says(mux, &checked(SETTINGS))
        && says(mux, &checked([0x01, 0xEF, 0x07, 0x11, 0x03, 0x63, 0]))
        && says(mux, &checked([0x53, 0x1F, 0x01, 0]))
        && is_silent(mux)
}

#[test]
fn answers_to_control_messages(rt: HostRuntime) -> Result<(), Fail> {
    let mut mux = Mux::server(rt.alloc(), 9, 127, 7)?;
    assert!(rt; answers_questions(&mut mux));
    Ok(())
}
