ghost use Rattle.std.specs.Prelude.{◌≤◌, ◌<◌, length, IfOk};

use bt_base::Cid;
use ertm_frames::{Frame, FrameRefusal, SKind, frame_of};
use ertm_machine::{Ertm, ErtmReason, Heard, Submit};
use l2cap_config::{Agreed, Mode};
use std::alloc::Global;

const AGREED: Agreed = Agreed {
    mode: Mode::Enhanced,
    send_mtu: 1000,
    receive_mtu: 1000,
    send_mps: 48,
    receive_mps: 48,
    send_window: 10,
    receive_window: 10,
    tries: 3,
};

/// A machine with a receive window.
fn machine(alloc: Global, receive_window: u8) -> Result<Ertm, &'static str>
    requires some { 1 ≤ receive_window }
    requires few { receive_window ≤ 63 }
{
    let mut agreed = AGREED;
    agreed.receive_window = receive_window;
    Ertm::new(alloc, &agreed).ok().ok_or("memory")
}

/// A machine that has an SDU to send, and was reset before. It takes no second one.
fn sending(alloc: Global, sdu: &[u8]) -> Result<Ertm, &'static str>
    requires { length sdu.now ≤ 1000 }
{
    let mut ertm = Ertm::new(alloc, &AGREED).ok().ok_or("memory")?;
    ertm.reset(&AGREED);
    if ertm.submit(sdu) == Submit::Busy || ertm.submit(sdu) == Submit::Taken {
        return Err("one SDU is taken");
    }
    Ok(ertm)
}

/// How many octets the next frame of a machine has.
fn next(ertm: &mut Ertm, cid: Cid, into: &mut [u8; 1020]) -> Result<usize, &'static str>
    ensures { IfOk result (λ count. count ≤ 1020) }
{
    ertm.next_frame(cid, into).ok_or("a frame")
}

/// Whether it has none.
fn is_silent(ertm: &mut Ertm, cid: Cid) -> bool {
    next(ertm, cid, &mut [0u8; 1020]).is_err()
}

/// What a machine makes of a PDU.
fn hand<'a>(ertm: &'a mut Ertm, pdu: &'a [u8]) -> Result<Heard<'a>, &'static str> {
    match frame_of(pdu, 48) {
        Ok(frame) => Ok(ertm.on_frame(frame)),
        Err(_refusal) => Err("no frame"),
    }
}

/// Whether a machine drops a PDU, or only notes what it says.
fn hears_nothing(ertm: &mut Ertm, pdu: &[u8]) -> bool {
    matches!(hand(ertm, pdu), Ok(Heard::Nothing))
}

/// Whether the SDU that a PDU ends is this one.
fn hears_sdu(ertm: &mut Ertm, pdu: &[u8], sdu: &[u8]) -> bool {
    matches!(hand(ertm, pdu), Ok(Heard::Sdu(octets)) if octets == sdu)
}

/// Hands a machine an SDU of no octets in an I-frame.
fn hand_number(ertm: &mut Ertm, tx: u8)
    requires { tx < 64 }
{
    let _heard = ertm.on_frame(Frame::I {
        tx,
        last: false,
        req: 0,
        sar: 0,
        total: 0,
        octets: &[],
    });
}

/// Why a machine closes at an S-frame.
fn cause_of(ertm: &mut Ertm, kind: SKind, req: u8) -> Option<ErtmReason>
    requires { req < 64 }
{
    let frame = Frame::S {
        kind,
        poll: false,
        last: false,
        req,
    };
    match ertm.on_frame(frame) {
        Heard::Closed(reason) => Some(reason),
        Heard::Nothing => None,
        Heard::Sdu(_octets) => None,
    }
}

fn fire(ertm: &mut Ertm) -> Option<ErtmReason> {
    ertm.on_timer()
}

fn refuse(ertm: &mut Ertm, refusal: FrameRefusal) -> Option<ErtmReason> {
    ertm.on_refusal(refusal)
}

/// The number, the kind, the stated length and the size of a segment.
type Segment = (u8, u8, u16, usize);

/// Whether these octets are an I-frame with this segment, which acknowledges nothing.
fn has_segment(pdu: &[u8], segment: Segment) -> bool {
    match frame_of(pdu, 48) {
        Ok(
            Frame::I {
                tx,
                last: false,
                req: 0,
                sar,
                total,
                octets,
            },
        ) => (tx, sar, total, octets.len()) == segment,
        _ => false,
    }
}

/// Whether the next frame of a machine has this segment.
fn gives_segment(ertm: &mut Ertm, cid: Cid, segment: Segment) -> bool {
    let mut into = [0u8; 1020];
    match next(ertm, cid, &mut into) {
        Ok(count) => has_segment(&into[..count], segment),
        Err(_none) => false,
    }
}

/// Whether the next frame of a machine begins with these octets.
fn gives_front(ertm: &mut Ertm, cid: Cid, front: &[u8]) -> bool {
    let mut into = [0u8; 1020];
    next(ertm, cid, &mut into).is_ok() && into.starts_with(front)
}

/// Whether a machine has given three frames, and awaits what they come to.
fn awaits_three(ertm: &mut Ertm, cid: Cid) -> bool {
    is_silent(ertm, cid) && ertm.window_used() == 3 && ertm.armed()
}

/// Whether an SDU of 100 octets is given in three segments.
fn gives_three(ertm: &mut Ertm, cid: Cid) -> bool {
    gives_segment(ertm, cid, (0, 1, 100, 46))
        && gives_segment(ertm, cid, (1, 3, 0, 48))
        && gives_segment(ertm, cid, (2, 2, 0, 6))
        && awaits_three(ertm, cid)
}

/// Receive windows, the number that a machine hears which expects number 0, and whether it asks for those that are missing.
const NUMBERS: [(u8, u8, bool); 9] = [
    (62, 1, true),
    (62, 2, false),
    (63, 1, false),
    (10, 9, true),
    (10, 10, false),
    (10, 20, false),
    (10, 63, false),
    (32, 31, true),
    (32, 32, false),
];

/// Whether a machine rejects a number, or drops it without a word.
fn hears_number(ertm: &mut Ertm, cid: Cid, tx: u8, rejects: bool) -> bool {
    if tx >= 64 {
        return false;
    }
    hand_number(ertm, tx);
    (!rejects || gives_front(ertm, cid, &[4, 0, 0x40, 0, 0x05, 0x00]))
        && is_silent(ertm, cid)
        && ertm.closed().is_none()
}

/// The same of a new machine with that receive window.
fn new_hears_number(alloc: Global, cid: Cid, window: u8, tx: u8, rejects: bool) -> bool {
    if window < 1 || window > 63 {
        return false;
    }
    match machine(alloc, window) {
        Ok(mut ertm) => hears_number(&mut ertm, cid, tx, rejects),
        Err(_none) => false,
    }
}

/// Numbers that come while some are missing, and how the frame begins that is given then.
const MISSING: [(u8, &[u8]); 4] = [
    (6, &[4, 0, 0x40, 0, 0x05, 0x05]),
    (7, &[]),
    (5, &[4, 0, 0x40, 0, 0x01, 0x06]),
    (7, &[4, 0, 0x40, 0, 0x05, 0x06]),
];

/// Whether a number is heard, and that is all that is said then.
fn answers_number(ertm: &mut Ertm, cid: Cid, tx: u8, front: &[u8]) -> bool {
    if tx >= 64 {
        return false;
    }
    hand_number(ertm, tx);
    (front.is_empty() || gives_front(ertm, cid, front)) && is_silent(ertm, cid)
}

/// Whether a machine that heard the numbers 0 to 4 answers the others so.
fn answers_missing(ertm: &mut Ertm, cid: Cid) -> bool {
    for tx in 0..5 {
        hand_number(ertm, tx);
    }
    for (tx, front) in MISSING.iter() {
        if !answers_number(ertm, cid, *tx, *front) {
            return false;
        }
    }
    true
}

/// The same of a new machine.
fn new_answers_missing(alloc: Global, cid: Cid) -> bool {
    match machine(alloc, 10) {
        Ok(mut ertm) => answers_missing(&mut ertm, cid),
        Err(_none) => false,
    }
}

/// Whether the numbers of the rows are answered so, each by a new machine.
fn all_numbers_are_heard(alloc: Global, cid: Cid) -> bool {
    for (window, tx, rejects) in NUMBERS.iter() {
        if !new_hears_number(alloc, cid, *window, *tx, *rejects) {
            return false;
        }
    }
    true
}

#[test]
fn numbers_past_the_expected_one(rt: HostRuntime) {
    assert!(rt; matches!(Cid::of(0x0040), Some(cid) if all_numbers_are_heard(rt.alloc(), cid)));
}

#[test]
fn rejects_and_acknowledgements(rt: HostRuntime) {
    assert!(rt; matches!(Cid::of(0x0040), Some(cid) if new_answers_missing(rt.alloc(), cid)));
}

/// How many octets the next frame of a machine has, where its control field is this.
fn say(
    ertm: &mut Ertm,
    cid: Cid,
    into: &mut [u8; 1020],
    control: [u8; 2],
) -> Result<usize, &'static str>
    ensures { IfOk result (λ count. count ≤ 1020) }
{
    let count = next(ertm, cid, into)?;
    if [into[4], into[5]] == control {
        Ok(count)
    } else {
        Err("another control field")
    }
}

/// A frame of one is heard by the other, which hands nothing up.
fn pass(from: &mut Ertm, to: &mut Ertm, cid: Cid, control: [u8; 2]) -> Result<(), &'static str> {
    let mut into = [0u8; 1020];
    let count = say(from, cid, &mut into, control)?;
    hears_nothing(to, &into[..count])
        .then_some(())
        .ok_or("more than a frame")
}

/// Both machines have nothing to say.
fn are_silent(a: &mut Ertm, b: &mut Ertm, cid: Cid) -> Result<(), &'static str> {
    (is_silent(a, cid) && is_silent(b, cid))
        .then_some(())
        .ok_or("silence")
}

/// Of five I-frames the second is lost, and so is the REJ that follows.
fn lose_the_second(a: &mut Ertm, b: &mut Ertm, cid: Cid) -> Result<(), &'static str> {
    let mut into = [0u8; 1020];
    pass(a, b, cid, [0x00, 0x40])?;
    next(a, cid, &mut into)?;
    for control in [[0x04, 0xC0], [0x06, 0xC0], [0x08, 0x80]] {
        pass(a, b, cid, control)?;
    }
    say(b, cid, &mut into, [0x05, 0x01])?;
    are_silent(a, b, cid)
}

/// The timer fires: one polls, and the other answers with F, which is heard. The answer is written to `answer`.
fn poll(
    a: &mut Ertm,
    b: &mut Ertm,
    cid: Cid,
    answer: &mut [u8; 1020],
) -> Result<usize, &'static str>
    ensures { IfOk result (λ count. count ≤ 1020) }
{
    if fire(a).is_some() {
        return Err("a reason");
    }
    pass(a, b, cid, [0x11, 0x00])?;
    let count = say(b, cid, answer, [0x81, 0x01])?;
    if hears_nothing(a, &answer[..count]) && a.window_used() == 4 {
        Ok(count)
    } else {
        Err("four frames")
    }
}

/// The four frames are given again, once, though the answer with F is heard again and again.
fn give_again(
    a: &mut Ertm,
    b: &mut Ertm,
    cid: Cid,
    answer: &[u8],
    sdu: &[u8],
) -> Result<(), &'static str> {
    let mut into = [0u8; 1020];
    for control in [[0x02, 0xC0], [0x04, 0xC0], [0x06, 0xC0]] {
        pass(a, b, cid, control)?;
        if !hears_nothing(a, answer) {
            return Err("more than an answer");
        }
    }
    let count = say(a, cid, &mut into, [0x08, 0x80])?;
    if hears_sdu(b, &into[..count], sdu) && hears_nothing(a, answer) && is_silent(a, cid) {
        Ok(())
    } else {
        Err("the SDU")
    }
}

/// Of five I-frames the second is lost, and so is the REJ that follows: the timer finds it.
fn recovers(a: &mut Ertm, b: &mut Ertm, cid: Cid, sdu: &[u8]) -> Result<(), &'static str> {
    let mut answer = [0u8; 1020];
    lose_the_second(a, b, cid)?;
    let size = poll(a, b, cid, &mut answer)?;
    give_again(a, b, cid, &answer[..size], sdu)?;
    pass(b, a, cid, [0x01, 0x05])?;
    (!a.armed() && a.window_used() == 0)
        .then_some(())
        .ok_or("nothing on its way")
}

/// Whether the timer fires twice before a poll is given, of eight octets.
fn polls(ertm: &mut Ertm, cid: Cid) -> bool {
    let mut into = [0u8; 1020];
    fire(ertm).is_none() && fire(ertm).is_none() && next(ertm, cid, &mut into) == Ok(8)
}

/// Whether a poll is given `tries` times, and then the machine is closed.
fn polls_to_the_end(ertm: &mut Ertm, cid: Cid) -> bool {
    let is_right = fire(ertm).is_none()
        && !is_silent(ertm, cid)
        && polls(ertm, cid)
        && polls(ertm, cid)
        && polls(ertm, cid)
        && fire(ertm) == Some(ErtmReason::RetryLimit)
        && fire(ertm) == Some(ErtmReason::RetryLimit);
    hand_number(ertm, 0);
    is_right && is_silent(ertm, cid)
}

/// What a machine goes through that has an SDU to send.
#[derive(Clone, Copy)]
enum Course {
    Segments,
    Start,
    Recovery,
    Polls,
}

/// Whether it goes through that; in a recovery with another machine.
fn goes_through(a: &mut Ertm, b: &mut Ertm, cid: Cid, sdu: &[u8], course: Course) -> bool {
    match course {
        Course::Segments => gives_three(a, cid),
        Course::Start => gives_front(a, cid, &[0x34, 0, 0x40, 0, 0, 0x40, 0x64, 0]),
        Course::Recovery => recovers(a, b, cid, sdu).is_ok(),
        Course::Polls => polls_to_the_end(a, cid),
    }
}

/// The same of a machine and another, which is new.
fn goes(alloc: Global, a: &mut Ertm, sdu: &[u8], course: Course) -> bool {
    match (machine(alloc, 10), Cid::of(0x0040)) {
        (Ok(mut b), Some(cid)) => goes_through(a, &mut b, cid, sdu, course),
        _ => false,
    }
}

/// The same of two new machines.
fn new_goes(alloc: Global, sdu: &[u8], course: Course) -> bool
    requires { length sdu.now ≤ 1000 }
{
    match sending(alloc, sdu) {
        Ok(mut a) => goes(alloc, &mut a, sdu, course),
        Err(_none) => false,
    }
}

#[test]
fn an_sdu_in_three_segments(rt: HostRuntime) {
    assert!(rt; new_goes(rt.alloc(), &[7; 100], Course::Segments));
    assert!(rt; new_goes(rt.alloc(), &[7; 100], Course::Start));
}

#[test]
fn a_poll_recovers(rt: HostRuntime) {
    assert!(rt; new_goes(rt.alloc(), &[7; 200], Course::Recovery));
}

#[test]
fn polls_come_to_an_end(rt: HostRuntime) {
    assert!(rt; new_goes(rt.alloc(), &[], Course::Polls));
}

/// S-frames, and why a machine closes at them, where it does.
const CAUSES: [(SKind, u8, Option<ErtmReason>); 5] = [
    (SKind::Rr, 1, Some(ErtmReason::BadReqSeq)),
    (SKind::Srej, 1, Some(ErtmReason::BadReqSeq)),
    (SKind::Srej, 0, Some(ErtmReason::Srej)),
    (SKind::Rej, 0, None),
    (SKind::Rnr, 0, None),
];

/// Whether a new machine closes at an S-frame for that cause.
fn closes_at(alloc: Global, kind: SKind, req: u8, cause: Option<ErtmReason>) -> bool {
    match machine(alloc, 10) {
        Ok(mut ertm) => req < 64 && cause_of(&mut ertm, kind, req) == cause,
        Err(_none) => false,
    }
}

/// Whether a new machine closes at PDUs that are no frames, but for their check word.
fn closes_at_refusals(alloc: Global) -> bool {
    match machine(alloc, 10) {
        Ok(mut ertm) => {
            refuse(&mut ertm, FrameRefusal::BadFcs) == None
                && refuse(&mut ertm, FrameRefusal::BadStart) == Some(ErtmReason::BadFrame)
                && refuse(&mut ertm, FrameRefusal::Short) == Some(ErtmReason::BadFrame)
        }
        Err(_none) => false,
    }
}

#[test]
fn causes(rt: HostRuntime) {
    for (kind, req, cause) in CAUSES.iter() {
        assert!(rt; closes_at(rt.alloc(), *kind, *req, *cause));
    }
    assert!(rt; closes_at_refusals(rt.alloc()));
    assert!(rt; ErtmReason::BadFrame.number() == 7);
}
