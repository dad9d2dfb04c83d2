ghost use Rattle.std.specs.Prelude.{◌≡◌, ◌+◌, ◌≤◌, length};

use crate::tables::rows;
use bt_base::Cid;
use ertm_frames::*;

/// The I-frame and the RR frame that the standard works out (Core 5.1, Volume 3 Part A, 3.3.5).
const INFORMATION: [u8; 18] = [
    0x0E, 0x00, 0x40, 0x00, 0x02, 0x00, 0, 1, 2, 3, 4, 5, 6, 7, 8, 9, 0x38, 0x61,
];

const READY: [u8; 8] = [0x04, 0x00, 0x40, 0x00, 0x01, 0x01, 0xD4, 0x14];

/// What both are.
const IN_ORDER: Frame<'static> = Frame::I {
    tx: 1,
    last: false,
    req: 0,
    sar: 0,
    total: 0,
    octets: &[0, 1, 2, 3, 4, 5, 6, 7, 8, 9],
};

const RECEIVER_READY: Frame<'static> = Frame::S {
    kind: SKind::Rr,
    poll: false,
    last: false,
    req: 1,
};

#[test]
fn frames_of_the_standard(rt: HostRuntime) {
    assert!(rt; frame_of(&INFORMATION, 48) == Ok(IN_ORDER));
    assert!(rt; frame_of(&READY, 48) == Ok(RECEIVER_READY));
}

/// PDUs, the greatest payload, and why they are no frames.
const REFUSALS: [(&[u8], u16, FrameRefusal); 6] = [
    (&[4, 0, 0x40, 0, 1, 1, 0xD4], 48, FrameRefusal::Short),
    (&[5, 0, 0x40, 0, 1, 1, 0xD4, 0x14], 48, FrameRefusal::Short),
    (&[4, 0, 0x40, 0, 1, 1, 0xD4, 0x15], 48, FrameRefusal::BadFcs),
    (
        &[4, 0, 0x40, 0, 3, 1, 0xD5, 0x74],
        48,
        FrameRefusal::ReservedSet,
    ),
    (
        &[4, 0, 0x40, 0, 0, 0x40, 0x15, 0xB4],
        48,
        FrameRefusal::BadStart,
    ),
    (&INFORMATION, 9, FrameRefusal::AboveMps),
];

#[test]
fn refusals_in_their_order(rt: HostRuntime) {
    for (pdu, mps, refusal) in rows(&REFUSALS) {
        assert!(rt; frame_of(pdu, *mps) == Err(*refusal));
    }
}

/// Writes an I-frame with TxSeq 1 and these octets, and answers how many octets it has.
fn put_information(cid: Cid, octets: &[u8], into: &mut [u8]) -> usize
    requires few { length octets.now ≤ 10 }
    requires room { 8 + length octets.now ≤ length into.old }
    ensures { result ≡ 8 + length octets.now }
{
    let frame = Frame::I {
        tx: 1,
        last: false,
        req: 0,
        sar: 0,
        total: 0,
        octets,
    };
    put_frame(cid, &frame, into)
}

/// Whether the I-frame is written on a channel, and nothing behind it.
fn writes_information(cid: Cid) -> bool {
    let mut into = [0xEE; 20];
    put_information(cid, &[0, 1, 2, 3, 4, 5, 6, 7, 8, 9], &mut into) == 18
        && into.starts_with(&INFORMATION)
        && into.ends_with(&[0xEE, 0xEE])
}

/// Whether a REJ is written there.
fn writes_reject(cid: Cid) -> bool {
    let mut into = [0xEE; 20];
    let reject = Frame::S {
        kind: SKind::Rej,
        poll: false,
        last: false,
        req: 5,
    };
    put_frame(cid, &reject, &mut into) == 8 && into[4..6] == [0x05, 0x05]
}

#[test]
fn written_frames(rt: HostRuntime) {
    let is_right = match Cid::of(0x0040) {
        Some(cid) => writes_information(cid) && writes_reject(cid),
        None => false,
    };
    assert!(rt; is_right);
}

/// Writes the start of an SDU of 100 octets, and answers how many octets the frame has.
fn put_start(cid: Cid, octets: &[u8], into: &mut [u8]) -> usize
    requires few { length octets.now ≤ 46 }
    requires room { 10 + length octets.now ≤ length into.old }
    ensures { result ≡ 10 + length octets.now }
{
    let frame = Frame::I {
        tx: 0,
        last: false,
        req: 0,
        sar: 1,
        total: 100,
        octets,
    };
    put_frame(cid, &frame, into)
}

/// What it is.
const START: Frame<'static> = Frame::I {
    tx: 0,
    last: false,
    req: 0,
    sar: 1,
    total: 100,
    octets: &[7u8; 46],
};

/// Whether it is written on a channel, and read again.
fn starts(cid: Cid) -> bool {
    let mut into = [0u8; 56];
    put_start(cid, &[7u8; 46], &mut into) == 56
        && into.starts_with(&[0x34, 0, 0x40, 0, 0, 0x40, 0x64, 0])
        && frame_of(&into, 46) == Ok(START)
}

#[test]
fn start_of_an_sdu(rt: HostRuntime) {
    let is_right = match Cid::of(0x0040) {
        Some(cid) => starts(cid),
        None => false,
    };
    assert!(rt; is_right);
}
