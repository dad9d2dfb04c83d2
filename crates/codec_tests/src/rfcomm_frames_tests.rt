ghost use Rattle.std.specs.Prelude.{◌≤◌, length};

use crate::tables::rows;
use rfcomm_frames::*;

/// Frames of an opening channel: PN both ways on the control channel, and an SABM on channel 18.
const ASKED: [u8; 14] = [
    0x03, 0xEF, 0x15, 0x83, 0x11, 0x12, 0xF0, 0x00, 0x00, 0x7F, 0x00, 0x00, 0x07, 0x70,
];

const GRANTED: [u8; 14] = [
    0x01, 0xEF, 0x15, 0x81, 0x11, 0x12, 0xE0, 0x00, 0x00, 0x7F, 0x00, 0x00, 0x07, 0xAA,
];

const OPENING: [u8; 4] = [0x4B, 0x3F, 0x01, 0x32];

#[test]
fn heads_and_their_check_words(rt: HostRuntime) {
    assert!(rt; fcs8(&[0x03, 0x3F, 0x01]) == 0x1C);
    assert!(rt; fcs8(&[0x03, 0x73, 0x01]) == 0xD7);
    assert!(rt; fcs8(&[0x03, 0xEF]) == 0x70);
}

/// Octets, and why they are no frame.
const REFUSALS: [(&[u8], MuxRefusal); 14] = [
    (&[], MuxRefusal::Short),
    (&[0x03, 0x3F, 0x01], MuxRefusal::Short),
    (&[0x02, 0x00, 0x00, 0x00], MuxRefusal::BadExtension),
    (&[0x03, 0x3E, 0x00, 0x00], MuxRefusal::BadControl),
    (&[0x03, 0x3F, 0x03, 0x1C], MuxRefusal::LengthMismatch),
    // A length field of two octets leaves no room for the check word.
    (&[0x03, 0x3F, 0x00, 0x00], MuxRefusal::LengthMismatch),
    // Information in an SABM frame.
    (&[0x03, 0x3F, 0x03, 0xAA, 0x1C], MuxRefusal::LengthMismatch),
    // No credit octet, and one that the length counts.
    (&[0x4B, 0xFF, 0x01, 0x00], MuxRefusal::LengthMismatch),
    (&[0x4B, 0xFF, 0x03, 0x07, 0x00], MuxRefusal::LengthMismatch),
    (&[0x03, 0xEF, 0x05, 0xAA, 0x70], MuxRefusal::LengthMismatch),
    (&[0x03, 0xEF, 0x01, 0xAA, 0x70], MuxRefusal::LengthMismatch),
    (&[0x03, 0x3F, 0x01, 0x1D], MuxRefusal::BadFcs),
    // The check word of UIH is over two octets, that of the others over the length too.
    (&[0x03, 0xEF, 0x01, 0x1C], MuxRefusal::BadFcs),
    (&[0x03, 0x3F, 0x00, 0x00, 0x1C], MuxRefusal::BadFcs),
];

#[test]
fn refusals_of_frames(rt: HostRuntime) {
    for (bytes, refusal) in rows(&REFUSALS) {
        assert!(rt; frame_of(bytes) == Err(*refusal));
    }
}

/// Writes the frame that octets spell, and answers how many octets it has.
fn put_frame_again(octets: &[u8], into: &mut [u8]) -> usize
    requires { length octets.now ≤ length into.old }
    ensures { result ≤ length into.old }
{
    match frame_of(octets) {
        Ok(frame) => put_frame(&frame, into),
        Err(_) => 0,
    }
}

/// Frames, and how they are written again.
const AGAIN: [(&[u8], &[u8]); 4] = [
    (&ASKED, &ASKED),
    (&GRANTED, &GRANTED),
    (&OPENING, &OPENING),
    // A small length in two octets is read, and is written in one.
    (
        &[0x03, 0xEF, 0x04, 0x00, 0xAA, 0xBB, 0x70],
        &[0x03, 0xEF, 0x05, 0xAA, 0xBB, 0x70],
    ),
];

/// What is written to, before.
const UNWRITTEN: [u8; 16] = [0xEE; 16];

/// Whether these octets stand at the front of what was written to, and nothing behind them.
fn is_written(into: &[u8], end: usize, written: &[u8]) -> bool {
    into.get(..end) == Some(written) && into.get(end..) == UNWRITTEN.get(end..into.len())
}

/// Whether a frame of at most 16 octets is written again so.
fn is_frame_again(read: &[u8], written: &[u8]) -> bool {
    let mut into = [0xEE; 16];
    read.len() <= 16
        && {
            let end = put_frame_again(read, &mut into);
            is_written(&into, end, written)
        }
}

#[test]
fn frames_written_again(rt: HostRuntime) {
    for (read, written) in rows(&AGAIN) {
        assert!(rt; is_frame_again(*read, *written));
    }
}

/// 200 octets of information need a length field of two octets.
#[test]
fn long_information(rt: HostRuntime) {
    let mut octets = [0xAA; 205];
    octets[..4].copy_from_slice(&[0x03, 0xEF, 0x90, 0x01]);
    octets[204] = 0x70;
    let mut into = [0xEE; 205];
    assert!(rt; put_frame_again(&octets, &mut into) == 205 && &into == &octets);
}

/// A frame of channel 18 that grants seven credits.
const GRANTING: MuxFrame<'static> = MuxFrame {
    dlci: 18,
    cr: true,
    kind: MuxKind::Uih,
    pf: true,
    credits: Some(7),
    octets: &[0xAA],
};

/// Whether a frame of a channel that no service has is read.
fn is_read(address: u8) -> bool {
    frame_of(&[address, 0x2F, 0x01, fcs8(&[address, 0x2F, 0x01])]).is_ok()
}

#[test]
fn credits_and_channels(rt: HostRuntime) {
    // A credit octet is in neither the length nor the check word.
    let granting: [u8; 6] = [0x4B, 0xFF, 0x03, 0x07, 0xAA, fcs8(&[0x4B, 0xFF])];
    assert!(rt; frame_of(&granting) == Ok(GRANTING));
    assert!(rt; is_read(0x05) && is_read(0xF9) && is_read(0xFD));
}

/// Octets of the information of the control channel, with one octet more behind them.
const PARAMETERS: [u8; 11] = [
    0x83, 0x11, 0x12, 0xF0, 0x00, 0x00, 0x7F, 0x00, 0x00, 0x07, 0xEE,
];

/// What they are.
const ASKED_FOR: Control<'static> = Control::Pn {
    command: true,
    dlci: 18,
    flow: 0xF0,
    priority: 0,
    timer: 0,
    frame: 127,
    retransmissions: 0,
    credits: 7,
};

#[test]
fn parameters_of_a_channel(rt: HostRuntime) {
    assert!(rt; control_of(&PARAMETERS) == Ok((ASKED_FOR, 10)));
}

/// Octets, and why no control message stands at their front.
const CONTROL_REFUSALS: [(&[u8], MuxRefusal); 11] = [
    (&[], MuxRefusal::Short),
    (&[0x83], MuxRefusal::Short),
    (&[0x82], MuxRefusal::Short),
    (&[0x83, 0x10], MuxRefusal::Short),
    (&[0x82, 0x01], MuxRefusal::BadExtension),
    // The value passes the end, or has another length than those of its type.
    (&[0x23, 0x05, 0xAA], MuxRefusal::LengthMismatch),
    (
        &[0x83, 0x0F, 1, 2, 3, 4, 5, 6, 7],
        MuxRefusal::LengthMismatch,
    ),
    (&[0xE3, 0x03, 1], MuxRefusal::LengthMismatch),
    (&[0xE1, 0x07, 1, 2, 3], MuxRefusal::LengthMismatch),
    (&[0x11, 0x01], MuxRefusal::LengthMismatch),
    (&[0x11, 0x05, 1, 2], MuxRefusal::LengthMismatch),
];

#[test]
fn refusals_of_control_messages(rt: HostRuntime) {
    for (octets, refusal) in rows(&CONTROL_REFUSALS) {
        assert!(rt; control_of(octets) == Err(*refusal));
    }
}

/// Writes the control message at the front of octets, and answers how many octets it has.
fn put_control_again(octets: &[u8], into: &mut [u8]) -> usize
    requires { length octets.now ≤ length into.old }
    ensures { result ≤ length into.old }
{
    match control_of(octets) {
        Ok((control, _)) => put_control(&control, into),
        Err(_) => 0,
    }
}

/// Control messages that are written again as they are.
const MESSAGES: [&[u8]; 10] = [
    &[0x83, 0x11, 0x12, 0xF0, 0x00, 0x00, 0x7F, 0x00, 0x00, 0x07],
    &[0x81, 0x11, 0x12, 0xE0, 0x00, 0x00, 0xFF, 0x7F, 0x00, 0x07],
    &[0xE3, 0x05, 0x4B, 0x8D],
    &[0xE1, 0x05, 0x4B, 0x8D],
    &[0x23, 0x07, 1, 2, 3],
    &[0x93, 0x03, 0x4B],
    &[0x91, 0x11, 0x4B, 0x03, 0x03, 0, 0x11, 0x13, 0x7F, 0x3F],
    &[0x53, 0x05, 0x4B, 0x01],
    &[0x11, 0x03, 0x63],
    // With the C/R bit, NSC is a type that has no meaning.
    &[0x13, 0x03, 0x63],
];

/// Whether a message of at most 12 octets is written again as it is.
fn is_message_again(octets: &[u8]) -> bool {
    let mut into = [0xEE; 12];
    octets.len() <= 12
        && {
            let end = put_control_again(octets, &mut into);
            is_written(&into, end, octets)
        }
}

#[test]
fn control_messages_written_again(rt: HostRuntime) {
    for octets in rows(&MESSAGES) {
        assert!(rt; is_message_again(*octets));
    }
}
