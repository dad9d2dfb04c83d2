ghost use Rattle.std.specs.Prelude.{◌<◌};

use crate::tables::rows;
use obex_headers::runs::{SpelledObject, objects_in};
use obex_headers::*;
use std::alloc::Global;
use std::test::Fail;

const CONNECT: [u8; 7] = [0x80, 0x00, 0x07, 0x10, 0x00, 0x04, 0x00];

const PUT: [u8; 20] = [
    0x82, 0x00, 0x14, 0x01, 0x00, 0x07, 0x00, 0x61, 0x00, 0x00, 0xC3, 0x00, 0x00, 0x00, 0x02, 0x49,
    0x00, 0x05, 0x68, 0x69,
];

const PUT_NOTHING: [u8; 18] = [
    0x82, 0x00, 0x12, 0x01, 0x00, 0x07, 0x00, 0x61, 0x00, 0x00, 0xC3, 0x00, 0x00, 0x00, 0x00, 0x49,
    0x00, 0x03,
];

const SUCCESS: [u8; 3] = [0xA0, 0x00, 0x03];

fn is_read(bytes: &[u8], phase: Phase) -> bool {
    packet_of(bytes, phase, 1024).is_ok()
}

/// The packets of a push, and how each is read.
const READ: [(&[u8], Phase); 6] = [
    (&CONNECT, Phase::Request),
    (&PUT, Phase::Request),
    (&PUT_NOTHING, Phase::Request),
    (&SUCCESS, Phase::Response),
    (
        &[0xA0, 0x00, 0x07, 0x10, 0x00, 0x00, 0xFF],
        Phase::ConnectResponse,
    ),
    (&[0x85, 0x00, 0x05, 0x02, 0x00], Phase::Request),
];

#[test]
fn packets_of_a_push_are_read(rt: HostRuntime) {
    for (bytes, phase) in rows(&READ) {
        assert!(rt; is_read(*bytes, *phase));
    }
}

/// Whether these are the headers of the PUT.
fn are_of_put(headers: &mut Headers<'_>) -> bool {
    matches!(
        headers.next(),
        Some(Header {
            id: 0x01,
            value: HeaderValue::Text([0x00, 0x61, 0x00, 0x00])
        })
    ) && matches!(
        headers.next(),
        Some(Header {
            id: 0xC3,
            value: HeaderValue::Four(2)
        })
    ) && matches!(
        headers.next(),
        Some(Header {
            id: 0x49,
            value: HeaderValue::Octets(b"hi")
        })
    ) && headers.next().is_none()
}

#[test]
fn headers_of_a_put_are_given_in_order(rt: HostRuntime) {
    let is_right = match packet_of(&PUT, Phase::Request, 20) {
        Ok(packet) => packet.code == 0x82 && are_of_put(&mut headers_of(&packet)),
        Err(_) => false,
    };
    assert!(rt; is_right);
}

const NAME: Header<'static> = Header {
    id: 0x01,
    value: HeaderValue::Text(&[0x00, 0x61, 0x00, 0x00]),
};

const LENGTH: Header<'static> = Header {
    id: 0xC3,
    value: HeaderValue::Four(2),
};

#[test]
fn a_put_is_written(rt: HostRuntime) {
    let mut into = [0u8; 24];
    into[18] = b'h';
    into[19] = b'i';
    let at = start_packet(0x82, &[], &mut into);
    let at = add_header(&NAME, at, &mut into);
    let at = add_header(&LENGTH, at, &mut into);
    let at = add_placed(0x49, 2, at, &mut into);
    assert!(rt; at == 20 && &into[..20] == PUT.as_slice());
}

#[test]
fn the_units_of_a_name(rt: HostRuntime) {
    let mut units = [9u16; 3];
    let two = name_units(&[0x00, 0x61, 0x20, 0xAC, 0x00, 0x00], &mut units);
    assert!(rt; two == Some(2) && units == [0x61, 0x20AC, 9]);
    assert!(rt; name_units(&[], &mut units) == Some(0));
    assert!(rt; name_units(&[0x00, 0x61, 0x00, 0x00], &mut []) == None);
}

fn refusal_of(bytes: &[u8], phase: Phase, maximum: u16) -> Option<ObexRefusal> {
    packet_of(bytes, phase, maximum).err()
}

/// Octets, how they are read, their maximum, and why they are no packet.
const REFUSALS: [(&[u8], Phase, u16, ObexRefusal); 15] = [
    (&[0x80, 0x00], Phase::Request, 0, ObexRefusal::Short),
    (
        &[0x80, 0x00, 0x06, 0x10, 0x00, 0x04],
        Phase::Request,
        0,
        ObexRefusal::Short,
    ),
    (
        &[0x85, 0x00, 0x04, 0x02],
        Phase::Request,
        255,
        ObexRefusal::Short,
    ),
    (
        &[0xA0, 0x00, 0x03],
        Phase::ConnectResponse,
        255,
        ObexRefusal::Short,
    ),
    (
        &[0x02, 0x00, 0x09],
        Phase::Request,
        2,
        ObexRefusal::AboveMaximum,
    ),
    (
        &[0x02, 0x00, 0x04],
        Phase::Request,
        255,
        ObexRefusal::BadLength,
    ),
    (
        &[0x02, 0x00, 0x02, 0x00],
        Phase::Request,
        255,
        ObexRefusal::BadLength,
    ),
    (
        &[0x80, 0x00, 0x07, 0x20, 0x00, 0x00, 0xFE],
        Phase::Request,
        255,
        ObexRefusal::BadLength,
    ),
    (
        &[0x80, 0x00, 0x07, 0x20, 0x00, 0x00, 0xFF],
        Phase::Request,
        255,
        ObexRefusal::BadVersion,
    ),
    (
        &[0x02, 0x00, 0x04, 0x97],
        Phase::Request,
        255,
        ObexRefusal::BadHeaderLength,
    ),
    (
        &[0x02, 0x00, 0x07, 0xC3, 0x00, 0x00, 0x00],
        Phase::Request,
        255,
        ObexRefusal::BadHeaderLength,
    ),
    (
        &[0x02, 0x00, 0x06, 0x48, 0x00, 0x02],
        Phase::Request,
        255,
        ObexRefusal::BadHeaderLength,
    ),
    (
        &[0x02, 0x00, 0x06, 0x48, 0x00, 0x04],
        Phase::Request,
        255,
        ObexRefusal::BadHeaderLength,
    ),
    (
        &[0x02, 0x00, 0x07, 0x01, 0x00, 0x04, 0x00],
        Phase::Request,
        255,
        ObexRefusal::BadText,
    ),
    (
        &[0x02, 0x00, 0x09, 0x01, 0x00, 0x05, 0x00, 0x61, 0x97],
        Phase::Request,
        255,
        ObexRefusal::BadText,
    ),
];

#[test]
fn refusals_come_in_their_order(rt: HostRuntime) {
    for (bytes, phase, maximum, refusal) in rows(&REFUSALS) {
        assert!(rt; refusal_of(bytes, *phase, *maximum) == Some(*refusal));
    }
}

// A PUT with a Name alone, and a final PUT with a body alone.
const NAMED: [u8; 10] = [0x02, 0x00, 0x0A, 0x01, 0x00, 0x07, 0x00, 0x61, 0x00, 0x00];

const BODY: [u8; 7] = [0x02, 0x00, 0x07, 0x48, 0x00, 0x04, 0x68];

const END: [u8; 7] = [0x82, 0x00, 0x07, 0x49, 0x00, 0x04, 0x69];

const FINAL_NAMED: [u8; 10] = [0x82, 0x00, 0x0A, 0x01, 0x00, 0x07, 0x00, 0x61, 0x00, 0x00];

const BODY_FIRST: [u8; 14] = [
    0x82, 0x00, 0x0E, 0x49, 0x00, 0x04, 0x68, 0x01, 0x00, 0x07, 0x00, 0x61, 0x00, 0x00,
];

const WRONG_LENGTH: [u8; 3] = [0x02, 0x00, 0x04];

/// The objects that these packets spell.
fn objects_of(alloc: Global, packets: &[&[u8]]) -> Option<Vec<SpelledObject>> {
    let mut owned = Vec::new(alloc);
    for packet in packets {
        owned.push(Vec::from_slice(alloc, *packet).ok()?).ok()?;
    }
    objects_in(alloc, &owned).ok()
}

/// Whether packets spell so many objects.
fn spells(alloc: Global, packets: &[&[u8]], count: usize) -> bool {
    match objects_of(alloc, packets) {
        Some(objects) => objects.len() == count,
        None => false,
    }
}

/// Whether these are one object, named `a`, with these octets.
fn is_named_a(objects: &[SpelledObject], octets: &[u8]) -> bool {
    match objects {
        [object] => object.name.as_slice() == [0x61].as_slice()
            && object.octets.as_slice() == octets,
        _ => false,
    }
}

/// Whether packets spell that object.
fn spells_one(alloc: Global, packets: &[&[u8]], octets: &[u8]) -> bool {
    match objects_of(alloc, packets) {
        Some(objects) => is_named_a(&objects, octets),
        None => false,
    }
}

/// Packets that spell one object, and its octets.
const OBJECTS: [(&[&[u8]], &[u8]); 4] = [
    (&[&PUT], b"hi"),
    (&[&PUT_NOTHING], b""),
    (&[&CONNECT, &NAMED, &BODY, &END], b"hi"),
    (&[&NAMED, &WRONG_LENGTH, &PUT, &NAMED], b"hi"),
];

#[test]
fn packets_spell_an_object(rt: HostRuntime) {
    for (packets, octets) in rows(&OBJECTS) {
        assert!(rt; spells_one(rt.alloc(), *packets, *octets));
    }
}

/// Packets, and how many objects they spell.
const COUNTED: [(&[&[u8]], usize); 10] = [
    (&[&PUT, &PUT_NOTHING], 2),
    // a second Name
    (&[&NAMED, &PUT], 0),
    // a body ahead of the Name, in an earlier packet and in the same one
    (&[&BODY, &PUT_NOTHING, &END], 1),
    (&[&BODY_FIRST], 0),
    // final without a body, and without a Name
    (&[&FINAL_NAMED], 0),
    (&[&END], 0),
    // another packet between, and one that is refused
    (&[&NAMED, &CONNECT, &END], 0),
    (&[&NAMED, &WRONG_LENGTH, &END], 0),
    // not final
    (&[&NAMED, &BODY], 0),
    (&[], 0),
];

#[test]
fn runs_that_break_a_rule_spell_nothing(rt: HostRuntime) {
    for (packets, count) in rows(&COUNTED) {
        assert!(rt; spells(rt.alloc(), *packets, *count));
    }
}

/// Whether a final PUT with a Name of so many octets, the two of its end with them, and an empty End of Body spells so many objects.
fn names_spell(alloc: Global, text: u16, count: usize) -> bool
    requires { text < 1000 }
{
    let mut packet = [0u8; 1012];
    let size = usize::from(text);
    packet[0] = 0x82;
    packet[1..3].copy_from_slice(&(9 + text).to_be_bytes());
    packet[3] = 0x01;
    packet[4..6].copy_from_slice(&(3 + text).to_be_bytes());
    packet[6 + size..9 + size].copy_from_slice(&[0x49, 0x00, 0x03]);
    spells(alloc, &[&packet[..9 + size]], count)
}

#[test]
fn a_name_has_at_most_255_units(rt: HostRuntime) {
    assert!(rt; names_spell(rt.alloc(), 2 * 255 + 2, 1));
    assert!(rt; names_spell(rt.alloc(), 2 * 256 + 2, 0));
}

/// What an assembler makes of a piece: each packet that it gives is to be the next of these; whether they are, and what is refused.
fn feed(
    assembler: &mut Assembler,
    piece: &[u8],
    packets: &[&[u8]],
    given: &mut usize,
) -> (bool, Option<ObexRefusal>) {
    let mut rest = piece;
    for _ in 0..piece.len() {
        match assembler.take(rest) {
            Assembled::Packet(octets, used) => {
                if packets.get(*given) != Some(&octets) {
                    return (false, None);
                }
                *given = given.saturating_add(1);
                rest = rest.get(used..).unwrap_or(&[]);
            }
            Assembled::More => return (true, None),
            Assembled::Refused(refusal) => return (true, Some(refusal)),
        }
        if rest.is_empty() {
            return (true, None);
        }
    }
    (true, None)
}

/// Three packets, one behind the other.
const STREAM: [u8; 30] = [
    0x80, 0x00, 0x07, 0x10, 0x00, 0x04, 0x00, 0x82, 0x00, 0x14, 0x01, 0x00, 0x07, 0x00, 0x61, 0x00,
    0x00, 0xC3, 0x00, 0x00, 0x00, 0x02, 0x49, 0x00, 0x05, 0x68, 0x69, 0xA0, 0x00, 0x03,
];

/// Whether the packets of the stream come out of it in pieces of that size.
fn gives_all(assembler: &mut Assembler, size: usize) -> bool {
    let packets: [&[u8]; 3] = [&CONNECT, &PUT, &SUCCESS];
    let mut given = 0usize;
    for piece in STREAM.chunks(size.max(1)) {
        if feed(assembler, piece, &packets, &mut given) != (true, None) {
            return false;
        }
    }
    given == 3
}

/// The same of a new assembler.
fn new_gives_all(alloc: Global, size: usize) -> bool {
    match Assembler::new(alloc, 20) {
        Ok(mut assembler) => gives_all(&mut assembler, size),
        Err(_) => false,
    }
}

#[test]
fn any_pieces_give_the_packets_of_the_stream(rt: HostRuntime) {
    for size in rows(&[1usize, 2, 3, 7, 30]) {
        assert!(rt; new_gives_all(rt.alloc(), *size));
    }
}

/// What is refused of a piece in which no packet is whole.
fn refused_of(assembler: &mut Assembler, piece: &[u8]) -> Option<ObexRefusal> {
    let mut given = 0usize;
    feed(assembler, piece, &[], &mut given).1
}

/// Whether an assembler refuses for good until it is reset, and gives one packet then.
fn refuses_for_good(assembler: &mut Assembler) -> bool {
    let is_refused = refused_of(assembler, &PUT) == Some(ObexRefusal::AboveMaximum)
        && refused_of(assembler, &SUCCESS) == Some(ObexRefusal::AboveMaximum);
    assembler.reset();
    let mut given = 0usize;
    is_refused
        && feed(assembler, &SUCCESS, &[&SUCCESS], &mut given) == (true, None)
        && given == 1
        && refused_of(assembler, &[0xA0, 0x00, 0x02]) == Some(ObexRefusal::BadLength)
}

#[test]
fn an_assembler_refuses_for_good_until_it_is_reset(rt: HostRuntime) -> Result<(), Fail> {
    let mut assembler = Assembler::new(rt.alloc(), 19)?;
    assert!(rt; refuses_for_good(&mut assembler));
    Ok(())
}
