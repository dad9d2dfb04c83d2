ghost use Rattle.std.specs.Prelude.{◌≡◌, ◌∷◌, []};
ghost use Rattle.sdp_elements.specs.Elements.{Value, Sequence, Unsigned, Text};
ghost use Rattle.sdp_elements.specs.Spelling.{element_octets};

use crate::tables::rows;
use sdp_elements::*;

fn refusal_of(bytes: &[u8]) -> Option<SdpRefusal> {
    match element_of(bytes) {
        Ok(_) => None,
        Err(refusal) => Some(refusal),
    }
}

/// Octets, and why no element stands at their front.
const REFUSALS: [(&[u8], SdpRefusal); 14] = [
    (&[], SdpRefusal::Short),
    (b"\x01", SdpRefusal::BadHeader),
    (b"\x48", SdpRefusal::BadHeader),
    (b"\x0D\x01\x00", SdpRefusal::BadHeader),
    (b"\x1B\x11\x05", SdpRefusal::BadUuidSize),
    (b"\x1D\x02\x11\x05", SdpRefusal::BadUuidSize),
    (b"\x09\x11", SdpRefusal::Short),
    (b"\x35", SdpRefusal::Short),
    (b"\x35\x03\x19\x11", SdpRefusal::Short),
    (b"\x35\x02\x19\x11", SdpRefusal::LengthMismatch),
    (b"\x35\x02\x35\x01", SdpRefusal::LengthMismatch),
    (b"\x35\x03\x08\x00\x01", SdpRefusal::BadHeader),
    (b"\x36\x00", SdpRefusal::Short),
    (
        b"\x35\x10\x35\x0E\x35\x0C\x35\x0A\x35\x08\x35\x06\x3D\x04\x35\x02\x35\x00",
        SdpRefusal::TooDeep,
    ),
];

#[test]
fn refusals_come_in_order(rt: HostRuntime) {
    for (bytes, refusal) in rows(&REFUSALS) {
        assert!(rt; refusal_of(bytes) == Some(*refusal));
    }
}

fn number_of(element: &Element<'_>) -> Option<u128> {
    match element {
        Element::Uuid(id) => Some(id.as_u128()),
        _ => None,
    }
}

fn first_part(bytes: &[u8]) -> Option<u128> {
    match element_of(bytes) {
        Ok((Element::Sequence(children), _)) => {
            let mut parts = children;
            match parts.next() {
                Some(part) => number_of(&part),
                None => None,
            }
        }
        _ => None,
    }
}

#[test]
fn a_pattern_is_walked(rt: HostRuntime) {
    let service = uuid_of(0x1105).as_u128();
    assert!(rt; first_part(b"\x35\x03\x19\x11\x05") == Some(service));
    assert!(rt; first_part(b"\x36\x00\x05\x1A\x00\x00\x11\x05") == Some(service));
    assert!(rt; first_part(b"\x35\x00") == None);
}

/// The shortest forms of a sequence of one element, of a number and of a text, which is what
/// `put_element` writes.
fn shortest_forms()
    ensures sequence { element_octets (Sequence (0 ∷ [])) ≡ 0x35 ∷ 0x01 ∷ 0x00 ∷ [] }
    ensures number { element_octets (Value (Unsigned 2 0x1001)) ≡ 0x09 ∷ 0x10 ∷ 0x01 ∷ [] }
    ensures text { element_octets (Value (Text (0x4F ∷ 0x42 ∷ []))) ≡ 0x25 ∷ 0x02 ∷ 0x4F ∷ 0x42 ∷ [] }
{}

#[test]
fn pdus_and_their_parts_are_read(rt: HostRuntime) {
    let octets = [0x07, 0x00, 0x05, 0x00, 0x03, 0x35, 0x01, 0x00];
    match pdu_of(&octets) {
        Some(pdu) => {
            assert!(rt; pdu.identifier == 7 && pdu.transaction == 5);
            assert!(rt; sequence_at(pdu.parameters).is_some());
        }
        None => assert!(rt; false),
    }
    assert!(rt; pdu_of(&octets[..7]).is_none());
    assert!(rt; sequence_at(b"\x08\x01").is_none());
    assert!(rt; continuation_in(b"\x02\x00\x07").is_some());
    assert!(rt; continuation_in(b"\x02\x00").is_none());
    let mut into = [0; 4];
    assert!(rt; put_behind(1, &[5, 6], &mut into) == 3 && into == [0, 5, 6, 0]);
}
