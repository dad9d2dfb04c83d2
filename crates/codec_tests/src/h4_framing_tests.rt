use crate::tables::rows;
use h4_framing::*;
use std::alloc::Global;
use std::test::*;

/// A command and the event that answers it.
const ANSWERED: [u8; 11] = [
    0x01, 0x03, 0x0C, 0x00, 0x04, 0x0E, 0x04, 0x01, 0x03, 0x0C, 0x00,
];

/// An ACL packet of twelve octets.
const ACL: [u8; 17] = [
    0x02, 0x01, 0x20, 0x0C, 0x00, 0x08, 0x00, 0x01, 0x00, 0x02, 0x01, 0x04, 0x00, 0x01, 0x00, 0x40,
    0x00,
];

#[test]
fn packets_at_the_front(rt: HostRuntime) {
    assert!(rt;
        matches!(
            first(&ANSWERED, 1021),
            Leading::Whole(
                Unit::Command {
                    opcode: 0x0C03,
                    params: []
                },
                4
            )
        )
    );
    assert!(rt;
        matches!(
            first(&ANSWERED[4..], 1021),
            Leading::Whole(
                Unit::Event {
                    code: 0x0E,
                    params: [1, 3, 0x0C, 0]
                },
                7
            )
        )
    );
    assert!(rt; matches!(first(&ANSWERED[..3], 1021), Leading::Partial));
    assert!(rt;
        matches!(
            first(&[3, 0x34, 0x12, 1, 9], 1021),
            Leading::Whole(
                Unit::Sync {
                    word: 0x1234,
                    octets: [9]
                },
                5
            )
        )
    );
    assert!(rt;
        matches!(
            first(&ACL, 255),
            Leading::Whole(
                Unit::Acl {
                    word: 0x2001,
                    octets: [8, 0, 1, 0, 2, 1, 4, 0, 1, 0, 0x40, 0]
                },
                17
            )
        )
    );
    assert!(rt;
        matches!(
            first(&[5], 1021),
            Leading::Refused(H4Refusal::BadIndicator, 0)
        )
    );
}

/// Which packet comes with the octet at a place of `ANSWERED`: none, the command or the event.
fn comes_at(framer: &mut Framer, octet: u8) -> u8 {
    match framer.take(&[octet]) {
        Taken::More => 0,
        Taken::Whole(
            Unit::Command {
                opcode: 0x0C03,
                params: [],
            },
            1,
        ) => 1,
        Taken::Whole(
            Unit::Event {
                code: 0x0E,
                params: [1, 3, 0x0C, 0],
            },
            1,
        ) => 2,
        _ => 3,
    }
}

/// Whether the packets come with their last octets.
fn comes_octet_by_octet(framer: &mut Framer) -> bool {
    let mut place = 0u8;
    for octet in rows(&ANSWERED) {
        let awaited = match place {
            3 => 1,
            10 => 2,
            _ => 0,
        };
        if comes_at(framer, *octet) != awaited {
            return false;
        }
        place = place.saturating_add(1);
    }
    framer.end().is_ok()
}

#[test]
fn octet_by_octet(rt: HostRuntime) -> Result<(), Fail> {
    let mut framer = Framer::new(rt.alloc(), 1021)?;
    assert!(rt; comes_octet_by_octet(&mut framer));
    Ok(())
}

/// Whether an octet that begins no packet is refused for good.
fn refuses_an_indicator(framer: &mut Framer) -> bool {
    matches!(framer.take(&ANSWERED[..4]), Taken::Whole(_, 4))
        && matches!(
            framer.take(&[5]),
            Taken::Refused(H4Refusal::BadIndicator, 4)
        )
        && matches!(
            framer.take(&ANSWERED),
            Taken::Refused(H4Refusal::BadIndicator, 4)
        )
        && matches!(framer.end(), Err((H4Refusal::BadIndicator, 4)))
}

/// Whether a packet that is too long is refused at its head.
fn refuses_a_length(framer: &mut Framer) -> bool {
    matches!(framer.take(&[2, 1, 0x20, 0xFE]), Taken::More)
        && matches!(framer.take(&[3]), Taken::Refused(H4Refusal::AclTooLong, 4))
}

/// Whether a packet that is not whole is refused at the end.
fn refuses_an_end(framer: &mut Framer) -> bool {
    matches!(framer.take(&ACL[..16]), Taken::More)
        && matches!(framer.end(), Err((H4Refusal::Truncated, 0)))
}

#[test]
fn indicators_are_refused(rt: HostRuntime) -> Result<(), Fail> {
    let mut framer = Framer::new(rt.alloc(), 1021)?;
    assert!(rt; refuses_an_indicator(&mut framer));
    Ok(())
}

#[test]
fn lengths_are_refused(rt: HostRuntime) -> Result<(), Fail> {
    let mut framer = Framer::new(rt.alloc(), 1021)?;
    assert!(rt; refuses_a_length(&mut framer));
    Ok(())
}

#[test]
fn ends_are_refused(rt: HostRuntime) -> Result<(), Fail> {
    let mut framer = Framer::new(rt.alloc(), 1021)?;
    assert!(rt; refuses_an_end(&mut framer));
    Ok(())
}

/// What is held of a packet, and how many octets it has at least.
const LEAST_LENGTHS: [(&[u8], usize); 12] = [
    (&[], 3),
    (&[1], 4),
    (&[1, 3, 0x0C], 4),
    (&[1, 3, 0x0C, 9], 13),
    (&[2], 5),
    (&[2, 1, 0x20, 0xFE], 259),
    (&[2, 1, 0x20, 0xFE, 2], 771),
    (&[3, 1, 0], 4),
    (&[3, 1, 0, 7, 0], 11),
    (&[4], 3),
    (&[4, 0x0E], 3),
    (&[4, 0x0E, 200], 203),
];

/// Whether a new framer that holds this may have a packet of that length next.
fn has_least(alloc: Global, held: &[u8], least: usize) -> bool {
    match Framer::new(alloc, 1021) {
        Ok(mut framer) => {
            matches!(framer.take(held), Taken::More) && framer.least_length() == least
        }
        Err(_) => false,
    }
}

#[test]
fn least_lengths(rt: HostRuntime) {
    for (held, least) in rows(&LEAST_LENGTHS) {
        assert!(rt; has_least(rt.alloc(), *held, *least));
    }
}

#[test]
fn written_octets(rt: HostRuntime) {
    let params = [1u8, 3, 0x0C, 0];
    let event = Unit::Event {
        code: 0x0E,
        params: &params,
    };
    let mut into = [7u8; 8];
    assert!(rt; write_unit(&event, &mut into) == 7);
    assert!(rt; into.as_slice() == [4u8, 0x0E, 4, 1, 3, 0x0C, 0, 7].as_slice());
    let octets = [0x40u8; 2];
    let acl = Unit::Acl {
        word: 0x2001,
        octets: &octets,
    };
    let mut into = [7u8; 7];
    assert!(rt; write_unit(&acl, &mut into) == 7);
    assert!(rt; into.as_slice() == [2u8, 1, 0x20, 2, 0, 0x40, 0x40].as_slice());
}
