use l2cap_signal::*;
use std::test::*;

// Core 5.1, Volume 3 Part A: an information request for the extended features, then an echo request.
const TWO_COMMANDS: [u8; 12] = [0x0A, 3, 2, 0, 2, 0, 8, 4, 2, 0, 0xAA, 0xBB];

#[test]
fn two_commands_in_one_payload(rt: HostRuntime) {
    let mut signals = signals_of(&TWO_COMMANDS);
    let first = signals.next();
    assert!(rt;
        matches!(
            first,
            Some(Ok(Signal {
                identifier: 3,
                kind: SignalKind::InformationRequest { kind: 2 }
            }))
        )
    );
    let second = signals.next();
    assert!(rt;
        matches!(
            second,
            Some(Ok(Signal {
                identifier: 4,
                kind: SignalKind::EchoRequest {
                    octets: [0xAA, 0xBB]
                }
            }))
        )
    );
    assert!(rt; signals.next().is_none());
}

fn refused(payload: &[u8], refusal: SignalRefusal) -> bool {
    match signals_of(payload).next() {
        Some(Err(found)) => found == refusal,
        _ => false,
    }
}

#[test]
fn refusals(rt: HostRuntime) {
    let cut = SignalRefusal::BadLength {
        code: 4,
        identifier: Some(7),
    };
    assert!(rt; refused(&[4, 7, 8, 0, 0x40], cut));
    let mut signals = signals_of(&[4, 7, 8, 0, 0x40]);
    assert!(rt; signals.next().is_some());
    assert!(rt; signals.next().is_none());
    let alone = SignalRefusal::BadLength {
        code: 4,
        identifier: None,
    };
    assert!(rt; refused(&[4], alone));
    let zero = SignalRefusal::ZeroIdentifier {
        code: 0x0C,
        identifier: Some(0),
    };
    assert!(rt; refused(&[0x0C, 0, 0, 0], zero));
    let unknown = SignalRefusal::UnknownCode {
        code: 0x0C,
        identifier: Some(1),
    };
    assert!(rt; refused(&[0x0C, 1, 0, 0], unknown));
    let above = SignalRefusal::AboveMtu {
        code: 8,
        identifier: Some(9),
    };
    let mut long = [0u8; 673];
    long[0] = 8;
    long[1] = 9;
    assert!(rt; refused(&long, above));
}

#[test]
fn a_connection_request_is_written(rt: HostRuntime) {
    let kind = SignalKind::ConnectionRequest {
        psm: 0x0001,
        source: 0x0040,
    };
    let mut into = [0xFFu8; 9];
    let size = put_signal(
        &Signal {
            identifier: 1,
            kind,
        },
        &mut into,
    );
    assert!(rt; size == 8);
    assert!(rt; into == [0x02, 0x01, 0x04, 0x00, 0x01, 0x00, 0x40, 0x00, 0xFF]);
}
