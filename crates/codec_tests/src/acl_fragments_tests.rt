use crate::tables::rows;
use acl_fragments::*;
use hci_packets::Boundary;
use std::alloc::Global;

/// A piece, whether a PDU before it is left unfinished, and what comes of it.
type Row = (Boundary, &'static [u8], bool, Got<'static>);

/// A signalling PDU in two pieces, and a piece of none.
const TWO_PIECES: [Row; 3] = [
    (
        Boundary::First,
        &[0x08, 0x00, 0x01, 0x00, 0x02, 0x01],
        false,
        Got::More,
    ),
    (
        Boundary::Continuing,
        &[0x04, 0x00, 0x01, 0x00, 0x40, 0x00],
        false,
        Got::Pdu(
            0x0001,
            &[
                0x08, 0x00, 0x01, 0x00, 0x02, 0x01, 0x04, 0x00, 0x01, 0x00, 0x40, 0x00,
            ],
        ),
    ),
    (
        Boundary::Continuing,
        &[],
        false,
        Got::Dropped(DropReason::StrayContinuation),
    ),
];

/// Starts, each judged by itself.
const STARTS: [Row; 5] = [
    (
        Boundary::FirstFromController,
        &[0x00, 0x00, 0x01],
        false,
        Got::Dropped(DropReason::ShortStart),
    ),
    (
        Boundary::FirstFromController,
        &[0x05, 0x00, 0x01, 0x00],
        false,
        Got::Dropped(DropReason::AboveLimit),
    ),
    (
        Boundary::FirstFromController,
        &[0x04, 0x00, 0x01, 0x00],
        false,
        Got::More,
    ),
    (
        Boundary::FirstFromController,
        &[0x00, 0x00, 0x01, 0x00],
        true,
        Got::Pdu(0x0001, &[0x00, 0x00, 0x01, 0x00]),
    ),
    (
        Boundary::First,
        &[0x00, 0x00, 0x01, 0x00, 0x00],
        false,
        Got::Dropped(DropReason::Overrun),
    ),
];

/// Whether a piece comes to what its row says.
fn joins_piece(joiner: &mut Joiner, row: &Row) -> bool {
    let joined = joiner.take(row.0, row.1);
    joined.unfinished == row.2 && joined.got == row.3
}

/// Whether these pieces come to what their rows say.
fn joins(joiner: &mut Joiner, table: &[Row]) -> bool {
    for row in table {
        if !joins_piece(joiner, row) {
            return false;
        }
    }
    true
}

/// The same of a joiner of that limit.
fn new_joins(alloc: Global, limit: u32, table: &[Row]) -> bool {
    match Joiner::new(alloc, limit) {
        Ok(mut joiner) => joins(&mut joiner, table),
        Err(_) => false,
    }
}

#[test]
fn pieces_are_joined(rt: HostRuntime) {
    assert!(rt; new_joins(rt.alloc(), 672, rows(&TWO_PIECES)));
    assert!(rt; new_joins(rt.alloc(), 8, rows(&STARTS)));
}

#[test]
fn pieces_of_a_pdu(rt: HostRuntime) {
    let pdu = [7; 60];
    let mut cutter = Cutter::new(&pdu, 27, false);
    assert!(rt; matches!(cutter.next(), Some((Boundary::First, piece)) if piece.len() == 27));
    assert!(rt; matches!(cutter.next(), Some((Boundary::Continuing, piece)) if piece.len() == 27));
    assert!(rt; matches!(cutter.next(), Some((Boundary::Continuing, piece)) if piece.len() == 6));
    assert!(rt; cutter.next().is_none());
}
