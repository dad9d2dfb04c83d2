use crate::tables::rows;
use bt_base::NoMemory;
use std::alloc::Global;
use std::test::*;
use wire_packets::*;

/// A packet, its octets, and what stands for them on the line.
struct Row {
    packet: WirePacket<'static>,
    octets: &'static [u8],
    line: &'static [u8],
}

/// SYNC, CONFIG with window 4, an acknowledgement, and a reliable command.
const ROWS: [Row; 4] = [
    Row {
        packet: WirePacket {
            seq: 0,
            ack: 0,
            reliable: false,
            kind: 15,
            payload: &[0x01, 0x7E],
        },
        octets: &[0x00, 0x2F, 0x00, 0xD0, 0x01, 0x7E],
        line: &[0xC0, 0x00, 0x2F, 0x00, 0xD0, 0x01, 0x7E, 0xC0],
    },
    Row {
        packet: WirePacket {
            seq: 0,
            ack: 0,
            reliable: false,
            kind: 15,
            payload: &[0x03, 0xFC, 0x04],
        },
        octets: &[0x00, 0x3F, 0x00, 0xC0, 0x03, 0xFC, 0x04],
        line: &[0xC0, 0x00, 0x3F, 0x00, 0xDB, 0xDC, 0x03, 0xFC, 0x04, 0xC0],
    },
    Row {
        packet: WirePacket {
            seq: 0,
            ack: 1,
            reliable: false,
            kind: 0,
            payload: &[],
        },
        octets: &[0x08, 0x00, 0x00, 0xF7],
        line: &[0xC0, 0x08, 0x00, 0x00, 0xF7, 0xC0],
    },
    Row {
        packet: WirePacket {
            seq: 0,
            ack: 0,
            reliable: true,
            kind: 1,
            payload: &[0x03, 0x0C, 0x00],
        },
        octets: &[0x80, 0x31, 0x00, 0x4E, 0x03, 0x0C, 0x00],
        line: &[0xC0, 0x80, 0x31, 0x00, 0x4E, 0x03, 0x0C, 0x00, 0xC0],
    },
];

/// Whether octets are read as a packet.
fn is_read(octets: &[u8], packet: &WirePacket<'_>) -> bool {
    match packet_of(octets) {
        Ok(read) => {
            read.seq == packet.seq
                && read.ack == packet.ack
                && read.reliable == packet.reliable
                && read.kind == packet.kind
                && read.payload == packet.payload
        }
        Err(_) => false,
    }
}

#[test]
fn packets_both_ways(rt: HostRuntime) {
    let mut octets = [0u8; 16];
    let mut line = [0u8; 16];
    for row in &ROWS {
        let count = put_packet(&row.packet, &mut octets);
        let size = put_slip(row.octets, &mut line);
        assert!(rt; octets.get(..count) == Some(row.octets));
        assert!(rt; line.get(..size) == Some(row.line));
        assert!(rt; is_read(row.octets, &row.packet));
    }
}

/// Octets that are no packet, and why.
const REFUSALS: [(&[u8], WireRefusal); 5] = [
    (&[0x00, 0xFF, 0x00], WireRefusal::Short),
    (&[0x48, 0x00, 0x00, 0xF7], WireRefusal::BadChecksum),
    (&[0x48, 0x10, 0x00, 0xA7], WireRefusal::Checked),
    (&[0x08, 0x15, 0x00, 0xE2], WireRefusal::BadLength),
    (&[0x08, 0x05, 0x00, 0xF2], WireRefusal::BadKind),
];

#[test]
fn refusals(rt: HostRuntime) {
    for (octets, refusal) in rows(&REFUSALS) {
        assert!(rt; matches!(packet_of(*octets), Err(found) if found == *refusal));
    }
}

/// Counts what a decoder makes of a line in pieces of so many octets: the octets of packets, wrong
/// escapes, packets that are too long.
fn counted(alloc: Global, line: &[u8], size: usize) -> Result<[usize; 3], NoMemory> {
    let mut slip = Slip::new(alloc)?;
    let mut counts = [0usize; 3];
    for piece in line.chunks(size.max(1)) {
        let mut rest = piece;
        for _ in 0..line.len() {
            let used = match slip.take(rest) {
                SlipTaken::Packet(octets, used) => {
                    counts[0] = counts[0].saturating_add(octets.len());
                    used
                }
                SlipTaken::Bad(WireRefusal::BadEscape, used) => {
                    counts[1] = counts[1].saturating_add(1);
                    used
                }
                SlipTaken::Bad(_, used) => {
                    counts[2] = counts[2].saturating_add(1);
                    used
                }
                SlipTaken::More => break,
            };
            rest = rest.get(used..).unwrap_or(&[]);
        }
    }
    Ok(counts)
}

#[test]
fn any_pieces(rt: HostRuntime) -> Result<(), Fail> {
    // What stands before the first delimiter, an empty packet, C0 DB 05, a wrong escape, another at a
    // delimiter, a packet whose first delimiter ends that one, and one that is not whole.
    let line = [
        0x01, 0xC0, 0xC0, 0xDB, 0xDC, 0xDB, 0xDD, 0x05, 0xC0, 0xC0, 0x01, 0xDB, 0x02, 0xDB, 0xC0,
        0x07, 0xDB, 0xC0, 0x08, 0x09, 0xC0, 0x0A,
    ];
    for size in 1..=line.len() {
        assert!(rt; counted(rt.alloc(), &line, size)? == [5, 2, 0]);
    }
    Ok(())
}

#[test]
fn longest_packet(rt: HostRuntime) -> Result<(), Fail> {
    let mut octets = vec![in rt.alloc(); 0x11u8; 4101]?;
    octets[0] = 0xC0;
    octets[4100] = 0xC0;
    assert!(rt; counted(rt.alloc(), &octets, 1000)? == [4099, 0, 0]);
    octets[4100] = 0x11;
    assert!(rt; counted(rt.alloc(), &octets, 1000)? == [0, 0, 1]);
    Ok(())
}
