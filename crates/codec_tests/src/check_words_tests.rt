use crate::tables::rows;
use check_words::*;

/// The check words that the standard works out: of an I-frame and of an RR frame
/// (Core 5.1, Volume 3 Part A, 3.3.5).
#[test]
fn frames_of_the_standard(rt: HostRuntime) {
    let information = [
        0x0E, 0x00, 0x40, 0x00, 0x02, 0x00, 0, 1, 2, 3, 4, 5, 6, 7, 8, 9,
    ];
    assert!(rt; fcs16(&information) == 0x6138);
    assert!(rt; fcs16(&[0x04, 0x00, 0x40, 0x00, 0x01, 0x01]) == 0x14D4);
    assert!(rt; fcs16(&[]) == 0);
}

/// A register of eight bits that takes the octets bit by bit, the lowest bit of each first
/// (TS 07.10, Annex B).
fn register_over(octets: &[u8]) -> u8 {
    let mut register = 0xFFu8;
    for octet in octets {
        for place in 0..8u8 {
            let out = (register ^ (*octet >> place)) % 2;
            register /= 2;
            if out == 1 {
                register ^= 0xE0;
            }
        }
    }
    0xFF ^ register
}

/// Heads of RFCOMM frames, and their check words.
const HEADS: [(&[u8], u8); 5] = [
    (&[0x03, 0x3F, 0x01], 0x1C),
    (&[0x03, 0x73, 0x01], 0xD7),
    (&[0x03, 0xEF], 0x70),
    // Two octets are other than in the first case.
    (&[0x53, 0x53, 0x01], 0x1C),
    (&[], 0x00),
];

#[test]
fn heads_of_rfcomm_frames(rt: HostRuntime) {
    for (octets, word) in rows(&HEADS) {
        assert!(rt; fcs8(octets) == *word);
        assert!(rt; register_over(octets) == *word);
    }
    for octet in 0..=255u8 {
        assert!(rt; fcs8(&[octet, 0x01]) == register_over(&[octet, 0x01]));
    }
}
