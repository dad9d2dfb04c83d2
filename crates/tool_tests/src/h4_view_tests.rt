use crate::showing::{View, parts_are_shown};
use codec_tests::tables::rows;

/// Units of a stream and the lines of each: channels of all kinds are made, told their modes and
/// forgotten.
const STREAM: [(&[u8], &str); 41] = [
    (
        b"\x02\x01\x20\x05\x00\x01\x00\x50\x00\xAA",
        "0 acl 2001 5\n  pdu 0050 1\n  data 1\n",
    ),
    (
        b"\x02\x01\x00\x0C\x00\x08\x00\x01\x00\x02\x01\x04\x00\x01\x00\x40\x00",
        "10 acl 0001 12\n  pdu 0001 8\n  sig 02 01 ConnectionRequest 01004000\n",
    ),
    (
        b"\x02\x01\x20\x10\x00\x0C\x00\x01\x00\x03\x01\x08\x00\x41\x00\x40\x00\x00\x00\x00\x00",
        "27 acl 2001 16\n  pdu 0001 12\n  sig 03 01 ConnectionResponse 4100400000000000\n",
    ),
    (
        b"\x02\x01\x00\x19\x00\x15\x00\x41\x00\x06\x00\x01\x00\x10\x35\x03\x19\x11\x05\x01\x00\x35\x06\x09\x00\x04\x09\x02\x00\x00",
        "48 acl 0001 25\n  pdu 0041 21\n  sdp 06 0001 16\n",
    ),
    (
        b"\x02\x01\x20\x09\x00\x05\x00\x40\x00\x07\x00\x01\x00\x23",
        "78 acl 2001 9\n  pdu 0040 5\n  sdp 07 0001 35\n",
    ),
    (
        b"\x02\x01\x20\x08\x00\x04\x00\x40\x00\x07\x00\x01\x00",
        "92 acl 2001 8\n  pdu 0040 4\n  sdp bad\n",
    ),
    (
        b"\x02\x01\x00\x04\x00\x00\x00\x40\x00",
        "105 acl 0001 4\n  pdu 0040 0\n  data 0\n",
    ),
    (
        b"\x02\x01\x20\x0C\x00\x08\x00\x01\x00\x02\x01\x04\x00\x03\x00\x60\x00",
        "114 acl 2001 12\n  pdu 0001 8\n  sig 02 01 ConnectionRequest 03006000\n",
    ),
    (
        b"\x02\x01\x00\x10\x00\x0C\x00\x01\x00\x03\x01\x08\x00\x61\x00\x60\x00\x00\x00\x00\x00",
        "131 acl 0001 16\n  pdu 0001 12\n  sig 03 01 ConnectionResponse 6100600000000000\n",
    ),
    (
        b"\x02\x01\x20\x08\x00\x04\x00\x61\x00\x03\x3F\x01\x1C",
        "152 acl 2001 8\n  pdu 0061 4\n  rfcomm SABM 0 1 0\n",
    ),
    (
        b"\x02\x01\x00\x08\x00\x04\x00\x60\x00\x03\x73\x01\xD7",
        "165 acl 0001 8\n  pdu 0060 4\n  rfcomm UA 0 1 0\n",
    ),
    (
        b"\x02\x01\x20\x08\x00\x04\x00\x61\x00\x03\x3F\x01\x1D",
        "178 acl 2001 8\n  pdu 0061 4\n  rfcomm bad BadFcs\n",
    ),
    (
        b"\x02\x01\x20\x12\x00\x0E\x00\x61\x00\x03\xEF\x15\x83\x11\x12\xF0\x00\x00\x7F\x00\x00\x07\x70",
        "191 acl 2001 18\n  pdu 0061 14\n  rfcomm UIH 0 0 10\n",
    ),
    (
        b"\x02\x01\x00\x0C\x00\x08\x00\x01\x00\x02\x09\x04\x00\x01\x10\x42\x00",
        "214 acl 0001 12\n  pdu 0001 8\n  sig 02 09 ConnectionRequest 01104200\n",
    ),
    (
        b"\x02\x01\x20\x10\x00\x0C\x00\x01\x00\x03\x09\x08\x00\x00\x00\x42\x00\x02\x00\x00\x00",
        "231 acl 2001 16\n  pdu 0001 12\n  sig 03 09 ConnectionResponse 0000420002000000\n",
    ),
    (
        b"\x02\x01\x20\x05\x00\x01\x00\x42\x00\x78",
        "252 acl 2001 5\n  pdu 0042 1\n  data 1\n",
    ),
    (
        b"\x02\x01\x20\x10\x00\x0C\x00\x01\x00\x03\x09\x08\x00\x43\x00\x42\x00\x00\x00\x00\x00",
        "262 acl 2001 16\n  pdu 0001 12\n  sig 03 09 ConnectionResponse 4300420000000000\n",
    ),
    (
        b"\x02\x01\x20\x10\x00\x0C\x00\x01\x00\x03\x08\x08\x00\x44\x00\x42\x00\x00\x00\x00\x00",
        "283 acl 2001 16\n  pdu 0001 12\n  sig 03 08 ConnectionResponse 4400420000000000\n",
    ),
    (
        b"\x02\x01\x20\x12\x00\x0E\x00\x42\x00\x02\x00\x00\x01\x02\x03\x04\x05\x06\x07\x08\x09\x3B\xA3",
        "304 acl 2001 18\n  pdu 0042 14\n  data 14\n",
    ),
    (
        b"\x02\x01\x20\x19\x00\x15\x00\x01\x00\x05\x02\x11\x00\x42\x00\x00\x00\x00\x00\x04\x09\x03\x0A\x04\x00\x00\x00\x00\x30\x00",
        "327 acl 2001 25\n  pdu 0001 21\n  sig 05 02 ConfigurationResponse 4200000000000409030A04000000003000\n",
    ),
    (
        b"\x02\x01\x20\x08\x00\x04\x00\x42\x00\x01\x01\xD5\xAC",
        "357 acl 2001 8\n  pdu 0042 4\n  data 4\n",
    ),
    (
        b"\x02\x01\x20\x17\x00\x13\x00\x01\x00\x04\x03\x0F\x00\x42\x00\x00\x00\x04\x09\x03\x0A\x04\x00\x00\x00\x00\x30\x00",
        "370 acl 2001 23\n  pdu 0001 19\n  sig 04 03 ConfigurationRequest 420000000409030A04000000003000\n",
    ),
    (
        b"\x02\x01\x20\x08\x00\x04\x00\x42\x00\x01\x01\xD5\xAC",
        "398 acl 2001 8\n  pdu 0042 4\n  ertm RR 0 0 1\n",
    ),
    (
        b"\x02\x01\x00\x12\x00\x0E\x00\x43\x00\x02\x00\x00\x01\x02\x03\x04\x05\x06\x07\x08\x09\x3B\x62",
        "411 acl 0001 18\n  pdu 0043 14\n  ertm I 1 0 0 0 10\n",
    ),
    (
        b"\x02\x01\x00\x08\x00\x04\x00\x43\x00\x05\x05\xD7\x53",
        "434 acl 0001 8\n  pdu 0043 4\n  ertm REJ 0 0 5\n",
    ),
    (
        b"\x02\x01\x00\x08\x00\x04\x00\x43\x00\x01\x01\xD4\x15",
        "447 acl 0001 8\n  pdu 0043 4\n  ertm bad BadFcs\n",
    ),
    (
        b"\x02\x01\x20\x10\x00\x0C\x00\x01\x00\x03\x09\x08\x00\x43\x00\x42\x00\x00\x00\x00\x00",
        "460 acl 2001 16\n  pdu 0001 12\n  sig 03 09 ConnectionResponse 4300420000000000\n",
    ),
    (
        b"\x02\x01\x20\x08\x00\x04\x00\x42\x00\x11\x01\xD8\x6C",
        "481 acl 2001 8\n  pdu 0042 4\n  ertm RR 1 0 1\n",
    ),
    (
        b"\x02\x01\x00\x18\x00\x14\x00\x01\x00\x04\x04\x10\x00\x43\x00\x00\x00\x04\x09\x00\x00\x00\x00\x00\x00\x00\x00\x00\x01",
        "494 acl 0001 24\n  pdu 0001 20\n  sig 04 04 ConfigurationRequest 43000000040900000000000000000001\n",
    ),
    (
        b"\x02\x01\x20\x08\x00\x04\x00\x42\x00\x81\x01\xB4\x6C",
        "523 acl 2001 8\n  pdu 0042 4\n  ertm RR 0 1 1\n",
    ),
    (
        b"\x02\x01\x00\x17\x00\x13\x00\x01\x00\x04\x05\x0F\x00\x43\x00\x00\x00\x04\x09\x00\x00\x00\x00\x00\x00\x00\x00\x00",
        "536 acl 0001 23\n  pdu 0001 19\n  sig 04 05 ConfigurationRequest 430000000409000000000000000000\n",
    ),
    (
        b"\x02\x01\x20\x08\x00\x04\x00\x42\x00\x81\x01\xB4\x6C",
        "564 acl 2001 8\n  pdu 0042 4\n  data 4\n",
    ),
    (
        b"\x02\x01\x00\x17\x00\x13\x00\x01\x00\x04\x06\x0F\x00\x43\x00\x00\x00\x04\x09\x03\x0A\x04\x00\x00\x00\x00\x30\x00",
        "577 acl 0001 23\n  pdu 0001 19\n  sig 04 06 ConfigurationRequest 430000000409030A04000000003000\n",
    ),
    (
        b"\x02\x01\x00\x0C\x00\x08\x00\x01\x00\x06\x07\x04\x00\x43\x00\x42\x00",
        "605 acl 0001 12\n  pdu 0001 8\n  sig 06 07 DisconnectionRequest 43004200\n",
    ),
    (
        b"\x02\x01\x20\x0C\x00\x08\x00\x01\x00\x07\x07\x04\x00\x43\x00\x42\x00",
        "622 acl 2001 12\n  pdu 0001 8\n  sig 07 07 DisconnectionResponse 43004200\n",
    ),
    (
        b"\x02\x01\x20\x08\x00\x04\x00\x42\x00\x81\x01\xB4\x6C",
        "639 acl 2001 8\n  pdu 0042 4\n  ertm RR 0 1 1\n",
    ),
    (
        b"\x02\x02\x20\x09\x00\x05\x00\x42\x00\x6F\x74\x68\x65\x72",
        "652 acl 2002 9\n  pdu 0042 5\n  data 5\n",
    ),
    (
        b"\x04\x05\x04\x12\x01\x00\x13",
        "666 evt 05 DisconnectionComplete 12010013\n",
    ),
    (
        b"\x02\x01\x20\x08\x00\x04\x00\x42\x00\x81\x01\xB4\x6C",
        "673 acl 2001 8\n  pdu 0042 4\n  data 4\n",
    ),
    (
        b"\x02\x01\x20\x10\x00\x0C\x00\x01\x00\x03\x09\x08\x00\x43\x00\x42\x00\x00\x00\x00\x00",
        "686 acl 2001 16\n  pdu 0001 12\n  sig 03 09 ConnectionResponse 4300420000000000\n",
    ),
    (
        b"\x02\x01\x20\x08\x00\x04\x00\x42\x00\x81\x01\xB4\x6C",
        "707 acl 2001 8\n  pdu 0042 4\n  data 4\n",
    ),
];

/// HCI_Reset and its CommandComplete, with the line of each.
const RESET: [(&[u8], &str); 2] = [
    (b"\x01\x03\x0C\x00", "0 cmd 0C03 Reset -\n"),
    (
        b"\x04\x0E\x04\x01\x03\x0C\x00",
        "4 evt 0E CommandComplete 01030C00\n",
    ),
];

#[test]
fn packets_are_shown_in_whatever_pieces(rt: HostRuntime) {
    assert!(rt; parts_are_shown(rt.alloc(), View::Raw, rows(&RESET)));
}

#[test]
fn channels_are_learnt_told_and_forgotten(rt: HostRuntime) {
    assert!(rt; parts_are_shown(rt.alloc(), View::Raw, rows(&STREAM)));
}
