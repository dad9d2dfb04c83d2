use bt_base::BdAddr;
use hci_packets::*;

/// Whether a word is read as this handle, boundary and broadcast flag.
fn is_word(word: u16, handle: u16, boundary: Boundary, broadcast: u8) -> bool {
    match acl_word(word) {
        Ok(read) => {
            read.handle.get() == handle && read.boundary == boundary && read.broadcast == broadcast
        }
        Err(_) => false,
    }
}

#[test]
fn acl_words_by_bits(rt: HostRuntime) {
    assert!(rt; is_word(0x2001, 1, Boundary::FirstFromController, 0));
    assert!(rt; is_word(0x5EFF, 0x0EFF, Boundary::Continuing, 1));
    assert!(rt; matches!(acl_word(0x0F00), Err(HciRefusal::BadHandle)));
    assert!(rt; matches!(acl_word(0x3F00), Err(HciRefusal::BadHandle)));
    assert!(rt; matches!(acl_word(0x3001), Err(HciRefusal::BadValue)));
}

/// The return parameters of Read Buffer Size.
const PARAMS: [u8; 8] = [0x00, 0xFD, 0x03, 0x00, 0x08, 0x00, 0x00, 0x00];

/// Whether they are read so.
fn are_buffers(buffers: &Buffers) -> bool {
    buffers.status == 0
        && buffers.acl_length == 0x03FD
        && buffers.acl_count == 8
        && buffers.sync_length == 0
}

#[test]
fn buffers_by_the_table(rt: HostRuntime) {
    assert!(rt; matches!(buffers_of(&PARAMS), Ok(buffers) if are_buffers(&buffers)));
    assert!(rt; matches!(buffers_of(&PARAMS[1..]), Err(HciRefusal::ShortParams)));
}

/// A command that answers a page from this address.
const ACCEPTED: [u8; 11] = [0x01, 0x09, 0x04, 0x07, 0x0A, 0, 0, 0, 0, 0, 0x01];

/// Whether the command that accepts a link is written so.
fn accepts(address: BdAddr) -> bool {
    let mut into = [0; 20];
    let accept = Command::AcceptConnection { address, role: 1 };
    put_command(&accept, &mut into) == 11 && into.starts_with(&ACCEPTED)
}

#[test]
fn commands_as_units(rt: HostRuntime) {
    let mut into = [0; 20];
    let n = put_command(&Command::WriteScanEnable { value: 3 }, &mut into);
    assert!(rt; n == 5 && into.starts_with(&[0x01, 0x1A, 0x0C, 0x01, 0x03]));
    assert!(rt; matches!(BdAddr::of(&[0x0A, 0, 0, 0, 0, 0]), Some(address) if accepts(address)));
}

#[test]
fn commands_from_parameters(rt: HostRuntime) {
    assert!(rt; matches!(command_of(0x0C03, &[]), Ok(Command::Reset)));
    assert!(rt; matches!(command_of(0x0C03, &[1]), Err(HciRefusal::LongParams)));
    assert!(rt; matches!(command_of(0x0406, &[1]), Err(HciRefusal::ShortParams)));
    assert!(rt;
        matches!(
            command_of(0x0406, &[0x00, 0x0F, 0x13]),
            Err(HciRefusal::BadHandle)
        )
    );
    assert!(rt; matches!(command_of(0x0C1A, &[4]), Err(HciRefusal::BadValue)));
    assert!(rt;
        matches!(
            command_of(0x0401, &[4]),
            Ok(Command::Other { opcode: 0x0401, .. })
        )
    );
}

/// The event that a link is up, to this address.
const CONNECTED: [u8; 14] = [0x04, 0x03, 0x0B, 0, 1, 0, 0x0A, 0, 0, 0, 0, 0, 1, 0];

/// Whether the event is written so.
fn connects(address: BdAddr) -> bool {
    let mut into = [0; 20];
    let complete = Event::ConnectionComplete {
        status: 0,
        handle: 1,
        address,
        link: 1,
        encryption: 0,
    };
    put_event(&complete, &mut into) == 14 && into.starts_with(&CONNECTED)
}

#[test]
fn events_both_ways(rt: HostRuntime) {
    assert!(rt; matches!(BdAddr::of(&[0x0A, 0, 0, 0, 0, 0]), Some(address) if connects(address)));
    assert!(rt;
        matches!(
            event_of(0x03, &CONNECTED[3..]),
            Ok(Event::ConnectionComplete {
                status: 0,
                handle: 1,
                ..
            })
        )
    );
    assert!(rt; matches!(event_of(0x13, &[]), Err(HciRefusal::ShortParams)));
    assert!(rt;
        matches!(
            event_of(0x13, &[1, 0, 0x0F, 1, 0]),
            Err(HciRefusal::BadHandle)
        )
    );
    assert!(rt;
        matches!(
            event_of(0x13, &[1, 0, 0x0E, 1, 0]),
            Ok(Event::CompletedPackets { count: 1, .. })
        )
    );
}
