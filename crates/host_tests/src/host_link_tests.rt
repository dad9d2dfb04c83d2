ghost use Rattle.std.specs.Prelude.{◌≤◌, length};
ghost use Rattle.host_link.specs.Waiting.{longest_put};

use bt_base::{BdAddr, Handle};
use h4_framing::{Leading, Unit, first};
use host_link::{ControllerFault, HostLink, News, Role};
use std::alloc::Global;

/// A packet that a host hears, and the octets that it puts out then.
type Step = (&'static [u8], &'static [u8]);

/// The packet that these octets are.
fn packet(octets: &[u8]) -> Option<Unit<'_>> {
    match first(octets, 1_021) {
        Leading::Whole(unit, used) if used == octets.len() => Some(unit),
        _ => None,
    }
}

/// Whether these octets stand in `out`; they are taken.
fn hands_out(host: &mut HostLink, out: &[u8]) -> bool {
    if host.out() != out {
        return false;
    }
    host.taken(out.len());
    true
}

/// Whether these octets are put out; they are taken.
fn puts_out(host: &mut HostLink, out: &[u8]) -> bool {
    host.put_out();
    hands_out(host, out)
}

/// Whether a host hears of no fault with a packet.
fn hears(host: &mut HostLink, octets: &[u8]) -> bool {
    match packet(octets) {
        Some(unit) => host.hear(unit).is_ok(),
        None => false,
    }
}

/// Whether a host hears of no fault with these packets, and puts out these octets after each.
fn goes_on(host: &mut HostLink, steps: &[Step]) -> bool {
    for (heard, out) in steps {
        if !hears(host, *heard) || !puts_out(host, *out) {
            return false;
        }
    }
    true
}

/// The command with which a host begins.
const RESET: &[u8] = &[0x01, 0x03, 0x0C, 0x00];

/// The answers that a host hears at its start, with two buffers of 27 octets, and its commands.
const START: [Step; 2] = [
    (
        &[0x04, 0x0E, 0x04, 0x01, 0x03, 0x0C, 0x00],
        &[0x01, 0x05, 0x10, 0x00],
    ),
    (
        &[
            0x04, 0x0E, 0x0B, 0x01, 0x05, 0x10, 0x00, 0x1B, 0x00, 0x00, 0x02, 0x00, 0x00, 0x00,
        ],
        &[0x01, 0x09, 0x10, 0x00],
    ),
];

const ADDRESS_READ: &[u8] = &[
    0x04, 0x0E, 0x0A, 0x01, 0x09, 0x10, 0x00, 0x0B, 0x00, 0x00, 0x00, 0x00, 0x00,
];

const LINK_MADE: &[u8] = &[
    0x04, 0x03, 0x0B, 0x00, 0x01, 0x00, 0x0A, 0x00, 0x00, 0x00, 0x00, 0x00, 0x01, 0x00,
];

/// What a server hears from there to a link that it accepts, and what it puts out.
const ACCEPTANCE: &[Step] = &[
    (
        &[0x04, 0x0E, 0x04, 0x01, 0x03, 0x0C, 0x00],
        &[0x01, 0x05, 0x10, 0x00],
    ),
    (
        &[
            0x04, 0x0E, 0x0B, 0x01, 0x05, 0x10, 0x00, 0xFD, 0x03, 0x00, 0x08, 0x00, 0x00, 0x00,
        ],
        &[0x01, 0x09, 0x10, 0x00],
    ),
    (ADDRESS_READ, &[0x01, 0x1A, 0x0C, 0x01, 0x03]),
    (&[0x04, 0x0E, 0x04, 0x01, 0x1A, 0x0C, 0x00], &[]),
    (
        &[
            0x04, 0x04, 0x0A, 0x0A, 0x00, 0x00, 0x00, 0x00, 0x00, 0x00, 0x00, 0x00, 0x01,
        ],
        &[
            0x01, 0x09, 0x04, 0x07, 0x0A, 0x00, 0x00, 0x00, 0x00, 0x00, 0x01,
        ],
    ),
    (&[0x04, 0x0F, 0x04, 0x00, 0x01, 0x09, 0x04], &[]),
];

/// Whether the link is up.
fn is_link_up(news: Result<News<'_>, ControllerFault>) -> bool {
    matches!(news, Ok(News::LinkUp))
}

/// Whether the link ended, for this reason.
fn is_link_down(news: Result<News<'_>, ControllerFault>, reason: u8) -> bool {
    matches!(news, Ok(News::LinkDown(found)) if found == reason)
}

/// Whether this PDU came on this channel.
fn is_pdu(news: Result<News<'_>, ControllerFault>, channel: u16, octets: &[u8]) -> bool {
    matches!(news, Ok(News::Pdu(found, pdu)) if found == channel && pdu == octets)
}

/// Whether a host hears that its link is up.
fn hears_link(host: &mut HostLink) -> bool {
    match packet(LINK_MADE) {
        Some(made) => is_link_up(host.hear(made)),
        None => false,
    }
}

/// Whether a server starts and accepts a link.
fn accepts(host: &mut HostLink) -> bool {
    goes_on(host, ACCEPTANCE) && hears_link(host) && puts_out(host, &[]) && host.link().is_some()
}

/// A client asks for a link, and its controller goes about it.
const CONNECTION: &[u8] = &[
    0x01, 0x05, 0x04, 0x0D, 0x0B, 0x00, 0x00, 0x00, 0x00, 0x00, 0x18, 0xCC, 0x01, 0x00, 0x00, 0x00,
    0x00,
];

const CONNECTION_GOES_ON: Step = (&[0x04, 0x0F, 0x04, 0x00, 0x01, 0x05, 0x04], &[]);

/// A client is asked to connect to the other host; whether that has an address.
fn connects(host: &mut HostLink) -> bool {
    match BdAddr::of(&[0x0B, 0, 0, 0, 0, 0]) {
        Some(address) => {
            host.connect(address);
            true
        }
        None => false,
    }
}

/// Whether a client starts, asks for a link, and hears that it is up, with handle 1.
fn links(host: &mut HostLink) -> bool {
    goes_on(host, &START)
        && goes_on(host, &[(ADDRESS_READ, &[])])
        && connects(host)
        && puts_out(host, CONNECTION)
        && goes_on(host, &[CONNECTION_GOES_ON])
        && hears_link(host)
}

/// The packets that are outstanding on handle 1.
fn outstanding(host: &HostLink) -> Option<u16> {
    Some(host.ledger().outstanding(Handle::of(1)?))
}

/// The first two pieces of 58 octets, and the third.
const TWO_PIECES: &[u8] = &[
    0x02, 0x01, 0x00, 0x1B, 0x00, 7, 7, 7, 7, 7, 7, 7, 7, 7, 7, 7, 7, 7, 7, 7, 7, 7, 7, 7, 7, 7, 7,
    7, 7, 7, 7, 7, 0x02, 0x01, 0x10, 0x1B, 0x00, 7, 7, 7, 7, 7, 7, 7, 7, 7, 7, 7, 7, 7, 7, 7, 7, 7,
    7, 7, 7, 7, 7, 7, 7, 7, 7, 7,
];

const THIRD_PIECE: &[u8] = &[0x02, 0x01, 0x10, 0x04, 0x00, 7, 7, 7, 7];

/// One packet of handle 1 is given back.
const GIVEN_BACK: &[u8] = &[0x04, 0x13, 0x05, 0x01, 0x01, 0x00, 0x01, 0x00];

/// Whether a PDU is taken; it is taken here.
fn takes_pdu(host: &mut HostLink, pdu: &[u8]) -> bool
    requires { length pdu.now ≤ longest_put }
{
    let can = host.can_take_pdu();
    if can {
        host.take_pdu(pdu);
    }
    can
}

/// Whether of three pieces the controller takes two, and the third goes out when one came back.
fn waits_for_buffers(host: &mut HostLink) -> bool {
    takes_pdu(host, &[7; 58])
        && host.waits()
        && !host.can_take_pdu()
        && puts_out(host, TWO_PIECES)
        && outstanding(host) == Some(2)
        && goes_on(host, &[(GIVEN_BACK, THIRD_PIECE)])
        && outstanding(host) == Some(2)
        && !host.waits()
        && !host.can_take_pdu()
}

/// A packet of five octets, and the command that ends the link.
const PACKET_AND_COMMAND: &[u8] = &[
    0x02, 0x01, 0x00, 0x05, 0x00, 0x01, 0x00, 0x40, 0x00, 0x68, 0x01, 0x06, 0x04, 0x03, 0x01, 0x00,
    0x13,
];

/// Whether the packets of a PDU stand before a command that was asked for ahead of it.
fn says_packets_first(host: &mut HostLink) -> bool {
    host.disconnect();
    takes_pdu(host, &[0x01, 0x00, 0x40, 0x00, 0x68]) && puts_out(host, PACKET_AND_COMMAND)
}

/// The first piece of a PDU, and the other one.
const BEGUN: &[u8] = &[0x02, 0x01, 0x20, 0x05, 0x00, 0x02, 0x00, 0x40, 0x00, 0x68];

const ENDED: &[u8] = &[0x02, 0x01, 0x10, 0x01, 0x00, 0x69];

/// Whether the pieces of a PDU are joined.
fn joins(host: &mut HostLink) -> bool {
    let pdu = [0x02, 0x00, 0x40, 0x00, 0x68, 0x69];
    let begins = goes_on(host, &[(BEGUN, &[])]);
    match packet(ENDED) {
        Some(ended) => begins && is_pdu(host.hear(ended), 0x0040, &pdu),
        None => false,
    }
}

/// The command that ends the link, and the end.
const END: &[u8] = &[0x01, 0x06, 0x04, 0x03, 0x01, 0x00, 0x13];

const LINK_ENDED: &[u8] = &[0x04, 0x05, 0x04, 0x00, 0x01, 0x00, 0x16];

/// Whether a host asks for the end of its link once, although it is told to twice.
fn asks_for_the_end(host: &mut HostLink) -> bool {
    host.disconnect();
    host.disconnect();
    host.is_ending() && puts_out(host, END)
}

/// Whether the link ends then, and leaves nothing.
fn ends(host: &mut HostLink) -> bool {
    let is_ended = match packet(LINK_ENDED) {
        Some(end) => is_link_down(host.hear(end), 0x16),
        None => false,
    };
    is_ended && outstanding(host) == Some(0) && host.link().is_none() && !host.is_ending()
}

/// The status of a command that failed, with its opcode.
const FAILED: &[u8] = &[0x04, 0x0E, 0x04, 0x01, 0x03, 0x0C, 0x0C];

/// A controller's buffers are too small.
const SMALL: &[u8] = &[
    0x04, 0x0E, 0x0B, 0x01, 0x05, 0x10, 0x00, 0x1A, 0x00, 0x00, 0x08, 0x00, 0x00, 0x00,
];

/// Whether this is the fault of which a host hears.
fn finds(host: &mut HostLink, octets: &[u8], fault: ControllerFault) -> bool {
    match packet(octets) {
        Some(unit) => match host.hear(unit) {
            Ok(_) => false,
            Err(found) => found == fault,
        },
        None => false,
    }
}

/// Whether both faults of a controller are found.
fn finds_faults(host: &mut HostLink) -> bool {
    let failed = ControllerFault::CommandFailed {
        opcode: 0x0C03,
        status: 0x0C,
    };
    let small = ControllerFault::BadBuffers {
        length: 26,
        count: 8,
    };
    finds(host, FAILED, failed) && goes_on(host, &START[..1]) && finds(host, SMALL, small)
}

/// What a host does.
#[derive(Clone, Copy)]
enum Course {
    Accepts,
    WaitsForBuffers,
    SaysPacketsFirst,
    JoinsAndEnds,
    FindsFaults,
}

/// The role of the host of a course.
fn role_of(course: Course) -> Role {
    match course {
        Course::Accepts | Course::FindsFaults => Role::Server,
        Course::WaitsForBuffers | Course::SaysPacketsFirst | Course::JoinsAndEnds => Role::Client,
    }
}

/// Whether a host that has said nothing goes through a course. A client begins with a link.
fn goes_through(host: &mut HostLink, course: Course) -> bool {
    hands_out(host, RESET)
        && match course {
            Course::Accepts => accepts(host),
            Course::WaitsForBuffers => links(host) && waits_for_buffers(host),
            Course::SaysPacketsFirst => links(host) && says_packets_first(host),
            Course::JoinsAndEnds => links(host)
                && joins(host)
                && asks_for_the_end(host)
                && ends(host),
            Course::FindsFaults => finds_faults(host),
        }
}

/// Whether a new host goes through a course.
fn is_gone_through(alloc: Global, course: Course) -> bool {
    match HostLink::new(alloc, role_of(course)) {
        Ok(mut host) => goes_through(&mut host, course),
        Err(_) => false,
    }
}

#[test]
fn a_server_starts_and_accepts_a_link(rt: HostRuntime) {
    assert!(rt; is_gone_through(rt.alloc(), Course::Accepts));
}

#[test]
fn packets_wait_for_buffers(rt: HostRuntime) {
    assert!(rt; is_gone_through(rt.alloc(), Course::WaitsForBuffers));
}

#[test]
fn packets_stand_before_commands(rt: HostRuntime) {
    assert!(rt; is_gone_through(rt.alloc(), Course::SaysPacketsFirst));
}

#[test]
fn pieces_are_joined_until_the_link_ends(rt: HostRuntime) {
    assert!(rt; is_gone_through(rt.alloc(), Course::JoinsAndEnds));
}

#[test]
fn controllers_at_fault(rt: HostRuntime) {
    assert!(rt; is_gone_through(rt.alloc(), Course::FindsFaults));
}
