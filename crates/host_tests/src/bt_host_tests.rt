ghost use Rattle.std.specs.Prelude.{◌≡◌, None, IsTrue, is_some};
ghost use Rattle.bt_host.specs.Serving.{Works};

use bt_base::Settings;
use bt_host::{FeedRefusal, ServerHost};
use h4_framing::H4Refusal;
use ready_ports::MemInbox;
use std::alloc::Global;

/// What a controller says to a server, and what the server puts out then.
type Row<'a> = (&'a [u8], &'a [u8]);

/// The first command of a server.
const RESET: &[u8] = b"\x01\x03\x0C\x00";

/// From there to a link that is up.
const START: &[Row<'static>] = &[
    (b"\x04\x0E\x04\x01\x03\x0C\x00", b"\x01\x05\x10\x00"),
    (
        b"\x04\x0E\x0B\x01\x05\x10\x00\xFD\x03\x00\x08\x00\x00\x00",
        b"\x01\x09\x10\x00",
    ),
    (
        b"\x04\x0E\x0A\x01\x09\x10\x00\x0B\x00\x00\x00\x00\x00",
        b"\x01\x1A\x0C\x01\x03",
    ),
    (b"\x04\x0E\x04\x01\x1A\x0C\x00", b""),
    (
        b"\x04\x04\x0A\x0A\x00\x00\x00\x00\x00\x00\x00\x00\x01",
        b"\x01\x09\x04\x07\x0A\x00\x00\x00\x00\x00\x01",
    ),
    (b"\x04\x0F\x04\x00\x01\x09\x04", b""),
    (
        b"\x04\x03\x0B\x00\x01\x00\x0A\x00\x00\x00\x00\x00\x01\x00",
        b"",
    ),
];

/// A channel to the service records, with its options: 672 octets.
const CHANNEL: &[Row<'static>] = &[
    (
        b"\x02\x01\x20\x0C\x00\x08\x00\x01\x00\x02\x01\x04\x00\x01\x00\x40\x00",
        b"\x02\x01\x00\x10\x00\x0C\x00\x01\x00\x03\x01\x08\x00\x40\x00\x40\x00\x00\x00\x00\x00",
    ),
    (
        b"\x02\x01\x20\x10\x00\x0C\x00\x01\x00\x04\x02\x08\x00\x40\x00\x00\x00\x01\x02\xA0\x02",
        b"\x02\x01\x00\x0E\x00\x0A\x00\x01\x00\x05\x02\x06\x00\x40\x00\x00\x00\x00\x00\x02\x01\x00\x10\x00\x0C\x00\x01\x00\x04\x01\x08\x00\x40\x00\x00\x00\x01\x02\xA0\x02",
    ),
];

/// The same, with both packets in one piece.
const AT_ONCE: &[Row<'static>] = &[(
    b"\x02\x01\x20\x0C\x00\x08\x00\x01\x00\x02\x01\x04\x00\x01\x00\x40\x00\x02\x01\x20\x10\x00\x0C\x00\x01\x00\x04\x02\x08\x00\x40\x00\x00\x00\x01\x02\xA0\x02",
    b"\x02\x01\x00\x10\x00\x0C\x00\x01\x00\x03\x01\x08\x00\x40\x00\x40\x00\x00\x00\x00\x00\x02\x01\x00\x0E\x00\x0A\x00\x01\x00\x05\x02\x06\x00\x40\x00\x00\x00\x00\x00\x02\x01\x00\x10\x00\x0C\x00\x01\x00\x04\x01\x08\x00\x40\x00\x00\x00\x01\x02\xA0\x02",
)];

/// Its own options once more.
const OPTIONS_AGAIN: &[u8] =
    b"\x02\x01\x00\x10\x00\x0C\x00\x01\x00\x04\x01\x08\x00\x40\x00\x00\x00\x01\x02\xA0\x02";

/// Whether a server takes octets.
fn takes(host: &mut ServerHost, inbox: &mut MemInbox, octets: &[u8]) -> bool
    requires sound { host.old.refusal ≡ None }
    requires works { Works host.old.stack.upper.end.end (is_some inbox.old.contents.pending) }
    ensures sound { IsTrue result → host.new.refusal ≡ None }
    ensures works { IsTrue result → Works host.new.stack.upper.end.end (is_some inbox.new.contents.pending) }
{
    match host.feed(octets, inbox) {
        Ok(()) => true,
        Err(_) => false,
    }
}

/// Whether these octets stand in `out`; the controller takes them then.
fn puts_out(host: &mut ServerHost, out: &[u8]) -> bool
    ensures sound { host.new.refusal ≡ host.old.refusal }
    ensures upper { host.new.stack.upper ≡ host.old.stack.upper }
{
    let is_there = host.out() == out;
    if is_there {
        let count = host.out().len();
        host.taken(count);
    }
    is_there
}

/// Whether a server takes octets that are cut at a place, and then these stand in `out`.
fn answers(host: &mut ServerHost, inbox: &mut MemInbox, cut: usize, row: Row<'_>) -> bool
    requires sound { host.old.refusal ≡ None }
    requires works { Works host.old.stack.upper.end.end (is_some inbox.old.contents.pending) }
    ensures sound { IsTrue result → host.new.refusal ≡ None }
    ensures works { IsTrue result → Works host.new.stack.upper.end.end (is_some inbox.new.contents.pending) }
{
    let (octets, out) = row;
    let (first, second) = octets.split_at(cut.min(octets.len()));
    takes(host, inbox, first) && takes(host, inbox, second) && puts_out(host, out)
}

/// Whether the rows are followed in their order.
fn follows(host: &mut ServerHost, inbox: &mut MemInbox, cut: usize, rows: &[Row<'_>]) -> bool
    requires sound { host.old.refusal ≡ None }
    requires works { Works host.old.stack.upper.end.end (is_some inbox.old.contents.pending) }
    ensures sound { IsTrue result → host.new.refusal ≡ None }
    ensures works { IsTrue result → Works host.new.stack.upper.end.end (is_some inbox.new.contents.pending) }
{
    for row in rows {
        if !answers(host, inbox, cut, *row) {
            return false;
        }
    }
    true
}

/// Whether the timer fires, and then these octets stand in `out`.
fn fires(host: &mut ServerHost, inbox: &mut MemInbox, out: &[u8]) -> bool
    requires sound { host.old.refusal ≡ None }
    requires works { Works host.old.stack.upper.end.end (is_some inbox.old.contents.pending) }
{
    host.end().is_ok() && host.armed() && host.on_timer(inbox).is_ok() && puts_out(host, out)
}

/// Whether a link comes up, the rows are followed, and then the timer fires.
fn plays(host: &mut ServerHost, inbox: &mut MemInbox, cut: usize, rows: &[Row<'_>]) -> bool
    requires sound { host.old.refusal ≡ None }
    requires works { Works host.old.stack.upper.end.end (is_some inbox.old.contents.pending) }
{
    puts_out(host, RESET)
        && follows(host, inbox, cut, START)
        && follows(host, inbox, cut, rows)
        && fires(host, inbox, OPTIONS_AGAIN)
}

/// Whether these octets are refused so, and so is all that comes behind them.
fn refuses(host: &mut ServerHost, inbox: &mut MemInbox, octets: &[u8], refusal: FeedRefusal) -> bool
    requires sound { host.old.refusal ≡ None }
    requires works { Works host.old.stack.upper.end.end (is_some inbox.old.contents.pending) }
{
    let Err(found) = host.feed(octets, inbox) else {
        return false;
    };
    let again = host.feed(b"\x04\x0E\x04\x01\x03\x0C\x00", inbox);
    found == refusal && again == Err(refusal) && host.out() == RESET
}

/// What a server does that starts.
#[derive(Clone, Copy)]
enum Course<'a> {
    /// It follows these rows, whose octets are cut at a place.
    Plays(usize, &'a [Row<'a>]),
    /// It refuses these octets.
    Refuses(&'a [u8], FeedRefusal),
}

/// Whether a server goes through a course.
fn goes_through(host: &mut ServerHost, inbox: &mut MemInbox, course: Course<'_>) -> bool
    requires sound { host.old.refusal ≡ None }
    requires works { Works host.old.stack.upper.end.end (is_some inbox.old.contents.pending) }
{
    match course {
        Course::Plays(cut, rows) => plays(host, inbox, cut, rows),
        Course::Refuses(octets, refusal) => refuses(host, inbox, octets, refusal),
    }
}

/// Whether a new server does, into that inbox.
fn is_gone_through_into(alloc: Global, inbox: &mut MemInbox, course: Course<'_>) -> bool
    requires { inbox.old.contents.pending ≡ None }
{
    match ServerHost::new(alloc, &Settings::plain()) {
        Ok(mut host) => goes_through(&mut host, inbox, course),
        Err(_) => false,
    }
}

/// Whether a new server does, into an inbox that holds nothing.
fn is_gone_through(alloc: Global, course: Course<'_>) -> bool {
    match MemInbox::new(alloc, &[]) {
        Ok(mut inbox) => is_gone_through_into(alloc, &mut inbox, course),
        Err(_) => false,
    }
}

/// How the rows of a channel are cut, and the rows.
const CUTS: [(usize, &[Row<'static>]); 5] = [
    (0, CHANNEL),
    (1, CHANNEL),
    (4, CHANNEL),
    (8, CHANNEL),
    (20, AT_ONCE),
];

/// A server starts, accepts a link and a channel, and asks once more as its timer fires, however its input is cut.
#[test]
fn a_channel_is_opened(rt: HostRuntime) {
    for (cut, rows) in CUTS.iter() {
        assert!(rt; is_gone_through(rt.alloc(), Course::Plays(*cut, *rows)));
    }
}

/// A packet that is too long, and a command that fails.
const TOO_LONG: Course<'static> = Course::Refuses(
    b"\x02\x01\x20\xFE\x03",
    FeedRefusal::Transport(H4Refusal::AclTooLong, 4),
);

const FAILED: Course<'static> = Course::Refuses(
    b"\x04\x0E\x04\x01\x03\x0C\x0C",
    FeedRefusal::CommandFailed(0x0C03, 0x0C, 0),
);

/// They are refused at their places, and for good.
#[test]
fn faults_are_refused_for_good(rt: HostRuntime) {
    assert!(rt; is_gone_through(rt.alloc(), TOO_LONG));
    assert!(rt; is_gone_through(rt.alloc(), FAILED));
}
