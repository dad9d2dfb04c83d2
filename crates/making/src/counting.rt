//! What is counted of a run: the pushes that its report tells to be done, and the octets that its inbox stored.

ghost use Rattle.std.specs.Prelude.{◌≡◌, ◌==◌, slice_get};
ghost use Rattle.std.specs.List.{position, before_first, after_first};
ghost use Rattle.making.specs.Counting.{tells_done, done_lines, length_of, octets_counted};

use ready_ports::MemInbox;

/// The place of the first such octet of a text.
fn place_of(text: &[u8], mark: u8) -> Option<usize>
    ensures { result ≡ position (λ octet. octet == mark) text.now }
{
    text.iter().position(|octet| *octet == mark)
}

/// What stands before the first such octet of a text, and what stands behind it. Nothing stands behind where there is none.
fn parted(text: &[u8], mark: u8) -> (&[u8], &[u8])
    ensures before { result.0.now ≡ before_first (λ octet. octet == mark) text.now }
    ensures behind { result.1.now ≡ after_first (λ octet. octet == mark) text.now }
{
    match place_of(text, mark) {
        Some(at) => (&text[..at], &text[at + 1..]),
        None => (text, &[]),
    }
}

/// Whether the line of a push tells that it is done.
fn tells_done(line: &[u8]) -> bool
    ensures { result ≡ tells_done line.now }
{
    let (_number, outcome) = parted(line, b' ');
    outcome.starts_with(b"done ")
}

/// How many of the first eight lines of a report tell that a push is done.
pub(crate) fn done_in(report: &[u8]) -> u32
    ensures { result ≡ done_lines 8 report.now }
{
    let mut done = 0u32;
    let mut rest = report;
    for _ in 0..8u32 {
        let (line, more) = parted(rest, b'\n');
        done += u32::from(tells_done(line));
        rest = more;
    }
    done
}

/// How many octets the stored object of that place has.
fn length_at(inbox: &MemInbox, i: usize) -> usize
    ensures { result ≡ length_of (slice_get inbox.now.contents.stored i) }
{
    match inbox.octets_at(i) {
        Some(octets) => octets.len(),
        None => 0,
    }
}

/// How many octets the stored objects have together. The count stands still at 2^64 - 1.
pub(crate) fn octets_in(inbox: &MemInbox) -> u64
    ensures { result ≡ octets_counted inbox.now.contents.stored }
{
    let mut octets = 0u64;
    for i in 0..inbox.len() {
        octets = octets.saturating_add(length_at(inbox, i) as u64);
    }
    octets
}
