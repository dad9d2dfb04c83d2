//! Pushes that are cancelled, or whose link breaks, at each moment of their course.

use crate::tests::pushing::{INBOX, PUT, SHELF, pushed};
use crate::tests::runs::{Judge, Stored, contains, ends};
use btpush_forms::Status;
use std::alloc::Global;

/// What comes of a push: its link broke ahead of the last packet or behind it, it is cancelled, or it is done.
#[derive(Clone, Copy)]
enum Fate {
    Lost,
    LostAndStored,
    Cancelled,
    Done,
}

/// The status of a run whose one push has that fate, and how its report begins.
fn told_of(fate: Fate) -> (Status, &'static [u8]) {
    match fate {
        Fate::Lost => (Status::SomeFailed, b"1 link-lost a\nkept 0\n"),
        Fate::LostAndStored => (Status::SomeFailed, b"1 link-lost a\nkept 1\n"),
        Fate::Cancelled => (Status::SomeFailed, b"1 cancelled a\nkept 0\n"),
        Fate::Done => (Status::Ok, b"1 done a\nkept 1\n"),
    }
}

/// What is stored then.
fn stored_by(fate: Fate) -> &'static [Stored] {
    match fate {
        Fate::Lost | Fate::Cancelled => &[],
        Fate::LostAndStored | Fate::Done => INBOX,
    }
}

/// Nothing of an object that is cancelled stands in the capture.
impl Judge for Fate {
    fn judges(&self, _alloc: Global, status: Status, sink: &[u8], trace: &[u8]) -> bool {
        let (wanted, begins) = told_of(*self);
        let is_put = contains(trace, PUT);
        status == wanted
            && sink.starts_with(begins)
            && (!is_put || !matches!(*self, Fate::Cancelled))
    }
}

/// A scenario in which a word comes behind so many passes.
fn text_of(alloc: Global, transport: &str, passes: u32, word: &str) -> Option<String> {
    format!(in alloc;
        "transport {}\nobject a\nradio\n{} pass\n1 {}\n1216 pass\n",
        transport, passes, word
    )
    .ok()
}

/// Whether its push has that fate.
fn has_fate(alloc: Global, transport: &str, passes: u32, word: &str, fate: Fate) -> bool {
    match text_of(alloc, transport, passes, word) {
        Some(text) => {
            let given = pushed(text.as_str(), SHELF);
            ends(alloc, &given, &fate, stored_by(fate))
        }
        None => false,
    }
}

/// Whether its push has the fate of that place.
fn has_fate_at(
    alloc: Global,
    transport: &str,
    passes: u32,
    word: &str,
    fates: &[Fate],
    place: usize,
) -> bool {
    match fates.get(place) {
        Some(fate) => has_fate(alloc, transport, passes, word, *fate),
        None => false,
    }
}

/// Whether a word, the later it comes, brings these fates about, in their order.
fn brings_in_turn(alloc: Global, transport: &str, word: &str, fates: &[Fate]) -> bool {
    let mut place = 0usize;
    for passes in 1..80 {
        if !has_fate_at(alloc, transport, passes, word, fates, place) {
            place = place.saturating_add(1);
            if !has_fate_at(alloc, transport, passes, word, fates, place) {
                return false;
            }
        }
    }
    place.saturating_add(1) == fates.len()
}

/// What `drop` brings about the later it comes, and `cancel`.
const BROKEN: &[Fate] = &[Fate::Lost, Fate::LostAndStored, Fate::Done];

const CANCELLED: &[Fate] = &[Fate::Cancelled, Fate::Done];

#[test]
fn a_push_that_breaks_over_l2cap_is_stored_once_or_never(rt: HostRuntime) {
    assert!(rt; brings_in_turn(rt.alloc(), "l2cap", "drop", BROKEN));
}

#[test]
fn a_push_that_breaks_over_rfcomm_is_stored_once_or_never(rt: HostRuntime) {
    assert!(rt; brings_in_turn(rt.alloc(), "rfcomm", "drop", BROKEN));
}

#[test]
fn a_push_is_cancelled_or_done(rt: HostRuntime) {
    assert!(rt; brings_in_turn(rt.alloc(), "l2cap", "cancel", CANCELLED));
}
