use h4_framing::{Leading, first};
use push_terms::{Side, Way, Word};
use radio_air::{Deed, Fate, Radio};
use std::alloc::Global;

/// What is done to a radio, or what it is to do.
#[derive(Clone, Copy)]
enum Row<'a> {
    /// A packet comes out of a host, the last one of what it offers.
    Out(Side, &'a [u8]),
    /// The same, and more is offered behind it.
    More(Side, &'a [u8]),
    /// What a controller hands to its host next.
    Into(Side, &'a [u8]),
    /// A word finds this.
    Finds(Word, Deed),
    /// A word acts, where the receiver has a check word for the channel.
    Acts(Word),
    /// A word acts, where the receiver has none.
    Unchecked(Word),
}

use Row::{Acts, Finds, Into, More, Out, Unchecked};
use Side::{A, B};

/// The start of both hosts and the page, to the link that is up on both sides.
const START: &[Row<'static>] = &[
    Out(A, b"\x01\x03\x0C\x00"),
    Into(A, b"\x04\x0E\x04\x01\x03\x0C\x00"),
    Out(B, b"\x01\x09\x10\x00"),
    Into(B, b"\x04\x0E\x0A\x01\x09\x10\x00\x0B\x00\x00\x00\x00\x00"),
    Finds(Word::Drop, Deed::Nothing),
    Out(
        A,
        b"\x01\x05\x04\x0D\x0B\x00\x00\x00\x00\x00\x18\xCC\x01\x00\x00\x00\x00",
    ),
    Into(A, b"\x04\x0F\x04\x00\x01\x05\x04"),
    Out(B, b"\x01\x1A\x0C\x01\x03"),
    Into(B, b"\x04\x0E\x04\x01\x1A\x0C\x00"),
    Into(B, b"\x04\x04\x0A\x0A\x00\x00\x00\x00\x00\x00\x00\x00\x01"),
    Out(B, b"\x01\x09\x04\x07\x0A\x00\x00\x00\x00\x00\x01"),
    Into(B, b"\x04\x0F\x04\x00\x01\x09\x04"),
    Into(
        B,
        b"\x04\x03\x0B\x00\x01\x00\x0A\x00\x00\x00\x00\x00\x01\x00",
    ),
    Into(
        A,
        b"\x04\x03\x0B\x00\x01\x00\x0B\x00\x00\x00\x00\x00\x01\x00",
    ),
    Finds(Word::Pass, Deed::FiresBoth),
    Finds(Word::Lose(Way::Ab), Deed::Nothing),
    Finds(Word::Timer(B), Deed::Fires(B)),
    Finds(Word::Cancel, Deed::Cancels),
    Acts(Word::Timer(A)),
    Acts(Word::Cancel),
    Acts(Word::Pass),
];

/// Two frames from a to b and one from b to a are served in turn.
const IN_TURN: &[Row<'static>] = &[
    More(A, b"\x02\x01\x00\x05\x00\x01\x00\x40\x00\x11"),
    Out(A, b"\x02\x01\x00\x04\x00\x00\x00\x40\x00"),
    Into(A, b"\x04\x13\x05\x01\x01\x00\x02\x00"),
    Out(B, b"\x02\x01\x00\x04\x00\x00\x00\x41\x00"),
    Into(B, b"\x04\x13\x05\x01\x01\x00\x01\x00"),
    Acts(Word::Pass),
    Into(B, b"\x02\x01\x20\x05\x00\x01\x00\x40\x00\x11"),
    Finds(Word::Pass, Deed::Meets(Way::Ba, Fate::Delivered)),
    Acts(Word::Repeat(Way::Ba)),
    Into(A, b"\x02\x01\x20\x04\x00\x00\x00\x41\x00"),
    Acts(Word::Pass),
    Into(A, b"\x02\x01\x20\x04\x00\x00\x00\x41\x00"),
    Acts(Word::Pass),
    Into(B, b"\x02\x01\x20\x04\x00\x00\x00\x40\x00"),
    Finds(Word::Pass, Deed::FiresBoth),
];

/// A frame of 30 octets in packets of at most 27.
const FIRST_PIECE: Row<'static> = More(A, b"\x02\x01\x00\x05\x00\x1A\x00\x40\x00\x00");

const LAST_PIECE: Row<'static> = Out(
    A,
    b"\x02\x01\x10\x19\x00\x01\x02\x03\x04\x05\x06\x07\x08\x09\x0A\x0B\x0C\x0D\x0E\x0F\x10\x11\x12\x13\x14\x15\x16\x17\x18\x19",
);

const GIVEN_BACK: Row<'static> = Into(A, b"\x04\x13\x05\x01\x01\x00\x02\x00");

const HEARD_FIRST: Row<'static> = Into(
    B,
    b"\x02\x01\x20\x1B\x00\x1A\x00\x40\x00\x00\x01\x02\x03\x04\x05\x06\x07\x08\x09\x0A\x0B\x0C\x0D\x0E\x0F\x10\x11\x12\x13\x14\x15\x16",
);

const HEARD_LAST: Row<'static> = Into(B, b"\x02\x01\x10\x03\x00\x17\x18\x19");

const NOTHING_WAITS: Row<'static> = Finds(Word::Lose(Way::Ab), Deed::Nothing);

const STILL_WAITS: Row<'static> = Finds(Word::Pass, Deed::Meets(Way::Ab, Fate::Delivered));

const DAMAGE: Word = Word::Damage {
    way: Way::Ab,
    at: 28,
    mask: 0x8001,
};

const DAMAGE_BEHIND: Word = Word::Damage {
    way: Way::Ab,
    at: 29,
    mask: 0x8001,
};

/// What comes of that frame by each word.
const FATES: &[&[Row<'static>]] = &[
    &[Acts(Word::Pass), HEARD_FIRST, HEARD_LAST, NOTHING_WAITS],
    &[Acts(Word::Lose(Way::Ba)), STILL_WAITS],
    &[Acts(Word::Lose(Way::Ab)), NOTHING_WAITS],
    &[
        Acts(Word::Repeat(Way::Ab)),
        HEARD_FIRST,
        HEARD_LAST,
        STILL_WAITS,
        Acts(Word::Pass),
        HEARD_FIRST,
        HEARD_LAST,
        NOTHING_WAITS,
    ],
    &[
        Acts(Word::Cut {
            way: Way::Ab,
            packets: 1,
        }),
        HEARD_FIRST,
        NOTHING_WAITS,
    ],
    &[
        Acts(Word::Cut {
            way: Way::Ab,
            packets: 0,
        }),
        NOTHING_WAITS,
    ],
    &[
        Acts(Word::Cut {
            way: Way::Ab,
            packets: 65_535,
        }),
        HEARD_FIRST,
        HEARD_LAST,
        NOTHING_WAITS,
    ],
    &[
        Acts(DAMAGE),
        HEARD_FIRST,
        Into(B, b"\x02\x01\x10\x03\x00\x17\x98\x18"),
        NOTHING_WAITS,
    ],
    &[Unchecked(DAMAGE), NOTHING_WAITS],
    &[
        Finds(DAMAGE_BEHIND, Deed::Nothing),
        Acts(DAMAGE_BEHIND),
        STILL_WAITS,
    ],
    &[
        Finds(Word::Drop, Deed::Breaks),
        Acts(Word::Drop),
        Into(A, b"\x04\x05\x04\x00\x01\x00\x08"),
        Into(B, b"\x04\x05\x04\x00\x01\x00\x08"),
        NOTHING_WAITS,
        Finds(Word::Drop, Deed::Nothing),
    ],
];

/// Host a ends the link while a frame waits, which leaves the air; and there is a second link. What
/// host a goes on with was begun on the first one, and is no frame.
const ENDED: &[Row<'static>] = &[
    More(A, b"\x02\x01\x00\x04\x00\x00\x00\x40\x00"),
    FIRST_PIECE,
    Out(A, b"\x01\x06\x04\x03\x01\x00\x13"),
    Into(A, b"\x04\x0F\x04\x00\x01\x06\x04"),
    Into(A, b"\x04\x05\x04\x00\x01\x00\x16"),
    Into(A, b"\x04\x13\x05\x01\x01\x00\x02\x00"),
    Into(B, b"\x04\x05\x04\x00\x01\x00\x13"),
    NOTHING_WAITS,
    Out(
        A,
        b"\x01\x05\x04\x0D\x0B\x00\x00\x00\x00\x00\x18\xCC\x01\x00\x00\x00\x00",
    ),
    Into(A, b"\x04\x0F\x04\x00\x01\x05\x04"),
    Into(B, b"\x04\x04\x0A\x0A\x00\x00\x00\x00\x00\x00\x00\x00\x01"),
    Out(B, b"\x01\x09\x04\x07\x0A\x00\x00\x00\x00\x00\x01"),
    Into(B, b"\x04\x0F\x04\x00\x01\x09\x04"),
    Into(
        B,
        b"\x04\x03\x0B\x00\x02\x00\x0A\x00\x00\x00\x00\x00\x01\x00",
    ),
    Into(
        A,
        b"\x04\x03\x0B\x00\x02\x00\x0B\x00\x00\x00\x00\x00\x01\x00",
    ),
    Out(
        A,
        b"\x02\x02\x10\x19\x00\x01\x02\x03\x04\x05\x06\x07\x08\x09\x0A\x0B\x0C\x0D\x0E\x0F\x10\x11\x12\x13\x14\x15\x16\x17\x18\x19",
    ),
    Into(A, b"\x04\x13\x05\x01\x02\x00\x01\x00"),
    NOTHING_WAITS,
];

/// Whether a packet that comes out of a host is taken, the last one of what it offers or not.
fn takes(radio: &mut Radio, side: Side, octets: &[u8], is_last: bool) -> bool {
    let Leading::Whole(unit, _) = first(octets, 1_021) else {
        return false;
    };
    radio.take(side, &unit).is_ok() && (!is_last || radio.offered(side).is_ok())
}

/// Whether a controller hands over this next.
fn hands(radio: &mut Radio, side: Side, octets: &[u8]) -> bool {
    let mut room = [0; 1026];
    match radio.hand(side, &mut room) {
        Some(count) => &room[..count] == octets,
        None => false,
    }
}

/// Whether a word finds this, with nothing on its way to a host.
fn finds(radio: &Radio, word: Word, deed: Deed) -> bool {
    radio.is_quiet() && radio.found(word) == deed
}

/// Whether a word acts, with nothing on its way to a host.
fn acts(radio: &mut Radio, word: Word, checked: bool) -> bool {
    if !radio.is_quiet() {
        return false;
    }
    radio.act(word, checked);
    true
}

/// Whether a row is what the radio does.
fn follows(radio: &mut Radio, row: Row<'_>) -> bool {
    match row {
        Out(side, octets) => takes(radio, side, octets, true),
        More(side, octets) => takes(radio, side, octets, false),
        Into(side, octets) => hands(radio, side, octets),
        Finds(word, deed) => finds(radio, word, deed),
        Acts(word) => acts(radio, word, true),
        Unchecked(word) => acts(radio, word, false),
    }
}

/// Whether all that moves is in these rows, in their order.
fn replays(radio: &mut Radio, rows: &[Row<'_>]) -> bool {
    for row in rows {
        if !follows(radio, *row) {
            return false;
        }
    }
    radio.is_quiet()
}

/// Whether so many frames from a to b are taken, each with its number.
fn says_many(radio: &mut Radio, count: u16) -> bool {
    for number in 0..count {
        let [low, high] = number.to_le_bytes();
        let frame = [2, 1, 0, 6, 0, 2, 0, 0x40, 0, low, high];
        if !takes(radio, A, &frame, number + 1 == count) {
            return false;
        }
    }
    true
}

/// Whether so many come to b, in their order.
fn hears_many(radio: &mut Radio, count: u16) -> bool {
    for number in 0..count {
        let [low, high] = number.to_le_bytes();
        let frame = [2, 1, 0x20, 6, 0, 2, 0, 0x40, 0, low, high];
        if !acts(radio, Word::Pass, true) || !hands(radio, B, &frame) {
            return false;
        }
    }
    true
}

/// The frame of 30 octets, which the controller has given back.
const FRAME: &[Row<'static>] = &[FIRST_PIECE, LAST_PIECE, GIVEN_BACK];

/// With 300 frames on their way to b: they are given back, and a frame to a is neither repeated, nor lost where none waits.
const CROWDED: &[Row<'static>] = &[
    Into(A, b"\x04\x13\x05\x01\x01\x00\x2C\x01"),
    Out(B, b"\x02\x01\x00\x04\x00\x00\x00\x41\x00"),
    Into(B, b"\x04\x13\x05\x01\x01\x00\x01\x00"),
    Finds(Word::Repeat(Way::Ba), Deed::Nothing),
    Acts(Word::Repeat(Way::Ba)),
    Acts(Word::Lose(Way::Ba)),
];

/// Whether more frames than memory is reserved for come in their order, and nothing is repeated while 128 frames wait the other way.
fn carries_many(radio: &mut Radio) -> bool {
    says_many(radio, 300) && replays(radio, CROWDED) && hears_many(radio, 300)
}

/// What a radio with a link does: these rows, one behind the other, or many frames.
#[derive(Clone, Copy)]
enum Course<'a> {
    Rows(&'a [Row<'a>], &'a [Row<'a>]),
    ManyFrames,
}

/// Whether a new radio comes to a link and goes through a course.
fn goes_through(radio: &mut Radio, course: Course<'_>) -> bool {
    replays(radio, START)
        && match course {
            Course::Rows(begin, end) => replays(radio, begin) && replays(radio, end),
            Course::ManyFrames => carries_many(radio),
        }
}

/// Whether a radio does whose controllers take packets of 27 octets.
fn is_gone_through(alloc: Global, course: Course<'_>) -> bool {
    match Radio::new(alloc, 27, 8) {
        Ok(mut radio) => goes_through(&mut radio, course),
        Err(_) => false,
    }
}

#[test]
fn what_comes_of_a_frame(rt: HostRuntime) {
    for end in FATES {
        assert!(rt; is_gone_through(rt.alloc(), Course::Rows(FRAME, *end)));
    }
}

#[test]
fn frames_in_turn_and_links(rt: HostRuntime) {
    assert!(rt; is_gone_through(rt.alloc(), Course::Rows(IN_TURN, &[])));
    assert!(rt; is_gone_through(rt.alloc(), Course::Rows(ENDED, &[])));
}

#[test]
fn many_frames(rt: HostRuntime) {
    assert!(rt; is_gone_through(rt.alloc(), Course::ManyFrames));
}
