use bt_base::NoMemory;
use capture::{Entry, Flow, entries_of};
use h4_framing::Unit;
use push_script::{Scenario, scenario_of};
use push_terms::{Outcome, Side, Way};
use radio_world::World;
use ready_ports::MemSink;
use std::alloc::Global;
use tiny_hosts::{Counter, Echo, TinyHost, play};

type Both = World<TinyHost<Counter>, TinyHost<Echo>>;

/// What stands before the words of a script.
const HEAD: &str = "transport l2cap\nserves both\nacl 27 2\nchunk 3\nobject a\nobject b\nradio\n";

/// The text of a scenario of two objects and these words.
fn text_of(alloc: Global, words: &str) -> Result<String, NoMemory> {
    let mut text = String::from_str(alloc, HEAD)?;
    text.push_str(words)?;
    Ok(text)
}

/// How many words acted, how many links came up at the counter, and how many PDUs went out of both hosts.
fn counted(entries: &[Entry<'_>]) -> (usize, usize, usize) {
    let (mut acted, mut links, mut pdus) = (0, 0, 0);
    for entry in entries {
        match entry {
            Entry::Acted { .. } => acted = usize::saturating_add(acted, 1),
            Entry::Moved {
                side: Side::A,
                flow: Flow::Into,
                unit: Unit::Event { code: 3, .. },
            } => links = usize::saturating_add(links, 1),
            Entry::Moved {
                flow: Flow::Out,
                unit: Unit::Acl { .. },
                ..
            } => pdus = usize::saturating_add(pdus, 1),
            Entry::Moved { .. } | Entry::Begun(_) | Entry::Ended(..) => {}
        }
    }
    (acted, links, pdus)
}

/// The octet that the frame carries which waits first in a direction.
fn waiting(world: &Both, way: Way) -> Option<u8> {
    let (first, second) = world.front(way)?;
    match (first, second) {
        ([_, _, _, _, octet, ..], _) => Some(*octet),
        ([_, _, _, _], [octet, ..]) => Some(*octet),
        _ => None,
    }
}

/// A script, and what comes of it.
struct Row {
    words: &'static str,
    /// What came of the two pushes.
    outcomes: [Outcome; 2],
    /// How many PDUs the counter and the echo heard.
    heard: (u16, u16),
    /// How many words acted, how many links came up, and how many PDUs went out of both hosts.
    counted: (usize, usize, usize),
    /// What waits for the echo and for the counter.
    waits: (Option<u8>, Option<u8>),
}

const DONE: Outcome = Outcome::Done;

const ENDED: Outcome = Outcome::ScriptEnded;

const ROWS: &[Row] = &[
    Row {
        words: "1 timer b\n1 cut ba 1\n",
        outcomes: [ENDED, ENDED],
        heard: (0, 0),
        counted: (0, 1, 1),
        waits: (Some(1), None),
    },
    Row {
        words: "1 pass\n",
        outcomes: [ENDED, ENDED],
        heard: (0, 1),
        counted: (1, 1, 2),
        waits: (None, Some(1)),
    },
    Row {
        words: "20 pass\n",
        outcomes: [DONE, DONE],
        heard: (6, 6),
        counted: (12, 2, 12),
        waits: (None, None),
    },
    Row {
        words: "1 lose ab\n1 timer b\n1 timer a\n6 pass\n",
        outcomes: [DONE, ENDED],
        heard: (3, 3),
        counted: (8, 2, 8),
        waits: (Some(1), None),
    },
    Row {
        words: "1 lose ab\n2 pass\n1 lose ba\n1 pass\n",
        outcomes: [ENDED, ENDED],
        heard: (0, 1),
        counted: (5, 1, 5),
        waits: (Some(1), Some(1)),
    },
    Row {
        words: "1 repeat ab\n2 pass\n1 repeat ba\n",
        outcomes: [ENDED, ENDED],
        heard: (2, 2),
        counted: (4, 1, 4),
        waits: (Some(2), Some(1)),
    },
    Row {
        words: "1 damage ab 4 0301\n1 damage ab 4 0001\n1 pass\n",
        outcomes: [ENDED, ENDED],
        heard: (1, 1),
        counted: (2, 1, 2),
        waits: (None, None),
    },
    Row {
        words: "1 cut ab 1\n1 pass\n",
        outcomes: [ENDED, ENDED],
        heard: (1, 1),
        counted: (2, 1, 3),
        waits: (Some(2), None),
    },
    Row {
        words: "1 pass\n1 drop\n1 timer b\n6 pass\n2 drop\n",
        outcomes: [Outcome::LinkLost, DONE],
        heard: (3, 4),
        counted: (8, 2, 8),
        waits: (None, None),
    },
    Row {
        words: "2 pass\n1 cancel\n6 pass\n1 cancel\n",
        outcomes: [Outcome::Cancelled, DONE],
        heard: (4, 4),
        counted: (9, 2, 9),
        waits: (None, None),
    },
];

/// Whether a world is what its row says.
fn is_right(world: &Both, row: &Row) -> bool {
    let peaks = world.peaks::<(), ()>();
    world.outcomes() == row.outcomes.as_slice()
        && (peaks.credits_a, peaks.credits_b) == row.heard
        && peaks.buffers_a == 1
        && world.kept() == u32::from(row.heard.1)
        && (waiting(world, Way::Ab), waiting(world, Way::Ba)) == row.waits
}

/// Whether a capture has what a row counts.
fn has_counts(alloc: Global, capture: &[u8], row: &Row) -> bool {
    match entries_of(alloc, capture) {
        Ok(entries) => counted(&entries) == row.counted,
        Err(_) => false,
    }
}

/// Whether the world of a scenario is what a row says.
fn plays(alloc: Global, scenario: &Scenario, trace: &mut MemSink, row: &Row) -> bool {
    match play(alloc, scenario, trace) {
        Ok(world) => is_right(&world, row),
        Err(_) => false,
    }
}

/// Whether a scenario comes to what a row says.
fn comes_to(alloc: Global, scenario: &Scenario, row: &Row) -> bool {
    match MemSink::new(alloc, &[]) {
        Ok(mut trace) => {
            plays(alloc, scenario, &mut trace, row) && has_counts(alloc, trace.octets(), row)
        }
        Err(_) => false,
    }
}

/// Whether a text does.
fn is_scenario_of(alloc: Global, text: &str, row: &Row) -> bool {
    match scenario_of(alloc, text.as_bytes()) {
        Ok(scenario) => comes_to(alloc, &scenario, row),
        Err(_) => false,
    }
}

/// Whether a script comes to what its row says.
fn comes_true(alloc: Global, row: &Row) -> bool {
    match text_of(alloc, row.words) {
        Ok(text) => is_scenario_of(alloc, text.as_str(), row),
        Err(_) => false,
    }
}

#[test]
fn every_word_is_played(rt: HostRuntime) {
    for row in ROWS {
        assert!(rt; comes_true(rt.alloc(), row));
    }
}
