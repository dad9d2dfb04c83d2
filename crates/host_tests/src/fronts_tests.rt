//! Hosts that push in a world, word by word: which word comes next is told by the frame that waits first.

ghost use Rattle.std.specs.Prelude.{◌≡◌, None};
ghost use Rattle.push_terms.specs.Words.{IsWord};
ghost use Rattle.push_terms.specs.declared.word.Side.TheVariants as sides;
ghost use Rattle.radio_world.specs.Calls.{MayTurn};
ghost use Rattle.radio_world.specs.rest_laws.specs.Premises.{AreOrderly};

use bt_base::{NoMemory, Sink};
use bt_host::{ClientHost, ServerHost};
use push_script::{Scenario, scenario_of};
use push_terms::{Outcome, Side, Way, Word};
use radio_world::{Client, Host, World, WorldFault};
use ready_ports::{MemInbox, MemShelf, MemSink};
use std::alloc::Global;

/// What is done with a frame that waits first.
#[derive(Clone, Copy)]
enum Deed {
    Deliver,
    Lose,
    Repeat,
    FireA,
    Break,
}

/// A frame of the enhanced channel, by the octet with which its control field begins, and what is done once it waits first in its direction.
type Aim = (Way, u8, Deed);

/// The word that does it.
fn word_of(deed: Deed, way: Way) -> Word
    ensures { IsWord result }
{
    match deed {
        Deed::Deliver => Word::Pass,
        Deed::Lose => Word::Lose(way),
        Deed::Repeat => Word::Repeat(way),
        Deed::FireA => Word::Timer(Side::A),
        Deed::Break => Word::Drop,
    }
}

/// An octet of a frame in two parts.
fn octet_at(first: &[u8], second: &[u8], at: usize) -> Option<u8> {
    match first.get(at) {
        Some(octet) => Some(*octet),
        None => second.get(at.saturating_sub(first.len())).copied(),
    }
}

/// Whether that frame waits first in its direction. Each host has the endpoint 0041 of the enhanced channel.
fn waits<A: Drop, B: Drop>(world: &World<A, B>, way: Way, control: u8) -> bool {
    match world.front(way) {
        Some((first, second)) => {
            octet_at(first, second, 2) == Some(0x41)
                && octet_at(first, second, 3) == Some(0)
                && octet_at(first, second, 4) == Some(control)
        }
        None => false,
    }
}

/// The word that comes next, and whether it is that of the next frame that is aimed at, which waits; else it is `pass`.
fn next_word<A: Drop, B: Drop>(world: &World<A, B>, aims: &[Aim], next: usize) -> (Word, bool)
    ensures { IsWord result.0 }
{
    match aims.get(next) {
        Some((way, control, deed)) if waits(world, *way, *control) => (word_of(*deed, *way), true),
        _ => (Word::Pass, false),
    }
}

/// Turns words to the end of all pushes, and answers how many aims were met, one after the other.
fn turn_on<P, A: Client<P>, Q, B: Host<Q>, T: Sink>(
    world: &mut World<A, B>,
    aims: &[Aim],
    shelf: &mut P,
    inbox: &mut Q,
    trace: &mut T,
) -> Result<usize, WorldFault>
    requires orderly { AreOrderly A.Host.machine B.machine }
    requires sides { (A.Host.side ≡ sides.A) × (B.side ≡ sides.B) }
    requires may { MayTurn A.Host B.Host world.old shelf.old inbox.old }
{
    let mut next = 0usize;
    for _ in 0..4000 {
        let (word, is_met) = next_word(world, aims, next);
        next = next.saturating_add(usize::from(is_met));
        world.turn(word, trace, shelf, inbox)?;
    }
    world.finish(trace, shelf)?;
    Ok(next)
}

/// A client and a server push what a scenario names, from a shelf into an inbox.
fn play(
    alloc: Global,
    scenario: &Scenario,
    aims: &[Aim],
    shelf: &mut MemShelf,
    inbox: &mut MemInbox,
    trace: &mut MemSink,
) -> Result<(World<ClientHost, ServerHost>, usize), WorldFault>
    requires none_pending { inbox.old.contents.pending ≡ None }
{
    let mut world = World::<ClientHost, ServerHost>::new::<MemShelf, MemInbox>(alloc, scenario)?;
    world.start(trace, shelf, inbox)?;
    let met = turn_on(&mut world, aims, shelf, inbox, trace)?;
    Ok((world, met))
}

/// Two objects in a scenario, what is done with which frames, and what comes of that.
struct Row {
    /// The keys of the scenario.
    keys: &'static str,
    /// How many octets the first object has; the second has none.
    octets: u16,
    aims: &'static [Aim],
    outcomes: [Outcome; 2],
    kept: usize,
    /// The most frames that each host had unacknowledged.
    windows: (u8, u8),
}

const ROWS: &[Row] = &[
    // The link breaks where the response to the last packet waits: the object is stored, and is not pushed again.
    Row {
        keys: "",
        octets: 2,
        aims: &[(Way::Ba, 0x02, Deed::Break)],
        outcomes: [Outcome::LinkLost, Outcome::Done],
        kept: 2,
        windows: (1, 1),
    },
    // The first copies of the I-frames 31, 63, 64 and 127 are lost, behind the last of which the numbers begin anew twice.
    Row {
        keys: "window 32\nsrm on\ntries 20\nmps 48\n",
        octets: 6500,
        aims: &[
            (Way::Ab, 0x3E, Deed::Lose),
            (Way::Ab, 0x7E, Deed::Lose),
            (Way::Ab, 0x00, Deed::Lose),
            (Way::Ab, 0x42, Deed::Deliver),
            (Way::Ab, 0x7E, Deed::Lose),
        ],
        outcomes: [Outcome::Done, Outcome::Done],
        kept: 2,
        windows: (32, 1),
    },
    // An I-frame and the REJ for it are lost, and the timer of the client fires: it polls, and sends again. A repeat of the answer changes nothing.
    Row {
        keys: "mps 48\n",
        octets: 100,
        aims: &[
            (Way::Ab, 0x02, Deed::Lose),
            (Way::Ba, 0x05, Deed::Lose),
            (Way::Ab, 0x06, Deed::FireA),
            (Way::Ba, 0x81, Deed::Repeat),
        ],
        outcomes: [Outcome::Done, Outcome::Done],
        kept: 2,
        windows: (3, 1),
    },
    // The same I-frame is lost as often as it may be sent.
    Row {
        keys: "tries 2\n",
        octets: 2,
        aims: &[(Way::Ab, 0x02, Deed::Lose), (Way::Ab, 0x02, Deed::Lose)],
        outcomes: [Outcome::RetryLimit, Outcome::Done],
        kept: 1,
        windows: (1, 1),
    },
];

/// Whether a world is what its row says, once so many frames were met.
fn is_right(world: &World<ClientHost, ServerHost>, met: usize, row: &Row) -> bool {
    let peaks = world.peaks::<MemShelf, MemInbox>();
    world.outcomes() == row.outcomes.as_slice()
        && met == row.aims.len()
        && (peaks.window_a, peaks.window_b) == row.windows
}

/// Whether a scenario comes to what a row says.
fn plays(
    alloc: Global,
    scenario: &Scenario,
    shelf: &mut MemShelf,
    inbox: &mut MemInbox,
    trace: &mut MemSink,
    row: &Row,
) -> bool
    requires none_pending { inbox.old.contents.pending ≡ None }
{
    match play(alloc, scenario, row.aims, shelf, inbox, trace) {
        Ok((world, met)) => is_right(&world, met, row) && inbox.len() == row.kept,
        Err(_) => false,
    }
}

/// The keys and the objects of a row's scenario.
fn scenario(alloc: Global, keys: &str) -> Option<Scenario> {
    let text = format!(in alloc;
        "transport l2cap\n{}object a\nobject b\nradio\n1 pass\n",
        keys
    )
    .ok()?;
    scenario_of(alloc, text.as_bytes()).ok()
}

/// A shelf with two objects, of which the first has so many octets.
fn shelved(alloc: Global, octets: u16) -> Result<MemShelf, NoMemory> {
    let mut shelf = MemShelf::new(alloc, &[])?;
    let object = vec![in alloc; 0x2A; usize::from(octets)]?;
    shelf.add("a", &object)?;
    shelf.add("b", &[])?;
    Ok(shelf)
}

/// Whether a row comes true where what lies on the shelf is pushed into a new inbox.
fn is_stored(
    alloc: Global,
    scenario: &Scenario,
    shelf: &mut MemShelf,
    trace: &mut MemSink,
    row: &Row,
) -> bool {
    match MemInbox::new(alloc, &[]) {
        Ok(mut inbox) => plays(alloc, scenario, shelf, &mut inbox, trace, row),
        Err(_) => false,
    }
}

/// Whether it does over a new trace.
fn is_traced(alloc: Global, scenario: &Scenario, shelf: &mut MemShelf, row: &Row) -> bool {
    match MemSink::new(alloc, &[]) {
        Ok(mut trace) => is_stored(alloc, scenario, shelf, &mut trace, row),
        Err(_) => false,
    }
}

/// Whether it does from a shelf with its objects.
fn is_pushed(alloc: Global, scenario: &Scenario, row: &Row) -> bool {
    match shelved(alloc, row.octets) {
        Ok(mut shelf) => is_traced(alloc, scenario, &mut shelf, row),
        Err(_) => false,
    }
}

/// Whether a row comes true.
fn comes_true(alloc: Global, row: &Row) -> bool {
    match scenario(alloc, row.keys) {
        Some(scenario) => is_pushed(alloc, &scenario, row),
        None => false,
    }
}

#[test]
fn the_frame_that_waits_first_tells_the_next_word(rt: HostRuntime) {
    for row in ROWS {
        assert!(rt; comes_true(rt.alloc(), row));
    }
}
