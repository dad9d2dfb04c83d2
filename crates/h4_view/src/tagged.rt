//! The view of a capture of two hosts.

ghost use Rattle.std.specs.Prelude.{◌≡◌, ◌++◌, ◌∷◌, List, [], codes, decimal, OnOk, IfOk, IfSome, IsErrOf};
ghost use Rattle.h4_framing.specs.Packets.{packet};
ghost use Rattle.push_terms.specs.declared.word.Side.TheVariants as sides;
ghost use Rattle.push_terms.specs.Words.{word_text, side_text};
ghost use Rattle.push_terms.specs.Outcomes.{outcome_text};
ghost use Rattle.capture.specs.Lent.{plain_entry};
ghost use Rattle.h4_view.specs.Lines.{packet_text};
ghost use Rattle.h4_view.specs.Both.{Sent, KnowsBoth, under_by};
ghost use Rattle.h4_view.specs.Tagged.{direction_of, flow_text};
ghost use Rattle.h4_view.specs.Keeping.{kept_of, ShowsAndKeeps};
ghost use Rattle.h4_view.specs.View.{Blames, IsAnswered};
ghost use Rattle.h4_view.specs.TaggedTelling.{BehindOffset, EntryShown, VerdictOf, IsNew};
ghost use Rattle.capture.specs.Entries.{Moved};

use crate::both_links::{BothLinks, push_both_lines};
use crate::line::{Text, push_decimal, push_text};
use crate::raw::refuse;
use crate::refusal::{ViewFault, ViewRefusal};
use bt_base::{NoMemory, Sink, Source};
use capture::{Entry, EntryRefusal, Flow, entry_of};
use h4_framing::Unit;
use item_stream::{Ending, Front, StreamFault, Teller, tell_all};
use push_terms::{Outcome, Side, Word, put_outcome, put_word};
use seen_channels::Direction;
use std::alloc::Global;
use tagged_entries::least_length;

/// The greatest length of an input, in octets.
const INPUT_LIMIT: u64 = 67_108_864;

/// How many octets the text of a word or of an outcome has at most.
const LONGEST_TEXT: usize = 24;

/// A view of a capture under way: what is kept of the links of both hosts, the octets of all packets of
/// host b, the offset of the next entry, and why an entry was refused, where one was.
#[derive(Drop)]
pub(crate) struct TaggedView {
    alloc: Global,
    a: BothLinks,
    b: BothLinks,
    kept: Vec<u8>,
    place: u64,
    refusal: ViewRefusal,
}

fn direction_of(flow: Flow) -> Direction
    ensures { result ≡ direction_of flow }
{
    match flow {
        Flow::Out => Direction::Out,
        Flow::Into => Direction::In,
    }
}

/// The host and the way of a packet.
fn mark(side: Side, flow: Flow) -> &'static str
    ensures { result.now ≡ side_text side ++ flow_text flow }
{
    match (side, flow) {
        (Side::A, Flow::Out) => "a>",
        (Side::A, Flow::Into) => "a<",
        (Side::B, Flow::Out) => "b>",
        (Side::B, Flow::Into) => "b<",
    }
}

/// Adds the text of a word.
fn push_word(text: &mut Text, word: &Word) -> Result<(), NoMemory>
    ensures { OnOk result (text.new.items ≡ text.old.items ++ word_text word.now) }
{
    let mut room = [0; LONGEST_TEXT];
    let length = put_word(word, &mut room);
    text.extend_from_slice(&room[..length])?;
    Ok(())
}

/// Adds the text of an outcome.
fn push_outcome(text: &mut Text, outcome: &Outcome) -> Result<(), NoMemory>
    ensures { OnOk result (text.new.items ≡ text.old.items ++ outcome_text outcome.now) }
{
    let mut room = [0; LONGEST_TEXT];
    let length = put_outcome(outcome, &mut room);
    text.extend_from_slice(&room[..length])?;
    Ok(())
}

/// Adds what a packet of a host says behind its offset, and what stands under it.
fn push_moved(
    alloc: Global,
    text: &mut Text,
    links: &mut BothLinks,
    mark: &str,
    direction: Direction,
    unit: &Unit<'_>,
) -> Result<(), NoMemory>
    ensures { OnOk result ((past : List Sent) → KnowsBoth past links.old →
        (text.new.items ≡ text.old.items ++ (mark.now ++ codes " " ++ packet_text (packet unit.now) ++ codes "\n" ++ under_by past direction (packet unit.now)))
        × KnowsBoth (past ++ record { direction = direction; packet = packet unit.now } ∷ []) links.new) }
{
    push_text(text, mark)?;
    push_text(text, " ")?;
    push_both_lines(alloc, text, links, direction, unit)?;
    Ok(())
}

/// Adds what an entry says that is no packet.
fn push_acted(text: &mut Text, ordinal: u64, word: &Word) -> Result<(), NoMemory>
    ensures { OnOk result (text.new.items ≡ text.old.items ++ (codes "word " ++ decimal ordinal ++ codes " " ++ word_text word.now ++ codes "\n")) }
{
    push_text(text, "word ")?;
    push_decimal(text, ordinal)?;
    push_text(text, " ")?;
    push_word(text, word)?;
    push_text(text, "\n")
}

fn push_begun(text: &mut Text, push: u16) -> Result<(), NoMemory>
    ensures { OnOk result (text.new.items ≡ text.old.items ++ (codes "begin " ++ decimal push ++ codes "\n")) }
{
    push_text(text, "begin ")?;
    push_decimal(text, push as u64)?;
    push_text(text, "\n")
}

fn push_ended(text: &mut Text, push: u16, outcome: &Outcome) -> Result<(), NoMemory>
    ensures { OnOk result (text.new.items ≡ text.old.items ++ (codes "end " ++ decimal push ++ codes " " ++ outcome_text outcome.now ++ codes "\n")) }
{
    push_text(text, "end ")?;
    push_decimal(text, push as u64)?;
    push_text(text, " ")?;
    push_outcome(text, outcome)?;
    push_text(text, "\n")
}

/// Adds what a packet says behind its offset, and what stands under it.
fn push_of_host(
    view: &mut TaggedView,
    text: &mut Text,
    side: Side,
    flow: Flow,
    unit: &Unit<'_>,
) -> Result<(), NoMemory>
    ensures { OnOk result (BehindOffset (Moved side flow (packet unit.now)) view.old view.new text.old.items text.new.items) }
{
    let mark = mark(side, flow);
    let direction = direction_of(flow);
    match side {
        Side::A => push_moved(view.alloc, text, &mut view.a, mark, direction, unit)?,
        Side::B => push_moved(view.alloc, text, &mut view.b, mark, direction, unit)?,
    }
    Ok(())
}

/// Adds the lines of an entry.
fn push_entry(view: &mut TaggedView, text: &mut Text, entry: &Entry<'_>) -> Result<(), NoMemory>
    ensures { OnOk result (EntryShown (plain_entry entry.now) view.old view.new text.old.items text.new.items) }
{
    push_decimal(text, view.place)?;
    push_text(text, " ")?;
    match *entry {
        Entry::Moved { side, flow, unit } => push_of_host(view, text, side, flow, &unit)?,
        Entry::Acted { ordinal, word } => push_acted(text, ordinal, &word)?,
        Entry::Begun(push) => push_begun(text, push)?,
        Entry::Ended(push, outcome) => push_ended(text, push, &outcome)?,
    }
    Ok(())
}

/// Keeps the octets of an entry that is a packet of host b.
fn keep(kept: &mut Vec<u8>, entry: &Entry<'_>, octets: &[u8]) -> Result<(), NoMemory>
    ensures { OnOk result (kept.new.items ≡ kept.old.items ++ kept_of sides.B (plain_entry entry.now) octets.now) }
{
    match *entry {
        Entry::Moved { side: Side::B, .. } => kept.extend_from_slice(octets)?,
        Entry::Moved { side: Side::A, .. } => {}
        Entry::Acted { .. } | Entry::Begun(_) | Entry::Ended(_, _) => {}
    }
    Ok(())
}

impl Teller for TaggedView {
    ghost use Rattle.h4_view.specs.TaggedTelling.{HasShown, Finds};

    ghost has_told = { HasShown };

    ghost finds = { Finds };

    fn tell(&mut self, octets: &[u8], text: &mut Vec<u8>) -> Result<Front, NoMemory> {
        if octets.is_empty() {
            return Ok(Front::Nothing);
        }
        match entry_of(octets) {
            Ok((entry, used)) => {
                push_entry(self, text, &entry)?;
                keep(&mut self.kept, &entry, &octets[..used])?;
                self.place = self.place.saturating_add(used as u64);
                Ok(Front::Item(used))
            }
            Err(EntryRefusal::Truncated) => Ok(Front::Cut(least_length(octets))),
            Err(EntryRefusal::BadTag) => {
                self.refusal = ViewRefusal::BadTag;
                Ok(Front::Refused)
            }
            Err(EntryRefusal::BadRecord) => {
                self.refusal = ViewRefusal::BadRecord;
                Ok(Front::Refused)
            }
        }
    }
}

/// A view at the beginning of a capture.
pub(crate) fn new_view(alloc: Global) -> Result<TaggedView, NoMemory>
    ensures { IfOk result IsNew }
{
    let a = BothLinks::new(alloc)?;
    let b = BothLinks::new(alloc)?;
    Ok(TaggedView {
        alloc,
        a,
        b,
        kept: Vec::new(alloc),
        place: 0,
        refusal: ViewRefusal::BadTag,
    })
}

/// Why a view of a capture that ends so stops.
fn verdict_of(view: &TaggedView, ending: Ending) -> Option<(ViewRefusal, u64)>
    ensures { VerdictOf view.now ending result }
{
    match ending {
        Ending::Whole => None,
        Ending::Truncated(place) => Some((ViewRefusal::Truncated, place)),
        Ending::TooLong => Some((ViewRefusal::TooLong, INPUT_LIMIT)),
        Ending::Refused(place) => Some((view.refusal, place)),
    }
}

/// Shows a capture of two hosts: the lines of each entry up to the first fault, and one for the fault. It
/// answers the octets of all packets of host b.
///
/// A line begins with the offset of the entry's tag. Packets stand with their host and the way that they
/// went, and with what stands under them in the view of a stream: each host, handle and direction has
/// pieces of its own, and a host's channels are told by what went both ways.
///
/// `Refused` comes where the input is no capture, with the place of the fault: `BadTag` where the first
/// octet of an entry is no tag, `Truncated` where the input ends within an entry, `BadRecord` where a
/// payload is not one of its tag, and `TooLong` where the input goes past 67,108,864 octets, also where it
/// ends before within an entry that would. `ReadFault` comes where the source failed, once the lines of
/// all that was read are written, and `WriteFault` where the sink failed. `NoMemory` comes where memory
/// was wanting, also that of a port.
pub fn view_entries<S: Source, K: Sink>(
    alloc: Global,
    source: &mut S,
    sink: &mut K,
) -> Result<Vec<u8>, ViewFault>
    // What the sink gains is the view of what the source had left, whose packets of host b are answered. A fault of the
    // source loses nothing.
    ensures views { IfSome (S.content source.old) (λ input. ShowsAndKeeps input (S.content source.new) (K.content sink.old) (K.content sink.new) result) }
    // The input was read to its end.
    ensures finish { OnOk result (IfSome (S.content source.new) (λ left. left ≡ [])) }
    // Each fault has its cause, and a shortage of memory of a port is answered.
    ensures blame { Blames (S.faults source.old) (S.faults source.new) (K.faults sink.old) (K.faults sink.new) result }
    ensures source_short { IsAnswered (S.shortages source.old) (S.shortages source.new) (IsErrOf result ViewFault.NoMemory) }
    ensures sink_short { IsAnswered (K.shortages sink.old) (K.shortages sink.new) (IsErrOf result ViewFault.NoMemory) }
{
    let Ok(mut view) = new_view(alloc) else {
        return Err(ViewFault::NoMemory);
    };
    match tell_all(alloc, &[], &mut view, source, sink) {
        Ok(ending) => match verdict_of(&view, ending) {
            None => Ok(view.kept),
            Some((refusal, place)) => Err(refuse(alloc, sink, refusal, place)),
        },
        Err(StreamFault::ReadFault) => Err(ViewFault::ReadFault),
        Err(StreamFault::WriteFault) => Err(ViewFault::WriteFault),
        Err(StreamFault::NoMemory) => Err(ViewFault::NoMemory),
    }
}
