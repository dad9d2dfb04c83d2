//! The view of a btsnoop file.

ghost use Rattle.std.specs.Prelude.{◌≡◌, ◌++◌, [], OnOk, IfOk, IfSome, IfNone, IsErrOf};
ghost use Rattle.h4_framing.specs.Packets.{packet, spelling, IsPacket};
ghost use Rattle.btsnoop.specs.Files.{plain_record, IsRecord};
ghost use Rattle.h4_view.specs.Snoop.{IsNoPacket, direction_of, mark, cut_text, view_refusal, SnoopViews};
ghost use Rattle.h4_view.specs.SnoopTelling.{RecordShown, VerdictOf, IsNew};
ghost use Rattle.h4_view.specs.View.{Blames, IsAnswered};

use crate::both_links::{BothLinks, push_both_lines};
use crate::line::{Text, push_decimal, push_text};
use crate::raw::refuse;
use crate::refusal::{ViewFault, ViewRefusal};
use bt_base::{NoMemory, Sink, Source};
use btsnoop::{FirstPart, Part, Record, SnoopRefusal, first_part};
use h4_framing::{Leading, Unit, first};
use item_stream::{Ending, Front, StreamFault, Teller, tell_all};
use seen_channels::Direction;
use std::alloc::Global;

/// The greatest length of an input, in octets.
const INPUT_LIMIT: u64 = 67_108_864;

/// A view of a file under way: what is kept of its links, what stands next and at which offset, and
/// why the file was refused, where it was, with the place of the wrong field behind that offset.
#[derive(Drop)]
pub(crate) struct SnoopView {
    alloc: Global,
    links: BothLinks,
    part: Part,
    place: u64,
    refusal: ViewRefusal,
    within: u64,
}

/// Which way the packet of a record with these flags goes.
fn direction_of(flags: u32) -> Direction
    ensures { result ≡ direction_of flags }
{
    if flags % 2 == 0 {
        Direction::Out
    } else {
        Direction::In
    }
}

/// The mark of a way.
fn mark(direction: Direction) -> &'static str
    ensures { result.now ≡ mark direction }
{
    match direction {
        Direction::Out => ">",
        Direction::In => "<",
    }
}

/// Why a file is refused, as a view says it.
fn view_refusal(refusal: SnoopRefusal) -> ViewRefusal
    ensures { result ≡ view_refusal refusal }
{
    match refusal {
        SnoopRefusal::BadMagic => ViewRefusal::BadMagic,
        SnoopRefusal::BadVersion => ViewRefusal::BadVersion,
        SnoopRefusal::BadLink => ViewRefusal::BadLink,
        SnoopRefusal::BadLength => ViewRefusal::BadLength,
        SnoopRefusal::Truncated => ViewRefusal::Truncated,
        SnoopRefusal::BadTag => ViewRefusal::BadTag,
        SnoopRefusal::BadRecord => ViewRefusal::BadRecord,
        SnoopRefusal::TooLong => ViewRefusal::TooLong,
    }
}

/// The packet that the octets are, where they are exactly one.
fn whole_packet<'a>(octets: &'a [u8]) -> Option<Unit<'a>>
    ensures some { IfSome result (λ unit. IsPacket 65535 (packet unit) × (spelling (packet unit) ≡ octets.now)) }
    ensures none { IfNone result (IsNoPacket octets.now) }
{
    match first(octets, u16::MAX) {
        Leading::Whole(unit, length) => {
            if length < octets.len() {
                return None;
            }
            Some(unit)
        }
        Leading::Partial => None,
        Leading::Refused(..) => None,
    }
}

/// Adds what a record says whose octets are not exactly one packet.
fn push_cut(text: &mut Text, item: &Record<'_>) -> Result<(), NoMemory>
    ensures { OnOk result (text.new.items ≡ text.old.items ++ cut_text (plain_record item.now)) }
{
    let included = item.octets.len() as u64;
    if included >= item.original as u64 {
        return push_text(text, "bad");
    }
    push_text(text, "cut ")?;
    push_decimal(text, item.original as u64)?;
    push_text(text, " ")?;
    push_decimal(text, included)
}

/// Adds the lines of a record.
fn push_record(view: &mut SnoopView, text: &mut Text, item: &Record<'_>) -> Result<(), NoMemory>
    requires { IsRecord (plain_record item.now) }
    ensures { OnOk result (RecordShown (plain_record item.now) view.old view.new text.old.items text.new.items) }
{
    let direction = direction_of(item.flags);
    push_decimal(text, view.place)?;
    push_text(text, " ")?;
    push_text(text, mark(direction))?;
    push_text(text, " ")?;
    match whole_packet(item.octets) {
        Some(unit) => push_both_lines(view.alloc, text, &mut view.links, direction, &unit)?,
        None => {
            push_cut(text, item)?;
            push_text(text, "\n")?;
        }
    }
    Ok(())
}

impl Teller for SnoopView {
    ghost use Rattle.h4_view.specs.SnoopTelling.{HasShown, Finds};

    ghost has_told = { HasShown };

    ghost finds = { Finds };

    fn tell(&mut self, octets: &[u8], text: &mut Vec<u8>) -> Result<Front, NoMemory> {
        if octets.is_empty() && self.part == Part::Body {
            return Ok(Front::Nothing);
        }
        match first_part(self.part, octets) {
            FirstPart::Header(length) => {
                self.part = Part::Body;
                self.place = self.place.saturating_add(length as u64);
                Ok(Front::Item(length))
            }
            FirstPart::Record(item, length) => {
                push_record(self, text, &item)?;
                self.place = self.place.saturating_add(length as u64);
                Ok(Front::Item(length))
            }
            FirstPart::Cut(least) => Ok(Front::Cut(least)),
            FirstPart::Refused(refusal, within) => {
                self.refusal = view_refusal(refusal);
                self.within = within as u64;
                Ok(Front::Refused)
            }
        }
    }
}

/// A view at the beginning of a file.
fn new_view(alloc: Global) -> Result<SnoopView, NoMemory>
    ensures { IfOk result IsNew }
{
    let links = BothLinks::new(alloc)?;
    Ok(SnoopView {
        alloc,
        links,
        part: Part::Header,
        place: 0,
        refusal: ViewRefusal::BadMagic,
        within: 0,
    })
}

/// Why a view of a file that ends so stops.
fn verdict_of(view: &SnoopView, ending: Ending) -> Option<(ViewRefusal, u64)>
    ensures { VerdictOf view.now ending result }
{
    match ending {
        Ending::Whole => None,
        Ending::Truncated(place) => Some((ViewRefusal::Truncated, place)),
        Ending::TooLong => Some((ViewRefusal::TooLong, INPUT_LIMIT)),
        Ending::Refused(place) => Some((view.refusal, place.saturating_add(view.within))),
    }
}

/// Shows a btsnoop file (RFC 1761, with datalink 1002): the lines of each record up to the first
/// fault, and one for the fault.
///
/// A line begins with the offset of the record, and `>` for a packet from the host or `<` for one to
/// it, by bit 0 of the flags. A packet stands there as in the view of a stream, with what stands under
/// it; each handle and direction has pieces of its own, and channels are told by what went both ways.
/// Where the octets of a record are not exactly one packet, the line says `cut`, how many octets the
/// packet had and how many are there, or `bad` where none was cut off.
///
/// `Refused` comes where the input is no such file, with the place of the fault: `BadMagic`,
/// `BadVersion` and `BadLink` where a field of the file header is wrong, `BadLength` where a record
/// includes more than 65,540 octets or more than its packet had, `Truncated` where the input ends within
/// the file header or a record, and `TooLong` where it goes past 67,108,864 octets, also where it ends
/// before within a record that would. `ReadFault` comes where the source failed, once the lines of all
/// that was read are written, and `WriteFault` where the sink failed. `NoMemory` comes where memory was
/// wanting, also that of a port.
pub fn view_snoop<S: Source, K: Sink>(
    alloc: Global,
    source: &mut S,
    sink: &mut K,
) -> Result<(), ViewFault>
    // What the sink gains is the view of what the source had left. A fault of the source loses nothing.
    ensures views { IfSome (S.content source.old) (λ input. SnoopViews input (S.content source.new) (K.content sink.old) (K.content sink.new) result) }
    // The input was read to its end.
    ensures finish { OnOk result (IfSome (S.content source.new) (λ left. left ≡ [])) }
    // Each fault has its cause, and a shortage of memory of a port is answered.
    ensures blame { Blames (S.faults source.old) (S.faults source.new) (K.faults sink.old) (K.faults sink.new) result }
    ensures source_short { IsAnswered (S.shortages source.old) (S.shortages source.new) (IsErrOf result ViewFault.NoMemory) }
    ensures sink_short { IsAnswered (K.shortages sink.old) (K.shortages sink.new) (IsErrOf result ViewFault.NoMemory) }
{
    let Ok(mut view) = new_view(alloc) else {
        return Err(ViewFault::NoMemory);
    };
    match tell_all(alloc, &[], &mut view, source, sink) {
        Ok(ending) => match verdict_of(&view, ending) {
            None => Ok(()),
            Some((refusal, place)) => Err(refuse(alloc, sink, refusal, place)),
        },
        Err(StreamFault::ReadFault) => Err(ViewFault::ReadFault),
        Err(StreamFault::WriteFault) => Err(ViewFault::WriteFault),
        Err(StreamFault::NoMemory) => Err(ViewFault::NoMemory),
    }
}
