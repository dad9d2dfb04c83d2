//! What stands under the line of an ACL packet: what becomes of pieces of PDUs.

ghost use Rattle.std.specs.Prelude.{◌≡◌, ◌++◌, ◌∷◌, [], ◌<◌, List, Option, Some, None, codes, OnOk, IfOk, IfSome, if◌then◌else◌};
ghost use Rattle.std.specs.List.{AllByRecursion};
ghost use Rattle.h4_framing.specs.Packets.{Packet, Acl};
ghost use Rattle.acl_fragments.specs.Pieces.{Piece};
ghost use Rattle.acl_fragments.specs.Answers.{Pdu};
ghost use Rattle.acl_fragments.specs.Joiners.{HoldsOpen, plain_answer};
ghost use Rattle.seen_channels.specs.Tellings.{Learnt};
ghost use Rattle.seen_channels.specs.Tables.{Keeps};
ghost use Rattle.h4_view.specs.Pdus.{pdu_limit, turned, with_pdu};
ghost use Rattle.h4_view.specs.Details.{drop_name, joined_text, link_of, under, IsJoinerOf, IsSpare, IsLink, IsLinkOf, Knows, HeardPdus, goes_on};
ghost use Rattle.h4_view.specs.Lanes.{LaneShown, LaneKept, MakesFew, IsAlone, IsWholeStart};

use crate::line::{Text, push_decimal, push_hex, push_reason, push_text};
use crate::links::{Link, Links, keep_joiner, make_place, take_joiner};
use crate::nested::{SIGNALLING, payload_of, push_nested};
use acl_fragments::{DropReason, Got, Joiner};
use bt_base::NoMemory;
use byteorder::{ByteOrder, LittleEndian};
use hci_packets::{Boundary, acl_word};
use seen_channels::{Channels, Direction};
use std::alloc::Global;

/// How many octets stand before the payload of a PDU: its length and its channel.
const HEADER_LENGTH: usize = 4;

/// The name of a reason to drop a piece.
fn drop_name(reason: DropReason) -> &'static str
    ensures { result.now ≡ drop_name reason }
{
    match reason {
        DropReason::StrayContinuation => "StrayContinuation",
        DropReason::Unfinished => "Unfinished",
        DropReason::Overrun => "Overrun",
        DropReason::AboveLimit => "AboveLimit",
        DropReason::ShortStart => "ShortStart",
    }
}

/// Which way a piece goes: a start says it, and a piece that continues goes the way of its start.
fn turned(before: Direction, boundary: Boundary) -> Direction
    ensures { result ≡ turned before boundary }
{
    match boundary {
        Boundary::First => Direction::Out,
        Boundary::Continuing => before,
        Boundary::FirstFromController => Direction::In,
    }
}

fn push_unfinished(text: &mut Text, unfinished: bool) -> Result<(), NoMemory>
    ensures { OnOk result (text.new.items ≡ text.old.items ++ (if unfinished then codes "  unfinished\n" else [])) }
{
    if unfinished {
        push_text(text, "  unfinished\n")?;
    }
    Ok(())
}

/// Learns what a whole PDU tells of channels.
fn hear_pdu(
    channels: &mut Channels,
    direction: Direction,
    channel: u16,
    pdu: &[u8],
) -> Result<(), NoMemory>
    ensures { OnOk result ((known : Learnt) → Keeps known channels.old → Keeps (with_pdu known (record { direction = direction; channel = channel; octets = pdu.now })) channels.new) }
{
    if channel == SIGNALLING {
        channels.hear_all(direction, payload_of(pdu))?;
    }
    Ok(())
}

/// Adds the line of a whole PDU and what it says, and learns what it tells.
fn push_pdu(
    text: &mut Text,
    channels: &mut Channels,
    direction: Direction,
    channel: u16,
    pdu: &[u8],
) -> Result<(), NoMemory>
    ensures { OnOk result (HeardPdus direction (Pdu channel pdu.now) text.old.items text.new.items channels.old channels.new) }
{
    push_text(text, "  pdu ")?;
    push_hex(text, &channel.to_be_bytes())?;
    push_text(text, " ")?;
    push_decimal(text, pdu.len().saturating_sub(4) as u64)?;
    push_text(text, "\n")?;
    push_nested(text, channels, direction, channel, pdu)?;
    hear_pdu(channels, direction, channel, pdu)
}

fn push_got(
    text: &mut Text,
    channels: &mut Channels,
    direction: Direction,
    got: Got<'_>,
) -> Result<(), NoMemory>
    ensures { OnOk result (HeardPdus direction (plain_answer got.entry) text.old.items text.new.items channels.old channels.new) }
{
    match got {
        Got::Pdu(channel, pdu) => push_pdu(text, channels, direction, channel, pdu),
        Got::More => Ok(()),
        Got::Dropped(reason) => push_reason(text, "  drop ", drop_name(reason)),
    }
}

/// Whether the group of a piece goes on.
fn goes_on(got: Got<'_>) -> bool
    ensures { result ≡ goes_on (plain_answer got.entry) }
{
    match got {
        Got::More => true,
        Got::Pdu(_, _) | Got::Dropped(_) => false,
    }
}

/// Adds what a piece gives that goes that way, and whether it leaves a group unfinished. The answer
/// is whether its own group goes on.
fn push_joined(
    text: &mut Text,
    channels: &mut Channels,
    joiner: &mut Joiner,
    direction: Direction,
    boundary: Boundary,
    octets: &[u8],
) -> Result<bool, NoMemory>
    ensures { IfOk result (λ goes_on. (past : List Piece) (known : Learnt) → joiner.old.limit ≡ pdu_limit → HoldsOpen past joiner.old → Keeps known channels.old →
        LaneShown past known direction (record { boundary = boundary; octets = octets.now }) text.old.items text.new.items joiner.new channels.new goes_on) }
{
    let joined = joiner.take(boundary, octets);
    let on = goes_on(joined.got);
    push_unfinished(text, joined.unfinished)?;
    push_got(text, channels, direction, joined.got)?;
    Ok(on)
}

/// What a piece gives by itself: none where a group is open, and where it begins a PDU that is cut.
fn take_alone<'a>(lane: &Option<Joiner>, boundary: Boundary, piece: &'a [u8]) -> Option<Got<'a>>
    ensures { IsAlone lane.now boundary piece.now result }
{
    if lane.is_some() {
        return None;
    }
    match boundary {
        Boundary::First | Boundary::FirstFromController => take_start(piece),
        Boundary::Continuing => Some(Got::Dropped(DropReason::StrayContinuation)),
    }
}

/// What a start gives: none where it begins a PDU that is cut.
fn take_start<'a>(piece: &'a [u8]) -> Option<Got<'a>>
    ensures { IsWholeStart piece.now result }
{
    if piece.len() < HEADER_LENGTH {
        return Some(Got::Dropped(DropReason::ShortStart));
    }
    let length = HEADER_LENGTH + usize::from(LittleEndian::read_u16(piece));
    if length < piece.len() {
        return Some(Got::Dropped(DropReason::Overrun));
    }
    if length > piece.len() {
        return None;
    }
    Some(Got::Pdu(LittleEndian::read_u16(&piece[2..]), piece))
}

/// Adds what a piece gives that goes that way. A joiner is there while a group is open, so room is taken where a PDU
/// is cut: it is taken from its place, and put there again while the group goes on.
pub(crate) fn push_on_lane(
    alloc: Global,
    text: &mut Text,
    spare: &mut Vec<Joiner>,
    lane: &mut Option<Joiner>,
    channels: &mut Channels,
    direction: Direction,
    boundary: Boundary,
    octets: &[u8],
) -> Result<(), NoMemory>
    ensures { OnOk result ((past : List Piece) (known : Learnt) → IsJoinerOf past lane.old → Keeps known channels.old → AllByRecursion IsSpare spare.old.items →
        LaneKept past known direction (record { boundary = boundary; octets = octets.now }) text.old.items text.new.items lane.new channels.new
        × AllByRecursion IsSpare spare.new.items × MakesFew spare.old.items spare.new.items lane.old lane.new) }
{
    if let Some(got) = take_alone(lane, boundary, octets) {
        push_got(text, channels, direction, got)?;
        return Ok(());
    }
    let mut joiner = take_joiner(alloc, lane.take(), spare)?;
    let goes_on = push_joined(text, channels, &mut joiner, direction, boundary, octets)?;
    *lane = keep_joiner(spare, joiner, goes_on)?;
    Ok(())
}

/// The number of the handle and the boundary of a piece, where its packet's word has them and it is
/// no broadcast.
pub(crate) fn link_of(word: u16) -> Option<(usize, Boundary)>
    ensures value { result ≡ link_of word }
    ensures range { IfSome result (λ link. link.0 < 0x0F00) }
{
    match acl_word(word) {
        Ok(head) if head.broadcast == 0 => Some((head.handle.get() as usize, head.boundary)),
        _ => None,
    }
}

/// Adds what a piece of a link gives.
fn push_on_link(
    alloc: Global,
    text: &mut Text,
    spare: &mut Vec<Joiner>,
    link: &mut Link,
    boundary: Boundary,
    octets: &[u8],
) -> Result<(), NoMemory>
    ensures { OnOk result ((past : List Piece) → IsLink past link.old → AllByRecursion IsSpare spare.old.items →
        (text.new.items ≡ text.old.items ++ joined_text past (record { boundary = boundary; octets = octets.now }))
        × IsLink (past ++ record { boundary = boundary; octets = octets.now } ∷ []) link.new × AllByRecursion IsSpare spare.new.items) }
{
    let direction = turned(link.direction, boundary);
    push_on_lane(
        alloc,
        text,
        spare,
        &mut link.joiner,
        &mut link.channels,
        direction,
        boundary,
        octets,
    )?;
    link.direction = direction;
    Ok(())
}

/// Adds what a piece gives in the place of its link, which is new where there was none. A link stays where it is, since it is large.
fn push_in_place(
    alloc: Global,
    text: &mut Text,
    spare: &mut Vec<Joiner>,
    place: &mut Option<Link>,
    boundary: Boundary,
    octets: &[u8],
) -> Result<(), NoMemory>
    ensures { OnOk result ((past : List Piece) → IsLinkOf past place.old → AllByRecursion IsSpare spare.old.items →
        (text.new.items ≡ text.old.items ++ joined_text past (record { boundary = boundary; octets = octets.now }))
        × IsLinkOf (past ++ record { boundary = boundary; octets = octets.now } ∷ []) place.new × AllByRecursion IsSpare spare.new.items) }
{
    match place {
        Some(link) => push_on_link(alloc, text, spare, link, boundary, octets)?,
        None => {
            let mut link = Link::new(alloc);
            push_on_link(alloc, text, spare, &mut link, boundary, octets)?;
            *place = Some(link);
        }
    }
    Ok(())
}

/// Adds what stands under the line of an ACL packet.
pub(crate) fn push_piece(
    alloc: Global,
    text: &mut Text,
    links: &mut Links,
    word: u16,
    octets: &[u8],
) -> Result<(), NoMemory>
    ensures { OnOk result ((past : List Packet) → Knows past links.old →
        (text.new.items ≡ text.old.items ++ under past (Acl word octets.now)) × Knows (past ++ Acl word octets.now ∷ []) links.new) }
{
    let Some((at, boundary)) = link_of(word) else {
        push_text(text, "  drop BadWord\n")?;
        return Ok(());
    };
    make_place(&mut links.places, at)?;
    let Some(place) = links.places.get_mut(at) else {
        return Ok(());
    };
    push_in_place(alloc, text, &mut links.spare, place, boundary, octets)?;
    Ok(())
}
