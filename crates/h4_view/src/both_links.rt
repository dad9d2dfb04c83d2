//! What is kept of each link where it is known which way each packet goes.

ghost use Rattle.std.specs.Prelude.{◌≡◌, ◌++◌, ◌∷◌, List, Option, [], None, Some, codes, IfOk, OnOk};
ghost use Rattle.std.specs.List.{AllByRecursion};
ghost use Rattle.h4_framing.specs.Packets.{Acl, Event as EventPacket, packet};
ghost use Rattle.h4_view.specs.Details.{IsSpare};
ghost use Rattle.h4_view.specs.Lines.{packet_text};
ghost use Rattle.h4_view.specs.Both.{Sent, SentPiece, both_text, under_by, under_sent, IsBoth, IsBothOf, KnowsBoth, without_link};

use crate::details::{closed_by, push_bad_command, push_bad_event};
use crate::joined::{link_of, push_on_lane};
use crate::line::{Text, push_packet, push_text};
use crate::links::{FIRST_PLACES, make_place};
use acl_fragments::Joiner;
use bt_base::NoMemory;
use h4_framing::Unit;
use hci_packets::Boundary;
use seen_channels::{Channels, Direction};
use std::alloc::Global;

/// What is kept of a link.
#[derive(Drop)]
pub(crate) struct BothLink {
    /// What holds the group of pieces that go out and is open, where one is.
    out: Option<Joiner>,
    /// The same of those that come in.
    into: Option<Joiner>,
    channels: Channels,
}

/// What is kept of all links: a place for each handle up to the greatest that had one. There are no more joiners than groups were
/// ever open at once.
#[derive(Drop)]
pub(crate) struct BothLinks {
    places: Vec<Option<BothLink>>,
    /// Joiners that hold nothing.
    spare: Vec<Joiner>,
}

impl BothLink {
    fn new(alloc: Global) -> BothLink
        ensures { IsBoth [] result }
    {
        BothLink {
            out: None,
            into: None,
            channels: Channels::new(alloc),
        }
    }
}

impl BothLinks {
    /// Nothing is kept of any handle yet.
    pub(crate) fn new(alloc: Global) -> Result<BothLinks, NoMemory>
        ensures { IfOk result (λ links. KnowsBoth [] links) }
    {
        Ok(BothLinks {
            places: Vec::with_capacity(alloc, FIRST_PLACES)?,
            spare: Vec::new(alloc),
        })
    }
}

/// Adds what a piece of a link gives.
fn push_on_both(
    alloc: Global,
    text: &mut Text,
    spare: &mut Vec<Joiner>,
    link: &mut BothLink,
    direction: Direction,
    boundary: Boundary,
    octets: &[u8],
) -> Result<(), NoMemory>
    ensures { OnOk result ((past : List SentPiece) → IsBoth past link.old → AllByRecursion IsSpare spare.old.items →
        (text.new.items ≡ text.old.items ++ both_text past direction (record { boundary = boundary; octets = octets.now }))
        × IsBoth (past ++ record { direction = direction; piece = record { boundary = boundary; octets = octets.now } } ∷ []) link.new × AllByRecursion IsSpare spare.new.items) }
{
    match direction {
        Direction::Out => push_on_lane(
            alloc,
            text,
            spare,
            &mut link.out,
            &mut link.channels,
            Direction::Out,
            boundary,
            octets,
        )?,
        Direction::In => push_on_lane(
            alloc,
            text,
            spare,
            &mut link.into,
            &mut link.channels,
            Direction::In,
            boundary,
            octets,
        )?,
    }
    Ok(())
}

/// Adds what a piece gives in the place of its link, which is new where there was none. A link stays where it is, since it is large.
fn push_in_both(
    alloc: Global,
    text: &mut Text,
    spare: &mut Vec<Joiner>,
    place: &mut Option<BothLink>,
    direction: Direction,
    boundary: Boundary,
    octets: &[u8],
) -> Result<(), NoMemory>
    ensures { OnOk result ((past : List SentPiece) → IsBothOf past place.old → AllByRecursion IsSpare spare.old.items →
        (text.new.items ≡ text.old.items ++ both_text past direction (record { boundary = boundary; octets = octets.now }))
        × IsBothOf (past ++ record { direction = direction; piece = record { boundary = boundary; octets = octets.now } } ∷ []) place.new × AllByRecursion IsSpare spare.new.items) }
{
    match place {
        Some(link) => push_on_both(alloc, text, spare, link, direction, boundary, octets)?,
        None => {
            let mut link = BothLink::new(alloc);
            push_on_both(alloc, text, spare, &mut link, direction, boundary, octets)?;
            *place = Some(link);
        }
    }
    Ok(())
}

/// Adds what stands under the line of an ACL packet.
fn push_both_piece(
    alloc: Global,
    text: &mut Text,
    links: &mut BothLinks,
    direction: Direction,
    word: u16,
    octets: &[u8],
) -> Result<(), NoMemory>
    ensures { OnOk result ((past : List Sent) → KnowsBoth past links.old →
        (text.new.items ≡ text.old.items ++ under_sent past (record { direction = direction; packet = Acl word octets.now })) × KnowsBoth (past ++ record { direction = direction; packet = Acl word octets.now } ∷ []) links.new) }
{
    let Some((at, boundary)) = link_of(word) else {
        push_text(text, "  drop BadWord\n")?;
        return Ok(());
    };
    make_place(&mut links.places, at)?;
    let Some(place) = links.places.get_mut(at) else {
        return Ok(());
    };
    push_in_both(
        alloc,
        text,
        &mut links.spare,
        place,
        direction,
        boundary,
        octets,
    )?;
    Ok(())
}

/// Forgets all that is kept of a handle.
fn forget_both(links: &mut BothLinks, closed: Option<usize>)
    ensures places { links.new.places.items ≡ without_link links.old.places.items closed }
    ensures spare { links.new.spare ≡ links.old.spare }
{
    if let Some(at) = closed
        && let Some(place) = links.places.get_mut(at)
    {
        *place = None;
    }
}

/// Adds what stands under the line of an event, and forgets the link that it tells the end of.
fn push_both_event(
    text: &mut Text,
    links: &mut BothLinks,
    direction: Direction,
    code: u8,
    params: &[u8],
) -> Result<(), NoMemory>
    ensures { OnOk result ((past : List Sent) → KnowsBoth past links.old →
        (text.new.items ≡ text.old.items ++ under_sent past (record { direction = direction; packet = EventPacket code params.now })) × KnowsBoth (past ++ record { direction = direction; packet = EventPacket code params.now } ∷ []) links.new) }
{
    let closed = closed_by(code, params);
    forget_both(links, closed);
    push_bad_event(text, code, params)?;
    Ok(())
}

/// Adds what stands under the line of a packet that goes that way.
pub(crate) fn push_both_details(
    alloc: Global,
    text: &mut Text,
    links: &mut BothLinks,
    direction: Direction,
    unit: &Unit<'_>,
) -> Result<(), NoMemory>
    ensures { OnOk result ((past : List Sent) → KnowsBoth past links.old →
        (text.new.items ≡ text.old.items ++ under_sent past (record { direction = direction; packet = packet unit.now })) × KnowsBoth (past ++ record { direction = direction; packet = packet unit.now } ∷ []) links.new) }
{
    match *unit {
        Unit::Command { opcode, params } => push_bad_command(text, opcode, params)?,
        Unit::Acl { word, octets } => {
            push_both_piece(alloc, text, links, direction, word, octets)?
        }
        Unit::Sync { .. } => {}
        Unit::Event { code, params } => push_both_event(text, links, direction, code, params)?,
    }
    Ok(())
}

/// Adds what a packet that goes that way says, and what stands under it.
pub(crate) fn push_both_lines(
    alloc: Global,
    text: &mut Text,
    links: &mut BothLinks,
    direction: Direction,
    unit: &Unit<'_>,
) -> Result<(), NoMemory>
    ensures { OnOk result ((past : List Sent) → KnowsBoth past links.old →
        (text.new.items ≡ text.old.items ++ ((packet_text (packet unit.now) ++ codes "\n") ++ under_by past direction (packet unit.now)))
        × KnowsBoth (past ++ record { direction = direction; packet = packet unit.now } ∷ []) links.new) }
{
    push_packet(text, unit)?;
    push_text(text, "\n")?;
    push_both_details(alloc, text, links, direction, unit)?;
    Ok(())
}
