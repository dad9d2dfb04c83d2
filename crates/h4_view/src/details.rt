//! What stands under a packet's line: refused parameters, and what becomes of pieces of PDUs.

ghost use Rattle.std.specs.Prelude.{◌≡◌, ◌++◌, ◌∷◌, [], ◌<◌, List, Some, OnOk};
ghost use Rattle.h4_framing.specs.Packets.{Packet, Event as EventPacket, packet};
ghost use Rattle.hci_packets.specs.Commands.{command_refusal};
ghost use Rattle.hci_packets.specs.Events.{event_refusal};
ghost use Rattle.h4_view.specs.Details.{refusal_name, bad_text, under, ClosesBy, forgotten, Knows};

use crate::joined::push_piece;
use crate::line::{Text, push_reason};
use crate::links::Links;
use bt_base::NoMemory;
use byteorder::{ByteOrder, LittleEndian};
use h4_framing::Unit;
use hci_packets::{HciRefusal, command_of, event_of};
use std::alloc::Global;

/// The code of the event that tells the end of a link.
const DISCONNECTION_COMPLETE: u8 = 0x05;

/// The name of a refusal of parameters.
fn refusal_name(refusal: HciRefusal) -> &'static str
    ensures { result.now ≡ refusal_name refusal }
{
    match refusal {
        HciRefusal::ShortParams => "ShortParams",
        HciRefusal::LongParams => "LongParams",
        HciRefusal::BadHandle => "BadHandle",
        HciRefusal::BadValue => "BadValue",
    }
}

fn push_bad(text: &mut Text, refusal: HciRefusal) -> Result<(), NoMemory>
    ensures { OnOk result (text.new.items ≡ text.old.items ++ bad_text (Some refusal)) }
{
    push_reason(text, "  bad ", refusal_name(refusal))
}

/// The handle whose link these parameters of an event tell the end of.
pub(crate) fn closed_by(code: u8, params: &[u8]) -> Option<usize>
    ensures { ClosesBy code params.now result }
{
    match event_of(code, params) {
        Ok(_) if code == DISCONNECTION_COMPLETE => {
            Some(LittleEndian::read_u16(&params[1..]) as usize)
        }
        _ => None,
    }
}

pub(crate) fn push_bad_event(text: &mut Text, code: u8, params: &[u8]) -> Result<(), NoMemory>
    ensures { OnOk result (text.new.items ≡ text.old.items ++ bad_text (event_refusal code params.now)) }
{
    match event_of(code, params) {
        Ok(_) => Ok(()),
        Err(refusal) => push_bad(text, refusal),
    }
}

pub(crate) fn push_bad_command(text: &mut Text, opcode: u16, params: &[u8]) -> Result<(), NoMemory>
    ensures { OnOk result (text.new.items ≡ text.old.items ++ bad_text (command_refusal opcode params.now)) }
{
    match command_of(opcode, params) {
        Ok(_) => Ok(()),
        Err(refusal) => push_bad(text, refusal),
    }
}

/// Adds what stands under the line of an event, and forgets the link that it tells the end of.
fn push_event(text: &mut Text, links: &mut Links, code: u8, params: &[u8]) -> Result<(), NoMemory>
    ensures { OnOk result ((past : List Packet) → Knows past links.old →
        (text.new.items ≡ text.old.items ++ under past (EventPacket code params.now)) × Knows (past ++ EventPacket code params.now ∷ []) links.new) }
{
    let closed = closed_by(code, params);
    forget(links, closed);
    push_bad_event(text, code, params)?;
    Ok(())
}

/// Forgets all that is kept of a handle.
fn forget(links: &mut Links, closed: Option<usize>)
    ensures places { links.new.places.items ≡ forgotten links.old.places.items closed }
    ensures spare { links.new.spare ≡ links.old.spare }
{
    if let Some(at) = closed
        && let Some(place) = links.places.get_mut(at)
    {
        *place = None;
    }
}

/// Adds what stands under a packet's line.
pub(crate) fn push_details(
    alloc: Global,
    text: &mut Text,
    links: &mut Links,
    unit: &Unit<'_>,
) -> Result<(), NoMemory>
    ensures { OnOk result ((past : List Packet) → Knows past links.old →
        (text.new.items ≡ text.old.items ++ under past (packet unit.now)) × Knows (past ++ packet unit.now ∷ []) links.new) }
{
    match *unit {
        Unit::Command { opcode, params } => push_bad_command(text, opcode, params)?,
        Unit::Acl { word, octets } => push_piece(alloc, text, links, word, octets)?,
        Unit::Sync { .. } => {}
        Unit::Event { code, params } => push_event(text, links, code, params)?,
    }
    Ok(())
}
