//! The PDUs of a link.

ghost use Rattle.std.specs.Prelude.{◌≡◌, ◌++◌, ◌∷◌, [], ◌<◌, List, ℕ, IfOk, OnOk, map, option_to_list};
ghost use Rattle.std.specs.Option.{option_map};
ghost use Rattle.h4_framing.specs.Packets.{packet};
ghost use Rattle.acl_fragments.specs.Pieces.{Piece, starts};
ghost use Rattle.acl_fragments.specs.Answers.{answer, open_after};
ghost use Rattle.acl_fragments.specs.Joiners.{HoldsOpen, plain_answer};
ghost use Rattle.capture.specs.Moves.{Move as PlainMove};
ghost use Rattle.capture.specs.PieceHeads.{piece_head};
ghost use Rattle.capture.specs.Pdus.{pdu_limit, piece_of, whole_of, completed_by, completed, pdus};
ghost use Rattle.capture.specs.Lent.{plain_move, plain_link, plain_pdu};
ghost use Rattle.capture.specs.ReadPdus.{plain_pdus, plain_piece, Holds};

use crate::flow::Flow;
use crate::readers::{Link, Move, Pdu};
use acl_fragments::{Got, Joiner};
use bt_base::NoMemory;
use h4_framing::Unit;
use hci_packets::{Boundary, acl_word};
use std::alloc::Global;

/// The longest PDU out of a host, in octets: as long as its length field can say.
const LONGEST_OUT: u32 = 65_539;

/// The longest PDU into a host, in octets.
const LONGEST_INTO: u32 = 32_775;

/// A piece of a PDU, as a packet carries it.
#[derive(Clone, Copy, Debug)]
struct Part<'a> {
    boundary: Boundary,
    octets: &'a [u8],
}

/// What joins the pieces of a link, in each direction.
#[derive(Drop)]
struct Joiners {
    out: Joiner,
    into: Joiner,
}

/// The handle and the boundary of a piece, by its packet's word: none where the packet is no piece.
fn head_of(word: u16) -> Option<(u16, Boundary)>
    ensures { result ≡ piece_head word }
{
    match acl_word(word) {
        Ok(head) if head.broadcast == 0 => Some((head.handle.get(), head.boundary)),
        _ => None,
    }
}

/// The piece that a packet carries on a handle.
fn piece_of<'a>(handle: u16, unit: &Unit<'a>) -> Option<Part<'a>>
    ensures { option_map plain_piece result ≡ piece_of handle (packet unit.now) }
{
    match *unit {
        Unit::Acl { word, octets } => match head_of(word) {
            Some((on, boundary)) if on == handle => Some(Part { boundary, octets }),
            _ => None,
        },
        _ => None,
    }
}

/// Adds the PDU that a joiner gave.
fn push_got(alloc: Global, found: &mut Vec<Pdu>, flow: Flow, got: Got<'_>) -> Result<(), NoMemory>
    ensures { OnOk result (plain_pdus found.new.items ≡ plain_pdus found.old.items ++ whole_of flow (plain_answer got.entry)) }
{
    if let Got::Pdu(_, pdu) = got {
        let octets = Vec::from_slice(alloc, pdu)?;
        found.push(Pdu { flow, octets })?;
    }
    Ok(())
}

/// Adds the PDU that a piece completes.
fn join(
    alloc: Global,
    found: &mut Vec<Pdu>,
    joiner: &mut Joiner,
    flow: Flow,
    part: Part<'_>,
) -> Result<(), NoMemory>
    ensures { OnOk result ((past : List Piece) → joiner.old.limit ≡ pdu_limit flow → HoldsOpen past joiner.old →
        (plain_pdus found.new.items ≡ plain_pdus found.old.items ++ whole_of flow (answer (pdu_limit flow) (open_after (pdu_limit flow) past) (starts part.entry.boundary) part.entry.octets.now))
        × (joiner.new.limit ≡ pdu_limit flow) × HoldsOpen (past ++ plain_piece part.entry ∷ []) joiner.new) }
{
    let joined = joiner.take(part.boundary, part.octets);
    push_got(alloc, found, flow, joined.got)?;
    Ok(())
}

impl Joiners {
    fn new(alloc: Global) -> Result<Joiners, NoMemory>
        ensures { (handle : ℕ) → IfOk result (Holds handle []) }
    {
        Ok(Joiners {
            out: Joiner::new(alloc, LONGEST_OUT)?,
            into: Joiner::new(alloc, LONGEST_INTO)?,
        })
    }

    /// Adds the PDU that a packet completes on its link.
    fn take(
        &mut self,
        alloc: Global,
        found: &mut Vec<Pdu>,
        handle: u16,
        moved: &Move<'_>,
    ) -> Result<(), NoMemory>
        ensures { OnOk result ((past : List PlainMove) → Holds handle past self.old →
            (plain_pdus found.new.items ≡ plain_pdus found.old.items ++ completed handle past (plain_move moved.now))
            × Holds handle (past ++ plain_move moved.now ∷ []) self.new) }
    {
        let Some(part) = piece_of(handle, &moved.unit) else {
            return Ok(());
        };
        match moved.flow {
            Flow::Out => join(alloc, found, &mut self.out, Flow::Out, part)?,
            Flow::Into => join(alloc, found, &mut self.into, Flow::Into, part)?,
        }
        Ok(())
    }
}

/// The PDUs of a link, both ways, in the order in which they were completed
/// (Core 5.1, Volume 2 Part E, 5.4.2).
pub fn pdus(alloc: Global, link: &Link<'_>) -> Result<Vec<Pdu>, NoMemory>
    ensures { IfOk result (λ found. plain_pdus found.items ≡ pdus (plain_link link.now)) }
{
    let mut found = Vec::new(alloc);
    let mut joiners = Joiners::new(alloc)?;
    for moved in &link.moves {
        joiners.take(alloc, &mut found, link.handle, moved)?;
    }
    Ok(found)
}
