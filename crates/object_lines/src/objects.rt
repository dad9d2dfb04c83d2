//! The objects that the receiving host of a capture heard.

ghost use Rattle.std.specs.Prelude.{◌≡◌, ◌++◌, ◌∷◌, [], List, Some, map, IfOk, IfSome, OnOk, option_map};
ghost use Rattle.capture.specs.Entries.{Entry, IsCapture};
ghost use Rattle.capture.specs.Lent.{plain_entry, plain_move};
ghost use Rattle.capture.specs.Moves.{move_of};
ghost use Rattle.link_talk.specs.declared.party.Party.{Party as PlainParty};
ghost use Rattle.link_talk.specs.Captures.{objects_heard};
ghost use Rattle.push_terms.specs.declared.word.Side.TheVariants as sides;
ghost use Rattle.object_lines.specs.Lines.{viewed, object_lines};
ghost use Rattle.object_lines.specs.Tallies.{told, plain_told};
ghost use Rattle.object_lines.specs.Held.{JoinsPdus};
ghost use Rattle.object_lines.specs.Heard.{IsHeard};

use crate::line::push_objects;
use crate::links::HeldLinks;
use crate::tally::Told;
use bt_base::NoMemory;
use capture::readers::Move;
use capture::{Entry as Happening, entry_of};
use link_talk::Party;
use push_terms::Side;
use rfcomm_frames::Role;
use std::alloc::Global;

/// What host b is taken for: it may state any length, answers the multiplexer, and serves Object Push on
/// the server channel 9 (RFCOMM 1.2, 5.4).
fn viewed() -> Party
    ensures { result ≡ viewed }
{
    Party {
        frame: u16::MAX,
        packet: u16::MAX,
        role: Role::Responder,
        dlci: 18,
    }
}

/// Adds objects behind others.
fn append(objects: &mut Vec<Told>, mut more: Vec<Told>) -> Result<(), NoMemory>
    ensures { OnOk result (map plain_told objects.new.items ≡ map plain_told objects.old.items ++ map plain_told more.items) }
{
    objects.append(&mut more)?;
    Ok(())
}

/// What is told of the objects of a host, as the entries of its capture come: those of the links that ended, and its links.
#[derive(Drop)]
struct Hearer {
    links: HeldLinks,
    found: Vec<Told>,
}

/// The packet that moves at host b with an entry.
fn move_of<'a>(entry: &Happening<'a>) -> Option<Move<'a>>
    ensures { option_map plain_move result ≡ move_of sides.B (plain_entry entry.now) }
{
    match *entry {
        Happening::Moved {
            side: Side::B,
            flow,
            unit,
        } => Some(Move { flow, unit }),
        _ => None,
    }
}

impl Hearer {
    fn new(alloc: Global) -> Hearer
        ensures heard { (party : PlainParty) → IsHeard party [] result }
        ensures joins { IfSome result.links.up JoinsPdus }
    {
        Hearer {
            links: HeldLinks::new(),
            found: Vec::new(alloc),
        }
    }

    /// One packet of the host more.
    fn hear_move(&mut self, alloc: Global, party: &Party, moved: &Move<'_>) -> Result<(), NoMemory>
        requires { IfSome self.old.links.up JoinsPdus }
        ensures heard { OnOk result ((past : List Entry) (more : Entry) → Some (plain_move moved.now) ≡ move_of sides.B more → IsHeard party.now past self.old → IsHeard party.now (past ++ more ∷ []) self.new) }
        ensures joins { OnOk result (IfSome self.new.links.up JoinsPdus) }
    {
        let ended = self.links.hear(alloc, party, moved)?;
        match ended {
            None => Ok(()),
            Some(link) => {
                append(&mut self.found, link.pass.into_found())?;
                Ok(())
            }
        }
    }

    /// One entry more.
    #[tactic(auto, using(crate::proofs::Heard::heard_same))]
    fn hear(&mut self, alloc: Global, party: &Party, entry: &Happening<'_>) -> Result<(), NoMemory>
        requires { IfSome self.old.links.up JoinsPdus }
        ensures heard { OnOk result ((past : List Entry) → IsHeard party.now past self.old → IsHeard party.now (past ++ plain_entry entry.now ∷ []) self.new) }
        ensures joins { OnOk result (IfSome self.new.links.up JoinsPdus) }
    {
        match move_of(entry) {
            None => Ok(()),
            Some(moved) => self.hear_move(alloc, party, &moved),
        }
    }

    /// The end: the objects of the link that is up are told of too.
    fn finish(&mut self) -> Result<(), NoMemory>
        ensures { OnOk result ((party : PlainParty) (past : List Entry) → IsHeard party past self.old → map plain_told self.new.found.items ≡ map told (objects_heard party sides.B past)) }
    {
        let up = self.links.up.take();
        match up {
            None => Ok(()),
            Some(link) => {
                append(&mut self.found, link.pass.into_found())?;
                Ok(())
            }
        }
    }
}

/// What is told of the objects that the packets spell which host b heard in a capture, in the order of their last
/// packets. Of octets that are no capture nothing is told.
fn objects_heard(alloc: Global, party: &Party, octets: &[u8]) -> Result<Vec<Told>, NoMemory>
    ensures { IfOk result (λ found. (entries : List Entry) → IsCapture octets.now entries → map plain_told found.items ≡ map told (objects_heard party.now sides.B entries)) }
{
    let mut hearer = Hearer::new(alloc);
    let mut rest = octets;
    while !rest.is_empty() {
        let (entry, used) = match entry_of(rest) {
            Ok(found) => found,
            Err(_refusal) => return Ok(Vec::new(alloc)),
        };
        hearer.hear(alloc, party, &entry)?;
        rest = &rest[used..];
    }
    hearer.finish()?;
    Ok(hearer.found)
}

/// The lines of the objects that host b heard in a capture, none where the octets are no capture.
/// `NoMemory` is answered for want of memory alone.
pub(crate) fn object_lines(alloc: Global, octets: &[u8]) -> Result<Vec<u8>, NoMemory>
    ensures { (entries : List Entry) → IsCapture octets.now entries → IfOk result (λ text. text.items ≡ object_lines entries) }
{
    let objects = objects_heard(alloc, &viewed(), octets)?;
    let mut text = Vec::new(alloc);
    push_objects(&mut text, &objects)?;
    Ok(text)
}
