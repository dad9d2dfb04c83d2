//! The units of a source, one after the other.

ghost use Rattle.std.specs.Prelude.{◌≡◌, ◌<◌, ◌≤◌, List, ℕ, Option, [], Ok, true, false, IfOk, IfErr, IfSome, length, take, drop};
ghost use Rattle.std.specs.Option.{option_map};
ghost use Rattle.h4_framing.specs.Packets.{Packet};
ghost use Rattle.three_wire.specs.Counts.{AnswersRises};
ghost use Rattle.three_wire.specs.Feeding.{input_limit, pending, HasShape, IsFeeding, TakesNext, ReadsMore, BlamesSource, EndsSo, IsRefusal, IsPortFault, Feeds};

use crate::fault::CarryFault;
use bt_base::{NoMemory, PortFault, Source};
use h4_framing::{Framer, H4Refusal, Taken, write_unit};
use std::alloc::Global;

/// How many octets are read at a time, at most.
const PIECE_LENGTH: usize = 65_536;

/// The greatest number of octets of an ACL packet, with which its payload fits a packet of the line.
const ACL_LIMIT: u16 = 4091;

/// The greatest length of an input, in octets.
const INPUT_LIMIT: usize = 67_108_864;

/// How far a source was read: what its framer holds, the octets of the last piece that are not used
/// yet, from `at` up to `end`, how many octets were read, and room for one unit.
#[derive(Drop)]
pub(crate) struct Feed {
    pub(crate) framer: Framer,
    pub(crate) piece: Vec<u8>,
    pub(crate) at: usize,
    pub(crate) end: usize,
    pub(crate) fed: usize,
    pub(crate) unit: Vec<u8>,
}

/// What the octets that were read have.
#[derive(Clone, Copy)]
pub(crate) enum Found {
    /// A unit of so many octets.
    Unit(usize),
    /// No whole unit.
    Nothing,
    /// No unit can stand there.
    Refused(H4Refusal, u64),
}

/// Reads at most so many octets to the front of the piece.
fn read_piece<S: Source>(source: &mut S, piece: &mut [u8], room: usize) -> Result<usize, CarryFault>
    requires room { room ≤ length piece.old }
    ensures within { IfOk result (λ n. n ≤ room) }
    ensures after { IfOk result (λ n. S.content source.new ≡ option_map (drop n) (S.content source.old)) }
    ensures octets { IfOk result (λ n. IfSome (S.content source.old) (λ left. (n ≤ length left) × (take n piece.new ≡ take n left))) }
    ensures of_port { IfErr result IsPortFault }
    ensures finish { result ≡ Ok 0 → 0 < room → IfSome (S.content source.old) (λ left. left ≡ []) }
    ensures steady { IfOk result (λ _. (S.faults source.new ≡ S.faults source.old) × (S.shortages source.new ≡ S.shortages source.old)) }
    ensures blame { BlamesSource (S.faults source.old) (S.faults source.new) (S.shortages source.old) (S.shortages source.new) result }
    ensures answers { AnswersRises (S.faults source.old) (S.faults source.new) (S.shortages source.old) (S.shortages source.new) CarryFault.ReadFault result }
{
    match source.read(&mut piece[..room]) {
        Ok(n) => Ok(n),
        Err(PortFault::Failed) => Err(CarryFault::ReadFault),
        Err(PortFault::NoMemory) => Err(CarryFault::NoMemory),
    }
}

impl Feed {
    /// A source of which nothing was read.
    pub(crate) fn new(alloc: Global) -> Result<Feed, NoMemory>
        ensures shape { IfOk result HasShape }
        ensures feeding { IfOk result (λ feed. (input : Option (List ℕ)) → IsFeeding input input feed []) }
    {
        Ok(Feed {
            framer: Framer::new(alloc, ACL_LIMIT)?,
            piece: vec![in alloc; 0u8; PIECE_LENGTH]?,
            at: 0,
            end: 0,
            fed: 0,
            unit: vec![in alloc; 0u8; 4096]?,
        })
    }

    /// The next unit of the octets that were read.
    fn take_next(&mut self) -> Found
        requires shape { HasShape self.old }
        ensures shape { HasShape self.new }
        ensures takes { (input left : Option (List ℕ)) → (packets : List Packet) → IsFeeding input left self.old packets → TakesNext input left self.new packets result }
        ensures fed { self.new.fed ≡ self.old.fed }
    {
        match self.framer.take(&self.piece[self.at..self.end]) {
            Taken::Whole(unit, used) => {
                let n = write_unit(&unit, &mut self.unit);
                self.at += used;
                Found::Unit(n)
            }
            Taken::More => {
                self.at = self.end;
                Found::Nothing
            }
            Taken::Refused(refusal, place) => Found::Refused(refusal, place),
        }
    }

    /// Reads the next octets of the source, where all that were read are used. The answer is whether
    /// there were any.
    fn read_more<S: Source>(&mut self, source: &mut S) -> Result<bool, CarryFault>
        requires shape { HasShape self.old }
        requires below { self.old.fed < input_limit }
        ensures shape { HasShape self.new }
        ensures reads { (input : Option (List ℕ)) → (packets : List Packet) → IsFeeding input (S.content source.old) self.old packets → pending self.old ≡ [] → ReadsMore input (S.content source.new) self.old self.new packets result }
        ensures more { result ≡ Ok true → self.old.fed < self.new.fed }
        ensures same { result ≡ Ok false → self.new.fed ≡ self.old.fed }
        ensures of_port { IfErr result IsPortFault }
        ensures steady { IfOk result (λ _. (S.faults source.new ≡ S.faults source.old) × (S.shortages source.new ≡ S.shortages source.old)) }
        ensures blame { BlamesSource (S.faults source.old) (S.faults source.new) (S.shortages source.old) (S.shortages source.new) result }
        ensures answers { AnswersRises (S.faults source.old) (S.faults source.new) (S.shortages source.old) (S.shortages source.new) CarryFault.ReadFault result }
    {
        let room = PIECE_LENGTH.min(INPUT_LIMIT - self.fed);
        match read_piece(source, &mut self.piece, room) {
            Ok(n) => {
                self.at = 0;
                self.end = n;
                self.fed += n;
                Ok(n > 0)
            }
            Err(fault) => Err(fault),
        }
    }

    /// What the end of the source means, below the greatest length.
    fn ending(&self) -> Result<(), CarryFault>
        requires below { self.now.fed < input_limit }
        ensures ends { (input left : Option (List ℕ)) → (packets : List Packet) → IsFeeding input left self.now packets → pending self.now ≡ [] → IfSome left (λ rest. rest ≡ []) → EndsSo input packets result }
        ensures no_port { IfErr result IsRefusal }
    {
        let Err((refusal, place)) = self.framer.end() else {
            return Ok(());
        };
        if place.saturating_add(self.framer.least_length() as u64) > INPUT_LIMIT as u64 {
            return Err(CarryFault::TooLong(INPUT_LIMIT as u64));
        }
        Err(CarryFault::Refused(refusal, place))
    }

    /// Whether the source goes past its greatest length, up to which it was read.
    fn ending_at_limit<S: Source>(&mut self, source: &mut S) -> Result<(), CarryFault>
        requires shape { HasShape self.old }
        requires full { input_limit ≤ self.old.fed }
        ensures ends { (input : Option (List ℕ)) → (packets : List Packet) → IsFeeding input (S.content source.old) self.old packets → pending self.old ≡ [] → EndsSo input packets result }
        ensures finish { IfOk result (λ _. IfSome (S.content source.new) (λ rest. rest ≡ [])) }
        ensures shape { HasShape self.new }
        ensures steady { IfOk result (λ _. (S.faults source.new ≡ S.faults source.old) × (S.shortages source.new ≡ S.shortages source.old)) }
        ensures blame { BlamesSource (S.faults source.old) (S.faults source.new) (S.shortages source.old) (S.shortages source.new) result }
        ensures answers { AnswersRises (S.faults source.old) (S.faults source.new) (S.shortages source.old) (S.shortages source.new) CarryFault.ReadFault result }
    {
        if self.framer.end().is_err() {
            return Err(CarryFault::TooLong(INPUT_LIMIT as u64));
        }
        match source.read(&mut self.piece[..1]) {
            Ok(0) => Ok(()),
            Ok(_) => Err(CarryFault::TooLong(INPUT_LIMIT as u64)),
            Err(PortFault::Failed) => Err(CarryFault::ReadFault),
            Err(PortFault::NoMemory) => Err(CarryFault::NoMemory),
        }
    }

    /// The next unit of the source, which then stands at the front of `unit` with its indicator. The
    /// answer is how many octets it has, or that the source is at its end.
    pub(crate) fn next<S: Source>(&mut self, source: &mut S) -> Result<Option<usize>, CarryFault>
        requires shape { HasShape self.old }
        ensures shape { HasShape self.new }
        ensures feeds { (input : Option (List ℕ)) → (packets : List Packet) → IsFeeding input (S.content source.old) self.old packets → Feeds input (S.content source.new) self.new packets result }
        ensures steady { IfOk result (λ _. (S.faults source.new ≡ S.faults source.old) × (S.shortages source.new ≡ S.shortages source.old)) }
        ensures blame { BlamesSource (S.faults source.old) (S.faults source.new) (S.shortages source.old) (S.shortages source.new) result }
        ensures answers { AnswersRises (S.faults source.old) (S.faults source.new) (S.shortages source.old) (S.shortages source.new) CarryFault.ReadFault result }
    {
        'reading: loop {
            match self.take_next() {
                Found::Unit(n) => return Ok(Some(n)),
                Found::Refused(refusal, place) => {
                    return Err(CarryFault::Refused(refusal, place));
                }
                Found::Nothing => {}
            }
            if self.fed >= INPUT_LIMIT {
                return match self.ending_at_limit(source) {
                    Ok(()) => Ok(None),
                    Err(fault) => Err(fault),
                };
            }
            match self.read_more(source) {
                Ok(true) => {}
                Ok(false) => {
                    return match self.ending() {
                        Ok(()) => Ok(None),
                        Err(fault) => Err(fault),
                    };
                }
                Err(fault) => return Err(fault),
            }
        }
    }
}
