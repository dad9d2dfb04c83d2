//! A packet crosses the line.

ghost use Rattle.std.specs.Prelude.{◌≡◌, ◌≤◌, ◌∷◌, ◌++◌, length, vec_capacity, OnOk, IfOk, IfErr};
ghost use Rattle.bt_base.specs.Octets.{be16};
ghost use Rattle.bt_base.specs.Streams.{gained, GainedFront};
ghost use Rattle.wire_packets.specs.Packets.{Packet, IsPacket};
ghost use Rattle.wire_model.specs.Draws.{draws_from};
ghost use Rattle.wire_model.specs.Line.{line};
ghost use Rattle.wire_model.specs.Trace.{tag_of};
ghost use Rattle.three_wire.specs.Counts.{AnswersRises};
ghost use Rattle.three_wire.specs.Crossing.{IsAtRest, HearsWhole, Blames, IsOfPorts, HasRoom, CrossesSo, Steady, BlamesBoth};

use crate::fault::CarryFault;
use crate::loss::{draws_from, loses};
use crate::wire::{Wire, WireHeard};
use bt_base::{NoMemory, PortFault, Sink};
use draws::Draws;
use std::alloc::Global;
use wire_model::Way;
use wire_packets::{Slip, SlipTaken, packet_of};

/// The line between the ends: its draws, and room for one packet as it stands on the line, for one
/// entry of the trace, and for one unit.
#[derive(Drop)]
pub(crate) struct Medium {
    pub(crate) draws: Option<Draws>,
    pub(crate) line: Vec<u8>,
    pub(crate) entry: Vec<u8>,
    pub(crate) unit: Vec<u8>,
}

impl Medium {
    /// A line that loses packets by the draws of a number, or none.
    pub(crate) fn new(alloc: Global, number: Option<u32>) -> Result<Medium, NoMemory>
        ensures draws { IfOk result (λ medium. medium.draws ≡ draws_from number) }
        ensures room { IfOk result HasRoom }
    {
        Ok(Medium {
            draws: draws_from(number),
            line: vec![in alloc; 0u8; 8200]?,
            entry: Vec::with_capacity(alloc, 8203)?,
            unit: Vec::with_capacity(alloc, 4096)?,
        })
    }
}

/// The tag of an entry of the trace.
fn tag_of(way: Way, lost: bool) -> u8
    ensures { result ≡ tag_of way lost }
{
    match (way, lost) {
        (Way::Forth, false) => 0x08,
        (Way::Forth, true) => 0x09,
        (Way::Back, false) => 0x0A,
        (Way::Back, true) => 0x0B,
    }
}

/// Puts together an entry of the trace.
fn fill_entry(entry: &mut Vec<u8>, tag: u8, octets: &[u8])
    requires short { length octets.now ≤ 8200 }
    requires room { 8203 ≤ vec_capacity entry.old }
    ensures items { entry.new.items ≡ tag ∷ (be16 (length octets.now) ++ octets.now) }
    ensures room { 8203 ≤ vec_capacity entry.new }
{
    let [high, low] = (octets.len() as u16).to_be_bytes();
    entry.clear();
    let _room_was_reserved = entry.extend_from_slice(&[tag, high, low]);
    let _room_was_reserved = entry.extend_from_slice(octets);
}

/// Puts together a unit as it stands on a UART: its type is its indicator.
fn fill_unit(unit: &mut Vec<u8>, kind: u8, octets: &[u8])
    requires short { length octets.now ≤ 4095 }
    requires room { 4096 ≤ vec_capacity unit.old }
    ensures items { unit.new.items ≡ kind ∷ octets.now }
    ensures room { 4096 ≤ vec_capacity unit.new }
{
    unit.clear();
    let _room_was_reserved = unit.push(kind);
    let _room_was_reserved = unit.extend_from_slice(octets);
}

/// Writes to a port.
fn put<K: Sink>(sink: &mut K, octets: &[u8]) -> Result<(), CarryFault>
    ensures ok { OnOk result (K.content sink.new ≡ gained (K.content sink.old) octets.now) }
    ensures front { GainedFront (K.content sink.old) (K.content sink.new) octets.now }
    ensures steady { OnOk result ((K.faults sink.new ≡ K.faults sink.old) × (K.shortages sink.new ≡ K.shortages sink.old)) }
    ensures blame { Blames (K.faults sink.old) (K.faults sink.new) (K.shortages sink.old) (K.shortages sink.new) result }
    ensures answers { AnswersRises (K.faults sink.old) (K.faults sink.new) (K.shortages sink.old) (K.shortages sink.new) CarryFault.WriteFault result }
    ensures of_ports { IfErr result IsOfPorts }
{
    match sink.put(octets) {
        Ok(()) => Ok(()),
        Err(PortFault::Failed) => Err(CarryFault::WriteFault),
        Err(PortFault::NoMemory) => Err(CarryFault::NoMemory),
    }
}

/// An end hears the octets of a packet on the line. The answer is whether a unit was accepted, which
/// then stands in `unit`.
fn hear(to: &mut Wire, slip: &mut Slip, octets: &[u8], unit: &mut Vec<u8>) -> bool
    requires rest { IsAtRest slip.old }
    requires room { 4096 ≤ vec_capacity unit.old }
    ensures whole { (packet : Packet) → IsPacket packet → octets.now ≡ line packet → HearsWhole packet to.old to.new slip.new unit.new.items result }
    ensures room { 4096 ≤ vec_capacity unit.new }
{
    let SlipTaken::Packet(bytes, _) = slip.take(octets) else {
        return false;
    };
    let Ok(packet) = packet_of(bytes) else {
        return false;
    };
    match to.on_packet(&packet) {
        WireHeard::Unit(kind, octets) => {
            fill_unit(unit, kind, octets);
            true
        }
        WireHeard::Reset => false,
        WireHeard::Nothing => false,
    }
}

/// The next packet of an end crosses the line, if it says one: its entry is written to the trace, and
/// where it is not lost the other end hears it. A unit that the second end accepts is written to the
/// sink. The answer is whether a packet went, and whether it was lost.
pub(crate) fn cross<K: Sink, T: Sink>(
    way: Way,
    from: &mut Wire,
    to: &mut Wire,
    slip: &mut Slip,
    medium: &mut Medium,
    sink: &mut K,
    trace: &mut T,
) -> Result<Option<bool>, CarryFault>
    requires rest { IsAtRest slip.old }
    requires room { HasRoom medium.old }
    ensures crossed { CrossesSo way from.old from.new to.old to.new medium.old.draws medium.new.draws (K.content sink.old) (K.content sink.new) (T.content trace.old) (T.content trace.new) result }
    ensures rest { IfOk result (λ _. IsAtRest slip.new) }
    ensures room { HasRoom medium.new }
    ensures steady { IfOk result (λ _. Steady (K.faults sink.old) (K.faults sink.new) (K.shortages sink.old) (K.shortages sink.new) (T.faults trace.old) (T.faults trace.new) (T.shortages trace.old) (T.shortages trace.new)) }
    ensures blame { BlamesBoth (K.faults sink.old) (K.faults sink.new) (K.shortages sink.old) (K.shortages sink.new) (T.faults trace.old) (T.faults trace.new) (T.shortages trace.old) (T.shortages trace.new) result }
    ensures sink_answers { AnswersRises (K.faults sink.old) (K.faults sink.new) (K.shortages sink.old) (K.shortages sink.new) CarryFault.WriteFault result }
    ensures trace_answers { AnswersRises (T.faults trace.old) (T.faults trace.new) (T.shortages trace.old) (T.shortages trace.new) CarryFault.WriteFault result }
{
    let Some(n) = from.next_packet(&mut medium.line) else {
        return Ok(None);
    };
    let lost = loses(&mut medium.draws);
    fill_entry(&mut medium.entry, tag_of(way, lost), &medium.line[..n]);
    match put(trace, &medium.entry) {
        Ok(()) => {}
        Err(fault) => return Err(fault),
    }
    if lost {
        return Ok(Some(true));
    }
    let got = hear(to, slip, &medium.line[..n], &mut medium.unit);
    if got && matches!(way, Way::Forth) {
        match put(sink, &medium.unit) {
            Ok(()) => {}
            Err(fault) => return Err(fault),
        }
    }
    Ok(Some(false))
}
