//! A capture of two hosts made the btsnoop file of one of them.

ghost use Rattle.std.specs.Prelude.{◌≡◌, ◌≤◌, ◌⊎◌, ◌+◌, ◌<◌, ◌^◌, ◌++◌, [], None, Some, length, IfOk, OnOk, IfSome, IfNone, IsErrOf};
ghost use Rattle.h4_framing.specs.Packets.{Packet, packet, spelling, IsPacket};
ghost use Rattle.capture.specs.Entries.{moved_tag};
ghost use Rattle.item_stream.specs.Running.{IsBlamed, IsAnswered};
ghost use Rattle.btsnoop.specs.Files.{plain_record, record_octets, IsRecord};
ghost use Rattle.capture.specs.EntryReading.{IsRecord as IsTagged};
ghost use Rattle.btsnoop.specs.Converting.{Converts, flow_flag, kind_flag};
ghost use Rattle.btsnoop.specs.Converter.{PacketRead, EntryRead};

use crate::fault::SnoopFault;
use crate::record::Record;
use crate::refusal::SnoopRefusal;
use crate::writing::put_header;
use bt_base::{NoMemory, Sink, Source};
use capture::Flow;
use h4_framing::{Leading, Unit, first};
use item_stream::{Ending, Front, StreamFault, Teller, tell_all};
use push_terms::Side;
use std::alloc::Global;
use tagged_entries::{FirstRecord, first_record};

/// The time of the first record, in microseconds since midnight of the first day of year 0: the first
/// moment of the year 2000.
const FIRST_TIME: u64 = 0x00E0_3AB4_4A67_6000;

/// The greatest length of an input, in octets.
const INPUT_LIMIT: u64 = 67_108_864;

/// A conversion under way: whose packets are written, the time of the next record, and why an entry
/// was refused, where one was.
#[derive(Clone, Copy)]
pub(crate) struct Converter {
    side: Side,
    time: u64,
    refusal: SnoopRefusal,
}

/// Whose packet a tag tells of, and which way it went.
fn moved_by(tag: u8) -> Option<(Side, Flow)>
    requires { tag < 8 }
    ensures some { IfSome result (λ moved. tag ≡ moved_tag moved.0 moved.1) }
    ensures none { IfNone result (tag ≡ 0 ⊎ 5 ≤ tag) }
{
    match tag {
        0x01 => Some((Side::A, Flow::Out)),
        0x02 => Some((Side::A, Flow::Into)),
        0x03 => Some((Side::B, Flow::Out)),
        0x04 => Some((Side::B, Flow::Into)),
        _ => None,
    }
}

/// Bit 0 of the flags of a record.
fn flow_flag(flow: Flow) -> u32
    ensures { result ≡ flow_flag flow }
{
    match flow {
        Flow::Out => 0,
        Flow::Into => 1,
    }
}

/// Bit 1 of the flags of a record, in its place.
fn kind_flag(unit: &Unit<'_>) -> u32
    ensures { result ≡ kind_flag (packet unit.now) }
{
    match unit {
        Unit::Command { .. } | Unit::Event { .. } => 2,
        Unit::Acl { .. } | Unit::Sync { .. } => 0,
    }
}

/// The flags of a packet that is the whole payload.
fn flags_of(flow: Flow, payload: &[u8]) -> Option<u32>
    ensures some { IfSome result (λ flags. (packet : Packet) × IsPacket 65535 packet × (spelling packet ≡ payload.now) × (flags ≡ flow_flag flow + kind_flag packet)) }
    ensures none { IfNone result ((packet : Packet) → IsPacket 65535 packet → spelling packet ≡ payload.now → ⊥) }
{
    match first(payload, u16::MAX) {
        Leading::Whole(unit, length) => {
            if length < payload.len() {
                return None;
            }
            Some(flow_flag(flow) + kind_flag(&unit))
        }
        Leading::Partial => None,
        Leading::Refused(..) => None,
    }
}

/// Adds the octets of a record.
fn push_record(text: &mut Vec<u8>, item: &Record<'_>) -> Result<(), NoMemory>
    requires { IsRecord (plain_record item.now) }
    ensures { OnOk result (text.new.items ≡ text.old.items ++ record_octets (plain_record item.now)) }
{
    text.extend_from_slice(&item.original.to_be_bytes())?;
    text.extend_from_slice(&(item.octets.len() as u32).to_be_bytes())?;
    text.extend_from_slice(&item.flags.to_be_bytes())?;
    text.extend_from_slice(&item.drops.to_be_bytes())?;
    text.extend_from_slice(&item.time.to_be_bytes())?;
    text.extend_from_slice(item.octets)?;
    Ok(())
}

/// Adds the record of a packet of a host, where it is the host whose packets are written. The answer
/// is whether the payload is exactly one packet.
fn read_packet(
    converter: &mut Converter,
    side: Side,
    flow: Flow,
    payload: &[u8],
    text: &mut Vec<u8>,
) -> Result<bool, NoMemory>
    requires { length payload.now < 2 ^ 16 }
    ensures { IfOk result (PacketRead side flow payload.now converter.old converter.new text.old.items text.new.items) }
{
    let Some(flags) = flags_of(flow, payload) else {
        converter.refusal = SnoopRefusal::BadRecord;
        return Ok(false);
    };
    match (side, converter.side) {
        (Side::A, Side::A) | (Side::B, Side::B) => {
            let time = converter.time;
            let item = Record {
                original: payload.len() as u32,
                flags,
                drops: 0,
                time,
                octets: payload,
            };
            push_record(text, &item)?;
            converter.time = time.wrapping_add(1);
            Ok(true)
        }
        _ => Ok(true),
    }
}

/// Adds what is to be given of an entry. The answer is whether it was read.
fn read_entry(
    converter: &mut Converter,
    tag: u8,
    payload: &[u8],
    text: &mut Vec<u8>,
) -> Result<bool, NoMemory>
    requires { IsTagged tag payload.now }
    ensures { IfOk result (EntryRead tag payload.now converter.old converter.new text.old.items text.new.items) }
{
    let Some((side, flow)) = moved_by(tag) else {
        return Ok(true);
    };
    read_packet(converter, side, flow, payload, text)
}

impl Teller for Converter {
    ghost use Rattle.btsnoop.specs.Converter.{HasRead, Finds};

    ghost has_told = { HasRead };

    ghost finds = { Finds };

    fn tell(&mut self, octets: &[u8], text: &mut Vec<u8>) -> Result<Front, NoMemory> {
        if octets.is_empty() {
            return Ok(Front::Nothing);
        }
        match first_record(octets) {
            FirstRecord::Cut(least) => Ok(Front::Cut(least)),
            FirstRecord::BadTag => {
                self.refusal = SnoopRefusal::BadTag;
                Ok(Front::Refused)
            }
            FirstRecord::Whole { tag, payload } => {
                if read_entry(self, tag, payload, text)? {
                    Ok(Front::Item(3 + payload.len()))
                } else {
                    Ok(Front::Refused)
                }
            }
        }
    }
}

/// Reads a capture of two hosts and writes the packets of one of them as a btsnoop file, in their
/// order. Entries that are no packets are passed over, whatever their payload.
///
/// `Refused` comes at the first place where the input is no capture: `BadTag` where the first octet of
/// an entry is no tag, `Truncated` where the input ends within an entry, `BadRecord` where the payload
/// under a tag of packets is not exactly one packet, and `TooLong` where the input goes past
/// 67,108,864 octets, also where it ends before within an entry that would. The records of the entries
/// before are written. `ReadFault` comes where the source failed, once all that was read is written,
/// and `WriteFault` where the sink failed. `NoMemory` comes where memory was wanting, also that of a
/// port.
pub fn convert<S: Source, K: Sink>(
    alloc: Global,
    side: Side,
    source: &mut S,
    sink: &mut K,
) -> Result<(), SnoopFault>
    // What the sink gains is the file of what the source had left. A fault of the source loses nothing.
    ensures converts { IfSome (S.content source.old) (λ input. Converts side input (S.content source.new) (K.content sink.old) (K.content sink.new) result) }
    // The input was read to its end.
    ensures finish { OnOk result (IfSome (S.content source.new) (λ left. left ≡ [])) }
    // Each fault has its cause, and a shortage of memory of a port is answered.
    ensures blame { IsBlamed (S.faults source.old) (S.faults source.new) (K.faults sink.old) (K.faults sink.new) (IsErrOf result SnoopFault.ReadFault) (IsErrOf result SnoopFault.WriteFault) }
    ensures source_short { IsAnswered (S.shortages source.old) (S.shortages source.new) (IsErrOf result SnoopFault.NoMemory) }
    ensures sink_short { IsAnswered (K.shortages sink.old) (K.shortages sink.new) (IsErrOf result SnoopFault.NoMemory) }
{
    let mut header = [0; 16];
    let _sixteen = put_header(&mut header);
    let mut converter = Converter {
        side,
        time: FIRST_TIME,
        refusal: SnoopRefusal::BadTag,
    };
    match tell_all(alloc, &header, &mut converter, source, sink) {
        Ok(Ending::Whole) => Ok(()),
        Ok(Ending::Truncated(place)) => Err(SnoopFault::Refused(SnoopRefusal::Truncated, place)),
        Ok(Ending::TooLong) => Err(SnoopFault::Refused(SnoopRefusal::TooLong, INPUT_LIMIT)),
        Ok(Ending::Refused(place)) => Err(SnoopFault::Refused(converter.refusal, place)),
        Err(StreamFault::ReadFault) => Err(SnoopFault::ReadFault),
        Err(StreamFault::WriteFault) => Err(SnoopFault::WriteFault),
        Err(StreamFault::NoMemory) => Err(SnoopFault::NoMemory),
    }
}
