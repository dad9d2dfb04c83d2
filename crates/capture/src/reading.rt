//! An entry from its octets.

ghost use Rattle.std.specs.Prelude.{◌≡◌, ◌<◌, ◌^◌, ◌++◌, List, ℕ, length, IfSome, IfNone, MatchResult, Err};
ghost use Rattle.byteorder.specs.Endian.{big_bytes};
ghost use Rattle.h4_framing.specs.Packets.{Packet, packet, spelling, IsPacket};
ghost use Rattle.capture.specs.Entries.{moved_tag};
ghost use Rattle.capture.specs.EntryReading.{IsRecord, IsFound, IsFront, plain_front, record_octets};

use crate::entry::Entry;
use crate::entry_refusal::EntryRefusal;
use crate::flow::Flow;
use bt_base::{Cursor, read_be16};
use byteorder::{BigEndian, ByteOrder};
use h4_framing::{Leading, Unit, first};
use push_terms::Side;
use script_words::{outcome_of, word_of};

/// The packet that is the whole payload.
fn unit_in(payload: &[u8]) -> Option<Unit<'_>>
    ensures found { IfSome result (λ unit. IsPacket 65535 (packet unit) × (spelling (packet unit) ≡ payload.now)) }
    ensures none { IfNone result ((p : Packet) → IsPacket 65535 p → spelling p ≡ payload.now → ⊥) }
{
    match first(payload, u16::MAX) {
        Leading::Whole(unit, length) => {
            if length < payload.len() {
                return None;
            }
            Some(unit)
        }
        Leading::Partial => None,
        Leading::Refused(..) => None,
    }
}

/// A packet that moved.
fn moved<'a>(side: Side, flow: Flow, payload: &'a [u8]) -> Option<Entry<'a>>
    requires { length payload.now < 2 ^ 16 }
    ensures { IsFound (moved_tag side flow) payload.now result }
{
    let unit = unit_in(payload)?;
    Some(Entry::Moved { side, flow, unit })
}

/// The number that eight octets are, the highest octet first.
fn read_be64(octets: &[u8]) -> u64
    requires { length octets.now ≡ 8 }
    ensures { big_bytes 8 result ≡ octets.now }
{
    BigEndian::read_u64(octets)
}

/// A word that did something.
fn acted<'a>(payload: &[u8]) -> Option<Entry<'a>>
    ensures { IsFound 0x05 payload.now result }
{
    if payload.len() < 8 {
        return None;
    }
    let (number, text) = payload.split_at(8);
    let ordinal = read_be64(number);
    if ordinal == 0 {
        return None;
    }
    let word = word_of(text)?;
    Some(Entry::Acted { ordinal, word })
}

/// The beginning of a push.
fn begun<'a>(payload: &[u8]) -> Option<Entry<'a>>
    ensures { IsFound 0x06 payload.now result }
{
    if payload.len() != 2 {
        return None;
    }
    Some(Entry::Begun(read_be16(payload)))
}

/// The end of a push.
fn ended<'a>(payload: &[u8]) -> Option<Entry<'a>>
    ensures { IsFound 0x07 payload.now result }
{
    if payload.len() < 2 {
        return None;
    }
    let (push, text) = payload.split_at(2);
    let outcome = outcome_of(text)?;
    Some(Entry::Ended(read_be16(push), outcome))
}

/// The entry with that tag and payload.
fn entry_with<'a>(tag: u8, payload: &'a [u8]) -> Option<Entry<'a>>
    requires { IsRecord tag payload.now }
    ensures { IsFound tag payload.now result }
{
    match tag {
        0x01 => moved(Side::A, Flow::Out, payload),
        0x02 => moved(Side::A, Flow::Into, payload),
        0x03 => moved(Side::B, Flow::Out, payload),
        0x04 => moved(Side::B, Flow::Into, payload),
        0x05 => acted(payload),
        0x06 => begun(payload),
        _ => ended(payload),
    }
}

/// The tag and the payload of the record at the front.
fn record_at<'a>(octets: &'a [u8]) -> Result<(u8, &'a [u8]), EntryRefusal>
    ensures { MatchResult result
        (λ found. (rest : List ℕ) × IsRecord found.0 found.1.now × (octets.now ≡ record_octets found.0 found.1.now ++ rest))
        (λ refusal. IsFront octets.now (Err refusal)) }
{
    let mut left = Cursor::new(octets);
    let Some(tag) = left.u8() else {
        return Err(EntryRefusal::Truncated);
    };
    if tag < 0x01 || tag > 0x07 {
        return Err(EntryRefusal::BadTag);
    }
    let Some(length) = left.be16() else {
        return Err(EntryRefusal::Truncated);
    };
    let Some(payload) = left.take(usize::from(length)) else {
        return Err(EntryRefusal::Truncated);
    };
    Ok((tag, payload))
}

/// The entry at the front, and how many octets it has.
///
/// `BadTag` is answered where the first octet is no tag; else `Truncated` where the octets end within
/// the record, and where there are none; else `BadRecord` where the payload is not one of its tag: it
/// is not exactly one packet under the tags of packets, or no number from 1 on with a word behind it,
/// or no two octets, or no two octets with an outcome behind them.
pub fn entry_of<'a>(octets: &'a [u8]) -> Result<(Entry<'a>, usize), EntryRefusal>
    ensures { IsFront octets.now (plain_front result) }
{
    let (tag, payload) = match record_at(octets) {
        Ok(found) => found,
        Err(refusal) => return Err(refusal),
    };
    match entry_with(tag, payload) {
        Some(entry) => Ok((entry, 3 + payload.len())),
        None => Err(EntryRefusal::BadRecord),
    }
}
