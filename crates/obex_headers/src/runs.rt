//! Objects, as runs of PUT packets spell them: a plain and slow reader, which judges the whole run
//! anew at each packet.

ghost use Rattle.std.specs.Prelude.{◌≡◌, ◌++◌, ◌||◌, List, ℕ, length, map, Some, None, nat_lt, ◌==◌, MatchOption, IfOk, OnOk, IsTrue};
ghost use Rattle.std.specs.List.{flat_map, list_any, AllByRecursion};
ghost use Rattle.bt_base.specs.Objects.{Object};
ghost use Rattle.obex_headers.specs.Packets.{PlainHeader, PlainPacket, IsHeader, IsText, units_of, headers_octets, plain_header, Shows};
ghost use Rattle.obex_headers.specs.Runs.{put_in, name_text, body_of, names, bodies, ahead_of_name, joined, is_final, is_long, spelled};
ghost use Rattle.obex_headers.specs.Reader.{plain_headers, octets_of_all, object_seen, objects_seen, IsPut, SaysVerdict, Holds, Goes};

use crate::codes::{Code, is_put};
use crate::header::{Header, HeaderValue};
use crate::identifiers::{BODY, END_OF_BODY, NAME};
use crate::packet::{Packet, Phase, packet_of};
use crate::text::name_units;
use crate::walk::headers_of;
use bt_base::NoMemory;
use std::alloc::Global;

/// An object as packets spell it: its name as UTF-16 units, and its octets.
#[derive(Debug, Drop)]
pub struct SpelledObject {
    pub name: Vec<u16>,
    pub octets: Vec<u8>,
}

const MOST_UNITS: usize = 255;

const MOST_OCTETS: usize = 16_777_215;

/// What a packet does to the run that it goes on.
#[derive(Debug, Drop)]
enum Verdict {
    /// It breaks a rule, or it is final and the run lacks a Name or a body.
    Refused,
    /// The run goes on.
    Open,
    /// The run spells an object.
    Whole(SpelledObject),
}

fn text_of<'a>(header: &Header<'a>) -> Option<&'a [u8]>
    ensures { MatchOption result (name_text (plain_header header.now) ≡ None) (λ text. name_text (plain_header header.now) ≡ Some text.now) }
{
    match header.value {
        HeaderValue::Text(text) if header.id == NAME => Some(text),
        _ => None,
    }
}

fn body<'a>(header: &Header<'a>) -> Option<&'a [u8]>
    ensures { MatchOption result (body_of (plain_header header.now) ≡ None) (λ octets. body_of (plain_header header.now) ≡ Some octets.now) }
{
    match header.value {
        HeaderValue::Octets(octets) if header.id == BODY || header.id == END_OF_BODY => {
            Some(octets)
        }
        _ => None,
    }
}

fn units(alloc: Global, text: &[u8]) -> Result<Vec<u16>, NoMemory>
    requires { IsText text.now }
    ensures { IfOk result (λ units. units.items ≡ units_of text.now) }
{
    let mut units = vec![in alloc; 0u16; text.len()]?;
    let Some(count) = name_units(text, &mut units) else {
        unreachable!()
    };
    units.truncate(count);
    Ok(units)
}

fn names(alloc: Global, headers: &[Header<'_>]) -> Result<Vec<Vec<u16>>, NoMemory>
    requires { AllByRecursion IsHeader (plain_headers headers.now) }
    ensures { IfOk result (λ found. octets_of_all found.items ≡ names (plain_headers headers.now)) }
{
    let mut found = Vec::new(alloc);
    for header in headers {
        if let Some(text) = text_of(header) {
            found.push(units(alloc, text)?)?;
        }
    }
    Ok(found)
}

fn bodies(alloc: Global, headers: &[Header<'_>]) -> Result<Vec<Vec<u8>>, NoMemory>
    ensures { IfOk result (λ found. octets_of_all found.items ≡ bodies (plain_headers headers.now)) }
{
    let mut found = Vec::new(alloc);
    for header in headers {
        if let Some(octets) = body(header) {
            found.push(Vec::from_slice(alloc, octets)?)?;
        }
    }
    Ok(found)
}

fn has_body_ahead(headers: &[Header<'_>]) -> bool
    ensures { result ≡ nat_lt 0 (length (bodies (ahead_of_name (plain_headers headers.now)))) }
{
    for header in headers {
        if text_of(header).is_some() {
            return false;
        }
        if body(header).is_some() {
            return true;
        }
    }
    false
}

fn join<T: Copy>(alloc: Global, parts: &[Vec<T>]) -> Result<Vec<T>, NoMemory>
    ensures { IfOk result (λ whole. whole.items ≡ flat_map (λ part. part.items) parts.now) }
{
    let mut whole = Vec::new(alloc);
    for part in parts {
        whole.extend_from_slice(part)?;
    }
    Ok(whole)
}

fn is_long(names: &[Vec<u16>]) -> bool
    ensures { result ≡ list_any is_long (octets_of_all names.now) }
{
    for name in names {
        if name.len() > MOST_UNITS {
            return true;
        }
    }
    false
}

fn breaks_rules(names: &[Vec<u16>], body_ahead: bool, octets: &[u8]) -> bool
    ensures { result ≡ (nat_lt 1 (length names.now) || list_any is_long (octets_of_all names.now) || body_ahead || nat_lt 16777215 (length octets.now)) }
{
    names.len() > 1 || is_long(names) || body_ahead || octets.len() > MOST_OCTETS
}

fn lacks(names: &[Vec<u16>], bodies: &[Vec<u8>]) -> bool
    ensures { result ≡ ((length names.now == 0) || (length bodies.now == 0)) }
{
    names.is_empty() || bodies.is_empty()
}

/// What the run is, with these headers, whose last packet is final or not.
fn judge(alloc: Global, headers: &[Header<'_>], ends: bool) -> Result<Verdict, NoMemory>
    requires { AllByRecursion IsHeader (plain_headers headers.now) }
    ensures { IfOk result (SaysVerdict ends (plain_headers headers.now)) }
{
    let names = names(alloc, headers)?;
    let bodies = bodies(alloc, headers)?;
    let object = SpelledObject {
        name: join(alloc, &names)?,
        octets: join(alloc, &bodies)?,
    };
    if breaks_rules(&names, has_body_ahead(headers), &object.octets) {
        return Ok(Verdict::Refused);
    }
    if !ends {
        return Ok(Verdict::Open);
    }
    if lacks(&names, &bodies) {
        return Ok(Verdict::Refused);
    }
    Ok(Verdict::Whole(object))
}

/// The PUT that the octets are. There is none where they are another packet, or are refused.
fn put(octets: &[u8]) -> Option<Packet<'_>>
    ensures { IsPut result (put_in octets.now) }
{
    match packet_of(octets, Phase::Request, u16::MAX) {
        Ok(packet) if is_put(packet.code) => Some(packet),
        _ => None,
    }
}

/// Adds the headers of a packet to those of the run.
fn go_on<'a>(packet: &Packet<'a>, run: &mut Vec<Header<'a>>) -> Result<(), NoMemory>
    ensures { OnOk result ((headers : List PlainHeader) → AllByRecursion IsHeader headers → packet.now.headers.now ≡ headers_octets headers →
        plain_headers run.new.items ≡ plain_headers run.old.items ++ headers) }
{
    let mut left = headers_of(packet);
    while let Some(header) = left.next() {
        run.push(header)?;
    }
    Ok(())
}

/// One packet more, behind a run and behind the objects so far.
fn hear<'a>(
    alloc: Global,
    octets: &'a [u8],
    run: &mut Vec<Header<'a>>,
    objects: &mut Vec<SpelledObject>,
) -> Result<(), NoMemory>
    requires { AllByRecursion IsHeader (plain_headers run.old.items) }
    ensures { OnOk result ((past : List PlainPacket) → Holds (plain_headers run.old.items) past →
        Goes (put_in octets.now) (objects_seen objects.old.items) past (plain_headers run.new.items) (objects_seen objects.new.items)) }
{
    let Some(packet) = put(octets) else {
        run.clear();
        return Ok(());
    };
    go_on(&packet, run)?;
    match judge(alloc, run, packet.code == Code::FinalPut.octet())? {
        Verdict::Open => Ok(()),
        Verdict::Refused => {
            run.clear();
            Ok(())
        }
        Verdict::Whole(object) => {
            run.clear();
            objects.push(object)?;
            Ok(())
        }
    }
}

/// The objects that the packets spell, in the order of their last packets.
///
/// A run begins at the first packet, and after a packet that is final, is no PUT, or is refused. A
/// PUT is refused where it is no packet of at most 65,535 octets or where, with the run so far,
/// there is a second Name, a Name above 255 units, a body ahead of the Name, more than 16,777,215
/// octets, or a final packet without a Name or a body. `NoMemory` is answered for want of memory
/// alone.
pub fn objects_in(alloc: Global, packets: &[Vec<u8>]) -> Result<Vec<SpelledObject>, NoMemory>
    ensures { IfOk result (λ objects. objects_seen objects.items ≡ spelled (octets_of_all packets.now)) }
{
    let mut objects = Vec::new(alloc);
    let mut run = Vec::new(alloc);
    for packet in packets {
        hear(alloc, packet, &mut run, &mut objects)?;
    }
    Ok(objects)
}
