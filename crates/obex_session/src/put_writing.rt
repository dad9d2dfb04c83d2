//! PUT packets, as a client writes them (IrOBEX 1.5, 3.4.3).

ghost use Rattle.std.specs.Prelude.{◌≡◌, ◌+◌, ◌<◌, ◌≤◌, ◌++◌, ◌∷◌, [], List, IfOk, OnOk, OnErr, IfSome, ℕ, ◌^◌, ◌-◌, min, nat_le, None, Some, length, take, drop, if◌then◌else◌};
ghost use Rattle.bt_base.specs.Counts.{HasCause};
ghost use Rattle.bt_base.specs.Objects.{HasAt, octets_of};
ghost use Rattle.obex_headers.specs.Packets.{Text, Four, IsText, PlainHeader, packet_octets, header_octets, headers_octets, grown};
ghost use Rattle.obex_session.specs.Responses.{single_header};
ghost use Rattle.obex_session.specs.PutPackets.{Reaches, WritesPut, ahead_of, ahead_with, head_with, place_of, room_in, units_in};

use crate::naming::name_text;
use crate::responding::add_single;
use bt_base::{PortFault, Shelf};
use obex_headers::identifiers::{BODY, END_OF_BODY, LENGTH, NAME};
use obex_headers::{Code, Header, HeaderValue, add_header, add_placed, start_packet};

/// Starts a PUT, without headers.
pub(crate) fn start_put(is_final: bool, into: &mut [u8]) -> usize
    requires room { 3 ≤ length into.old }
    ensures len { result ≡ 3 }
    ensures written { into.new ≡ packet_octets (record { code = if is_final then 0x82 else 0x02; extra = []; headers = [] }) ++ drop result into.old }
{
    let code = if is_final { Code::FinalPut } else { Code::Put };
    start_packet(code.octet(), &[], into)
}

fn add_name(text: &[u8], at: usize, into: &mut [u8]) -> usize
    requires sound { IsText text.now }
    requires short { length text.now ≤ 202 }
    requires started { 3 ≤ at }
    requires room { at + 3 + length text.now ≤ length into.old }
    requires fits { at < 32768 }
    ensures len { result ≡ at + (3 + length text.now) }
    ensures written { into.new ≡ grown (take at into.old) (header_octets (record { id = 0x01; value = Text text.now })) ++ drop result into.old }
{
    let name = Header {
        id: NAME,
        value: HeaderValue::Text(text),
    };
    add_header(&name, at, into)
}

fn add_length(size: u32, at: usize, into: &mut [u8]) -> usize
    requires started { 3 ≤ at }
    requires room { at + 5 ≤ length into.old }
    requires fits { at < 32768 }
    ensures len { result ≡ at + 5 }
    ensures written { into.new ≡ grown (take at into.old) (header_octets (record { id = 0xC3; value = Four size })) ++ drop result into.old }
{
    let length = Header {
        id: LENGTH,
        value: HeaderValue::Four(size),
    };
    add_header(&length, at, into)
}

/// Adds the header that enables single response mode, where it is wanted.
fn add_wish(wanted: bool, at: usize, into: &mut [u8]) -> usize
    requires started { 3 ≤ at }
    requires room { at + 2 ≤ length into.old }
    requires fits { at < 32768 }
    ensures len { result ≡ at + (if wanted then 2 else 0) }
    ensures written { into.new ≡ (if wanted then grown (take at into.old) (header_octets single_header) ++ drop result into.old else into.old) }
{
    if wanted { add_single(at, into) } else { at }
}

/// Starts the first PUT of an object: Name, Length, and single response mode where it is wanted.
pub(crate) fn start_object(
    is_final: bool,
    wanted: bool,
    text: &[u8],
    size: u32,
    into: &mut [u8],
) -> usize
    requires sound { IsText text.now }
    requires short { length text.now ≤ 202 }
    requires room { 13 + length text.now ≤ length into.old }
    ensures len { result ≡ 11 + length text.now + (if wanted then 2 else 0) }
    ensures written { into.new ≡ packet_octets (record { code = if is_final then 0x82 else 0x02; extra = []; headers = head_with wanted text.now size }) ++ drop result into.old }
{
    let bare = start_put(is_final, into);
    let named = add_name(text, bare, into);
    let sized = add_length(size, named, into);
    add_wish(wanted, sized, into)
}

/// Reads a part of an object to where a body's octets stand. Nothing is asked for no octets.
pub(crate) fn read_part<F: Shelf>(
    name: &str,
    place: u32,
    n: usize,
    at: usize,
    shelf: &mut F,
    into: &mut [u8],
) -> Result<(), PortFault>
    requires room { at + n ≤ length into.old }
    ensures front { take at into.new ≡ take at into.old }
    ensures rest { drop (at + n) into.new ≡ drop (at + n) into.old }
    ensures told { OnOk result (0 < n → IfSome (F.content shelf.old) (λ objects. HasAt place (take n (drop at into.new)) (octets_of name.now objects))) }
    ensures content { F.content shelf.new ≡ F.content shelf.old }
    ensures cause { HasCause (F.faults shelf.old) (F.faults shelf.new) (F.shortages shelf.old) (F.shortages shelf.new) result }
    ensures absence { (0 < n → Reaches (place + n) name.now (F.content shelf.old)) → F.absences shelf.new ≡ F.absences shelf.old }
    ensures asked { OnErr result (0 < n) }
{
    if n == 0 {
        return Ok(());
    }
    shelf.fill(name, place, &mut into[at..at + n])
}

fn body_id(is_final: bool) -> u8
    ensures { result ≡ (if is_final then 0x49 else 0x48) }
{
    if is_final { END_OF_BODY } else { BODY }
}

/// Writes the body of a PUT behind what stands in the first `at` octets.
pub(crate) fn write_body<F: Shelf>(
    is_final: bool,
    name: &str,
    place: u32,
    n: usize,
    at: usize,
    shelf: &mut F,
    into: &mut [u8],
) -> Result<usize, PortFault>
    requires started { 3 ≤ at }
    requires room { at + 3 + n ≤ length into.old }
    requires fits { at + 3 + n < 2 ^ 16 }
    ensures written { IfOk result (λ count. (room : List ℕ) (ahead : List PlainHeader) →
        into.old ≡ packet_octets (record { code = if is_final then 0x82 else 0x02; extra = []; headers = ahead }) ++ drop at room → at ≡ 3 + length (headers_octets ahead) →
        WritesPut is_final ahead n name.now place (F.content shelf.old) room into.new count) }
    ensures content { F.content shelf.new ≡ F.content shelf.old }
    ensures cause { HasCause (F.faults shelf.old) (F.faults shelf.new) (F.shortages shelf.old) (F.shortages shelf.new) result }
    ensures absence { (0 < n → Reaches (place + n) name.now (F.content shelf.old)) → F.absences shelf.new ≡ F.absences shelf.old }
    ensures asked { OnErr result (0 < n) }
{
    read_part(name, place, n, at + 3, shelf, into)?;
    Ok(add_placed(body_id(is_final), n, at, into))
}

/// The part of an object that a packet has.
#[derive(Clone, Copy, Debug)]
pub(crate) struct Part {
    /// How many octets stand ahead of it.
    pub(crate) place: u32,
    /// How many octets it has.
    pub(crate) len: usize,
    /// Whether it is the last.
    pub(crate) is_final: bool,
}

impl Part {
    /// How many octets were put by then, unless they are all.
    pub(crate) fn next_place(self) -> Option<u32>
        requires { self.place + self.len < 2 ^ 32 }
        ensures { result ≡ (if self.is_final then None else Some (self.place + self.len)) }
    {
        if self.is_final {
            None
        } else {
            Some(self.place + self.len as u32)
        }
    }
}

/// The next part of an object of `size` octets, in a packet that has room for so many.
fn next_part(put: Option<u32>, size: u32, room: usize) -> Part
    ensures { result ≡ record { place = place_of put; len = min (size - place_of put) room; is_final = nat_le (size - place_of put) room } }
{
    let place = put.unwrap_or(0);
    let left = size.saturating_sub(place) as usize;
    Part {
        place,
        len: left.min(room),
        is_final: left <= room,
    }
}

/// How many octets stand ahead of the body's header.
fn front_len(wanted: bool, put: Option<u32>, text: &[u8], size: u32) -> usize
    requires { length text.now ≤ 202 }
    ensures { result ≡ 3 + length (headers_octets (ahead_with wanted put text.now size)) }
{
    let _size = size;
    match (put, wanted) {
        (None, true) => 13 + text.len(),
        (None, false) => 11 + text.len(),
        (Some(_), _) => 3,
    }
}

/// Writes what stands ahead of the body's header.
fn start(
    wanted: bool,
    put: Option<u32>,
    is_final: bool,
    text: &[u8],
    size: u32,
    into: &mut [u8],
) -> usize
    requires sound { IsText text.now }
    requires short { length text.now ≤ 202 }
    requires room { 13 + length text.now ≤ length into.old }
    ensures len { result ≡ 3 + length (headers_octets (ahead_with wanted put text.now size)) }
    ensures written { into.new ≡ packet_octets (record { code = if is_final then 0x82 else 0x02; extra = []; headers = ahead_with wanted put text.now size }) ++ drop result into.old }
{
    match put {
        None => start_object(is_final, wanted, text, size, into),
        Some(_) => start_put(is_final, into),
    }
}

/// Writes the next PUT of an object, in at most `limit` octets, and answers how many octets it has
/// and what part of the object.
pub(crate) fn write_put<F: Shelf>(
    wanted: bool,
    put: Option<u32>,
    name: &str,
    size: u32,
    limit: u16,
    shelf: &mut F,
    into: &mut [u8],
) -> Result<(usize, Part), PortFault>
    requires few { length (units_in name.now) ≤ 100 }
    requires least { 255 ≤ limit }
    requires room { limit ≤ length into.old }
    ensures part { IfOk result (λ done. done.1 ≡ record { place = place_of put; len = min (size - place_of put) (room_in limit (ahead_of wanted put name.now size)); is_final = nat_le (size - place_of put) (room_in limit (ahead_of wanted put name.now size)) }) }
    ensures written { IfOk result (λ done. WritesPut done.1.is_final (ahead_of wanted put name.now size) done.1.len name.now done.1.place (F.content shelf.old) into.old into.new done.0) }
    ensures content { F.content shelf.new ≡ F.content shelf.old }
    ensures cause { HasCause (F.faults shelf.old) (F.faults shelf.new) (F.shortages shelf.old) (F.shortages shelf.new) result }
    ensures absence { Reaches size name.now (F.content shelf.old) → F.absences shelf.new ≡ F.absences shelf.old }
    ensures asked { OnErr result (0 < min (size - place_of put) (room_in limit (ahead_of wanted put name.now size))) }
{
    let text = name_text(name);
    let front = front_len(wanted, put, &text, size);
    let part = next_part(put, size, limit as usize - (3 + front));
    let at = start(wanted, put, part.is_final, &text, size, into);
    let count = write_body(part.is_final, name, part.place, part.len, at, shelf, into)?;
    Ok((count, part))
}
