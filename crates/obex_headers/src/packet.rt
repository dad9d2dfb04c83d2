//! Packets, and which octets are one.

ghost use Rattle.std.specs.Prelude.{◌≡◌, ◌≤◌, ◌+◌, length, slice_index, IfOk, OnOk, IsOkAnd};
ghost use Rattle.obex_headers.specs.Packets.{PlainPacket, Spells, Shows, is_connect, is_setpath, fields_len};
ghost use Rattle.obex_headers.specs.Reading.{Gives, GivesPacket, fields_in, behind_length, front_at, packet_in};

use crate::codes::Code;
use crate::fault::ObexRefusal;
use crate::reading::judge_headers;
use byteorder::{BigEndian, ByteOrder};

/// Where a packet stands: which code has fields in front of its headers depends on it.
#[derive(Clone, Copy, Debug, PartialEq, Eq)]
pub enum Phase {
    /// A request: CONNECT (80) has four octets of fields, SETPATH (85) two.
    Request,
    /// A response to any request but CONNECT: it has no fields.
    Response,
    /// The response to CONNECT: it has four octets of fields, whatever its code.
    ConnectResponse,
}

/// A packet (IrOBEX 1.5, 2.2) whose headers were judged. `extra` has the fields, `headers` the
/// octets of the headers, which `headers_of` walks.
#[derive(Clone, Copy, Debug)]
pub struct Packet<'a> {
    pub code: u8,
    pub extra: &'a [u8],
    pub headers: &'a [u8],
}

fn is_connect(phase: Phase, code: u8) -> bool
    ensures { result ≡ is_connect phase code }
{
    match phase {
        Phase::Request => code == Code::Connect.octet(),
        Phase::Response => false,
        Phase::ConnectResponse => true,
    }
}

fn is_setpath(phase: Phase, code: u8) -> bool
    ensures { result ≡ is_setpath phase code }
{
    match phase {
        Phase::Request => code == Code::SetPath.octet(),
        Phase::Response | Phase::ConnectResponse => false,
    }
}

fn fields_len(phase: Phase, code: u8) -> usize
    ensures { result ≡ fields_len phase code }
{
    if is_connect(phase, code) {
        4
    } else if is_setpath(phase, code) {
        2
    } else {
        0
    }
}

#[tactic(auto, unfolding(crate::specs::Reading::fields_in))]
fn judged_fields(phase: Phase, code: u8, extra: &[u8]) -> Result<&[u8], ObexRefusal>
    requires { length extra.now ≡ fields_len phase code }
    ensures { Gives (λ x. x.now) result (fields_in phase code extra.now) }
{
    if !is_connect(phase, code) {
        return Ok(extra);
    }
    if BigEndian::read_u16(&extra[2..]) < 255 {
        return Err(ObexRefusal::BadLength);
    }
    if extra[0] / 16 != 1 {
        return Err(ObexRefusal::BadVersion);
    }
    Ok(extra)
}

#[tactic(auto, unfolding(crate::specs::Reading::behind_length))]
fn behind_length(phase: Phase, bytes: &[u8]) -> Result<(&[u8], &[u8]), ObexRefusal>
    requires { 3 + fields_len phase (slice_index bytes.now 0) ≤ length bytes.now }
    ensures { Gives (λ x. (x.0.now, x.1.now)) result (behind_length phase bytes.now) }
{
    let (extra, headers) = bytes[3..].split_at(fields_len(phase, bytes[0]));
    Ok((judged_fields(phase, bytes[0], extra)?, headers))
}

#[tactic(auto, unfolding(crate::specs::Reading::front_at))]
fn front(bytes: &[u8], phase: Phase, maximum: u16) -> Result<(&[u8], &[u8]), ObexRefusal>
    ensures parts { Gives (λ x. (x.0.now, x.1.now)) result (front_at phase maximum bytes.now) }
    ensures whole { OnOk result (3 ≤ length bytes.now) }
{
    if bytes.len() < 3 {
        return Err(ObexRefusal::Short);
    }
    if bytes.len() < 3 + fields_len(phase, bytes[0]) {
        return Err(ObexRefusal::Short);
    }
    if (maximum as usize) < bytes.len() {
        return Err(ObexRefusal::AboveMaximum);
    }
    if BigEndian::read_u16(&bytes[1..]) as usize != bytes.len() {
        return Err(ObexRefusal::BadLength);
    }
    behind_length(phase, bytes)
}

#[tactic(auto, unfolding(crate::specs::Reading::packet_in))]
fn judged_packet<'a>(bytes: &'a [u8], phase: Phase, maximum: u16) -> Result<Packet<'a>, ObexRefusal>
    ensures { GivesPacket result (packet_in phase maximum bytes.now) }
{
    let (extra, headers) = front(bytes, phase, maximum)?;
    judge_headers(headers)?;
    Ok(Packet {
        code: bytes[0],
        extra,
        headers,
    })
}

/// The packet that the octets are, its headers judged too (IrOBEX 1.5, 2.2).
///
/// The octets are refused with the first of these that holds: `Short`, `AboveMaximum` for more than
/// `maximum` octets, `BadLength`, `BadVersion`, and then header by header `BadHeaderLength` and
/// `BadText`.
pub fn packet_of<'a>(bytes: &'a [u8], phase: Phase, maximum: u16) -> Result<Packet<'a>, ObexRefusal>
    // What is read is spelled so, every octet of it.
    ensures found { IfOk result (λ p. (packet : PlainPacket) × Spells phase maximum bytes.now packet × Shows p packet) }
    // What is spelled so is read.
    ensures only { (packet : PlainPacket) → Spells phase maximum bytes.now packet → IsOkAnd result (λ p. Shows p packet) }
    // Which refusal it is.
    ensures exact { GivesPacket result (packet_in phase maximum bytes.now) }
{
    judged_packet(bytes, phase, maximum)
}
