//! Reading headers from the front of octets.

ghost use Rattle.std.specs.Prelude.{◌≡◌, List, ℕ, ◌++◌, Ok, Err, MatchResult, IfOk, IsOkAnd};
ghost use Rattle.obex_headers.specs.Packets.{PlainHeader, IsHeader, header_octets, plain_value, plain_header};
ghost use Rattle.obex_headers.specs.Reading.{Gives, sized_at, text_at, octets_at, one_at, four_at, value_at, header_at, headers_in};

use crate::fault::ObexRefusal;
use crate::header::{Header, HeaderValue};
use crate::text::is_text;
use byteorder::{BigEndian, ByteOrder};

#[tactic(auto, unfolding(crate::specs::Reading::sized_at))]
fn sized(octets: &[u8]) -> Result<(&[u8], &[u8]), ObexRefusal>
    ensures { Gives (λ x. (x.0.now, x.1.now)) result (sized_at octets.now) }
{
    if octets.len() < 2 {
        return Err(ObexRefusal::BadHeaderLength);
    }
    let length = BigEndian::read_u16(octets) as usize;
    if length < 3 {
        return Err(ObexRefusal::BadHeaderLength);
    }
    if 1 + octets.len() < length {
        return Err(ObexRefusal::BadHeaderLength);
    }
    Ok(octets[2..].split_at(length - 3))
}

#[tactic(auto, unfolding(crate::specs::Reading::text_at))]
fn text(octets: &[u8]) -> Result<(HeaderValue<'_>, &[u8]), ObexRefusal>
    ensures { Gives (λ x. (plain_value x.0, x.1.now)) result (text_at octets.now) }
{
    let (text, rest) = sized(octets)?;
    if !is_text(text) {
        return Err(ObexRefusal::BadText);
    }
    Ok((HeaderValue::Text(text), rest))
}

#[tactic(auto, unfolding(crate::specs::Reading::octets_at))]
fn octets(octets: &[u8]) -> Result<(HeaderValue<'_>, &[u8]), ObexRefusal>
    ensures { Gives (λ x. (plain_value x.0, x.1.now)) result (octets_at octets.now) }
{
    let (content, rest) = sized(octets)?;
    Ok((HeaderValue::Octets(content), rest))
}

#[tactic(auto, unfolding(crate::specs::Reading::one_at))]
fn one(octets: &[u8]) -> Result<(HeaderValue<'_>, &[u8]), ObexRefusal>
    ensures { Gives (λ x. (plain_value x.0, x.1.now)) result (one_at octets.now) }
{
    match octets {
        [] => Err(ObexRefusal::BadHeaderLength),
        [octet, rest @ ..] => Ok((HeaderValue::One(*octet), rest)),
    }
}

#[tactic(auto, unfolding(crate::specs::Reading::four_at))]
fn four(octets: &[u8]) -> Result<(HeaderValue<'_>, &[u8]), ObexRefusal>
    ensures { Gives (λ x. (plain_value x.0, x.1.now)) result (four_at octets.now) }
{
    if octets.len() < 4 {
        return Err(ObexRefusal::BadHeaderLength);
    }
    let number = BigEndian::read_u32(octets);
    Ok((HeaderValue::Four(number), &octets[4..]))
}

#[tactic(auto, unfolding(crate::specs::Reading::value_at))]
fn value(id: u8, behind: &[u8]) -> Result<(HeaderValue<'_>, &[u8]), ObexRefusal>
    ensures { Gives (λ x. (plain_value x.0, x.1.now)) result (value_at id behind.now) }
{
    if id < 0x40 {
        text(behind)
    } else if id < 0x80 {
        octets(behind)
    } else if id < 0xC0 {
        one(behind)
    } else {
        four(behind)
    }
}

#[tactic(auto, unfolding(crate::specs::Reading::header_at))]
fn read_header(octets: &[u8]) -> Result<(Header<'_>, &[u8]), ObexRefusal>
    ensures { Gives (λ x. (plain_header x.0, x.1.now)) result (header_at octets.now) }
{
    match octets {
        [] => Err(ObexRefusal::BadHeaderLength),
        [id, behind @ ..] => {
            let (value, rest) = value(*id, behind)?;
            Ok((Header { id: *id, value }, rest))
        }
    }
}

/// The header at the front, and the octets behind it.
pub fn header(octets: &[u8]) -> Result<(Header<'_>, &[u8]), ObexRefusal>
    ensures read { Gives (λ x. (plain_header x.0, x.1.now)) result (header_at octets.now) }
    ensures found { IfOk result (λ x. IsHeader (plain_header x.0) × (octets.now ≡ header_octets (plain_header x.0) ++ x.1.now)) }
    ensures only { (header : PlainHeader) (rest : List ℕ) → IsHeader header → octets.now ≡ header_octets header ++ rest →
        IsOkAnd result (λ x. (plain_header x.0 ≡ header) × (x.1.now ≡ rest)) }
{
    read_header(octets)
}

/// Judges the headers that the octets are, one after the other to the end.
pub fn judge_headers(octets: &[u8]) -> Result<(), ObexRefusal>
    ensures { MatchResult result
        (λ _. (headers : List PlainHeader) × (headers_in octets.now ≡ Ok headers))
        (λ e. headers_in octets.now ≡ Err e) }
{
    let mut rest = octets;
    while !rest.is_empty() {
        let (_, behind) = header(rest)?;
        rest = behind;
    }
    Ok(())
}
