//! The header of a data element: its type and the size index (Core 5.1, Volume 3 Part B, 3.2, 3.3).

ghost use Rattle.std.specs.Prelude.{◌≡◌, ◌<◌, ◌≤◌, ◌+◌, ◌^◌, length, true, IfSome, IfNone, IfOk};
ghost use Rattle.sdp_elements.specs.Reading.{Gives, content_at};
ghost use Rattle.sdp_elements.specs.Headers.{kind_at, has_index, header_at, length_octets, fixed_len, content_len, HasLength};

use crate::fault::SdpRefusal;
use byteorder::{BigEndian, ByteOrder};

/// The type of an element.
#[derive(Clone, Copy)]
pub enum Kind {
    Nil,
    Unsigned,
    Signed,
    Uuid,
    Text,
    Boolean,
    Sequence,
    Alternative,
    Url,
}

/// The type that the five high bits of a header name.
fn kind_of(number: u8) -> Option<Kind>
    ensures { result ≡ kind_at number }
{
    match number {
        0 => Some(Kind::Nil),
        1 => Some(Kind::Unsigned),
        2 => Some(Kind::Signed),
        3 => Some(Kind::Uuid),
        4 => Some(Kind::Text),
        5 => Some(Kind::Boolean),
        6 => Some(Kind::Sequence),
        7 => Some(Kind::Alternative),
        8 => Some(Kind::Url),
        _ => None,
    }
}

/// Whether elements of this type have this size index.
fn has_index(kind: Kind, index: u8) -> bool
    ensures { result ≡ has_index kind index }
{
    match kind {
        Kind::Nil | Kind::Boolean => index == 0,
        Kind::Unsigned | Kind::Signed => index <= 4,
        Kind::Uuid => index == 1 || index == 2 || index == 4,
        Kind::Text | Kind::Sequence | Kind::Alternative | Kind::Url => 5 <= index,
    }
}

/// The type that a header names. `BadUuidSize` and `BadHeader` are answered for a size that the type
/// does not have, `BadHeader` for a type that is reserved.
pub fn header_of(octet: u8) -> Result<Kind, SdpRefusal>
    ensures { result ≡ header_at octet }
{
    match kind_of(octet / 8) {
        None => Err(SdpRefusal::BadHeader),
        Some(kind) if has_index(kind, octet % 8) => Ok(kind),
        Some(Kind::Uuid) => Err(SdpRefusal::BadUuidSize),
        Some(_) => Err(SdpRefusal::BadHeader),
    }
}

/// How many octets behind the header have the length of the content.
fn length_octets(index: u8) -> usize
    ensures { result ≡ length_octets index }
{
    match index {
        0..=4 => 0,
        5 => 1,
        6 => 2,
        _ => 4,
    }
}

/// The length that a size index below 5 stands for.
fn fixed_len(kind: Kind, index: u8) -> usize
    requires { index < 5 }
    ensures { result ≡ fixed_len kind index }
{
    match kind {
        Kind::Nil => 0,
        _ => match index {
            0 => 1,
            1 => 2,
            2 => 4,
            3 => 8,
            _ => 16,
        },
    }
}

/// The length of the content, where these octets stand behind the header. It is `None` where the
/// octets end within the length.
fn content_len(kind: Kind, index: u8, octets: &[u8]) -> Option<usize>
    ensures some { IfSome result (λ len. (len ≡ content_len kind index octets.now) × (length_octets index ≤ length octets.now) × (len < 2 ^ 32)) }
    ensures none { IfNone result (length octets.now < length_octets index) }
{
    let width = length_octets(index);
    if octets.len() < width {
        return None;
    }
    if index < 5 {
        return Some(fixed_len(kind, index));
    }
    Some(BigEndian::read_uint(octets, width) as usize)
}

/// The content behind a header and its length octets, and how many octets both have; `past` is the
/// refusal where the octets end first.
#[tactic(auto, unfolding(crate::specs::Reading::content_at))]
pub fn content(
    past: SdpRefusal,
    kind: Kind,
    index: u8,
    octets: &[u8],
) -> Result<(&[u8], usize), SdpRefusal>
    requires { has_index kind index ≡ true }
    ensures read { Gives (λ x. x.0.now) (λ x. x.1) octets.now result (content_at past kind index octets.now) }
    ensures len { IfOk result (λ x. HasLength kind (length x.0.now)) }
{
    let width = length_octets(index);
    let Some(len) = content_len(kind, index, octets) else {
        return Err(past);
    };
    let end = width + len;
    if octets.len() < end {
        return Err(past);
    }
    Ok((&octets[width..end], end))
}
