//! Reading elements from the front of octets.

ghost use Rattle.std.specs.Prelude.{◌≡◌, ℕ, ◌<◌, ◌≤◌, List, ◌++◌, length, take, drop, true, Ok, IfOk, IsOkAnd};
ghost use Rattle.sdp_elements.specs.Headers.{HasLength, has_index};
ghost use Rattle.sdp_elements.specs.Elements.{Tree, element_in, plain, content_of};
ghost use Rattle.sdp_elements.specs.Spelling.{IsSpelledBy, depth, Stands};
ghost use Rattle.sdp_elements.specs.Reading.{Gives, GivesTree, IsWithin, is_holder, behind_header, front_at, tree_at};

use crate::element::{Children, Element};
use crate::fault::SdpRefusal;
use crate::header::{Kind, content, header_of};
use crate::identifier::uuid_in;
use byteorder::{BigEndian, ByteOrder};

/// How many sequences and alternatives may stand in each other.
const LEVELS: u8 = 8;

/// The element of this type that the content is.
fn element_in(kind: Kind, content: &[u8]) -> Element<'_>
    requires { HasLength kind (length content.now) }
    ensures { plain result ≡ element_in kind content.now }
{
    match kind {
        Kind::Nil => Element::Nil,
        Kind::Unsigned => Element::Unsigned(
            content.len() as u8,
            BigEndian::read_uint128(content, content.len()),
        ),
        Kind::Signed => Element::Signed(
            content.len() as u8,
            BigEndian::read_int128(content, content.len()),
        ),
        Kind::Uuid => Element::Uuid(uuid_in(content)),
        Kind::Text => Element::Text(content),
        Kind::Boolean => Element::Boolean(content[0] != 0),
        Kind::Sequence => Element::Sequence(Children { left: content }),
        Kind::Alternative => Element::Alternative(Children { left: content }),
        Kind::Url => Element::Url(content),
    }
}

/// Whether elements of this type hold others.
fn is_holder(kind: Kind) -> bool
    ensures { result ≡ is_holder kind }
{
    matches!(kind, Kind::Sequence | Kind::Alternative)
}

/// The element behind a header of this type, and how many of the octets it has.
#[tactic(auto, unfolding(crate::specs::Reading::behind_header))]
fn behind_header(
    past: SdpRefusal,
    levels: u8,
    kind: Kind,
    index: u8,
    octets: &[u8],
) -> Result<(Element<'_>, usize), SdpRefusal>
    requires { has_index kind index ≡ true }
    ensures read { Gives (λ x. plain x.0) (λ x. x.1) octets.now result (behind_header past levels kind index octets.now) }
    ensures within { IfOk result (λ x. IsWithin levels (plain x.0)) }
{
    if is_holder(kind) && levels == 0 {
        return Err(SdpRefusal::TooDeep);
    }
    let (content, used) = content(past, kind, index, octets)?;
    Ok((element_in(kind, content), used))
}

/// The element at the front, its parts not judged, and how many octets it has. So many `levels` of
/// elements that hold others may begin; `past` is the refusal where the octets end first.
#[tactic(auto, unfolding(crate::specs::Reading::front_at))]
pub fn front(past: SdpRefusal, levels: u8, bytes: &[u8]) -> Result<(Element<'_>, usize), SdpRefusal>
    ensures read { Gives (λ x. plain x.0) (λ x. x.1) bytes.now result (front_at past levels bytes.now) }
    ensures some { IfOk result (λ x. 0 < x.1) }
    ensures within { IfOk result (λ x. IsWithin levels (plain x.0)) }
{
    let [octet, behind @ ..] = bytes else {
        return Err(past);
    };
    let kind = header_of(*octet)?;
    match behind_header(past, levels, kind, octet % 8, behind) {
        Ok((element, used)) => Ok((element, 1 + used)),
        Err(refusal) => Err(refusal),
    }
}

/// The octets of the parts that an element holds.
fn content_of<'a>(element: &Element<'a>) -> &'a [u8]
    ensures { result.now ≡ content_of (plain element.now) }
{
    match element {
        Element::Sequence(children) | Element::Alternative(children) => children.left,
        Element::Nil
        | Element::Unsigned(..)
        | Element::Signed(..)
        | Element::Uuid(_)
        | Element::Text(_)
        | Element::Boolean(_)
        | Element::Url(_) => &[],
    }
}

/// The element at the front with all its parts judged, and how many octets it has. A part is within
/// what holds it, and one level less is left there.
fn judge<'a>(
    past: SdpRefusal,
    levels: u8,
    bytes: &'a [u8],
) -> Result<(Element<'a>, usize), SdpRefusal>
    ensures tree { GivesTree (λ x. plain x.0) (λ x. x.1) levels bytes.now result (tree_at past levels bytes.now) }
    ensures some { IfOk result (λ x. 0 < x.1) }
    ensures front { IfOk result (λ x. front_at past levels bytes.now ≡ Ok (plain x.0, drop x.1 bytes.now)) }
{
    let (element, used) = match front(past, levels, bytes) {
        Ok(found) => found,
        Err(refusal) => return Err(refusal),
    };
    let mut left = content_of(&element);
    while !left.is_empty() {
        match judge(SdpRefusal::LengthMismatch, levels - 1, left) {
            Ok((_, part)) => left = &left[part..],
            Err(refusal) => return Err(refusal),
        }
    }
    Ok((element, used))
}

/// The element at the front, with how many octets it has (Core 5.1, Volume 3 Part B, 3). Its parts
/// are judged too, and `Children` walks them.
///
/// Lengths are read in any form. At most eight sequences or alternatives stand in each other. Parts
/// are judged from the front inwards; at one part the refusals come in this order: `BadHeader` or
/// `BadUuidSize`, `TooDeep`, and then `Short` where the input ends within the outermost element, or
/// `LengthMismatch` where a part passes the end of the element that holds it.
pub fn element_of<'a>(bytes: &'a [u8]) -> Result<(Element<'a>, usize), SdpRefusal>
    // What is read is spelled so, and the parts that are lent are those of the tree.
    ensures found { IfOk result (λ x. (tree : Tree) × IsSpelledBy tree (take x.1 bytes.now) × (depth tree ≤ 8) × Stands (plain x.0) tree) }
    // What is spelled so at the front is read.
    ensures only { (tree : Tree) (front rest : List ℕ) → IsSpelledBy tree front → depth tree ≤ 8 → bytes.now ≡ front ++ rest →
        IsOkAnd result (λ x. Stands (plain x.0) tree × (x.1 ≡ length front)) }
    // Which refusal it is.
    ensures exact { GivesTree (λ x. plain x.0) (λ x. x.1) 8 bytes.now result (tree_at SdpRefusal.Short 8 bytes.now) }
{
    judge(SdpRefusal::Short, LEVELS, bytes)
}
