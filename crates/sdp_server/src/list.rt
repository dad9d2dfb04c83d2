//! The attribute identifiers that a request lists.

ghost use Rattle.std.specs.Prelude.{◌≡◌, List, option_map, is_some, false};
ghost use Rattle.std.specs.Option.{option_map_or};
ghost use Rattle.sdp_elements.specs.Answers.{Range, is_within, is_listed};
ghost use Rattle.sdp_elements.specs.Elements.{Trees, left_of, plain};
ghost use Rattle.sdp_elements.specs.Optional.{GivesAs};
ghost use Rattle.sdp_elements.specs.Sequences.{collected};
ghost use Rattle.sdp_elements.specs.Spelling.{AreSpelledBy};
ghost use Rattle.sdp_server.specs.Requests.{range_in, range_of, ranges_at};
ghost use Rattle.sdp_server.specs.Ranges.{plain_range};
ghost use Rattle.sdp_server.specs.Lists.{Lists};

use sdp_elements::{Children, Element, sequence_at};

/// Attribute identifiers from low to high, both ends among them.
#[derive(Clone, Copy, Debug)]
struct IdentifierRange {
    low: u16,
    high: u16,
}

fn is_within(identifier: u16, range: IdentifierRange) -> bool
    ensures { result ≡ is_within identifier (plain_range range) }
{
    range.low <= identifier && identifier <= range.high
}

/// The identifiers that a part of a list names: one in two octets, or the first and the last of a
/// range in four.
fn range_of(part: &Element<'_>) -> Option<IdentifierRange>
    ensures { option_map plain_range result ≡ range_in (plain part.now) }
{
    match *part {
        Element::Unsigned(2, number) if number < 65536 => Some(IdentifierRange {
            low: number as u16,
            high: number as u16,
        }),
        Element::Unsigned(4, number) if number / 65536 <= number % 65536 => Some(IdentifierRange {
            low: (number / 65536) as u16,
            high: (number % 65536) as u16,
        }),
        _ => None,
    }
}

/// Whether a part of a list names an identifier.
fn names(part: &Element<'_>, identifier: u16) -> bool
    ensures { result ≡ option_map_or (is_within identifier) (range_in (plain part.now)) false }
{
    match range_of(part) {
        Some(range) => is_within(identifier, range),
        None => false,
    }
}

fn are_ranges(parts: Children<'_>) -> bool
    ensures { (trees : Trees) → AreSpelledBy trees (left_of parts.entry) → result ≡ is_some (collected range_of trees) }
{
    let mut left = parts;
    while let Some(part) = left.next() {
        if range_of(&part).is_none() {
            return false;
        }
    }
    true
}

/// The list of a request, judged. It lies in the request's octets.
#[derive(Clone, Copy, Debug)]
pub struct AttributeList<'a> {
    pub(crate) ranges: Children<'a>,
}

/// The list at the front, and the octets behind it. `None` where no list of identifiers and ranges
/// stands there.
pub(crate) fn list_at(octets: &[u8]) -> Option<(AttributeList<'_>, &[u8])>
    ensures { GivesAs (λ x ranges. Lists x.0 ranges) (λ x. x.1.now) result (ranges_at octets.now) }
{
    let (ranges, rest) = sequence_at(octets)?;
    if !are_ranges(ranges) {
        return None;
    }
    Some((AttributeList { ranges }, rest))
}

/// Whether a list names an identifier.
pub(crate) fn is_listed(list: &AttributeList<'_>, identifier: u16) -> bool
    ensures { (ranges : List Range) → Lists list.now ranges → result ≡ is_listed ranges identifier }
{
    let mut left = list.ranges;
    while let Some(part) = left.next() {
        if names(&part, identifier) {
            return true;
        }
    }
    false
}
