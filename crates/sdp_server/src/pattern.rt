//! The search pattern of a request.

ghost use Rattle.std.specs.Prelude.{◌≡◌, ℕ, List, false};
ghost use Rattle.std.specs.Option.{option_map_or};
ghost use Rattle.bt_base.specs.declared.settings.Serves.{Serves};
ghost use Rattle.sdp_elements.specs.Elements.{Trees, left_of, plain};
ghost use Rattle.sdp_elements.specs.Optional.{GivesAs};
ghost use Rattle.sdp_elements.specs.Records.{matches, has_identifier, service_record};
ghost use Rattle.sdp_elements.specs.Sequences.{collected};
ghost use Rattle.sdp_elements.specs.Spelling.{AreSpelledBy};
ghost use Rattle.sdp_server.specs.Requests.{uuid_in, is_pattern, pattern_at};
ghost use Rattle.sdp_server.specs.Lists.{Seeks};

use crate::service::has_identifier;
use bt_base::Serves;
use sdp_elements::{Children, Element, sequence_at};
use uuid::Uuid;

/// How many identifiers a pattern may have (Core 5.1, Volume 3 Part B, 4.5.1).
const MOST_IDENTIFIERS: usize = 12;

/// The pattern of a request, judged: one to twelve identifiers. It lies in the request's octets.
#[derive(Clone, Copy, Debug)]
pub struct Pattern<'a> {
    pub(crate) identifiers: Children<'a>,
}

fn uuid_of(part: &Element<'_>) -> Option<Uuid>
    ensures { result ≡ uuid_in (plain part.now) }
{
    match *part {
        Element::Uuid(identifier) => Some(identifier),
        _ => None,
    }
}

/// Whether a part of a pattern is an identifier that the service record has.
fn is_found(part: &Element<'_>, serves: Serves) -> bool
    ensures { result ≡ option_map_or (has_identifier (service_record serves)) (uuid_in (plain part.now)) false }
{
    match uuid_of(part) {
        Some(identifier) => has_identifier(serves, &identifier),
        None => false,
    }
}

fn is_pattern(parts: Children<'_>) -> bool
    ensures { (trees : Trees) → AreSpelledBy trees (left_of parts.entry) → result ≡ is_pattern trees }
{
    let mut left = parts;
    let mut count = 0;
    while let Some(part) = left.next() {
        if uuid_of(&part).is_none() {
            return false;
        }
        if count == MOST_IDENTIFIERS {
            return false;
        }
        count += 1;
    }
    count > 0
}

/// The pattern at the front, and the octets behind it. `None` where no pattern stands there.
pub(crate) fn pattern_at(octets: &[u8]) -> Option<(Pattern<'_>, &[u8])>
    ensures { GivesAs (λ x identifiers. Seeks x.0 identifiers) (λ x. x.1.now) result (pattern_at octets.now) }
{
    let (identifiers, rest) = sequence_at(octets)?;
    if !is_pattern(identifiers) {
        return None;
    }
    Some((Pattern { identifiers }, rest))
}

/// Whether the service record has each identifier of a pattern.
pub(crate) fn matches(pattern: &Pattern<'_>, serves: Serves) -> bool
    ensures { (identifiers : List (List ℕ)) → Seeks pattern.now identifiers → result ≡ matches identifiers (service_record serves) }
{
    let mut left = pattern.identifiers;
    while let Some(part) = left.next() {
        if !is_found(&part, serves) {
            return false;
        }
    }
    true
}
