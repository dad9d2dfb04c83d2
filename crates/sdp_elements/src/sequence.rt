//! Sequences, as most parameters and answers are.

ghost use Rattle.sdp_elements.specs.Elements.{left_of};
ghost use Rattle.sdp_elements.specs.Optional.{GivesAs};
ghost use Rattle.sdp_elements.specs.Sequences.{sequence_at};
ghost use Rattle.sdp_elements.specs.Spelling.{AreSpelledBy};

use crate::element::{Children, Element};
use crate::reading::element_of;

/// The parts of the sequence at the front, all judged, and the octets behind it. `None` where no
/// element stands at the front, or another one.
pub fn sequence_at(octets: &[u8]) -> Option<(Children<'_>, &[u8])>
    ensures { GivesAs (λ x parts. AreSpelledBy parts (left_of x.0)) (λ x. x.1.now) result (sequence_at octets.now) }
{
    match element_of(octets) {
        Ok((Element::Sequence(parts), used)) => Some((parts, &octets[used..])),
        Ok(_) => None,
        Err(_) => None,
    }
}
