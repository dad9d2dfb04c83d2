//! The parts of an element, one by one.

ghost use Rattle.std.specs.Prelude.{◌≡◌, ◌≤◌, ℕ, List, ◌++◌, length, take, IfOk, IsOkAnd, IfSome, IfNone, IsSomeAnd};
ghost use Rattle.sdp_elements.specs.Elements.{PlainElement, Tree, Trees, Then, left_of, plain};
ghost use Rattle.sdp_elements.specs.Spelling.{IsForm, AreSpelledBy, Stands};

use crate::element::{Children, Element};
use crate::fault::SdpRefusal;
use crate::reading::front;

/// The part at the front, and how many octets it has.
fn part(bytes: &[u8]) -> Result<(Element<'_>, usize), SdpRefusal>
    ensures within { IfOk result (λ x. x.1 ≤ length bytes.now) }
    ensures found { IfOk result (λ x. IsForm (plain x.0) (take x.1 bytes.now)) }
    ensures only { (element : PlainElement) (front rest : List ℕ) → IsForm element front → bytes.now ≡ front ++ rest →
        IsOkAnd result (λ x. (plain x.0 ≡ element) × (x.1 ≡ length front)) }
{
    front(SdpRefusal::LengthMismatch, 1, bytes)
}

impl<'a> Children<'a> {
    /// The next part, lent from the octets. It is `None` at the end, and where the octets that are
    /// left begin with no part, which parts that were judged never do; the octets stay then, so that
    /// each later call is `None` too.
    pub fn next(&mut self) -> Option<Element<'a>>
        // What is given stood in front.
        ensures found { IfSome result (λ x. (front : List ℕ) × IsForm (plain x) front × (left_of self.old ≡ front ++ left_of self.new)) }
        // A part that stands in front is given.
        ensures only { (element : PlainElement) (front rest : List ℕ) → IsForm element front → left_of self.old ≡ front ++ rest →
            IsSomeAnd result (λ x. plain x ≡ element) × (left_of self.new ≡ rest) }
        // Of parts that were judged it is the first, and the others are left.
        ensures parts { (first : Tree) (others : Trees) → AreSpelledBy (Then first others) (left_of self.old) →
            IsSomeAnd result (λ x. Stands (plain x) first) × AreSpelledBy others (left_of self.new) }
        ensures none { IfNone result (self.new ≡ self.old) }
    {
        match part(self.left) {
            Ok((found, used)) => {
                self.left = &self.left[used..];
                Some(found)
            }
            Err(_) => None,
        }
    }
}
