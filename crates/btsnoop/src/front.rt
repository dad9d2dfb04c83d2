//! What stands at the front of some octets of a file.

ghost use Rattle.btsnoop.specs.Fronts.{IsFront};

use crate::fields::{Part, fault_in, record_of, told_length};
use crate::record::Record;
use crate::refusal::SnoopRefusal;

/// What stands at the front of some octets, where the file header or a record should begin.
#[derive(Clone, Copy, Debug)]
pub enum FirstPart<'a> {
    /// The file header, and how many octets it has.
    Header(usize),
    /// A record, and how many octets it has.
    Record(Record<'a>, usize),
    /// The beginning of one, that has at least so many octets.
    Cut(usize),
    /// A field is wrong. The place is counted from the first of the octets.
    Refused(SnoopRefusal, usize),
}

/// What stands at the front of the octets, where the file header should begin, or a record. A field
/// is judged once it is whole.
pub fn first_part<'a>(part: Part, octets: &'a [u8]) -> FirstPart<'a>
    ensures { IsFront part octets.now result }
{
    if let Some((refusal, place)) = fault_in(part, octets) {
        return FirstPart::Refused(refusal, place);
    }
    let length = told_length(part, octets);
    if octets.len() < length {
        return FirstPart::Cut(length);
    }
    match part {
        Part::Header => FirstPart::Header(length),
        Part::Body => FirstPart::Record(record_of(&octets[..length]), length),
    }
}
