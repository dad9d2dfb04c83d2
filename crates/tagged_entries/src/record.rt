//! The record at the front of some octets.

ghost use Rattle.std.specs.Prelude.{◌≡◌, ◌<◌, get_or};
ghost use Rattle.tagged_entries.specs.Records.{IsFirst, least_length};

use bt_base::Cursor;

/// How many octets stand before the payload of a record: its tag and a length of two octets.
const HEAD_LENGTH: usize = 3;

/// What stands at the front of some octets, where an entry of a capture should begin.
#[derive(Clone, Copy, Debug)]
pub enum FirstRecord<'a> {
    /// A record, which has three octets more than its payload.
    Whole {
        /// From 1 to 7.
        tag: u8,
        payload: &'a [u8],
    },
    /// The beginning of a record, that has at least so many octets.
    Cut(usize),
    /// An octet that is no tag.
    BadTag,
}

/// The octet at that place, 0 where there is none.
fn octet_at(octets: &[u8], place: usize) -> usize
    ensures value { result ≡ get_or octets.now place 0 }
    ensures range { result < 256 }
{
    match octets.get(place) {
        Some(octet) => usize::from(*octet),
        None => 0,
    }
}

/// The fewest octets of a record that begins with these: octets of its length that are not there are
/// read as 0.
pub fn least_length(octets: &[u8]) -> usize
    ensures { result ≡ least_length octets.now }
{
    HEAD_LENGTH + 256 * octet_at(octets, 1) + octet_at(octets, 2)
}

/// The record at the front. No payload is judged. Where there are no octets, that is the beginning of
/// a record.
pub fn first_record<'a>(octets: &'a [u8]) -> FirstRecord<'a>
    ensures { IsFirst octets.now result }
{
    let mut left = Cursor::new(octets);
    let Some(tag) = left.u8() else {
        return FirstRecord::Cut(least_length(octets));
    };
    if tag < 0x01 || tag > 0x07 {
        return FirstRecord::BadTag;
    }
    let Some(length) = left.be16() else {
        return FirstRecord::Cut(least_length(octets));
    };
    let Some(payload) = left.take(usize::from(length)) else {
        return FirstRecord::Cut(least_length(octets));
    };
    FirstRecord::Whole { tag, payload }
}
