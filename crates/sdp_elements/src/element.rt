//! Data elements as they lie in octets.

use uuid::Uuid;

/// The parts of a sequence or an alternative that are left to walk, lent from the octets.
#[derive(Clone, Copy, Debug)]
pub struct Children<'a> {
    pub(crate) left: &'a [u8],
}

/// A data element (Core 5.1, Volume 3 Part B, 3.2). Numbers have their width in octets and their
/// value.
#[derive(Clone, Copy)]
pub enum Element<'a> {
    Nil,
    Unsigned(u8, u128),
    Signed(u8, i128),
    Uuid(Uuid),
    Text(&'a [u8]),
    Boolean(bool),
    Sequence(Children<'a>),
    Alternative(Children<'a>),
    Url(&'a [u8]),
}
