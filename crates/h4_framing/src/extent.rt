//! How long the packet at the front of some octets is.

ghost use Rattle.std.specs.Prelude.{◌≡◌, ◌≤◌};
ghost use Rattle.h4_framing.specs.Stream.{IsUnfinished, IsLeastLength};
ghost use Rattle.h4_framing.specs.Extents.{extent, acl_extent};

use crate::refusal::H4Refusal;

/// What the octets at the front of a packet tell about its length.
#[derive(Clone, Copy)]
pub(crate) enum Extent {
    /// So many octets must be there to tell.
    AtLeast(usize),
    /// It has so many octets.
    Known(usize),
    /// No packet has that octet at that place.
    Refused(H4Refusal, usize),
}

/// The extent of the packet at the front of `octets`.
#[tactic(auto, unfolding(crate::specs::Extents::extent))]
pub(crate) fn extent_of(octets: &[u8], limit: u16) -> Extent
    ensures { result ≡ extent limit octets.now }
{
    match octets {
        [] => Extent::AtLeast(1),
        [1 | 3, _, _, size, ..] => Extent::Known(4 + *size as usize),
        [2, _, _, low, high, ..] => extent_of_acl(u16::from_le_bytes([*low, *high]), limit),
        [4, _, size, ..] => Extent::Known(3 + *size as usize),
        [1 | 3, ..] => Extent::AtLeast(4),
        [2, ..] => Extent::AtLeast(5),
        [4, ..] => Extent::AtLeast(3),
        [_, ..] => Extent::Refused(H4Refusal::BadIndicator, 0),
    }
}

/// The fewest octets of a packet that begins with these: octets of its length that are not there
/// are read as 0.
pub(crate) fn least_length(octets: &[u8], limit: u16) -> usize
    requires limit { 255 ≤ limit }
    requires unfinished { IsUnfinished limit octets.now }
    ensures { IsLeastLength limit octets.now result }
{
    match extent_of(octets, limit) {
        Extent::Known(length) => length,
        Extent::AtLeast(length) => match octets {
            // An event has the shortest head of all packets.
            [] => 3,
            // The high octet of an ACL length is not there.
            [2, _, _, low] => 5 + *low as usize,
            _ => length,
        },
        Extent::Refused(_, _) => unreachable!(),
    }
}

/// The extent of an ACL packet whose length field has that number.
fn extent_of_acl(size: u16, limit: u16) -> Extent
    ensures { result ≡ acl_extent limit size }
{
    if size > limit {
        Extent::Refused(H4Refusal::AclTooLong, 4)
    } else {
        Extent::Known(5 + size as usize)
    }
}
