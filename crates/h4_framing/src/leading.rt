//! The packet at the front of some octets.

ghost use Rattle.std.specs.Prelude.{◌≡◌, ◌≤◌, length};
ghost use Rattle.h4_framing.specs.Packets.{packet, spelling, HasNumber};
ghost use Rattle.h4_framing.specs.Extents.{extent};
ghost use Rattle.h4_framing.specs.declared.extent.Extent.TheVariants.{Known};
ghost use Rattle.h4_framing.specs.Leading.{IsLeading};

use crate::extent::{Extent, extent_of};
use crate::refusal::H4Refusal;
use crate::unit::Unit;

/// What stands at the front of some octets.
#[derive(Clone, Copy, Debug)]
pub enum Leading<'a> {
    /// A whole packet, and how many octets it has.
    Whole(Unit<'a>, usize),
    /// The beginning of a packet.
    Partial,
    /// No packet, and the place of the first octet that no packet can have there.
    Refused(H4Refusal, usize),
}

/// The packet at the front of `bytes`, whose octets may go on behind it. An ACL packet of more
/// than `limit` octets is refused at the high octet of its length. The limit is at least 255, so
/// the low octet alone puts no length above it.
pub fn first<'a>(bytes: &'a [u8], limit: u16) -> Leading<'a>
    requires { 255 ≤ limit }
    ensures { IsLeading limit bytes.now result }
{
    match extent_of(bytes, limit) {
        Extent::Known(length) if length <= bytes.len() => {
            Leading::Whole(unit_of(&bytes[..length]), length)
        }
        Extent::Known(_) => Leading::Partial,
        Extent::AtLeast(_) => Leading::Partial,
        Extent::Refused(refusal, place) => Leading::Refused(refusal, place),
    }
}

/// The packet that the octets spell.
#[tactic(auto, unfolding(crate::specs::Extents::extent))]
pub(crate) fn unit_of(octets: &[u8]) -> Unit<'_>
    requires { extent 65535 octets.now ≡ Known (length octets.now) }
    ensures number { HasNumber (packet result) }
    ensures spelling { spelling (packet result) ≡ octets.now }
{
    match octets {
        [1, low, high, _, params @ ..] => Unit::Command {
            opcode: u16::from_le_bytes([*low, *high]),
            params,
        },
        [2, low, high, _, _, octets @ ..] => Unit::Acl {
            word: u16::from_le_bytes([*low, *high]),
            octets,
        },
        [3, low, high, _, octets @ ..] => Unit::Sync {
            word: u16::from_le_bytes([*low, *high]),
            octets,
        },
        [4, code, _, params @ ..] => Unit::Event {
            code: *code,
            params,
        },
        _ => unreachable!(),
    }
}
