//! The piece of a PDU that a packet carries.

ghost use Rattle.std.specs.Prelude.{◌≡◌, option_map};
ghost use Rattle.h4_framing.specs.Packets.{packet};
ghost use Rattle.capture.specs.PieceHeads.{piece_head};
ghost use Rattle.capture.specs.Pdus.{piece_of};
ghost use Rattle.object_lines.specs.Held.{plain_piece};

use h4_framing::Unit;
use hci_packets::{Boundary, acl_word};

/// A piece of a PDU, as a packet carries it.
#[derive(Clone, Copy, Debug)]
pub(crate) struct Piece<'a> {
    pub(crate) boundary: Boundary,
    pub(crate) octets: &'a [u8],
}

/// The handle and the boundary of a piece, by its packet's word: none where the packet is no piece.
fn head_of(word: u16) -> Option<(u16, Boundary)>
    ensures { result ≡ piece_head word }
{
    match acl_word(word) {
        Ok(head) if head.broadcast == 0 => Some((head.handle.get(), head.boundary)),
        _ => None,
    }
}

/// The piece that a packet carries on a handle.
pub(crate) fn piece_of<'a>(handle: u16, unit: &Unit<'a>) -> Option<Piece<'a>>
    ensures { option_map plain_piece result ≡ piece_of handle (packet unit.now) }
{
    match *unit {
        Unit::Acl { word, octets } => match head_of(word) {
            Some((on, boundary)) if on == handle => Some(Piece { boundary, octets }),
            _ => None,
        },
        _ => None,
    }
}
