//! Segments of SDUs where they lie.

ghost use Rattle.std.specs.Prelude.{◌≡◌, ◌<◌, ◌^◌};
ghost use Rattle.bt_base.specs.Octets.{IsOctets};
ghost use Rattle.ertm_machine.specs.Pieces.{octets_of};

/// What SAR says of a segment (Core 5.1, Volume 3 Part A, 3.3.2): it is an SDU.
pub(crate) const WHOLE: u8 = 0;

/// It starts an SDU.
pub(crate) const START: u8 = 1;

/// It ends one.
pub(crate) const END: u8 = 2;

/// It continues one.
pub(crate) const CONTINUATION: u8 = 3;

/// A segment of an SDU where it lies: its octets are those of `front` and then those of `back`.
#[derive(Clone, Copy)]
pub(crate) struct Piece<'a> {
    pub(crate) sar: u8,
    /// How many octets the SDU has, in its start, and else 0.
    pub(crate) total: u16,
    pub(crate) front: &'a [u8],
    pub(crate) back: &'a [u8],
}

impl<'a> Piece<'a> {
    /// The segment of these parts.
    pub(crate) fn new(sar: u8, total: u16, front: &'a [u8], back: &'a [u8]) -> Piece<'a>
        ensures sar { result.sar ≡ sar }
        ensures total { result.total ≡ total }
        ensures front { result.front.now ≡ front.now }
        ensures back { result.back.now ≡ back.now }
        ensures fits { result.total < 2 ^ 16 }
        ensures octets { IsOctets (octets_of result) }
    {
        Piece {
            sar,
            total,
            front,
            back,
        }
    }
}
