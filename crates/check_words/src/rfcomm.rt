//! The check word of RFCOMM, an octet at a time.

ghost use Rattle.std.specs.Prelude.{◌≡◌, ◌++◌};
ghost use Rattle.check_words.specs.Division.{added, remainder, zeros};
ghost use Rattle.check_words.specs.CheckWords.{low_bits, rfcomm_generator, rfcomm_check};

use crate::rfcomm_table::rest_of;

/// The check word of RFCOMM over octets (TS 07.10, 5.2.1.6 and Annex B): the generator is
/// x^8 + x^2 + x + 1, each octet goes in from its lowest bit on, the first eight bits are inverted,
/// and so is the answer, whose lowest bit is the first on the air.
pub fn fcs8(octets: &[u8]) -> u8
    ensures { low_bits 8 result ≡ rfcomm_check octets.now }
{
    let mut rest = ALL_ONES;
    for octet in octets {
        rest = rest_of(rest ^ *octet);
    }
    rest ^ ALL_ONES
}

/// Eight bits that are all 1.
const ALL_ONES: u8 = 0xFF;
