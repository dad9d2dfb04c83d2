//! The check word of L2CAP, 128 octets at a time where they are many, and else eight.

ghost use Rattle.std.specs.Prelude.{◌≡◌, ◌++◌, length};
ghost use Rattle.check_words.specs.Division.{added, remainder, zeros};
ghost use Rattle.check_words.specs.CheckWords.{low_bits, bits_of, bits_of_words, l2cap_generator, l2cap_check};

use crate::behind::check_word_behind;
use crate::fold::fold;
use crate::table::check_word_of;

/// So many octets take less time folded. It changes no answer.
const WORTH_FOLDING: usize = 256;

/// The check word of L2CAP over octets (Core 5.1, Volume 3 Part A, 3.3.5): the generator is
/// D^16 + D^15 + D^2 + 1, each octet goes in from its lowest bit on, and the lowest bit of the
/// answer is the first on the air. Many octets are folded into few first.
pub fn fcs16(octets: &[u8]) -> u16
    ensures { low_bits 16 result ≡ l2cap_check octets.now }
{
    if octets.len() < WORTH_FOLDING {
        return with_eights(0, octets);
    }
    let blocks = octets.len() / 128;
    let mut words = [0; 16];
    for block in 0..blocks {
        fold(&mut words, &octets[128 * block..128 * block + 128]);
    }
    with_eights(check_word_of_words(words), &octets[128 * blocks..])
}

/// The check word of sixteen words, each of eight octets.
fn check_word_of_words(words: [u64; 16]) -> u16
    ensures { low_bits 16 result ≡ remainder l2cap_generator (bits_of_words words ++ zeros 16) }
{
    let mut next = 0;
    for place in 0..16 {
        next = with_eight(next, &words[place].to_le_bytes());
    }
    next
}

/// The check word with octets more behind those that `word` is of, eight at a time.
fn with_eights(word: u16, octets: &[u8]) -> u16
    ensures { low_bits 16 result ≡ remainder l2cap_generator (added (low_bits 16 word) (bits_of octets.now ++ zeros 16)) }
{
    let eights = octets.len() / 8;
    let mut next = word;
    for eight in 0..eights {
        next = with_eight(next, &octets[8 * eight..8 * eight + 8]);
    }
    with_octets(next, &octets[8 * eights..])
}

/// The check word with eight octets more behind those that `word` is of. The word is added to the
/// first two, and then each octet goes in by itself, with zeros in the place of those behind it. The
/// two that wait for the word come last, so that the others are looked up meanwhile.
fn with_eight(word: u16, octets: &[u8]) -> u16
    requires { length octets.now ≡ 8 }
    ensures { low_bits 16 result ≡ remainder l2cap_generator (added (low_bits 16 word) (bits_of octets.now ++ zeros 16)) }
{
    let first = (word % 256) as u8 ^ octets[0];
    let second = (word / 256) as u8 ^ octets[1];
    check_word_of(octets[7])
        ^ check_word_behind(0, octets[6])
        ^ check_word_behind(1, octets[5])
        ^ check_word_behind(2, octets[4])
        ^ check_word_behind(3, octets[3])
        ^ check_word_behind(4, octets[2])
        ^ check_word_behind(5, second)
        ^ check_word_behind(6, first)
}

/// The check word with octets more behind those that `word` is of.
fn with_octets(word: u16, octets: &[u8]) -> u16
    ensures { low_bits 16 result ≡ remainder l2cap_generator (added (low_bits 16 word) (bits_of octets.now ++ zeros 16)) }
{
    let mut next = word;
    for octet in octets {
        next = with_octet(next, *octet);
    }
    next
}

/// The check word with an octet more behind those that `word` is of.
fn with_octet(word: u16, octet: u8) -> u16
    ensures { low_bits 16 result ≡ remainder l2cap_generator (added (low_bits 16 word) (low_bits 8 octet ++ zeros 16)) }
{
    let front = (word % 256) as u8 ^ octet;
    word / 256 ^ check_word_of(front)
}
