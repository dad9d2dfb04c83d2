//! Octets folded into sixteen words that leave the same check word.
//!
//! In the arithmetic of bits a square of a sum is the sum of the squares. So the generator, squared
//! six times, is D^1024 + D^960 + D^128 + 1, which the generator divides: 64 bits at the front
//! leave what they leave where they stand 1, 14 and 16 words of 64 bits further behind. Each word
//! is so taken out by three sums, and needs no look-up.

ghost use Rattle.std.specs.Prelude.{◌≡◌, ◌++◌, length};
ghost use Rattle.check_words.specs.Division.{remainder, zeros};
ghost use Rattle.check_words.specs.CheckWords.{low_bits, bits_of, bits_of_words, l2cap_generator};

/// Makes of the words sixteen that leave what they left with 128 octets more behind them. Each of
/// the old words, `a` to `p` with what has come to them, goes to the three places behind it.
pub(crate) fn fold(words: &mut [u64; 16], octets: &[u8])
    requires { length octets.now ≡ 128 }
    ensures { remainder l2cap_generator (bits_of_words words.new ++ zeros 16) ≡ remainder l2cap_generator ((bits_of_words words.old ++ bits_of octets.now) ++ zeros 16) }
{
    let a = words[0];
    let b = words[1] ^ a;
    let c = words[2] ^ b;
    let d = words[3] ^ c;
    let e = words[4] ^ d;
    let f = words[5] ^ e;
    let g = words[6] ^ f;
    let h = words[7] ^ g;
    let i = words[8] ^ h;
    let j = words[9] ^ i;
    let k = words[10] ^ j;
    let l = words[11] ^ k;
    let m = words[12] ^ l;
    let n = words[13] ^ m;
    let o = words[14] ^ a ^ n;
    let p = words[15] ^ b ^ o;
    *words = [
        word_of(&octets[0..8]) ^ a ^ c ^ p,
        word_of(&octets[8..16]) ^ b ^ d,
        word_of(&octets[16..24]) ^ c ^ e,
        word_of(&octets[24..32]) ^ d ^ f,
        word_of(&octets[32..40]) ^ e ^ g,
        word_of(&octets[40..48]) ^ f ^ h,
        word_of(&octets[48..56]) ^ g ^ i,
        word_of(&octets[56..64]) ^ h ^ j,
        word_of(&octets[64..72]) ^ i ^ k,
        word_of(&octets[72..80]) ^ j ^ l,
        word_of(&octets[80..88]) ^ k ^ m,
        word_of(&octets[88..96]) ^ l ^ n,
        word_of(&octets[96..104]) ^ m ^ o,
        word_of(&octets[104..112]) ^ n ^ p,
        word_of(&octets[112..120]) ^ o,
        word_of(&octets[120..128]) ^ p,
    ];
}

/// The word of eight octets, with its lowest bits from the first of them.
fn word_of(octets: &[u8]) -> u64
    requires { length octets.now ≡ 8 }
    ensures { low_bits 64 result ≡ bits_of octets.now }
{
    u64::from_le_bytes([
        octets[0], octets[1], octets[2], octets[3], octets[4], octets[5], octets[6], octets[7],
    ])
}
