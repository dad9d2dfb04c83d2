//! Writing elements in their shortest form.

ghost use Rattle.std.specs.Prelude.{◌≡◌, ◌<◌, ◌≤◌, ◌+◌, ◌^◌, ◌++◌, length, take, drop};
ghost use Rattle.std.specs.Int.{w128};
ghost use Rattle.byteorder.specs.Endian.{big_bytes, low_bytes, twos_complement};
ghost use Rattle.sdp_elements.specs.declared.header.Kind.TheVariants as kinds;
ghost use Rattle.sdp_elements.specs.Elements.{plain};
ghost use Rattle.sdp_elements.specs.Spelling.{IsWidth, HasSpelling, type_number, sized_front, sized, numbered, width_index, uuid_octets, element_octets};

use crate::element::Element;
use crate::header::Kind;
use crate::identifier::is_short;
use byteorder::{BigEndian, ByteOrder};

fn type_number(kind: Kind) -> u8
    ensures value { result ≡ type_number kind }
    ensures fits { result < 9 }
{
    match kind {
        Kind::Nil => 0,
        Kind::Unsigned => 1,
        Kind::Signed => 2,
        Kind::Uuid => 3,
        Kind::Text => 4,
        Kind::Boolean => 5,
        Kind::Sequence => 6,
        Kind::Alternative => 7,
        Kind::Url => 8,
    }
}

/// Puts content behind the first `at` octets, and answers where it ends.
pub fn put_behind(at: usize, content: &[u8], into: &mut [u8]) -> usize
    requires { at + length content.now ≤ length into.old }
    ensures end { result ≡ at + length content.now }
    ensures written { into.new ≡ take at into.old ++ (content.now ++ drop result into.old) }
{
    let end = at + content.len();
    into[at..end].copy_from_slice(content);
    end
}

/// A header with the length of the content, in the least number of octets.
fn put_length(kind: Kind, len: usize, into: &mut [u8]) -> usize
    requires fits { len < 2 ^ 32 }
    requires room { length (sized_front kind len) ≤ length into.old }
    ensures end { result ≡ length (sized_front kind len) }
    ensures written { into.new ≡ sized_front kind len ++ drop result into.old }
{
    let header = 8 * type_number(kind);
    if len < 256 {
        into[0] = header + 5;
        into[1] = len as u8;
        2
    } else if len < 65536 {
        into[0] = header + 6;
        BigEndian::write_u16(&mut into[1..], len as u16);
        3
    } else {
        into[0] = header + 7;
        BigEndian::write_u32(&mut into[1..], len as u32);
        5
    }
}

/// Content behind a header with its length.
fn put_sized(kind: Kind, content: &[u8], into: &mut [u8]) -> usize
    requires fits { length content.now < 2 ^ 32 }
    requires room { length (sized kind content.now) ≤ length into.old }
    ensures len { result ≡ length (sized kind content.now) }
    ensures written { into.new ≡ sized kind content.now ++ drop result into.old }
{
    let start = put_length(kind, content.len(), into);
    put_behind(start, content, into)
}

fn width_index(width: u8) -> u8
    ensures value { result ≡ width_index width }
    ensures fits { result < 5 }
{
    match width {
        1 => 0,
        2 => 1,
        4 => 2,
        8 => 3,
        _ => 4,
    }
}

fn put_unsigned(width: u8, number: u128, into: &mut [u8]) -> usize
    requires width { IsWidth width }
    requires fits { number < 256 ^ width }
    requires room { 1 + width ≤ length into.old }
    ensures len { result ≡ 1 + width }
    ensures written { into.new ≡ numbered kinds.Unsigned width number ++ drop result into.old }
{
    into[0] = 8 * type_number(Kind::Unsigned) + width_index(width);
    BigEndian::write_uint128(&mut into[1..], number, usize::from(width));
    1 + usize::from(width)
}

fn put_twos_complement(width: u8, number: i128, into: &mut [u8])
    requires width { IsWidth width }
    requires room { width ≤ length into.old }
    ensures { into.new ≡ big_bytes width (low_bytes w128 width number) ++ drop width into.old }
{
    BigEndian::write_int128(into, number, usize::from(width));
}

fn put_signed(width: u8, number: i128, into: &mut [u8]) -> usize
    requires width { IsWidth width }
    requires room { 1 + width ≤ length into.old }
    ensures len { result ≡ 1 + width }
    ensures written { into.new ≡ numbered kinds.Signed width (low_bytes w128 width number) ++ drop result into.old }
{
    into[0] = 8 * type_number(Kind::Signed) + width_index(width);
    put_twos_complement(width, number, &mut into[1..]);
    1 + usize::from(width)
}

fn put_uuid(octets: &[u8], into: &mut [u8]) -> usize
    requires len { length octets.now ≡ 16 }
    requires room { length (uuid_octets octets.now) ≤ length into.old }
    ensures len { result ≡ length (uuid_octets octets.now) }
    ensures written { into.new ≡ uuid_octets octets.now ++ drop result into.old }
{
    if !is_short(octets) {
        into[0] = 0x1C;
        put_behind(1, octets, into)
    } else if octets[0] == 0 && octets[1] == 0 {
        into[0] = 0x19;
        put_behind(1, &octets[2..4], into)
    } else {
        into[0] = 0x1A;
        put_behind(1, &octets[..4], into)
    }
}

/// Writes an element in its shortest form, and answers how many octets it has (Core 5.1, Volume 3
/// Part B, 3). The octets behind it are left unchanged.
///
/// Lengths and identifiers take the fewest octets; numbers keep their width; the octets of the parts
/// of a sequence or an alternative stand as they were read. It needs room, numbers that fit their
/// width of 1, 2, 4, 8 or 16 octets, and content of fewer than 2^32 octets.
pub fn put_element(element: &Element<'_>, into: &mut [u8]) -> usize
    requires sound { HasSpelling (plain element.now) }
    requires room { length (element_octets (plain element.now)) ≤ length into.old }
    ensures len { result ≡ length (element_octets (plain element.now)) }
    ensures written { into.new ≡ element_octets (plain element.now) ++ drop result into.old }
{
    match element {
        Element::Nil => {
            into[0] = 0;
            1
        }
        Element::Unsigned(width, number) => put_unsigned(*width, *number, into),
        Element::Signed(width, number) => put_signed(*width, *number, into),
        Element::Uuid(id) => put_uuid(id.as_bytes(), into),
        Element::Text(octets) => put_sized(Kind::Text, octets, into),
        Element::Boolean(truth) => {
            into[0] = 0x28;
            into[1] = u8::from(*truth);
            2
        }
        Element::Sequence(children) => put_sized(Kind::Sequence, children.left, into),
        Element::Alternative(children) => put_sized(Kind::Alternative, children.left, into),
        Element::Url(octets) => put_sized(Kind::Url, octets, into),
    }
}
