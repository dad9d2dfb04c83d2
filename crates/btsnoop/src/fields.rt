//! What octets tell of the file header or the record that begins with them.

ghost use Rattle.std.specs.Prelude.{◌≡◌, ◌+◌, ◌≤◌, length};
ghost use Rattle.btsnoop.specs.Files.{plain_record};
ghost use Rattle.btsnoop.specs.Fields.{field, is_other, header_fault, has_bad_length, fault_in, told_length, record_at};

use crate::record::Record;
use crate::refusal::SnoopRefusal;
use byteorder::{BigEndian, ByteOrder};

/// The identification of a file: the letters of `btsnoop` and a zero.
pub(crate) const IDENTIFICATION: u64 = 0x6274_736E_6F6F_7000;

/// The version of the format.
pub(crate) const VERSION: u32 = 1;

/// The datalink of packets as on the UART, each behind its indicator.
pub(crate) const UART_DATALINK: u32 = 1002;

/// How many octets the file header has.
const HEADER_LENGTH: usize = 16;

/// How many octets of a record stand before those of its packet.
const HEAD_LENGTH: usize = 24;

/// The greatest number of octets of a packet on the UART: its indicator, four octets of head and
/// 65,535 octets of data.
const LONGEST_PACKET: u32 = 65_540;

/// How many octets a record has at most.
pub(crate) const LONGEST_RECORD: usize = HEAD_LENGTH + LONGEST_PACKET as usize;

/// What may stand at a place of a file.
#[derive(Clone, Copy, Debug, PartialEq, Eq)]
pub enum Part {
    /// The file header.
    Header,
    /// A record.
    Body,
}

/// The number in the four octets from a place on.
#[tactic(auto, unfolding(crate::specs::Fields::field))]
fn number_at(octets: &[u8], place: usize) -> u32
    requires { place + 4 ≤ length octets.now }
    ensures { result ≡ field place 4 octets.now }
{
    BigEndian::read_u32(&octets[place..])
}

/// The number in the eight octets from a place on.
#[tactic(auto, unfolding(crate::specs::Fields::field))]
fn long_number_at(octets: &[u8], place: usize) -> u64
    requires { place + 8 ≤ length octets.now }
    ensures { result ≡ field place 8 octets.now }
{
    BigEndian::read_u64(&octets[place..])
}

/// Whether the field of four octets at that place is whole and another number stands in it.
#[tactic(auto, unfolding(crate::specs::Fields::is_other))]
fn is_other(octets: &[u8], place: usize, number: u32) -> bool
    requires { place ≤ 16 }
    ensures { result ≡ is_other place 4 number octets.now }
{
    octets.len() >= place + 4 && number_at(octets, place) != number
}

/// Whether the identification is whole and another.
#[tactic(auto, unfolding(crate::specs::Fields::is_other))]
fn is_of_another_format(octets: &[u8]) -> bool
    ensures { result ≡ is_other 0 8 0x6274736E6F6F7000 octets.now }
{
    octets.len() >= 8 && long_number_at(octets, 0) != IDENTIFICATION
}

/// The first field of a file header that is wrong, and its place.
#[tactic(auto, unfolding(crate::specs::Fields::header_fault))]
fn header_fault(octets: &[u8]) -> Option<(SnoopRefusal, usize)>
    ensures { result ≡ header_fault octets.now }
{
    if is_of_another_format(octets) {
        return Some((SnoopRefusal::BadMagic, 0));
    }
    if is_other(octets, 8, VERSION) {
        return Some((SnoopRefusal::BadVersion, 8));
    }
    if is_other(octets, 12, UART_DATALINK) {
        return Some((SnoopRefusal::BadLink, 12));
    }
    None
}

/// Whether the two lengths of a record are whole, and more octets are included than a packet can
/// have, or than this one had.
#[tactic(auto, unfolding(crate::specs::Fields::has_bad_length))]
fn has_bad_length(octets: &[u8]) -> bool
    ensures { result ≡ has_bad_length octets.now }
{
    if octets.len() < 8 {
        return false;
    }
    let included = number_at(octets, 4);
    included > LONGEST_PACKET || included > number_at(octets, 0)
}

/// Why and where no file header, or no record, begins with the octets. A field is judged once it is
/// whole.
#[tactic(auto, unfolding(crate::specs::Fields::fault_in))]
pub(crate) fn fault_in(part: Part, octets: &[u8]) -> Option<(SnoopRefusal, usize)>
    ensures { result ≡ fault_in part octets.now }
{
    match part {
        Part::Header => header_fault(octets),
        Part::Body if has_bad_length(octets) => Some((SnoopRefusal::BadLength, 0)),
        Part::Body => None,
    }
}

/// How many octets lead up to the end of what is told of its length: all of a file header, the head
/// of a record, and once that is whole all of the record.
#[tactic(auto, unfolding(crate::specs::Fields::told_length))]
pub(crate) fn told_length(part: Part, octets: &[u8]) -> usize
    ensures { result ≡ told_length part octets.now }
{
    match part {
        Part::Header => HEADER_LENGTH,
        Part::Body if octets.len() >= HEAD_LENGTH => HEAD_LENGTH + number_at(octets, 4) as usize,
        Part::Body => HEAD_LENGTH,
    }
}

/// The record that the octets are.
pub(crate) fn record_of(octets: &[u8]) -> Record<'_>
    requires { 24 + field 4 4 octets.now ≡ length octets.now }
    ensures { plain_record result ≡ record_at octets.now }
{
    Record {
        original: number_at(octets, 0),
        flags: number_at(octets, 8),
        drops: number_at(octets, 12),
        time: long_number_at(octets, 16),
        octets: &octets[HEAD_LENGTH..],
    }
}
