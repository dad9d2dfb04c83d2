//! One option among others.

ghost use Rattle.std.specs.Prelude.{◌≡◌, ◌≤◌, ◌<◌, ◌+◌, [], ◌∷◌, length, filter, slice_index, option_map};
ghost use Rattle.l2cap_config.specs.Types.{size_of_kind, is_unknown, joined_types};
ghost use Rattle.l2cap_config.specs.Items.{IsItem, options_in, last_of, word_at, mode_in};
ghost use Rattle.l2cap_config.specs.Reading.{item_at, view};

use crate::options::{ModeOption, Options};
use crate::unknown::UnknownTypes;
use byteorder::{ByteOrder, LittleEndian};

const MTU: u8 = 1;

const FLUSH_TIMEOUT: u8 = 2;

const QUALITY_OF_SERVICE: u8 = 3;

const MODE: u8 = 4;

const FCS: u8 = 5;

/// An option as it stands in a list: its type octet, whose highest bit marks a hint, and its value.
#[derive(Clone, Copy)]
pub struct Item<'a> {
    pub octet: u8,
    pub value: &'a [u8],
}

/// The option at the front, and the octets behind it. None if no whole option is there, or if it is a
/// known one with a value of another length.
pub fn item_of(octets: &[u8]) -> Option<(Item<'_>, &[u8])>
    ensures { option_map (λ found. (view found.0, found.1.now)) result ≡ item_at octets.now }
{
    let [octet, size, behind @ ..] = octets else {
        return None;
    };
    let size = *size as usize;
    let wanted = size_of_kind(*octet % 128).unwrap_or(size);
    if behind.len() < size || size != wanted {
        return None;
    }
    let (value, rest) = behind.split_at(size);
    let octet = *octet;
    Some((Item { octet, value }, rest))
}

/// The length of the value of a known option, in octets.
fn size_of_kind(kind: u8) -> Option<usize>
    ensures { result ≡ size_of_kind kind }
{
    match kind {
        MTU | FLUSH_TIMEOUT => Some(2),
        QUALITY_OF_SERVICE => Some(22),
        MODE => Some(9),
        FCS => Some(1),
        _ => None,
    }
}

/// What one option states.
pub fn options_from(item: &Item<'_>) -> Options
    requires { IsItem (view item.now) }
    ensures { result ≡ options_in (view item.now ∷ []) }
{
    Options {
        mtu: mtu_of(item),
        mode: mode_of(item),
        fcs: fcs_of(item),
        unknown: types_from(item.octet),
    }
}

fn mtu_of(item: &Item<'_>) -> Option<u16>
    requires { IsItem (view item.now) }
    ensures { result ≡ option_map (word_at 0) (last_of 1 (view item.now ∷ [])) }
{
    if item.octet % 128 != MTU {
        return None;
    }
    Some(word_at(item.value, 0))
}

fn mode_of(item: &Item<'_>) -> Option<ModeOption>
    requires { IsItem (view item.now) }
    ensures { result ≡ option_map mode_in (last_of 4 (view item.now ∷ [])) }
{
    if item.octet % 128 != MODE {
        return None;
    }
    Some(mode_in(item.value))
}

fn fcs_of(item: &Item<'_>) -> Option<u8>
    requires { IsItem (view item.now) }
    ensures { result ≡ option_map (λ value. slice_index value 0) (last_of 5 (view item.now ∷ [])) }
{
    if item.octet % 128 != FCS {
        return None;
    }
    Some(item.value[0])
}

fn types_from(octet: u8) -> UnknownTypes
    ensures { result ≡ joined_types [] (filter is_unknown (octet ∷ [])) }
{
    let mut types = UnknownTypes::new();
    if octet < 128 && size_of_kind(octet).is_none() {
        types.add(octet);
    }
    types
}

/// The value of a mode option.
fn mode_in(value: &[u8]) -> ModeOption
    requires { length value.now ≡ 9 }
    ensures { result ≡ mode_in value.now }
{
    ModeOption {
        mode: value[0],
        window: value[1],
        tries: value[2],
        retransmit: word_at(value, 3),
        monitor: word_at(value, 5),
        mps: word_at(value, 7),
    }
}

/// The number in the two octets from `place` on.
fn word_at(octets: &[u8], place: usize) -> u16
    requires { place + 2 ≤ length octets.now }
    ensures { result ≡ word_at place octets.now }
{
    LittleEndian::read_u16(&octets[place..])
}
