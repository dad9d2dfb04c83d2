//! The target that a whole answer names.

ghost use Rattle.std.specs.Prelude.{◌≡◌};
ghost use Rattle.sdp_elements.specs.Elements.{Tree, Trees, left_of, plain};
ghost use Rattle.sdp_elements.specs.Spelling.{AreSpelledBy, Stands};
ghost use Rattle.sdp_elements.specs.Targets.{number_in, is_service_psm, channel_among, channel_of, channels_among, target_in};
ghost use Rattle.sdp_client.specs.Reading.{service_psm, server_channel, is_rfcomm_in, channel_under, target_or, target_by, record_target, service_target, records_target};

use sdp_elements::{Children, Element, Target, sequence_at, uuid_of};

/// The identifier of RFCOMM.
const RFCOMM: u32 = 0x0003;

const NOTHING: Target = Target {
    l2cap: None,
    rfcomm: None,
};

/// Of each way the one that was named earlier.
fn first_of(earlier: Target, later: Target) -> Target
    ensures { result ≡ target_or earlier later }
{
    Target {
        l2cap: earlier.l2cap.or(later.l2cap),
        rfcomm: earlier.rfcomm.or(later.rfcomm),
    }
}

/// The number of at most sixteen bits that an element is, in so many octets.
fn number_of(width: u8, element: &Element<'_>) -> Option<u16>
    ensures { result ≡ number_in width (plain element.now) }
{
    match *element {
        Element::Unsigned(octets, number) if octets == width && number < 65536 => {
            Some(number as u16)
        }
        _ => None,
    }
}

fn is_service_psm(number: u16) -> bool
    ensures { result ≡ is_service_psm number }
{
    number & 0x0101 == 0x0001 && number != 0x0001 && number != 0x0003
}

fn psm_of(value: &Element<'_>) -> Option<u16>
    ensures { result ≡ service_psm (plain value.now) }
{
    match number_of(2, value) {
        Some(number) if is_service_psm(number) => Some(number),
        _ => None,
    }
}

fn is_rfcomm(protocol: &Element<'_>) -> bool
    ensures { result ≡ is_rfcomm_in (plain protocol.now) }
{
    match protocol {
        Element::Uuid(identifier) => {
            identifier.as_bytes().as_slice() == uuid_of(RFCOMM).as_bytes().as_slice()
        }
        _ => false,
    }
}

fn server_channel(number: &Element<'_>) -> Option<u8>
    ensures { result ≡ server_channel (plain number.now) }
{
    match number_of(1, number) {
        Some(channel) if 1 <= channel && channel <= 30 => Some(channel as u8),
        _ => None,
    }
}

/// The server channel that the parts of a protocol name.
fn channel_among(parts: Children<'_>) -> Option<u8>
    ensures { (trees : Trees) → AreSpelledBy trees (left_of parts.entry) → result ≡ channel_among trees }
{
    let mut left = parts;
    let Some(protocol) = left.next() else {
        return None;
    };
    let Some(number) = left.next() else {
        return None;
    };
    if !is_rfcomm(&protocol) {
        return None;
    }
    server_channel(&number)
}

fn channel_of(protocol: &Element<'_>) -> Option<u8>
    ensures { (tree : Tree) → Stands (plain protocol.now) tree → result ≡ channel_of tree }
{
    match *protocol {
        Element::Sequence(parts) => channel_among(parts),
        _ => None,
    }
}

/// The first server channel of the protocols.
fn channels_among(protocols: Children<'_>) -> Option<u8>
    ensures { (trees : Trees) → AreSpelledBy trees (left_of protocols.entry) → result ≡ channels_among trees }
{
    let mut left = protocols;
    while let Some(protocol) = left.next() {
        let channel = channel_of(&protocol);
        if channel.is_some() {
            return channel;
        }
    }
    None
}

/// The first server channel of the protocols that an attribute has.
fn channel_in(value: &Element<'_>) -> Option<u8>
    ensures { (tree : Tree) → Stands (plain value.now) tree → result ≡ channel_under tree }
{
    match *value {
        Element::Sequence(protocols) => channels_among(protocols),
        _ => None,
    }
}

/// The target that an attribute names.
fn attribute_target(identifier: u16, value: &Element<'_>) -> Target
    ensures { (tree : Tree) → Stands (plain value.now) tree → result ≡ target_by identifier tree }
{
    match identifier {
        0x0200 => Target {
            l2cap: psm_of(value),
            rfcomm: None,
        },
        0x0004 => Target {
            l2cap: None,
            rfcomm: channel_in(value),
        },
        _ => NOTHING,
    }
}

/// The target that the attributes of a service record name, identifier and value in turn.
fn record_target(attributes: Children<'_>) -> Option<Target>
    ensures { (trees : Trees) → AreSpelledBy trees (left_of attributes.entry) → result ≡ record_target trees }
{
    let mut left = attributes;
    let mut target = NOTHING;
    while let Some(first) = left.next() {
        let identifier = number_of(2, &first)?;
        let Some(value) = left.next() else {
            return None;
        };
        target = first_of(target, attribute_target(identifier, &value));
    }
    Some(target)
}

fn service_target(service: &Element<'_>) -> Option<Target>
    ensures { (tree : Tree) → Stands (plain service.now) tree → result ≡ service_target tree }
{
    match *service {
        Element::Sequence(attributes) => record_target(attributes),
        _ => None,
    }
}

/// The target that service records name, one behind the other.
fn records_target(records: Children<'_>) -> Option<Target>
    ensures { (trees : Trees) → AreSpelledBy trees (left_of records.entry) → result ≡ records_target trees }
{
    let mut left = records;
    let mut target = NOTHING;
    while let Some(service) = left.next() {
        let Some(named) = service_target(&service) else {
            return None;
        };
        target = first_of(target, named);
    }
    Some(target)
}

/// The target that a whole answer names. `None` where it is not exactly one sequence of sequences
/// of pairs, each an identifier in two octets and a value.
pub(crate) fn target_in(answer: &[u8]) -> Option<Target>
    ensures { result ≡ target_in answer.now }
{
    let (records, rest) = sequence_at(answer)?;
    if !rest.is_empty() {
        return None;
    }
    records_target(records)
}
