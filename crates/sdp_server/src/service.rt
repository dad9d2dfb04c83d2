//! The service record of Object Push.

ghost use Rattle.std.specs.Prelude.{◌≡◌, ◌≤◌, ◌+◌, ◌++◌, ◌∷◌, [], List, length, if◌then◌else◌};
ghost use Rattle.std.specs.List.{flat_map};
ghost use Rattle.std.specs.Str.{bytes_eq};
ghost use Rattle.bt_base.specs.declared.settings.Serves.{Serves};
ghost use Rattle.bt_base.specs.Octets.{be16};
ghost use Rattle.sdp_elements.specs.Answers.{Range, is_listed, pairs_of, listed};
ghost use Rattle.sdp_elements.specs.Elements.{short_uuid};
ghost use Rattle.sdp_elements.specs.Laws.{tree_octets, parts_octets};
ghost use Rattle.sdp_elements.specs.Records.{has_identifier, service_record, protocols, goep_psm};
ghost use Rattle.sdp_server.specs.Lists.{Lists};
ghost use Rattle.sdp_server.specs.Listed.{listed_octets, listed_pair, serves_rfcomm};

use crate::list::{AttributeList, is_listed};
use crate::octets::{Octets, append};
use arrayvec::ArrayVec;
use bt_base::Serves;
use sdp_elements::uuid_of;
use uuid::Uuid;

/// The handle of the one service record.
pub(crate) const RECORD_HANDLE: u32 = 0x0001_0000;

const HANDLE: [u8; 5] = [0x0A, 0x00, 0x01, 0x00, 0x00];

// Object Push, 1105
const CLASSES: [u8; 5] = [0x35, 0x03, 0x19, 0x11, 0x05];

// L2CAP, 0100, and OBEX, 0008
const PROTOCOLS_OVER_L2CAP: [u8; 12] = [
    0x35, 0x0A, 0x35, 0x03, 0x19, 0x01, 0x00, 0x35, 0x03, 0x19, 0x00, 0x08,
];

// L2CAP, 0100, RFCOMM, 0003, with the server channel 9, and OBEX, 0008
const PROTOCOLS_OVER_RFCOMM: [u8; 19] = [
    0x35, 0x11, 0x35, 0x03, 0x19, 0x01, 0x00, 0x35, 0x05, 0x19, 0x00, 0x03, 0x08, 0x09, 0x35, 0x03,
    0x19, 0x00, 0x08,
];

// Object Push, 1105, in its version 1.2
const PROFILES: [u8; 10] = [0x35, 0x08, 0x35, 0x06, 0x19, 0x11, 0x05, 0x09, 0x01, 0x02];

// OBEX Object Push
const NAME: [u8; 18] = [
    0x25, 0x10, 0x4F, 0x42, 0x45, 0x58, 0x20, 0x4F, 0x62, 0x6A, 0x65, 0x63, 0x74, 0x20, 0x50, 0x75,
    0x73, 0x68,
];

const GOEP_PSM: [u8; 3] = [0x09, 0x10, 0x01];

// any format
const FORMATS: [u8; 4] = [0x35, 0x02, 0x08, 0xFF];

fn is_identifier(identifier: &Uuid, short: u32) -> bool
    ensures { result ≡ bytes_eq identifier.now (short_uuid short) }
{
    identifier.as_bytes().as_slice() == uuid_of(short).as_bytes().as_slice()
}

/// Whether an identifier stands somewhere in the values of the record, the nested ones too.
pub(crate) fn has_identifier(serves: Serves, identifier: &Uuid) -> bool
    ensures { result ≡ has_identifier (service_record serves) identifier.now }
{
    is_identifier(identifier, 0x1105)
        || is_identifier(identifier, 0x0100)
        || is_identifier(identifier, 0x0008)
        || (serves_rfcomm(serves) && is_identifier(identifier, 0x0003))
}

fn serves_rfcomm(serves: Serves) -> bool
    ensures { result ≡ serves_rfcomm serves }
{
    match serves {
        Serves::Both | Serves::Rfcomm => true,
        Serves::L2cap => false,
    }
}

fn protocols(serves: Serves) -> &'static [u8]
    ensures { result.now ≡ tree_octets (protocols serves) }
{
    match serves {
        Serves::Both | Serves::Rfcomm => &PROTOCOLS_OVER_RFCOMM,
        Serves::L2cap => &PROTOCOLS_OVER_L2CAP,
    }
}

/// Appends an attribute where the list names it: its identifier in two octets, and its value.
fn append_listed(out: &mut Octets, list: &AttributeList<'_>, identifier: u16, value: &[u8])
    requires { length out.old.items + (3 + length value.now) ≤ 112 }
    ensures items { (ranges : List Range) → Lists list.now ranges → out.new.items ≡ out.old.items ++ listed_octets ranges identifier value.now }
    ensures len { length out.new.items ≤ length out.old.items + (3 + length value.now) }
{
    if !is_listed(list, identifier) {
        return;
    }
    let [high, low] = identifier.to_be_bytes();
    append(out, &[0x09, high, low]);
    append(out, value);
}

fn append_psm(out: &mut Octets, list: &AttributeList<'_>, serves: Serves)
    requires { length out.old.items + 6 ≤ 112 }
    ensures items { (ranges : List Range) → Lists list.now ranges → out.new.items ≡ out.old.items ++ flat_map (listed_pair ranges) (goep_psm serves) }
    ensures len { length out.new.items ≤ length out.old.items + 6 }
{
    match serves {
        Serves::Both | Serves::L2cap => append_listed(out, list, 0x0200, &GOEP_PSM),
        Serves::Rfcomm => {}
    }
}

/// The attributes of the record that the list names, in rising order.
pub(crate) fn listed_attributes(serves: Serves, list: &AttributeList<'_>) -> Octets
    ensures items { (ranges : List Range) → Lists list.now ranges → result.items ≡ parts_octets (pairs_of (listed ranges (service_record serves))) }
    ensures len { length result.items ≤ 85 }
{
    let mut out = ArrayVec::new();
    append_listed(&mut out, list, 0x0000, &HANDLE);
    append_listed(&mut out, list, 0x0001, &CLASSES);
    append_listed(&mut out, list, 0x0004, protocols(serves));
    append_listed(&mut out, list, 0x0009, &PROFILES);
    append_listed(&mut out, list, 0x0100, &NAME);
    append_psm(&mut out, list, serves);
    append_listed(&mut out, list, 0x0303, &FORMATS);
    out
}
