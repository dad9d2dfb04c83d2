//! The head of an ACL packet.

ghost use Rattle.std.specs.Prelude.{◌≡◌, IfOk, IsOkAnd};
ghost use Rattle.hci_packets.specs.declared.acl.AclHead.{AclHead};
ghost use Rattle.hci_packets.specs.Refusals.{RefusedBy};
ghost use Rattle.hci_packets.specs.AclWords.{IsAclHead, acl_word_of, acl_refusal};

use crate::refusal::HciRefusal;
use bt_base::Handle;

/// Where a packet stands in its PDU (Core 5.1, Volume 2 Part E, 5.4.2).
#[derive(Clone, Copy, Debug, PartialEq, Eq)]
pub enum Boundary {
    /// The first packet of a PDU from a host, not automatically flushable.
    First,
    /// A continuing packet.
    Continuing,
    /// The first packet of a PDU from a controller.
    FirstFromController,
}

/// What the first word of an ACL packet says.
#[derive(Clone, Copy, Debug, PartialEq, Eq)]
pub struct AclHead {
    pub handle: Handle,
    pub boundary: Boundary,
    /// The broadcast flag, 0 to 3: 0 for a packet to or from one device.
    pub broadcast: u8,
}

/// The head that a word spells: the handle in bits 0 to 11, the boundary flag in bits 12 and 13,
/// the broadcast flag in bits 14 and 15.
///
/// `BadHandle` for a handle above 0x0EFF, else `BadValue` for boundary bits 11.
pub fn acl_word(word: u16) -> Result<AclHead, HciRefusal>
    ensures read { IfOk result (λ head. IsAclHead head × (word ≡ acl_word_of head)) }
    ensures all { (head : AclHead) → IsAclHead head → word ≡ acl_word_of head → IsOkAnd result (λ read. read ≡ head) }
    ensures refused { RefusedBy result (acl_refusal word) }
{
    let Some(handle) = Handle::of(word % 0x1000) else {
        return Err(HciRefusal::BadHandle);
    };
    let boundary = match word / 0x1000 % 4 {
        0 => Boundary::First,
        1 => Boundary::Continuing,
        2 => Boundary::FirstFromController,
        _ => return Err(HciRefusal::BadValue),
    };
    Ok(AclHead {
        handle,
        boundary,
        broadcast: (word / 0x4000) as u8,
    })
}
