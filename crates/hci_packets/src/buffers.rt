//! The buffers of a controller, as Read Buffer Size returns them.

ghost use Rattle.std.specs.Prelude.{◌≡◌, IfOk, IsOkAnd, None};
ghost use Rattle.hci_packets.specs.declared.buffers.Buffers.{Buffers};
ghost use Rattle.hci_packets.specs.Refusals.{RefusedBy, wrong_length};
ghost use Rattle.hci_packets.specs.Buffers.{buffers_params, FitsBuffers};

use crate::refusal::HciRefusal;
use crate::rows::of_length;
use bt_base::read_le16;

/// What Read Buffer Size returns (Core 5.1, Volume 2 Part E, 7.4.5): lengths in octets, counts in
/// packets.
#[derive(Clone, Copy, Debug, PartialEq, Eq)]
pub struct Buffers {
    pub status: u8,
    pub acl_length: u16,
    pub sync_length: u8,
    pub acl_count: u16,
    pub sync_count: u16,
}

/// The buffers that return parameters of Read Buffer Size state: `ShortParams` for fewer than
/// eight octets, `LongParams` for more.
pub fn buffers_of(params: &[u8]) -> Result<Buffers, HciRefusal>
    // What is read is spelled by these parameters.
    ensures read { IfOk result (λ buffers. params.now ≡ buffers_params buffers) }
    // All that are spelled by eight octets are read.
    ensures all { (buffers : Buffers) → FitsBuffers buffers → params.now ≡ buffers_params buffers → IsOkAnd result (λ read. read ≡ buffers) }
    // Parameters of another length than eight octets are refused, and no others.
    ensures refused { RefusedBy result (wrong_length 8 params.now None) }
{
    of_length(params, 8)?;
    Ok(Buffers {
        status: params[0],
        acl_length: read_le16(&params[1..]),
        sync_length: params[3],
        acl_count: read_le16(&params[4..]),
        sync_count: read_le16(&params[6..]),
    })
}
