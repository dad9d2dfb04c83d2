//! Octets of a PDU.

ghost use Rattle.std.specs.Prelude.{◌≡◌, slice_index};
ghost use Rattle.acl_fragments.specs.Pieces.{channel_of};

/// An octet, or 0 behind the end.
pub(crate) fn octet_at(octets: &[u8], place: usize) -> u8
    ensures { result ≡ slice_index octets.now place }
{
    octets.get(place).copied().unwrap_or(0)
}

/// The channel identifier of a PDU.
pub(crate) fn channel_of(pdu: &[u8]) -> u16
    ensures { result ≡ channel_of pdu.now }
{
    u16::from(octet_at(pdu, 2)) + 256 * u16::from(octet_at(pdu, 3))
}
