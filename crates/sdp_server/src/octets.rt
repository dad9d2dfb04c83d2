//! Octets that are put together.

ghost use Rattle.std.specs.Prelude.{◌≡◌, ◌≤◌, ◌<◌, ◌+◌, ◌++◌, length};
ghost use Rattle.sdp_elements.specs.declared.header.Kind.TheVariants as kinds;
ghost use Rattle.sdp_elements.specs.Exchange.{pdu_octets};
ghost use Rattle.sdp_elements.specs.Spelling.{sized};

use arrayvec::ArrayVec;

/// Room for the longest answer, 89 octets, in a reply.
const CAPACITY: usize = 112;

pub(crate) type Octets = ArrayVec<u8, CAPACITY>;

pub(crate) fn append(out: &mut Octets, octets: &[u8])
    requires { length out.old.items + length octets.now ≤ 112 }
    ensures items { out.new.items ≡ out.old.items ++ octets.now }
    ensures len { length out.new.items ≡ length out.old.items + length octets.now }
{
    let _there_is_room = out.try_extend_from_slice(octets);
}

/// The sequence whose parts are these octets.
pub(crate) fn sequence(parts: &[u8]) -> Octets
    requires { length parts.now ≤ 110 }
    ensures items { result.items ≡ sized kinds.Sequence parts.now }
    ensures len { length result.items ≡ 2 + length parts.now }
{
    let mut out = ArrayVec::new();
    append(&mut out, &[0x35, parts.len() as u8]);
    append(&mut out, parts);
    out
}

/// The PDU with these parameters.
pub(crate) fn pdu(identifier: u8, transaction: u16, parameters: &[u8]) -> Octets
    requires { length parameters.now ≤ 107 }
    ensures items { result.items ≡ pdu_octets identifier transaction parameters.now }
    ensures len { length result.items ≡ 5 + length parameters.now }
{
    let [transaction_high, transaction_low] = transaction.to_be_bytes();
    let mut out = ArrayVec::new();
    append(
        &mut out,
        &[
            identifier,
            transaction_high,
            transaction_low,
            0,
            parameters.len() as u8,
        ],
    );
    append(&mut out, parameters);
    out
}
