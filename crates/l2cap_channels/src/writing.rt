//! The octets of PDUs.

ghost use Rattle.std.specs.Prelude.{◌≡◌, ◌≤◌, ◌<◌, ◌^◌, ◌++◌, length, drop};
ghost use Rattle.bt_base.specs.Octets.{le16};
ghost use Rattle.l2cap_signal.specs.Commands.{content, rest_of, spelling};
ghost use Rattle.channel_model.specs.Giving.{headed};

use crate::identifier::Identifier;
use l2cap_signal::{Signal, SignalKind, put_signal};

/// The endpoint of signalling (Core 5.1, Volume 3 Part A, 2.1).
const SIGNALLING: u16 = 0x0001;

/// Writes the header of a PDU: the length of what follows it, and the endpoint that it is for.
fn put_header(size: u16, endpoint: u16, into: &mut [u8])
    requires { 4 ≤ length into.old }
    ensures { into.new ≡ le16 size ++ (le16 endpoint ++ drop 4 into.old) }
{
    let [size_low, size_high] = size.to_le_bytes();
    let [low, high] = endpoint.to_le_bytes();
    into[..4].copy_from_slice(&[size_low, size_high, low, high]);
}

/// Writes a command on the signalling channel from the front of `into`, and answers how many octets the
/// PDU has. The octets behind it stay as they are.
#[tactic(auto, using(crate::proofs::Sizes::short_payload))]
pub(crate) fn put_command(identifier: Identifier, kind: SignalKind<'_>, into: &mut [u8]) -> usize
    requires short { length (rest_of (content kind)) ≤ 668 }
    requires room { 32775 ≤ length into.old }
    ensures count { result ≡ length (headed 0x0001 (spelling (record { identifier = identifier; content = content kind.entry }))) }
    ensures written { into.new ≡ headed 0x0001 (spelling (record { identifier = identifier; content = content kind.entry })) ++ drop result into.old }
{
    let signal = Signal {
        identifier: identifier.get(),
        kind,
    };
    let size = put_signal(&signal, &mut into[4..]);
    put_header(size as u16, SIGNALLING, into);
    4 + size
}

/// Writes an SDU in basic mode from the front of `into`, and answers how many octets the PDU has. The
/// octets behind it stay as they are.
pub(crate) fn put_sdu(peer: u16, sdu: &[u8], into: &mut [u8]) -> usize
    requires short { length sdu.now ≤ 32767 }
    requires room { 32775 ≤ length into.old }
    ensures count { result ≡ length (headed peer sdu.now) }
    ensures written { into.new ≡ headed peer sdu.now ++ drop result into.old }
{
    let end = 4 + sdu.len();
    into[4..end].copy_from_slice(sdu);
    put_header(sdu.len() as u16, peer, into);
    end
}
