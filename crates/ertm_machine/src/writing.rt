//! An I-frame whose octets lie in two parts.

ghost use Rattle.std.specs.Prelude.{◌≡◌, ◌≤◌, ◌+◌, ◌*◌, ◌^◌, ◌<◌, ◌++◌, length, take, drop, false};
ghost use Rattle.bt_base.specs.Octets.{le16};
ghost use Rattle.ertm_frames.specs.Frames.{information, body_of, control_of, covered, IsInformation, Spells};
ghost use Rattle.ertm_machine.specs.Pieces.{octets_of, information_of};

use crate::piece::{Piece, START};
use bt_base::Cid;
use ertm_frames::fcs16;

/// Writes the I-frame of a segment from the front of `into`, without the F bit, and answers how many
/// octets it has. The octets behind it stay as they are.
pub(crate) fn put_information(
    cid: Cid,
    tx: u8,
    req: u8,
    piece: &Piece<'_>,
    into: &mut [u8],
) -> usize
    requires fits { IsInformation tx req piece.now.sar piece.now.total (octets_of piece.now) }
    requires size { length (octets_of piece.now) ≤ 1010 }
    requires room { 1020 ≤ length into.old }
    ensures count { result ≡ 8 + length (body_of (information_of tx req piece.now)) }
    ensures few { result ≤ 1020 }
    ensures spelling { Spells cid (information_of tx req piece.now) (take result into.new) }
    ensures rest { drop result into.new ≡ drop result into.old }
{
    let end = put_covered(cid.get(), tx, req, piece, into);
    let check = fcs16(&into[..end]);
    put_at(end, &check.to_le_bytes(), into)
}

/// Writes what the check word is over, and answers how many octets it has.
fn put_covered(cid: u16, tx: u8, req: u8, piece: &Piece<'_>, into: &mut [u8]) -> usize
    requires fits { IsInformation tx req piece.now.sar piece.now.total (octets_of piece.now) }
    requires size { length (octets_of piece.now) ≤ 1010 }
    requires room { 1020 ≤ length into.old }
    ensures count { result ≡ 6 + length (body_of (information_of tx req piece.now)) }
    ensures written { into.new ≡ covered cid (control_of (information_of tx req piece.now)) (body_of (information_of tx req piece.now)) ++ drop result into.old }
{
    let control = 0x02 * u16::from(tx) + 0x100 * u16::from(req) + 0x4000 * u16::from(piece.sar);
    let [cid_low, cid_high] = cid.to_le_bytes();
    let [low, high] = control.to_le_bytes();
    let count = (piece.front.len() + piece.back.len()) as u16;
    if piece.sar == START {
        let [size_low, size_high] = (6 + count).to_le_bytes();
        let [total_low, total_high] = piece.total.to_le_bytes();
        let head = [
            size_low, size_high, cid_low, cid_high, low, high, total_low, total_high,
        ];
        put_parts(&head, piece, into)
    } else {
        let [size_low, size_high] = (4 + count).to_le_bytes();
        let head = [size_low, size_high, cid_low, cid_high, low, high];
        put_parts(&head, piece, into)
    }
}

/// Writes a head and the octets of a segment behind it, and answers how many octets they have.
fn put_parts(head: &[u8], piece: &Piece<'_>, into: &mut [u8]) -> usize
    requires { length head.now + length (octets_of piece.now) ≤ length into.old }
    ensures count { result ≡ length head.now + length (octets_of piece.now) }
    ensures written { into.new ≡ head.now ++ (octets_of piece.now ++ drop result into.old) }
{
    let place = put_at(0, head, into);
    let place = put_at(place, piece.front, into);
    put_at(place, piece.back, into)
}

/// Writes octets from `place` on, and answers the place behind them.
fn put_at(place: usize, octets: &[u8], into: &mut [u8]) -> usize
    requires { place + length octets.now ≤ length into.old }
    ensures end { result ≡ place + length octets.now }
    ensures written { into.new ≡ take place into.old ++ (octets.now ++ drop result into.old) }
{
    let end = place + octets.len();
    into[place..end].copy_from_slice(octets);
    end
}
