//! A frame as its octets.

ghost use Rattle.std.specs.Prelude.{◌≡◌, ◌≤◌, ◌<◌, ◌+◌, ◌^◌, ◌++◌, length, take, drop};
ghost use Rattle.bt_base.specs.Octets.{le16};
ghost use Rattle.ertm_frames.specs.Frames.{plain, control_of, body_of, covered, bit, function_of, IsFrame, Spells};

use crate::frame::{Frame, SKind, START};
use bt_base::Cid;
use check_words::fcs16;

/// Writes a frame from the front of `into`, with its basic header and its check word, and answers how
/// many octets it has. The octets behind it stay as they are.
///
/// It needs room, numbers that fit their fields, and a length field that counts no more than 65,535.
pub fn put_frame(cid: Cid, frame: &Frame<'_>, into: &mut [u8]) -> usize
    requires fits { IsFrame (plain frame.now) }
    requires size { 4 + length (body_of (plain frame.now)) < 2 ^ 16 }
    requires room { 8 + length (body_of (plain frame.now)) ≤ length into.old }
    ensures count { result ≡ 8 + length (body_of (plain frame.now)) }
    ensures spelling { Spells cid (plain frame.now) (take result into.new) }
    ensures rest { drop result into.new ≡ drop result into.old }
{
    let end = put_covered(cid.get(), frame, into);
    let check = fcs16(&into[..end]);
    put_word(check, end, into);
    end + 2
}

/// Writes a number into two octets from `at` on, the low octet first.
fn put_word(number: u16, at: usize, into: &mut [u8])
    requires { at + 2 ≤ length into.old }
    ensures { into.new ≡ take at into.old ++ (le16 number ++ drop (at + 2) into.old) }
{
    into[at..at + 2].copy_from_slice(&number.to_le_bytes());
}

/// Writes what the check word is over, and answers how many octets it has.
fn put_covered(cid: u16, frame: &Frame<'_>, into: &mut [u8]) -> usize
    requires fits { IsFrame (plain frame.now) }
    requires size { 4 + length (body_of (plain frame.now)) < 2 ^ 16 }
    requires room { 8 + length (body_of (plain frame.now)) ≤ length into.old }
    ensures count { result ≡ 6 + length (body_of (plain frame.now)) }
    ensures written { into.new ≡ covered cid (control_of (plain frame.now)) (body_of (plain frame.now)) ++ drop result into.old }
{
    let [cid_low, cid_high] = cid.to_le_bytes();
    let [low, high] = control_of(frame).to_le_bytes();
    match *frame {
        Frame::I {
            sar: START,
            total,
            octets,
            ..
        } => {
            let [size_low, size_high] = (6 + octets.len() as u16).to_le_bytes();
            let [total_low, total_high] = total.to_le_bytes();
            let head = [
                size_low, size_high, cid_low, cid_high, low, high, total_low, total_high,
            ];
            put_parts(&head, octets, into)
        }
        Frame::I { octets, .. } => {
            let [size_low, size_high] = (4 + octets.len() as u16).to_le_bytes();
            put_parts(
                &[size_low, size_high, cid_low, cid_high, low, high],
                octets,
                into,
            )
        }
        Frame::S { .. } => put_parts(&[4, 0, cid_low, cid_high, low, high], &[], into),
    }
}

/// The control field of a frame.
fn control_of(frame: &Frame<'_>) -> u16
    requires { IsFrame (plain frame.now) }
    ensures { result ≡ control_of (plain frame.now) }
{
    match *frame {
        Frame::I {
            tx,
            last,
            req,
            sar,
            ..
        } => {
            0x02 * u16::from(tx)
                + 0x80 * bit(last)
                + 0x100 * u16::from(req)
                + 0x4000 * u16::from(sar)
        }
        Frame::S {
            kind,
            poll,
            last,
            req,
        } => {
            0x01 + 0x04 * function_of(kind)
                + 0x10 * bit(poll)
                + 0x80 * bit(last)
                + 0x100 * u16::from(req)
        }
    }
}

fn bit(flag: bool) -> u16
    ensures { result ≡ bit flag }
{
    if flag { 1 } else { 0 }
}

/// The number that stands for what an S-frame tells.
fn function_of(kind: SKind) -> u16
    ensures { result ≡ function_of kind }
{
    match kind {
        SKind::Rr => 0,
        SKind::Rej => 1,
        SKind::Rnr => 2,
        SKind::Srej => 3,
    }
}

/// Writes both parts, one behind the other, and answers how many octets they have.
fn put_parts(head: &[u8], octets: &[u8], into: &mut [u8]) -> usize
    requires { length head.now + length octets.now ≤ length into.old }
    ensures count { result ≡ length head.now + length octets.now }
    ensures written { into.new ≡ head.now ++ octets.now ++ drop result into.old }
{
    let start = head.len();
    let end = start + octets.len();
    into[..start].copy_from_slice(head);
    into[start..end].copy_from_slice(octets);
    end
}
