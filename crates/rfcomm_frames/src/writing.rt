//! A frame as its octets.

ghost use Rattle.std.specs.Prelude.{◌≡◌, ◌≤◌, ◌<◌, ◌+◌, ◌^◌, ◌++◌, length, take, drop};
ghost use Rattle.rfcomm_frames.specs.Frames.{plain, IsFrame, Spells, size_of, unchecked, address_of, control_octet, credit_octets};

use crate::frame::{MuxFrame, MuxKind, covered_size};
use crate::length::put_length;
use crate::pieces::put;
use check_words::fcs8;

/// Writes a frame from the front of `into`, with the shortest length field and with its check word,
/// and answers how many octets it has (TS 07.10, 5.2.1; RFCOMM 1.2, 5.1). The octets behind it stay
/// as they are.
///
/// It needs room, numbers that fit their fields, credits and information in no frame but those that
/// have them, and at most 32,767 octets of information.
pub fn put_frame(frame: &MuxFrame<'_>, into: &mut [u8]) -> usize
    requires fits { IsFrame (plain frame.now) }
    requires few { length frame.now.octets.now < 2 ^ 15 }
    requires room { size_of (plain frame.now) ≤ length into.old }
    ensures count { result ≡ size_of (plain frame.now) }
    ensures spelling { Spells (plain frame.now) (take result into.new) }
    ensures rest { drop result into.new ≡ drop result into.old }
{
    let end = put_unchecked(frame, into);
    let check = fcs8(&into[..covered_size(frame.kind, end)]);
    put(&[check], end, into)
}

/// Writes what stands before the check word of a frame, and answers how many octets that are.
fn put_unchecked(frame: &MuxFrame<'_>, into: &mut [u8]) -> usize
    requires fits { IsFrame (plain frame.now) }
    requires few { length frame.now.octets.now < 2 ^ 15 }
    requires room { size_of (plain frame.now) ≤ length into.old }
    ensures end { 1 + result ≡ size_of (plain frame.now) }
    ensures written { into.new ≡ unchecked (plain frame.now) ++ drop result into.old }
{
    let head = [address_of(frame), control_octet(frame.kind, frame.pf)];
    let head = put(&head, 0, into);
    let field = put_length(frame.octets.len(), head, into);
    let start = put_credits(frame.credits, field, into);
    put(frame.octets, start, into)
}

/// The address octet of a frame.
fn address_of(frame: &MuxFrame<'_>) -> u8
    requires { IsFrame (plain frame.now) }
    ensures { result ≡ address_of (plain frame.now) }
{
    0x01 + 0x02 * u8::from(frame.cr) + 0x04 * frame.dlci
}

/// The control octet of a kind, with or without the P/F bit.
fn control_octet(kind: MuxKind, pf: bool) -> u8
    ensures { result ≡ control_octet kind pf }
{
    let code = match kind {
        MuxKind::Sabm => 0x2F,
        MuxKind::Ua => 0x63,
        MuxKind::Dm => 0x0F,
        MuxKind::Disc => 0x43,
        MuxKind::Uih => 0xEF,
    };
    code + 0x10 * u8::from(pf)
}

/// Writes the credit octet, where one is there, at `at`, and answers the place behind it.
fn put_credits(credits: Option<u8>, at: usize, into: &mut [u8]) -> usize
    requires { at + length (credit_octets credits) ≤ length into.old }
    ensures end { result ≡ at + length (credit_octets credits) }
    ensures written { into.new ≡ take at into.old ++ (credit_octets credits ++ drop result into.old) }
{
    match credits {
        Some(credits) => put(&[credits], at, into),
        None => at,
    }
}
