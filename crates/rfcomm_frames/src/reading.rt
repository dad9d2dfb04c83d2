//! Octets as a frame.

ghost use Rattle.std.specs.Prelude.{◌≡◌, ◌↔◌, ◌/◌, ◌%◌, ◌++◌, ◌==◌, ℕ, List, [], true, false, Option, is_some, IsTrue, IfSome, IfNone};
ghost use Rattle.rfcomm_frames.specs.Frames.{carries, credit_octets, control_octet};
ghost use Rattle.rfcomm_frames.specs.Answers.{answer, IsAnswer, IsControlOctet};
ghost use Rattle.rfcomm_frames.specs.Reading.{IsFormed, IsSplit};

use crate::frame::{MuxFrame, MuxKind, carries, covered_size, has_credits};
use crate::length::split_length;
use crate::refusal::MuxRefusal;
use check_words::fcs8;

/// The frame that octets spell (TS 07.10, 5.2.1; RFCOMM 1.2, 5.1).
///
/// In this order: `Short` below four octets, `BadExtension` where bit 0 of the address is clear,
/// `BadControl` where no kind has the control octet, `LengthMismatch` where the length field does not
/// state the octets between it, or the credit octet, and the check word, or states some in a frame
/// other than UIH, and `BadFcs` where the check word does not hold.
pub fn frame_of<'a>(bytes: &'a [u8]) -> Result<MuxFrame<'a>, MuxRefusal>
    ensures { IsAnswer bytes.now (answer result) }
{
    let frame = formed(bytes)?;
    let end = bytes.len() - 1;
    let covered = covered_size(frame.kind, end);
    if fcs8(&bytes[..covered]) != bytes[end] {
        return Err(MuxRefusal::BadFcs);
    }
    Ok(frame)
}

/// The frame of octets, whatever stands in place of their check word.
fn formed(bytes: &[u8]) -> Result<MuxFrame<'_>, MuxRefusal>
    ensures { IsFormed bytes.now (answer result) }
{
    if bytes.len() < 4 {
        return Err(MuxRefusal::Short);
    }
    let address = bytes[0];
    if address % 2 == 0 {
        return Err(MuxRefusal::BadExtension);
    }
    let Some(kind) = kind_of(bytes[1]) else {
        return Err(MuxRefusal::BadControl);
    };
    let dlci = address / 4;
    let pf = bytes[1] / 0x10 % 2 == 1;
    let body = &bytes[2..bytes.len() - 1];
    let Some((credits, octets)) = split_body(has_credits(dlci, kind, pf), body) else {
        return Err(MuxRefusal::LengthMismatch);
    };
    if !may_carry(kind, octets) {
        return Err(MuxRefusal::LengthMismatch);
    }
    Ok(MuxFrame {
        dlci,
        cr: address / 2 % 2 == 1,
        kind,
        pf,
        credits,
        octets,
    })
}

/// The kind of frames that has a control octet, with or without the P/F bit.
fn kind_of(control: u8) -> Option<MuxKind>
    ensures some { IfSome result (λ kind. control ≡ control_octet kind (control / 0x10 % 2 == 1)) }
    ensures none { IfNone result (¬ IsControlOctet control) }
{
    match control {
        0x2F | 0x3F => Some(MuxKind::Sabm),
        0x63 | 0x73 => Some(MuxKind::Ua),
        0x0F | 0x1F => Some(MuxKind::Dm),
        0x43 | 0x53 => Some(MuxKind::Disc),
        0xEF | 0xFF => Some(MuxKind::Uih),
        _ => None,
    }
}

/// Whether a frame of a kind may carry this information.
fn may_carry(kind: MuxKind, octets: &[u8]) -> bool
    ensures { IsTrue result ↔ (carries kind ≡ false → octets.now ≡ []) }
{
    carries(kind) || octets.is_empty()
}

/// The credits, where a frame has them, and the information between control octet and check word.
/// None where its length field does not state all of that information.
fn split_body(granting: bool, body: &[u8]) -> Option<(Option<u8>, &[u8])>
    ensures some { IfSome result (λ found. IsSplit granting body.now found.0 found.1.now) }
    ensures none { IfNone result ((credits : Option ℕ) (octets : List ℕ) → ¬ IsSplit granting body.now credits octets) }
{
    let (count, rest) = split_length(body)?;
    let (credits, octets) = split_credits(granting, rest)?;
    if octets.len() == count {
        Some((credits, octets))
    } else {
        None
    }
}

/// The credit octet, where one is there, and the octets behind it.
fn split_credits(granting: bool, rest: &[u8]) -> Option<(Option<u8>, &[u8])>
    ensures some { IfSome result (λ found. (is_some found.0 ≡ granting) × (rest.now ≡ credit_octets found.0 ++ found.1.now)) }
    ensures none { IfNone result ((granting ≡ true) × (rest.now ≡ [])) }
{
    if !granting {
        return Some((None, rest));
    }
    let (credits, octets) = rest.split_first()?;
    Some((Some(*credits), octets))
}
