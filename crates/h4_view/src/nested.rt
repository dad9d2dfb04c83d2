//! What stands under the line of a whole PDU, by what its channel carries.

ghost use Rattle.std.specs.Prelude.{◌≡◌, ◌++◌, drop, OnOk};
ghost use Rattle.rfcomm_frames.specs.Answers as mux;
ghost use Rattle.rfcomm_frames.specs.FrameReading.{frame_answer};
ghost use Rattle.ertm_frames.specs.Answers as enhanced;
ghost use Rattle.ertm_frames.specs.Reading.{answer_in};
ghost use Rattle.seen_channels.specs.Tellings.{Learnt};
ghost use Rattle.seen_channels.specs.Tables.{Keeps};
ghost use Rattle.h4_view.specs.Nested.{numbered, sdp_text, mux_name, mux_refusal, rfcomm_text, supervisory_name, frame_refusal, ertm_text, protocol_text, nested_text};

use crate::line::{Text, push_decimal, push_hex, push_reason, push_text};
use crate::signals::push_signals;
use bt_base::NoMemory;
use byteorder::{BigEndian, ByteOrder};
use ertm_frames::{Frame, FrameRefusal, SKind};
use rfcomm_frames::{MuxFrame, MuxKind, MuxRefusal};
use seen_channels::{Channels, Direction, Protocol};

/// The channel that signalling commands are sent on.
pub(crate) const SIGNALLING: u16 = 0x0001;

/// Adds a name and numbers, a blank before each.
fn push_numbered(text: &mut Text, name: &str, numbers: &[u64]) -> Result<(), NoMemory>
    ensures { OnOk result (text.new.items ≡ text.old.items ++ numbered name.now numbers.now) }
{
    push_text(text, name)?;
    for number in numbers {
        push_text(text, " ")?;
        push_decimal(text, *number)?;
    }
    push_text(text, "\n")
}

fn push_sdp(text: &mut Text, payload: &[u8]) -> Result<(), NoMemory>
    ensures { OnOk result (text.new.items ≡ text.old.items ++ sdp_text payload.now) }
{
    if payload.len() < 5 {
        return push_text(text, "  sdp bad\n");
    }
    push_text(text, "  sdp ")?;
    push_hex(text, &payload[..1])?;
    push_text(text, " ")?;
    push_hex(text, &payload[1..3])?;
    push_numbered(text, "", &[u64::from(BigEndian::read_u16(&payload[3..]))])
}

fn mux_name(kind: MuxKind) -> &'static str
    ensures { result.now ≡ mux_name kind }
{
    match kind {
        MuxKind::Sabm => "  rfcomm SABM",
        MuxKind::Ua => "  rfcomm UA",
        MuxKind::Dm => "  rfcomm DM",
        MuxKind::Disc => "  rfcomm DISC",
        MuxKind::Uih => "  rfcomm UIH",
    }
}

fn mux_refusal(refusal: MuxRefusal) -> &'static str
    ensures { result.now ≡ mux_refusal refusal }
{
    match refusal {
        MuxRefusal::Short => "Short",
        MuxRefusal::BadExtension => "BadExtension",
        MuxRefusal::BadControl => "BadControl",
        MuxRefusal::LengthMismatch => "LengthMismatch",
        MuxRefusal::BadFcs => "BadFcs",
    }
}

fn push_rfcomm(text: &mut Text, read: Result<MuxFrame<'_>, MuxRefusal>) -> Result<(), NoMemory>
    ensures { OnOk result (text.new.items ≡ text.old.items ++ rfcomm_text (mux.answer read.entry)) }
{
    match read {
        Ok(frame) => push_numbered(
            text,
            mux_name(frame.kind),
            &[
                u64::from(frame.dlci),
                u64::from(frame.pf),
                frame.octets.len() as u64,
            ],
        ),
        Err(refusal) => push_reason(text, "  rfcomm bad ", mux_refusal(refusal)),
    }
}

fn supervisory_name(kind: SKind) -> &'static str
    ensures { result.now ≡ supervisory_name kind }
{
    match kind {
        SKind::Rr => "  ertm RR",
        SKind::Rej => "  ertm REJ",
        SKind::Rnr => "  ertm RNR",
        SKind::Srej => "  ertm SREJ",
    }
}

fn frame_refusal(refusal: FrameRefusal) -> &'static str
    ensures { result.now ≡ frame_refusal refusal }
{
    match refusal {
        FrameRefusal::Short => "Short",
        FrameRefusal::BadFcs => "BadFcs",
        FrameRefusal::ReservedSet => "ReservedSet",
        FrameRefusal::BadStart => "BadStart",
        FrameRefusal::AboveMps => "AboveMps",
    }
}

fn push_ertm(text: &mut Text, read: Result<Frame<'_>, FrameRefusal>) -> Result<(), NoMemory>
    ensures { OnOk result (text.new.items ≡ text.old.items ++ ertm_text (enhanced.answer read.entry)) }
{
    match read {
        Ok(
            Frame::I {
                tx,
                last,
                req,
                sar,
                octets,
                ..
            },
        ) => push_numbered(
            text,
            "  ertm I",
            &[
                u64::from(tx),
                u64::from(last),
                u64::from(req),
                u64::from(sar),
                octets.len() as u64,
            ],
        ),
        Ok(
            Frame::S {
                kind,
                poll,
                last,
                req,
            },
        ) => push_numbered(
            text,
            supervisory_name(kind),
            &[u64::from(poll), u64::from(last), u64::from(req)],
        ),
        Err(refusal) => push_reason(text, "  ertm bad ", frame_refusal(refusal)),
    }
}

/// What stands behind the basic header of a PDU.
pub(crate) fn payload_of(pdu: &[u8]) -> &[u8]
    ensures { result.now ≡ drop 4 pdu.now }
{
    pdu.get(4..).unwrap_or(&[])
}

fn mux_frame(octets: &[u8]) -> Result<MuxFrame<'_>, MuxRefusal>
    ensures { mux.answer result ≡ frame_answer octets.now }
{
    rfcomm_frames::frame_of(octets)
}

fn enhanced_frame(pdu: &[u8]) -> Result<Frame<'_>, FrameRefusal>
    ensures { enhanced.answer result ≡ answer_in 65535 pdu.now }
{
    ertm_frames::frame_of(pdu, u16::MAX)
}

/// Adds the line of a PDU by what its channel carries.
fn push_protocol(text: &mut Text, protocol: Protocol, pdu: &[u8]) -> Result<(), NoMemory>
    ensures { OnOk result (text.new.items ≡ text.old.items ++ protocol_text protocol pdu.now) }
{
    match protocol {
        Protocol::Sdp => push_sdp(text, payload_of(pdu)),
        Protocol::Rfcomm => push_rfcomm(text, mux_frame(payload_of(pdu))),
        Protocol::Enhanced => push_ertm(text, enhanced_frame(pdu)),
        Protocol::Data => push_numbered(text, "  data", &[pdu.len().saturating_sub(4) as u64]),
    }
}

/// Adds what stands under the line of a PDU of a channel that goes that way.
pub(crate) fn push_nested(
    text: &mut Text,
    channels: &Channels,
    direction: Direction,
    channel: u16,
    pdu: &[u8],
) -> Result<(), NoMemory>
    ensures { OnOk result ((known : Learnt) → Keeps known channels.now → text.new.items ≡ text.old.items ++ nested_text known direction channel pdu.now) }
{
    if channel == SIGNALLING {
        push_signals(text, payload_of(pdu))
    } else {
        push_protocol(text, channels.protocol(direction, channel), pdu)
    }
}
