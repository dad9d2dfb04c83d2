//! What stands under a PDU of the signalling channel.

ghost use Rattle.std.specs.Prelude.{◌≡◌, ◌++◌, OnOk, Ok};
ghost use Rattle.std.specs.List.{flat_map};
ghost use Rattle.bt_base.specs.Octets.{le16};
ghost use Rattle.l2cap_signal.specs.Commands.{code_of, command, content, payload_of};
ghost use Rattle.l2cap_signal.specs.Reading.{answer};
ghost use Rattle.h4_view.specs.Texts.{octets_text};
ghost use Rattle.h4_view.specs.Signals.{kind_name, refused_name, signal_text, signals_text};

use crate::line::{Text, push_hex, push_octets, push_text};
use bt_base::NoMemory;
use l2cap_signal::{Signal, SignalKind, SignalRefusal, signals_of};

/// The code and the name of what a command says.
fn kind_text(kind: &SignalKind<'_>) -> (u8, &'static str)
    ensures { (result.0 ≡ code_of (content kind.now)) × (result.1.now ≡ kind_name (content kind.now)) }
{
    match kind {
        SignalKind::Reject { .. } => (0x01, "Reject"),
        SignalKind::ConnectionRequest { .. } => (0x02, "ConnectionRequest"),
        SignalKind::ConnectionResponse { .. } => (0x03, "ConnectionResponse"),
        SignalKind::ConfigurationRequest { .. } => (0x04, "ConfigurationRequest"),
        SignalKind::ConfigurationResponse { .. } => (0x05, "ConfigurationResponse"),
        SignalKind::DisconnectionRequest { .. } => (0x06, "DisconnectionRequest"),
        SignalKind::DisconnectionResponse { .. } => (0x07, "DisconnectionResponse"),
        SignalKind::EchoRequest { .. } => (0x08, "EchoRequest"),
        SignalKind::EchoResponse { .. } => (0x09, "EchoResponse"),
        SignalKind::InformationRequest { .. } => (0x0A, "InformationRequest"),
        SignalKind::InformationResponse { .. } => (0x0B, "InformationResponse"),
    }
}

/// The name of the refusal of a command.
fn refused_name(refusal: SignalRefusal) -> &'static str
    ensures { result.now ≡ refused_name refusal }
{
    match refusal {
        SignalRefusal::ZeroIdentifier { .. } => "ZeroIdentifier",
        SignalRefusal::BadLength { .. } => "BadLength",
        SignalRefusal::UnknownCode { .. } => "UnknownCode",
        SignalRefusal::AboveMtu { .. } => "AboveMtu",
    }
}

/// Adds numbers of two octets, the low octet first, and then octets, or a dash for neither.
fn push_parts(text: &mut Text, words: &[u16], rest: &[u8]) -> Result<(), NoMemory>
    ensures { OnOk result (text.new.items ≡ text.old.items ++ octets_text (flat_map le16 words.now ++ rest.now)) }
{
    if words.is_empty() {
        return push_octets(text, rest);
    }
    for word in words {
        push_hex(text, &word.to_le_bytes())?;
    }
    push_hex(text, rest)?;
    Ok(())
}

/// Adds the payload of a command.
fn push_payload(text: &mut Text, kind: &SignalKind<'_>) -> Result<(), NoMemory>
    ensures { OnOk result (text.new.items ≡ text.old.items ++ octets_text (payload_of (content kind.now))) }
{
    match *kind {
        SignalKind::Reject { reason, rest } => push_parts(text, &[reason], rest),
        SignalKind::ConnectionRequest { psm, source } => { push_parts(text, &[psm, source], &[]) }
        SignalKind::ConnectionResponse {
            destination,
            source,
            result,
            status,
        } => push_parts(text, &[destination, source, result, status], &[]),
        SignalKind::ConfigurationRequest {
            destination,
            flags,
            options,
        } => push_parts(text, &[destination, flags], options),
        SignalKind::ConfigurationResponse {
            source,
            flags,
            result,
            options,
        } => push_parts(text, &[source, flags, result], options),
        SignalKind::DisconnectionRequest {
            destination,
            source,
        }
        | SignalKind::DisconnectionResponse {
            destination,
            source,
        } => push_parts(text, &[destination, source], &[]),
        SignalKind::EchoRequest { octets } | SignalKind::EchoResponse { octets } => {
            push_octets(text, octets)
        }
        SignalKind::InformationRequest { kind } => push_parts(text, &[kind], &[]),
        SignalKind::InformationResponse { kind, result, rest } => {
            push_parts(text, &[kind, result], rest)
        }
    }
}

/// Adds the line of a command.
fn push_signal(text: &mut Text, signal: &Signal<'_>) -> Result<(), NoMemory>
    ensures { OnOk result (text.new.items ≡ text.old.items ++ signal_text (Ok (command signal.now))) }
{
    let (code, name) = kind_text(&signal.kind);
    push_text(text, "  sig ")?;
    push_hex(text, &[code])?;
    push_text(text, " ")?;
    push_hex(text, &[signal.identifier])?;
    push_text(text, " ")?;
    push_text(text, name)?;
    push_text(text, " ")?;
    push_payload(text, &signal.kind)?;
    push_text(text, "\n")
}

/// Adds the line of a command, or of its refusal.
fn push_answer(text: &mut Text, given: Result<Signal<'_>, SignalRefusal>) -> Result<(), NoMemory>
    ensures { OnOk result (text.new.items ≡ text.old.items ++ signal_text (answer given.entry)) }
{
    match given {
        Ok(signal) => push_signal(text, &signal),
        Err(refusal) => {
            push_text(text, "  sig bad ")?;
            push_text(text, refused_name(refusal))?;
            push_text(text, "\n")
        }
    }
}

/// Adds the lines of all that a payload says.
pub(crate) fn push_signals(text: &mut Text, payload: &[u8]) -> Result<(), NoMemory>
    ensures { OnOk result (text.new.items ≡ text.old.items ++ signals_text payload.now) }
{
    let mut signals = signals_of(payload);
    while let Some(given) = signals.next() {
        push_answer(text, given)?;
    }
    Ok(())
}
