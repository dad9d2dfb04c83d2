//! What the payload of a command says, by the command's code.

ghost use Rattle.std.specs.Prelude.{◌≡◌, ◌≤◌, ◌<◌, ◌+◌, length, option_map};
ghost use Rattle.l2cap_signal.specs.Commands.{content};
ghost use Rattle.l2cap_signal.specs.Reading.{word_at, content_of};

use crate::signal::SignalKind;
use byteorder::{ByteOrder, LittleEndian};

/// The number in the two octets from `place` on.
fn word_at(octets: &[u8], place: usize) -> u16
    requires { place + 2 ≤ length octets.now }
    ensures { result ≡ word_at place octets.now }
{
    LittleEndian::read_u16(&octets[place..])
}

/// What a payload says under a code, or None where no payload of that code has its length.
pub fn kind_of(code: u8, payload: &[u8]) -> Option<SignalKind<'_>>
    requires low { 1 ≤ code }
    requires high { code ≤ 11 }
    ensures { option_map content result ≡ content_of code payload.now }
{
    match code {
        1 => reject_of(payload),
        2 => connection_request_of(payload),
        3 => connection_response_of(payload),
        4 => configuration_request_of(payload),
        5 => configuration_response_of(payload),
        6 => disconnection_request_of(payload),
        7 => disconnection_response_of(payload),
        8 => Some(SignalKind::EchoRequest { octets: payload }),
        9 => Some(SignalKind::EchoResponse { octets: payload }),
        10 => information_request_of(payload),
        _ => information_response_of(payload),
    }
}

fn reject_of(payload: &[u8]) -> Option<SignalKind<'_>>
    ensures { option_map content result ≡ content_of 1 payload.now }
{
    if payload.len() < 2 {
        return None;
    }
    let reason = word_at(payload, 0);
    let rest = &payload[2..];
    Some(SignalKind::Reject { reason, rest })
}

fn connection_request_of(payload: &[u8]) -> Option<SignalKind<'_>>
    ensures { option_map content result ≡ content_of 2 payload.now }
{
    if payload.len() != 4 {
        return None;
    }
    let psm = word_at(payload, 0);
    let source = word_at(payload, 2);
    Some(SignalKind::ConnectionRequest { psm, source })
}

fn connection_response_of(payload: &[u8]) -> Option<SignalKind<'_>>
    ensures { option_map content result ≡ content_of 3 payload.now }
{
    if payload.len() != 8 {
        return None;
    }
    let destination = word_at(payload, 0);
    let source = word_at(payload, 2);
    let answer = word_at(payload, 4);
    let status = word_at(payload, 6);
    Some(SignalKind::ConnectionResponse {
        destination,
        source,
        result: answer,
        status,
    })
}

fn configuration_request_of(payload: &[u8]) -> Option<SignalKind<'_>>
    ensures { option_map content result ≡ content_of 4 payload.now }
{
    if payload.len() < 4 {
        return None;
    }
    let destination = word_at(payload, 0);
    let flags = word_at(payload, 2);
    let options = &payload[4..];
    Some(SignalKind::ConfigurationRequest {
        destination,
        flags,
        options,
    })
}

fn configuration_response_of(payload: &[u8]) -> Option<SignalKind<'_>>
    ensures { option_map content result ≡ content_of 5 payload.now }
{
    if payload.len() < 6 {
        return None;
    }
    let source = word_at(payload, 0);
    let flags = word_at(payload, 2);
    let answer = word_at(payload, 4);
    let options = &payload[6..];
    Some(SignalKind::ConfigurationResponse {
        source,
        flags,
        result: answer,
        options,
    })
}

fn disconnection_request_of(payload: &[u8]) -> Option<SignalKind<'_>>
    ensures { option_map content result ≡ content_of 6 payload.now }
{
    if payload.len() != 4 {
        return None;
    }
    let destination = word_at(payload, 0);
    let source = word_at(payload, 2);
    Some(SignalKind::DisconnectionRequest {
        destination,
        source,
    })
}

fn disconnection_response_of(payload: &[u8]) -> Option<SignalKind<'_>>
    ensures { option_map content result ≡ content_of 7 payload.now }
{
    if payload.len() != 4 {
        return None;
    }
    let destination = word_at(payload, 0);
    let source = word_at(payload, 2);
    Some(SignalKind::DisconnectionResponse {
        destination,
        source,
    })
}

fn information_request_of(payload: &[u8]) -> Option<SignalKind<'_>>
    ensures { option_map content result ≡ content_of 10 payload.now }
{
    if payload.len() != 2 {
        return None;
    }
    let kind = word_at(payload, 0);
    Some(SignalKind::InformationRequest { kind })
}

fn information_response_of(payload: &[u8]) -> Option<SignalKind<'_>>
    ensures { option_map content result ≡ content_of 11 payload.now }
{
    if payload.len() < 4 {
        return None;
    }
    let kind = word_at(payload, 0);
    let answer = word_at(payload, 2);
    let rest = &payload[4..];
    Some(SignalKind::InformationResponse {
        kind,
        result: answer,
        rest,
    })
}
