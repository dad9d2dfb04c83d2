//! A command as its octets.

ghost use Rattle.std.specs.Prelude.{◌≡◌, ◌≤◌, ◌<◌, ◌+◌, ◌*◌, ◌^◌, ◌∷◌, ◌++◌, [], length, drop};
ghost use Rattle.std.specs.List.{flat_map};
ghost use Rattle.bt_base.specs.Octets.{le16};
ghost use Rattle.l2cap_signal.specs.Commands.{content, command, code_of, payload_of, spelling};
ghost use Rattle.l2cap_signal.specs.Writing.{overwritten};

use crate::signal::{Signal, SignalKind};

/// A code, an identifier and the payload's length in two octets.
const HEADER_SIZE: usize = 4;

/// Writes a command from the front of `into`, and answers how many octets it has. The octets behind
/// it stay as they are.
pub fn put_signal(signal: &Signal<'_>, into: &mut [u8]) -> usize
    requires identifier { 0 < signal.now.identifier }
    requires size { length (payload_of (content signal.now.kind)) < 2 ^ 16 }
    requires room { length (spelling (command signal.now)) ≤ length into.old }
    ensures count { result ≡ length (spelling (command signal.now)) }
    ensures octets { into.new ≡ spelling (command signal.now) ++ drop (length (spelling (command signal.now))) into.old }
{
    let end = put_payload(&signal.kind, HEADER_SIZE, into);
    let size = (end - HEADER_SIZE) as u16;
    let [low, high] = size.to_le_bytes();
    put_octets(
        &[code_of(&signal.kind), signal.identifier, low, high],
        0,
        into,
    );
    end
}

fn code_of(kind: &SignalKind<'_>) -> u8
    ensures { result ≡ code_of (content kind.now) }
{
    match kind {
        SignalKind::Reject { .. } => 1,
        SignalKind::ConnectionRequest { .. } => 2,
        SignalKind::ConnectionResponse { .. } => 3,
        SignalKind::ConfigurationRequest { .. } => 4,
        SignalKind::ConfigurationResponse { .. } => 5,
        SignalKind::DisconnectionRequest { .. } => 6,
        SignalKind::DisconnectionResponse { .. } => 7,
        SignalKind::EchoRequest { .. } => 8,
        SignalKind::EchoResponse { .. } => 9,
        SignalKind::InformationRequest { .. } => 10,
        SignalKind::InformationResponse { .. } => 11,
    }
}

/// Writes the payload of a command from `at` on, and answers the place behind it.
fn put_payload(kind: &SignalKind<'_>, at: usize, into: &mut [u8]) -> usize
    requires { at + length (payload_of (content kind.now)) ≤ length into.old }
    ensures end { result ≡ at + length (payload_of (content kind.now)) }
    ensures octets { into.new ≡ overwritten at (payload_of (content kind.now)) into.old }
{
    match *kind {
        SignalKind::Reject { reason, rest } => put_parts(&[reason], rest, at, into),
        SignalKind::ConnectionRequest { psm, source } => put_parts(&[psm, source], &[], at, into),
        SignalKind::ConnectionResponse {
            destination,
            source,
            result: answer,
            status,
        } => put_parts(&[destination, source, answer, status], &[], at, into),
        SignalKind::ConfigurationRequest {
            destination,
            flags,
            options,
        } => put_parts(&[destination, flags], options, at, into),
        SignalKind::ConfigurationResponse {
            source,
            flags,
            result: answer,
            options,
        } => put_parts(&[source, flags, answer], options, at, into),
        SignalKind::DisconnectionRequest {
            destination,
            source,
        } => { put_parts(&[destination, source], &[], at, into) }
        SignalKind::DisconnectionResponse {
            destination,
            source,
        } => { put_parts(&[destination, source], &[], at, into) }
        SignalKind::EchoRequest { octets } => put_octets(octets, at, into),
        SignalKind::EchoResponse { octets } => put_octets(octets, at, into),
        SignalKind::InformationRequest { kind } => put_parts(&[kind], &[], at, into),
        SignalKind::InformationResponse {
            kind,
            result: answer,
            rest,
        } => put_parts(&[kind, answer], rest, at, into),
    }
}

/// Writes numbers of two octets and then octets from `at` on, and answers the place behind them.
fn put_parts(words: &[u16], rest: &[u8], at: usize, into: &mut [u8]) -> usize
    requires { at + (2 * length words.now + length rest.now) ≤ length into.old }
    ensures end { result ≡ at + (2 * length words.now + length rest.now) }
    ensures octets { into.new ≡ overwritten at (flat_map le16 words.now ++ rest.now) into.old }
{
    let behind = put_words(words, at, into);
    put_octets(rest, behind, into)
}

/// Writes numbers of two octets from `at` on, the low octet first, and answers the place behind them.
fn put_words(words: &[u16], at: usize, into: &mut [u8]) -> usize
    requires { at + 2 * length words.now ≤ length into.old }
    ensures end { result ≡ at + 2 * length words.now }
    ensures octets { into.new ≡ overwritten at (flat_map le16 words.now) into.old }
{
    let mut end = at;
    for word in words {
        end = put_octets(&word.to_le_bytes(), end, into);
    }
    end
}

/// Writes octets from `at` on, and answers the place behind them.
fn put_octets(octets: &[u8], at: usize, into: &mut [u8]) -> usize
    requires { at + length octets.now ≤ length into.old }
    ensures end { result ≡ at + length octets.now }
    ensures octets { into.new ≡ overwritten at octets.now into.old }
{
    let end = at + octets.len();
    into[at..end].copy_from_slice(octets);
    end
}
