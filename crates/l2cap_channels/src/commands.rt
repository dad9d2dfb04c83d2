//! The commands of a payload on the signalling channel.

ghost use Rattle.std.specs.Prelude.{◌≡◌, ◌≤◌, ◌<◌, ◌+◌, ◌==◌, [], Some, length, if◌then◌else◌};
ghost use Rattle.l2cap_signal.specs.Commands.{content, rest_of};
ghost use Rattle.l2cap_signal.specs.Reading.{answer, answers};
ghost use Rattle.channel_model.specs.Answers as table;
ghost use Rattle.channel_model.specs.Following as following;
ghost use Rattle.channel_model.specs.Hearing as hearing;
ghost use Rattle.channel_model.specs.Responses as responses;
ghost use Rattle.l2cap_channels.specs.Machine.{policy_of, with_channels};
ghost use Rattle.l2cap_channels.specs.Usable.{IsUsable};

use crate::channels::Channels;
use crate::identifier::Identifier;
use byteorder::{ByteOrder, LittleEndian};
use channel_model::RequestKind;
use l2cap_signal::{Signal, SignalKind, SignalRefusal, signals_of};

/// The kind of request that has a code, where one has (Core 5.1, Volume 3 Part A, table 4.2).
fn kind_of_code(code: u8) -> Option<RequestKind>
    ensures { result ≡ table.kind_of_code code }
{
    match code {
        0x02 => Some(RequestKind::Connection),
        0x04 => Some(RequestKind::Configuration),
        0x06 => Some(RequestKind::Disconnection),
        0x08 => Some(RequestKind::Echo),
        0x0A => Some(RequestKind::Information),
        _ => None,
    }
}

/// Whether a response has the code (Core 5.1, Volume 3 Part A, table 4.2).
fn is_response_code(code: u8) -> bool
    ensures { result ≡ hearing.is_response_code code }
{
    code <= 0x0B && code % 2 == 1
}

/// The features that an information response tells, where it does (Core 5.1, Volume 3 Part A, 4.11).
fn features_in(kind: u16, answer: u16, rest: &[u8]) -> Option<u32>
    ensures { result ≡ responses.features_in kind answer rest.now }
{
    if kind != 2 || answer != 0 || rest.len() < 4 {
        return None;
    }
    Some(LittleEndian::read_u32(rest))
}

impl Channels {
    /// A command comes.
    fn hear_signal(&mut self, signal: &Signal<'_>)
        requires identifier { 1 ≤ signal.now.identifier }
        requires rest { length (rest_of (content signal.now.kind)) ≤ 668 }
        requires room { length self.old.channels.events < 168 }
        ensures after { self.new ≡ with_channels self.old (hearing.hears_content (policy_of self.old) signal.now.identifier (content signal.now.kind) self.old.channels) }
        ensures few { length self.new.channels.events ≤ length self.old.channels.events + 1 }
    {
        let identifier = Identifier::of(signal.identifier);
        match signal.kind {
            SignalKind::Reject { .. } => self.hear_features(identifier, None),
            SignalKind::ConnectionRequest { psm, source } => {
                self.hear_connection(identifier, psm, source);
            }
            SignalKind::ConnectionResponse {
                destination,
                source,
                result: answer,
                ..
            } => self.hear_connected(identifier, source, destination, answer),
            SignalKind::ConfigurationRequest {
                destination,
                flags,
                options,
            } => self.hear_configuration(identifier, destination, flags, options),
            SignalKind::ConfigurationResponse {
                source,
                result: answer,
                options,
                ..
            } => self.hear_response(identifier, source, answer, options),
            SignalKind::DisconnectionRequest {
                destination,
                source,
            } => self.hear_disconnection(identifier, destination, source),
            SignalKind::DisconnectionResponse {
                destination,
                source,
            } => self.hear_end(source, destination),
            SignalKind::EchoRequest { octets } => self.hear_echo(identifier, octets),
            SignalKind::EchoResponse { .. } => {}
            SignalKind::InformationRequest { kind } => self.hear_question(identifier, kind),
            SignalKind::InformationResponse {
                kind,
                result: answer,
                rest,
            } => self.hear_features(identifier, features_in(kind, answer, rest)),
        }
    }

    /// A command comes that is malformed or has an unknown code. A response of that kind is nothing.
    fn hear_unread(&mut self, code: u8, identifier: u8)
        ensures after { self.new ≡ with_channels self.old (hearing.hears_unread code identifier self.old.channels) }
        ensures few { length self.new.channels.events ≤ length self.old.channels.events + 1 }
    {
        if identifier == 0 || is_response_code(code) {
            return;
        }
        let identifier = Identifier::of(identifier);
        match kind_of_code(code) {
            Some(kind) => self.hear_malformed(kind, identifier),
            None => self.hear_unknown(identifier),
        }
    }

    /// A payload comes that is too long, with this identifier in front.
    fn hear_above(&mut self, identifier: u8)
        ensures after { self.new ≡ with_channels self.old (if identifier == 0 then self.old.channels else following.hears_again identifier (Some table.too_long) self.old.channels) }
        ensures few { length self.new.channels.events ≤ length self.old.channels.events + 1 }
    {
        if identifier != 0 {
            self.hear_too_long(Identifier::of(identifier));
        }
    }

    /// Octets come that are no command.
    fn hear_refused(&mut self, refusal: SignalRefusal)
        ensures after { self.new ≡ with_channels self.old (hearing.hears_refused refusal self.old.channels) }
        ensures few { length self.new.channels.events ≤ length self.old.channels.events + 1 }
    {
        match refusal {
            SignalRefusal::ZeroIdentifier { .. } => {}
            SignalRefusal::BadLength { code, identifier } => {
                if let Some(identifier) = identifier {
                    self.hear_unread(code, identifier);
                }
            }
            SignalRefusal::UnknownCode { code, identifier } => {
                if let Some(identifier) = identifier {
                    self.hear_unread(code, identifier);
                }
            }
            SignalRefusal::AboveMtu { identifier, .. } => {
                if let Some(identifier) = identifier {
                    self.hear_above(identifier);
                }
            }
        }
    }

    /// What is at the front of a payload is heard.
    fn hear_command(&mut self, heard: Result<Signal<'_>, SignalRefusal>)
        requires usable { IsUsable (answer heard) }
        requires room { length self.old.channels.events < 168 }
        ensures after { self.new ≡ with_channels self.old (hearing.hears_command (policy_of self.old) (answer heard.entry) self.old.channels) }
        ensures few { length self.new.channels.events ≤ length self.old.channels.events + 1 }
    {
        match heard {
            Ok(signal) => self.hear_signal(&signal),
            Err(refusal) => self.hear_refused(refusal),
        }
    }

    /// The commands of a payload are heard, one after the other.
    #[tactic(auto, using(crate::proofs::Usable::all_usable, crate::proofs::Usable::few_answers))]
    pub(crate) fn hear_commands(&mut self, payload: &[u8])
        requires { self.old.channels.events ≡ [] }
        ensures { self.new ≡ with_channels self.old (hearing.hears_commands (policy_of self.old) (answers payload.now) self.old.channels) }
    {
        let mut signals = signals_of(payload);
        while let Some(heard) = signals.next() {
            self.hear_command(heard);
        }
    }
}
