//! What a command is for a channel.

ghost use Rattle.std.specs.Prelude.{◌≡◌};
ghost use Rattle.l2cap_signal.specs.Commands.{content};
ghost use Rattle.link_talk.specs.Senses.{farewell, farewell_answered, sense_of, unread, sense_refused, sense};
ghost use Rattle.link_readers.specs.Lent.{plain_saying, plain_sense};

use crate::Saying;
use capture::Flow;
use l2cap_signal::{SignalKind, SignalRefusal};
use link_talk::Word;

/// What a request asks for.
#[derive(Clone, Copy, Debug)]
pub enum Question<'a> {
    ForChannel { psm: u16, source: u16 },
    ForOptions { endpoint: u16, options: &'a [u8] },
    Unread { code: u8 },
}

/// What a response answers.
#[derive(Clone, Copy, Debug)]
pub enum Reply<'a> {
    OnChannel {
        destination: u16,
        source: u16,
        answer: u16,
    },
    OnOptions {
        endpoint: u16,
        flags: u16,
        answer: u16,
        options: &'a [u8],
    },
}

/// What a saying is for a channel.
#[derive(Clone, Copy, Debug)]
pub enum Sense<'a> {
    Asks {
        flow: Flow,
        identifier: u8,
        question: Question<'a>,
    },
    Opens {
        flow: Flow,
        identifier: u8,
        reply: Reply<'a>,
    },
    Ends {
        word: Word,
        own: u16,
        peer: u16,
    },
    Quiet,
}

fn farewell<'a>(flow: Flow, destination: u16, source: u16) -> Sense<'a>
    ensures { plain_sense result ≡ farewell flow destination source }
{
    match flow {
        Flow::Out => Sense::Ends {
            word: Word::AsksEnd,
            own: source,
            peer: destination,
        },
        Flow::Into => Sense::Quiet,
    }
}

fn farewell_answered<'a>(flow: Flow, destination: u16, source: u16) -> Sense<'a>
    ensures { plain_sense result ≡ farewell_answered flow destination source }
{
    match flow {
        Flow::Out => Sense::Ends {
            word: Word::AnswersEnd,
            own: destination,
            peer: source,
        },
        Flow::Into => Sense::Ends {
            word: Word::EndAnswered,
            own: source,
            peer: destination,
        },
    }
}

fn sense_of<'a>(flow: Flow, identifier: u8, kind: &SignalKind<'a>) -> Sense<'a>
    ensures { plain_sense result ≡ sense_of flow identifier (content kind.now) }
{
    match *kind {
        SignalKind::ConnectionRequest { psm, source } => Sense::Asks {
            flow,
            identifier,
            question: Question::ForChannel { psm, source },
        },
        SignalKind::ConnectionResponse {
            destination,
            source,
            result,
            ..
        } => Sense::Opens {
            flow,
            identifier,
            reply: Reply::OnChannel {
                destination,
                source,
                answer: result,
            },
        },
        SignalKind::ConfigurationRequest {
            destination,
            options,
            ..
        } => Sense::Asks {
            flow,
            identifier,
            question: Question::ForOptions {
                endpoint: destination,
                options,
            },
        },
        SignalKind::ConfigurationResponse {
            source,
            flags,
            result,
            options,
        } => Sense::Opens {
            flow,
            identifier,
            reply: Reply::OnOptions {
                endpoint: source,
                flags,
                answer: result,
                options,
            },
        },
        SignalKind::DisconnectionRequest {
            destination,
            source,
        } => farewell(flow, destination, source),
        SignalKind::DisconnectionResponse {
            destination,
            source,
        } => farewell_answered(flow, destination, source),
        _ => Sense::Quiet,
    }
}

fn sense_refused<'a>(flow: Flow, refusal: SignalRefusal) -> Sense<'a>
    ensures { plain_sense result ≡ sense_refused flow refusal }
{
    match refusal {
        SignalRefusal::BadLength {
            code,
            identifier: Some(identifier),
        } if identifier != 0 => Sense::Asks {
            flow,
            identifier,
            question: Question::Unread { code },
        },
        _ => Sense::Quiet,
    }
}

/// What a saying is for a channel (Core 5.1, Volume 3 Part A, 4).
pub fn sense_in<'a>(saying: &Saying<'a>) -> Sense<'a>
    ensures { plain_sense result ≡ sense (plain_saying saying.now) }
{
    match *saying {
        Saying::Command(flow, Ok(signal)) => sense_of(flow, signal.identifier, &signal.kind),
        Saying::Command(flow, Err(refusal)) => sense_refused(flow, refusal),
        Saying::Carried(..) => Sense::Quiet,
    }
}
