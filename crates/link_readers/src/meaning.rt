//! Requests, which of them a response answers, and what that means.

ghost use Rattle.std.specs.Prelude.{◌≡◌, ◌++◌, ◌==◌, ◌&&◌, nat_le, nat_lt, not, Bool, List, IfOk, OnOk, filter, map, reverse, option_map, option_to_list};
ghost use Rattle.std.specs.List.{list_any};
ghost use Rattle.l2cap_config.specs.Reading.{options_read};
ghost use Rattle.link_talk.specs.Requests.{last_run, no_requests, requests_after, went, has_source, is_call, answered_call, has_identifier, answered_query, is_failure, has_failed, is_own_call, counted, with_failures, called, queried, failed, call, query, failure, call_wanted, query_terms};
ghost use Rattle.link_talk.specs.Meanings.{granted, made, answered, is_read, settled, replied, wished, meant};
ghost use Rattle.link_readers.specs.Lent.{plain_sense, plain_question, plain_reply, plain_terms, plain_query, plain_meaning, plain_requests};

use crate::sensing::{Question, Reply, Sense};
use bt_base::NoMemory;
use capture::Flow;
use l2cap_config::options_of;
use link_talk::{Call, Channel, Failure, Wanted, Word};
use std::alloc::Global;

/// The code of a connection request.
const CONNECTION_REQUEST: u8 = 0x02;

/// The code of a configuration request.
const CONFIGURATION_REQUEST: u8 = 0x04;

/// The least endpoint that a channel can have.
const FIRST_ENDPOINT: u16 = 0x0040;

/// The result of a configuration response that another one follows.
const PENDING: u16 = 4;

/// What the peer asks for on the channel of an endpoint of the host.
#[derive(Debug, Drop)]
pub(crate) struct Terms {
    own: u16,
    options: Vec<u8>,
}

/// A request of the peer for options.
#[derive(Debug, Drop)]
pub(crate) struct Query {
    identifier: u8,
    terms: Option<Terms>,
}

/// A request of the peer for options, as the host answered it.
#[derive(Clone, Copy, Debug)]
pub struct Part<'a> {
    pub own: u16,
    pub peer: u16,
    pub accepted: bool,
    pub more: bool,
    pub options: &'a [u8],
}

/// What a saying means for the channels of its link.
#[derive(Clone, Copy, Debug)]
pub enum Meaning<'a> {
    Makes(Channel),
    Answers(Part<'a>),
    Wishes {
        identifier: u8,
        peer: u16,
        options: &'a [u8],
    },
    Settles {
        identifier: u8,
        own: u16,
    },
    Parts {
        word: Word,
        own: u16,
        peer: u16,
    },
    Nothing,
}

/// The requests so far, the latest last.
#[derive(Debug, Drop)]
pub struct Requests {
    calls: Vec<Call>,
    queries: Vec<Query>,
    failures: Vec<Failure>,
}

fn call_of(flow: Flow, identifier: u8, question: &Question<'_>) -> Option<Call>
    ensures { result ≡ called flow identifier (plain_question question.now) }
{
    match *question {
        Question::ForChannel { psm, source } => Some(Call {
            flow,
            identifier,
            wanted: Some(Wanted { psm, source }),
        }),
        Question::Unread { code } if code == CONNECTION_REQUEST => Some(Call {
            flow,
            identifier,
            wanted: None,
        }),
        _ => None,
    }
}

fn query_of(
    alloc: Global,
    identifier: u8,
    question: &Question<'_>,
) -> Result<Option<Query>, NoMemory>
    ensures { IfOk result (λ query. option_map plain_query query ≡ queried identifier (plain_question question.now)) }
{
    match *question {
        Question::ForOptions { endpoint, options } => {
            let options = Vec::from_slice(alloc, options)?;
            Ok(Some(Query {
                identifier,
                terms: Some(Terms {
                    own: endpoint,
                    options,
                }),
            }))
        }
        Question::Unread { code } if code == CONFIGURATION_REQUEST => Ok(Some(Query {
            identifier,
            terms: None,
        })),
        _ => Ok(None),
    }
}

fn failure_of(identifier: u8, reply: &Reply<'_>) -> Option<Failure>
    ensures { result ≡ failed identifier (plain_reply reply.now) }
{
    match *reply {
        Reply::OnChannel { source, answer, .. } if answer > 1 => Some(Failure {
            identifier,
            own: source,
        }),
        _ => None,
    }
}

fn call_in(sense: &Sense<'_>) -> Option<Call>
    ensures { result ≡ call (plain_sense sense.now) }
{
    match sense {
        Sense::Asks {
            flow,
            identifier,
            question,
        } => call_of(*flow, *identifier, question),
        _ => None,
    }
}

fn query_in(alloc: Global, sense: &Sense<'_>) -> Result<Option<Query>, NoMemory>
    ensures { IfOk result (λ found. option_map plain_query found ≡ query (plain_sense sense.now)) }
{
    match sense {
        Sense::Asks {
            flow: Flow::Into,
            identifier,
            question,
        } => query_of(alloc, *identifier, question),
        _ => Ok(None),
    }
}

fn failure_in(sense: &Sense<'_>) -> Option<Failure>
    ensures { result ≡ failure (plain_sense sense.now) }
{
    match sense {
        Sense::Opens {
            flow: Flow::Into,
            identifier,
            reply,
        } => failure_of(*identifier, reply),
        _ => None,
    }
}

fn is_call(identifier: u8, source: u16, one: &Call) -> bool
    ensures { result ≡ is_call identifier source one.now }
{
    match one.wanted {
        Some(wanted) => one.identifier == identifier && wanted.source == source,
        None => false,
    }
}

fn granted<'a>(own: u16, peer: u16, wanted: Option<Wanted>) -> Meaning<'a>
    ensures { plain_meaning result ≡ granted own peer wanted }
{
    match wanted {
        Some(wanted) => Meaning::Makes(Channel {
            psm: wanted.psm,
            own,
            peer,
        }),
        None => Meaning::Nothing,
    }
}

fn answered(peer: u16, flags: u16, answer: u16, terms: Option<&Terms>) -> Meaning<'_>
    ensures { plain_meaning result ≡ answered peer flags answer (option_map (λ one. plain_terms one.now) terms.entry) }
{
    match terms {
        Some(terms) => Meaning::Answers(Part {
            own: terms.own,
            peer,
            accepted: answer == 0,
            more: flags % 2 == 1,
            options: &terms.options,
        }),
        None => Meaning::Nothing,
    }
}

fn settled<'a>(identifier: u8, own: u16, answer: u16, options: &[u8]) -> Meaning<'a>
    ensures { plain_meaning result ≡ settled identifier own answer options.now }
{
    if options_of(options).is_ok() && answer != PENDING {
        return Meaning::Settles { identifier, own };
    }
    Meaning::Nothing
}

fn wished<'a>(flow: Flow, identifier: u8, question: &Question<'a>) -> Meaning<'a>
    ensures { plain_meaning result ≡ wished flow identifier (plain_question question.now) }
{
    match *question {
        Question::ForOptions { endpoint, options } if flow == Flow::Out => Meaning::Wishes {
            identifier,
            peer: endpoint,
            options,
        },
        _ => Meaning::Nothing,
    }
}

fn is_among(failures: &[Failure], identifier: u8, own: u16) -> bool
    ensures { result ≡ list_any (is_failure identifier own) failures.now }
{
    for one in failures {
        if one.identifier == identifier && one.own == own {
            return true;
        }
    }
    false
}

fn is_own_among(calls: &[Call], identifier: u8, own: u16) -> bool
    ensures { result ≡ list_any (is_own_call identifier own) calls.now }
{
    for one in calls {
        if one.flow == Flow::Out && is_call(identifier, own, one) {
            return true;
        }
    }
    false
}

impl Requests {
    /// No requests.
    pub fn new(alloc: Global) -> Requests
        ensures { plain_requests result ≡ no_requests }
    {
        Requests {
            calls: Vec::new(alloc),
            queries: Vec::new(alloc),
            failures: Vec::new(alloc),
        }
    }

    /// What was asked for in one direction by the request that a response answers: the first of the
    /// last run of requests with its identifier and the requester's endpoint.
    fn answered_call(&self, flow: Flow, identifier: u8, source: u16) -> Option<Wanted>
        ensures { result ≡ answered_call (plain_requests self.now) flow identifier source }
    {
        let mut found: Option<Call> = None;
        let mut runs = false;
        for one in &self.calls {
            if one.flow == flow {
                let fits = is_call(identifier, source, one);
                if fits && !runs {
                    found = Some(*one);
                }
                runs = fits;
            }
        }
        found?.wanted
    }

    /// The request for options that a response of the host answers: the first of the last run of
    /// requests with its identifier.
    fn answered_query(&self, identifier: u8) -> Option<&Terms>
        ensures { option_map (λ terms. plain_terms terms.now) result ≡ answered_query (plain_requests self.now) identifier }
    {
        let mut found: Option<&Query> = None;
        let mut runs = false;
        for one in &self.queries {
            let fits = one.identifier == identifier;
            if fits && !runs {
                found = Some(one);
            }
            runs = fits;
        }
        found?.terms.as_ref()
    }

    #[tactic(auto, using(crate::proofs::Runs::any_reverse))]
    fn has_failed(&self, identifier: u8, own: u16) -> bool
        ensures { result ≡ has_failed (plain_requests self.now) identifier own }
    {
        is_among(&self.failures, identifier, own)
    }

    fn made(&self, flow: Flow, identifier: u8, destination: u16, source: u16) -> Meaning<'static>
        ensures { plain_meaning result ≡ made (plain_requests self.now) flow identifier destination source }
    {
        match flow {
            Flow::Out => {
                let wanted = self.answered_call(Flow::Into, identifier, source);
                granted(destination, source, wanted)
            }
            Flow::Into => {
                if self.has_failed(identifier, source) {
                    return Meaning::Nothing;
                }
                let wanted = self.answered_call(Flow::Out, identifier, source);
                granted(source, destination, wanted)
            }
        }
    }

    fn replied(&self, flow: Flow, identifier: u8, reply: &Reply<'_>) -> Meaning<'_>
        ensures { plain_meaning result ≡ replied (plain_requests self.now) flow identifier (plain_reply reply.now) }
    {
        match *reply {
            Reply::OnChannel {
                destination,
                source,
                answer,
            } => {
                if answer == 0 && destination >= FIRST_ENDPOINT {
                    return self.made(flow, identifier, destination, source);
                }
                Meaning::Nothing
            }
            Reply::OnOptions {
                endpoint,
                flags,
                answer,
                options,
            } => match flow {
                Flow::Out => answered(endpoint, flags, answer, self.answered_query(identifier)),
                Flow::Into => settled(identifier, endpoint, answer, options),
            },
        }
    }

    /// What a saying means behind the requests so far.
    pub fn meant<'m>(&'m self, sense: &Sense<'m>) -> Meaning<'m>
        ensures { plain_meaning result ≡ meant (plain_requests self.now) (plain_sense sense.now) }
    {
        match sense {
            Sense::Asks {
                flow,
                identifier,
                question,
            } => wished(*flow, *identifier, question),
            Sense::Opens {
                flow,
                identifier,
                reply,
            } => self.replied(*flow, *identifier, reply),
            Sense::Ends { word, own, peer } => Meaning::Parts {
                word: *word,
                own: *own,
                peer: *peer,
            },
            Sense::Quiet => Meaning::Nothing,
        }
    }

    /// Whether the request stands here that a refusal is for.
    #[tactic(auto, using(crate::proofs::Runs::any_reverse))]
    fn is_asked(&self, one: &Failure) -> bool
        ensures { result ≡ list_any (is_own_call one.now.identifier one.now.own) (plain_requests self.now).calls }
    {
        is_own_among(&self.calls, one.identifier, one.own)
    }

    /// Adds a refusal, where its request stands here.
    fn push_failure(&mut self, found: Option<Failure>) -> Result<(), NoMemory>
        ensures { OnOk result (plain_requests self.new ≡ with_failures (plain_requests self.old) (counted (plain_requests self.old).calls found)) }
    {
        let Some(one) = found else {
            return Ok(());
        };
        if self.is_asked(&one) {
            self.failures.push(one)?;
        }
        Ok(())
    }

    /// Adds what a saying asks for, or what came to nothing by it. `NoMemory` is answered for want of memory
    /// alone.
    pub fn hear(&mut self, alloc: Global, sense: &Sense<'_>) -> Result<(), NoMemory>
        ensures { OnOk result (plain_requests self.new ≡ requests_after (plain_requests self.old) (plain_sense sense.now)) }
    {
        self.push_failure(failure_in(sense))?;
        if let Some(one) = call_in(sense) {
            self.calls.push(one)?;
        }
        if let Some(one) = query_in(alloc, sense)? {
            self.queries.push(one)?;
        }
        Ok(())
    }
}
