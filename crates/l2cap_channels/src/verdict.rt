//! How a request of the peer for the options of a channel is judged.

ghost use Rattle.std.specs.Prelude.{◌≡◌, []};
ghost use Rattle.l2cap_signal.specs.Commands.{configuration_response};
ghost use Rattle.l2cap_config.specs.Writing.{written};
ghost use Rattle.channel_model.specs.Answers as table;
ghost use Rattle.channel_model.specs.Configuring.{judged_setup};
ghost use Rattle.l2cap_channels.specs.Places.{setup_value};
ghost use Rattle.l2cap_channels.specs.Responses.{response_value};
ghost use Rattle.l2cap_channels.specs.Steps.{verdict_value, IsJudgedBy};

use crate::hearing::no_such_channel;
use crate::line::Line;
use crate::response::{Head, Response};
use crate::setup::Setup;
use l2cap_config::{ConfigAnswer, Options, Wish, answer, merged, options_of, put_options};

/// How a request of the peer for the options of a channel is judged. `peer` is its endpoint.
#[derive(Drop)]
pub(crate) enum Verdict {
    /// There is no such channel, or it is only asked for.
    NoChannel,
    /// The channel is open or was closed.
    TooLate(u16),
    /// The octets are no list of whole options.
    Unreadable(u16),
    /// More options follow; all so far.
    Incomplete(u16, Options),
    /// All options, and what is answered to them.
    Judged(u16, Options, ConfigAnswer),
}

/// How options are judged, of a channel that is there.
pub(crate) fn judged(
    peer: u16,
    flags: u16,
    wish: &Wish,
    setup: &Setup,
    line: &Line,
    octets: &[u8],
) -> Verdict
    ensures verdict { verdict_value result ≡ judged_setup peer flags wish.now (setup_value setup.now line.now) octets.now }
    ensures judged { IsJudgedBy wish.now (verdict_value result) }
{
    if line.carries() && setup.own.is_granted() {
        return Verdict::TooLate(peer);
    }
    let Ok(options) = options_of(octets) else {
        return Verdict::Unreadable(peer);
    };
    let all = merged(&setup.parts, &options);
    if flags % 2 == 1 {
        return Verdict::Incomplete(peer, all);
    }
    let answer = answer(wish, &all);
    Verdict::Judged(peer, all, answer)
}

/// A response with this result and these options.
#[tactic(auto, using(crate::proofs::Sizes::short_written))]
fn with_options(peer: u16, answer: u16, options: &Options) -> Response
    ensures { response_value result ≡ configuration_response peer 0 answer (written options.now) }
{
    let mut octets = [0; 18];
    let size = put_options(options, &mut octets);
    let head = Head::Configuration {
        source: peer,
        flags: 0,
        answer,
    };
    Response::with_octets(head, &octets[..size])
}

/// What is answered to options that were judged.
fn judged_response(peer: u16, options: &Options, answer: &ConfigAnswer) -> Response
    ensures { response_value result ≡ table.judged_answer answer.now peer options.now }
{
    match answer {
        ConfigAnswer::Accept(given) => with_options(peer, 0, given),
        ConfigAnswer::Unacceptable(_, given) => with_options(peer, 1, given),
        ConfigAnswer::Unknown => {
            let head = Head::Configuration {
                source: peer,
                flags: 0,
                answer: 3,
            };
            Response::with_octets(head, options.unknown.as_slice())
        }
    }
}

/// A response without options.
fn plain_response(peer: u16, flags: u16, answer: u16) -> Response
    ensures { response_value result ≡ configuration_response peer flags answer [] }
{
    Response::plain(Head::Configuration {
        source: peer,
        flags,
        answer,
    })
}

impl Verdict {
    /// What is answered to the request, for the channel of an own endpoint.
    pub(crate) fn response(&self, own: u16) -> Response
        ensures { response_value result ≡ table.configuration_answer (verdict_value self.now) own }
    {
        match self {
            Verdict::NoChannel => no_such_channel(own, 0),
            Verdict::TooLate(peer) => plain_response(*peer, 0, 2),
            Verdict::Unreadable(peer) => plain_response(*peer, 0, 2),
            Verdict::Incomplete(peer, _) => plain_response(*peer, 1, 0),
            Verdict::Judged(peer, options, answer) => judged_response(*peer, options, answer),
        }
    }
}
