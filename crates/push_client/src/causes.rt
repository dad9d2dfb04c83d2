//! What ends a push, as the client reports it.

ghost use Rattle.std.specs.Prelude.{◌≡◌};
ghost use Rattle.push_model.specs.Causes.{cause_of_link, cause_of_page, refusal_reason, cause_of_machine, cause_of_close, cause_of_query, mux_number, cause_of_mux, obex_number, cause_of_obex, small_channel, unknown_parameters, unawaited_response};

use obex_headers::ObexRefusal;
use push_model::CloseCause;
use push_terms::Outcome;
use rfcomm_mux::MuxReason;
use sdp_client::QueryReason;

// The numbers of the layers.
const HCI: u8 = 1;

const L2CAP: u8 = 2;

const SDP: u8 = 3;

const RFCOMM: u8 = 4;

const OBEX: u8 = 5;

/// The peer ended the link as its user (Core 5.1, Volume 2 Part D, 1.3).
const ENDED_BY_USER: u8 = 0x13;

/// The number with which the machine of a channel says that something was sent as often as may be.
const SENT_TOO_OFTEN: u8 = 5;

/// The end of a link for this reason.
pub(crate) fn of_link(reason: u8) -> Outcome
    ensures { result ≡ cause_of_link reason }
{
    if reason == ENDED_BY_USER {
        Outcome::PeerClosed
    } else {
        Outcome::LinkLost
    }
}

/// No link was made, for this status.
pub(crate) fn of_page(status: u8) -> Outcome
    ensures { result ≡ cause_of_page status }
{
    Outcome::PeerFault(HCI, status)
}

/// The number of a result that refuses a channel.
fn refusal_reason(code: u16) -> u8
    ensures { result ≡ refusal_reason code }
{
    match code {
        2 => 18,
        3 => 19,
        4 => 20,
        _ => 31,
    }
}

fn of_machine(number: u8) -> Outcome
    ensures { result ≡ cause_of_machine number }
{
    if number == SENT_TOO_OFTEN {
        Outcome::RetryLimit
    } else {
        Outcome::PeerFault(L2CAP, number)
    }
}

/// The end of a channel; none where the client itself asked for it.
pub(crate) fn of_close(cause: CloseCause) -> Option<Outcome>
    ensures { result ≡ cause_of_close cause }
{
    match cause {
        CloseCause::Peer => Some(Outcome::PeerClosed),
        CloseCause::Refused(code) => Some(Outcome::PeerFault(L2CAP, refusal_reason(code))),
        CloseCause::NoAgreement => Some(Outcome::PeerFault(L2CAP, 15)),
        CloseCause::RetryLimit => Some(Outcome::RetryLimit),
        CloseCause::Broken(number) => Some(of_machine(number)),
        CloseCause::Own => None,
    }
}

/// The end of a query; none where a reply was to another request.
pub(crate) fn of_query(reason: QueryReason) -> Option<Outcome>
    ensures { result ≡ cause_of_query reason }
{
    match reason {
        QueryReason::BadReply => Some(Outcome::PeerFault(SDP, 1)),
        QueryReason::ErrorCode(_) => Some(Outcome::PeerFault(SDP, 2)),
        QueryReason::WrongTransaction => None,
        QueryReason::TooLong => Some(Outcome::PeerFault(SDP, 4)),
    }
}

fn mux_number(reason: MuxReason) -> u8
    ensures { result ≡ mux_number reason }
{
    match reason {
        MuxReason::Dm => 1,
        MuxReason::Disc => 2,
        MuxReason::NoCreditFlow => 3,
        MuxReason::Overdrawn => 4,
        MuxReason::BadFrame => 5,
        MuxReason::CreditOverflow => 7,
    }
}

/// The end of the multiplexer.
pub(crate) fn of_mux(reason: MuxReason) -> Outcome
    ensures { result ≡ cause_of_mux reason }
{
    Outcome::PeerFault(RFCOMM, mux_number(reason))
}

fn obex_number(refusal: ObexRefusal) -> u8
    ensures { result ≡ obex_number refusal }
{
    match refusal {
        ObexRefusal::Short => 1,
        ObexRefusal::BadLength => 2,
        ObexRefusal::BadHeaderLength => 3,
        ObexRefusal::BadText => 4,
        ObexRefusal::AboveMaximum => 5,
        ObexRefusal::BadVersion => 6,
    }
}

/// A response that is refused.
pub(crate) fn of_obex(refusal: ObexRefusal) -> Outcome
    ensures { result ≡ cause_of_obex refusal }
{
    Outcome::PeerFault(OBEX, obex_number(refusal))
}

/// The peer takes less on the channel of the object than any OBEX packet may need.
pub(crate) fn small_channel() -> Outcome
    ensures { result ≡ small_channel }
{
    Outcome::PeerFault(L2CAP, 14)
}

/// A response has parameters of single response mode: header 98, which is 152.
pub(crate) fn unknown_parameters() -> Outcome
    ensures { result ≡ unknown_parameters }
{
    Outcome::PeerFault(OBEX, 152)
}

/// A response that no request waits for.
pub(crate) fn unawaited_response() -> Outcome
    ensures { result ≡ unawaited_response }
{
    Outcome::PeerFault(OBEX, 153)
}
