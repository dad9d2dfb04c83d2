//! The replies to requests.

ghost use Rattle.std.specs.Prelude.{◌≡◌, ℕ, ◌≤◌, ◌<◌, ◌+◌, ◌^◌, ◌++◌, List, length, IfOk, IfSome, Some};
ghost use Rattle.bt_base.specs.declared.settings.Serves.{Serves};
ghost use Rattle.sdp_elements.specs.Answers.{handles, attribute_lists, attribute_list, Range};
ghost use Rattle.sdp_elements.specs.Exchange.{continuation_at, offset_in, part_reply, error_reply};
ghost use Rattle.sdp_elements.specs.Laws.{tree_octets};
ghost use Rattle.sdp_elements.specs.Pdus.{pdu_in};
ghost use Rattle.sdp_elements.specs.Records.{service_record};
ghost use Rattle.sdp_server.specs.Asking.{IsRequest};
ghost use Rattle.sdp_server.specs.Lists.{Lists, Seeks};
ghost use Rattle.sdp_server.specs.Requests as requests;
ghost use Rattle.sdp_server.specs.Replies.{GivesOctets, code_number, handles_reply, part_from, answered, responded, transaction_of, reply_to};

use crate::fault::ErrorCode;
use crate::list::AttributeList;
use crate::octets::{Octets, append, pdu, sequence};
use crate::pattern::{Pattern, matches};
use crate::request::{Question, Request, request_of};
use crate::service::{RECORD_HANDLE, listed_attributes};
use arrayvec::ArrayVec;
use bt_base::Serves;
use byteorder::{BigEndian, ByteOrder};
use sdp_elements::pdu_of;

fn code_number(code: ErrorCode) -> u8
    ensures { result ≡ code_number code }
{
    match code {
        ErrorCode::InvalidHandle => 2,
        ErrorCode::InvalidSyntax => 3,
        ErrorCode::InvalidSize => 4,
        ErrorCode::InvalidContinuation => 5,
    }
}

/// The place of the answer that a continuation state names: its front without a state. `None` where
/// this server gives no such state.
fn offset_in(continuation: &[u8], len: usize) -> Option<usize>
    ensures offset { result ≡ offset_in continuation.now len }
    ensures within { IfSome result (λ offset. offset ≤ len) }
{
    match continuation.len() {
        0 => Some(0),
        2 => {
            let offset = usize::from(BigEndian::read_u16(continuation));
            if offset == 0 || len <= offset {
                return None;
            }
            Some(offset)
        }
        _ => None,
    }
}

fn append_continuation(out: &mut Octets, len: usize, place: usize)
    requires place { place < 2 ^ 16 }
    requires room { length out.old.items + 3 ≤ 112 }
    ensures items { out.new.items ≡ out.old.items ++ continuation_at len place }
    ensures len { length out.new.items ≤ length out.old.items + 3 }
{
    if place == len {
        append(out, &[0]);
        return;
    }
    let [high, low] = (place as u16).to_be_bytes();
    append(out, &[2, high, low]);
}

/// The reply with the part of an answer from `offset` on, in so much room.
fn part_reply(
    identifier: u8,
    transaction: u16,
    answer: &[u8],
    offset: usize,
    most: u16,
    room: usize,
) -> Octets
    requires answer { length answer.now ≤ 96 }
    requires offset { offset ≤ length answer.now }
    requires room { 10 ≤ room }
    ensures items { result.items ≡ part_reply identifier transaction answer.now offset most room }
    ensures fits { length result.items ≤ room }
{
    let count = usize::from(most).min(answer.len() - offset).min(room - 10);
    let end = offset + count;
    let mut parameters = ArrayVec::new();
    append(&mut parameters, &(count as u16).to_be_bytes());
    append(&mut parameters, &answer[offset..end]);
    append_continuation(&mut parameters, answer.len(), end);
    pdu(identifier, transaction, &parameters)
}

/// The reply with the part of an answer that a continuation state asks for.
fn part(
    identifier: u8,
    transaction: u16,
    answer: &[u8],
    request: &Request<'_>,
    room: usize,
) -> Result<Octets, ErrorCode>
    requires answer { length answer.now ≤ 96 }
    requires room { 10 ≤ room }
    ensures value { GivesOctets (λ out. out.items) result (part_from identifier transaction answer.now request.now.most room (offset_in request.now.continuation.now (length answer.now))) }
    ensures fits { IfOk result (λ out. length out.items ≤ room) }
{
    let Some(offset) = offset_in(request.continuation, answer.len()) else {
        return Err(ErrorCode::InvalidContinuation);
    };
    Ok(part_reply(identifier, transaction, answer, offset, request.most, room))
}

/// The reply with the handles of the service records that a pattern finds.
fn handles(
    serves: Serves,
    transaction: u16,
    pattern: &Pattern<'_>,
    request: &Request<'_>,
) -> Result<Octets, ErrorCode>
    requires { 1 ≤ request.now.most }
    ensures value { (identifiers : List (List ℕ)) (read : requests.Request) → Seeks pattern.now identifiers → request.now.most ≡ read.most → request.now.continuation.now ≡ read.continuation →
        GivesOctets (λ out. out.items) result (handles_reply transaction (handles serves identifiers) read) }
    ensures fits { IfOk result (λ out. length out.items ≤ 14) }
{
    if !request.continuation.is_empty() {
        return Err(ErrorCode::InvalidContinuation);
    }
    if !matches(pattern, serves) {
        return Ok(pdu(0x03, transaction, &[0, 0, 0, 0, 0]));
    }
    let [first, second, third, fourth] = RECORD_HANDLE.to_be_bytes();
    Ok(pdu(
        0x03,
        transaction,
        &[0, 1, 0, 1, first, second, third, fourth, 0],
    ))
}

/// The listed attributes of the record, as one sequence.
fn attribute_list(serves: Serves, list: &AttributeList<'_>) -> Octets
    ensures items { (ranges : List Range) → Lists list.now ranges → result.items ≡ tree_octets (attribute_list ranges (service_record serves)) }
    ensures len { length result.items ≤ 87 }
{
    sequence(&listed_attributes(serves, list))
}

/// The listed attributes of each record that a pattern finds, as one sequence of sequences.
fn attribute_lists(serves: Serves, pattern: &Pattern<'_>, list: &AttributeList<'_>) -> Octets
    ensures items { (identifiers : List (List ℕ)) (ranges : List Range) → Seeks pattern.now identifiers → Lists list.now ranges →
        result.items ≡ tree_octets (attribute_lists serves identifiers ranges) }
    ensures len { length result.items ≤ 89 }
{
    if matches(pattern, serves) {
        sequence(&attribute_list(serves, list))
    } else {
        sequence(&[])
    }
}

fn answered(
    serves: Serves,
    transaction: u16,
    request: &Request<'_>,
    room: usize,
) -> Result<Octets, ErrorCode>
    requires most { 1 ≤ request.now.most }
    requires room { 48 ≤ room }
    ensures value { (read : requests.Request) → IsRequest request.now read → GivesOctets (λ out. out.items) result (answered serves room transaction (Some read)) }
    ensures fits { IfOk result (λ out. length out.items ≤ room) }
{
    match &request.question {
        Question::Handles(pattern) => handles(serves, transaction, pattern, request),
        Question::Attributes(handle, list) => {
            if *handle != RECORD_HANDLE {
                return Err(ErrorCode::InvalidHandle);
            }
            let answer = attribute_list(serves, list);
            part(0x05, transaction, &answer, request, room)
        }
        Question::Search(pattern, list) => {
            let answer = attribute_lists(serves, pattern, list);
            part(0x07, transaction, &answer, request, room)
        }
    }
}

fn responded(serves: Serves, octets: &[u8], room: usize) -> Result<Octets, ErrorCode>
    requires { 48 ≤ room }
    ensures value { GivesOctets (λ out. out.items) result (responded serves room (pdu_in octets.now)) }
    ensures fits { IfOk result (λ out. length out.items ≤ room) }
{
    let Some(request_pdu) = pdu_of(octets) else {
        return Err(ErrorCode::InvalidSize);
    };
    let Some(request) = request_of(request_pdu.identifier, request_pdu.parameters) else {
        return Err(ErrorCode::InvalidSyntax);
    };
    answered(serves, request_pdu.transaction, &request, room)
}

fn transaction_of(octets: &[u8]) -> u16
    ensures { result ≡ transaction_of octets.now }
{
    if octets.len() < 3 {
        return 0;
    }
    BigEndian::read_u16(&octets[1..])
}

fn error_reply(transaction: u16, code: ErrorCode) -> Octets
    ensures items { result.items ≡ error_reply transaction (code_number code) }
    ensures len { length result.items ≡ 7 }
{
    pdu(0x01, transaction, &[0, code_number(code)])
}

/// The reply to a request, in so much room.
pub(crate) fn reply_to(serves: Serves, octets: &[u8], room: usize) -> Octets
    requires { 48 ≤ room }
    ensures items { result.items ≡ reply_to serves room octets.now }
    ensures fits { length result.items ≤ room }
{
    match responded(serves, octets, room) {
        Ok(reply) => reply,
        Err(code) => error_reply(transaction_of(octets), code),
    }
}
