//! The query of a client.

mod looking;

use crate::reading::target_in;
use crate::reason::{Found, QueryReason};
use crate::reply::{is_of_another, said_in};
use crate::said::{Part, Said};
use arrayvec::ArrayVec;
use bt_base::NoMemory;
use sdp_elements::{Target, put_behind};
use std::alloc::Global;
use std::marker::Model;

/// How many octets an answer has at most.
const LONGEST_ANSWER: usize = 4096;

/// Where a query stands.
#[derive(Clone, Copy, Debug)]
pub enum Stage {
    /// A request waits to be written, and no reply is awaited.
    Due,
    /// The request was written, and its reply is awaited.
    Written,
    /// The reply is awaited, and the request waits to be written once more.
    Again,
    /// The answer was read.
    Answered,
    /// The query was refused for good.
    Refused(QueryReason),
}

/// Asks a server for the protocols and the PSM of Object Push, part by part (Core 5.1, Volume 3
/// Part B, 4.7). A clause sees where the query stands, the transaction and the continuation state of
/// its request, and the parts of the answer that came, joined.
#[derive(Drop)]
pub struct Query {
    stage: Stage,
    transaction: u16,
    continuation: ArrayVec<u8, 16>,
    joined: Vec<u8>,
}

impl Model for Query {
    ghost use Rattle.std.specs.Prelude.{◌+◌, ◌≤◌, length, vec_len, vec_capacity};
    ghost use Rattle.sdp_client.specs.Asking.{Asking};

    ghost Value = { Asking };

    ghost view = { λ query. record { stage = query.stage; transaction = query.transaction; continuation = query.continuation.items; joined = query.joined.items } };

    // Each part but the last has an octet, so the transactions are not used up.
    ghost invariant = { λ query. (query.transaction ≤ 1 + vec_len query.joined) × (vec_len query.joined ≤ 4096) × (4096 ≤ vec_capacity query.joined) × (length query.continuation.items ≤ 16) };
}

impl Query {
    ghost use Rattle.std.specs.Prelude.{◌≡◌, ◌≤◌, ◌++◌, true, false, length, drop, IfOk, IfSome, IfNone};
    ghost use Rattle.sdp_client.specs.Asking.{begun, is_due, request_octets, after_request, after_resend};
    ghost use Rattle.sdp_client.specs.Hearing.{found_at, after_reply, found_by, after_said, found_part, after_part, found_whole, after_whole, ended};
    ghost use Rattle.sdp_client.specs.Replies.{plain_part};

    /// A query whose first request waits to be written. It reserves the 4,096 octets that an answer
    /// may have. `NoMemory` where they cannot be had.
    pub fn new(alloc: Global) -> Result<Query, NoMemory>
        ensures { IfOk result (λ query. query ≡ begun) }
    {
        let joined = Vec::with_capacity(alloc, LONGEST_ANSWER)?;
        Ok(Query {
            stage: Stage::Due,
            transaction: 1,
            continuation: ArrayVec::new(),
            joined,
        })
    }

    /// Begins anew, as a new query does.
    pub fn reset(&mut self)
        ensures { self.new ≡ begun }
    {
        self.stage = Stage::Due;
        self.transaction = 1;
        self.continuation.clear();
        self.joined.clear();
    }

    /// Writes the request that waits, and answers how many octets it has. `None` where none waits:
    /// one waits from the beginning and from each `More` on, and after `resend`.
    ///
    /// It needs 48 octets of room. The octets behind the request are left unchanged.
    pub fn next_request(&mut self, into: &mut [u8]) -> Option<usize>
        requires { 48 ≤ length into.old }
        ensures some { IfSome result (λ end. (is_due self.old ≡ true) × (end ≡ length (request_octets self.old)) × (into.new ≡ request_octets self.old ++ drop end into.old)) }
        ensures none { IfNone result ((is_due self.old ≡ false) × (into.new ≡ into.old)) }
        ensures after { self.new ≡ after_request self.old }
    {
        match self.stage {
            Stage::Due | Stage::Again => {}
            Stage::Written | Stage::Answered | Stage::Refused(_) => return None,
        }
        self.stage = Stage::Written;
        Some(self.put_request(into))
    }

    fn put_request(&self, into: &mut [u8]) -> usize
        requires { 48 ≤ length into.old }
        ensures end { result ≡ length (request_octets self.now) }
        ensures written { into.new ≡ request_octets self.now ++ drop result into.old }
    {
        let [high, low] = self.transaction.to_be_bytes();
        let length = self.continuation.len() as u8;
        let front = [
            0x06,
            high,
            low,
            0x00,
            16 + length,
            // Object Push
            0x35,
            0x03,
            0x19,
            0x11,
            0x05,
            // 256 octets at most
            0x01,
            0x00,
            // the protocols and the PSM
            0x35,
            0x06,
            0x09,
            0x00,
            0x04,
            0x09,
            0x02,
            0x00,
            length,
        ];
        let start = put_behind(0, &front, into);
        put_behind(start, &self.continuation, into)
    }

    /// Makes the request whose reply is awaited wait to be written once more, with its transaction.
    /// Where no reply is awaited it does nothing.
    pub fn resend(&mut self)
        ensures { self.new ≡ after_resend self.old }
    {
        match self.stage {
            Stage::Written => self.stage = Stage::Again,
            Stage::Due | Stage::Again | Stage::Answered | Stage::Refused(_) => {}
        }
    }

    /// Takes a reply. It is `More` at a part of the answer with more behind it, and `Service` or
    /// `NoService` at the last part, by the target that all parts joined name.
    ///
    /// It is `WrongTransaction`, which changes nothing, where no reply is awaited and where the reply
    /// is that to another request. Otherwise it may be `BadReply`, where the octets are no reply or
    /// the joined answer is none, `ErrorCode` with the code of an error, or `TooLong` where the
    /// joined answer would pass 4,096 octets. Each of these three ends the query, which then answers
    /// the same for good.
    pub fn on_reply(&mut self, reply: &[u8]) -> Found
        ensures found { result ≡ found_at self.old reply.now }
        ensures after { self.new ≡ after_reply self.old reply.now }
    {
        match self.stage {
            Stage::Written | Stage::Again => self.hear(reply),
            Stage::Due | Stage::Answered => Found::Refused(QueryReason::WrongTransaction),
            Stage::Refused(reason) => Found::Refused(reason),
        }
    }

    /// `on_reply` where a reply is awaited.
    fn hear(&mut self, reply: &[u8]) -> Found
        ensures found { result ≡ found_by self.old reply.now }
        ensures after { self.new ≡ after_said self.old reply.now }
    {
        if is_of_another(reply, self.transaction) {
            return Found::Refused(QueryReason::WrongTransaction);
        }
        match said_in(reply) {
            Said::Part(part) => self.join(part),
            Said::Failed(code) => self.refuse(QueryReason::ErrorCode(code)),
            Said::Nothing => self.refuse(QueryReason::BadReply),
        }
    }

    fn refuse(&mut self, reason: QueryReason) -> Found
        ensures found { result ≡ Found.Refused reason }
        ensures after { self.new ≡ ended self.old reason }
    {
        self.stage = Stage::Refused(reason);
        Found::Refused(reason)
    }

    /// Joins a part to those before it.
    fn join(&mut self, part: Part<'_>) -> Found
        ensures found { result ≡ found_part self.old (plain_part part.entry) }
        ensures after { self.new ≡ after_part self.old (plain_part part.entry) }
    {
        if LONGEST_ANSWER - self.joined.len() < part.octets.len() {
            return self.refuse(QueryReason::TooLong);
        }
        let _room_was_reserved = self.joined.extend_from_slice(part.octets);
        if part.continuation.is_empty() {
            return self.conclude();
        }
        self.continuation.clear();
        let _it_is_short = self.continuation.try_extend_from_slice(part.continuation);
        self.transaction += 1;
        self.stage = Stage::Due;
        Found::More
    }

    /// Judges the joined answer.
    fn conclude(&mut self) -> Found
        ensures found { result ≡ found_whole self.old.joined }
        ensures after { self.new ≡ after_whole self.old }
    {
        match target_in(&self.joined) {
            Some(
                Target {
                    l2cap: None,
                    rfcomm: None,
                },
            ) => {
                self.stage = Stage::Answered;
                Found::NoService
            }
            Some(target) => {
                self.stage = Stage::Answered;
                Found::Service(target)
            }
            None => self.refuse(QueryReason::BadReply),
        }
    }
}
