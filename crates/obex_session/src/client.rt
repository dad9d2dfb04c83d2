//! The session of a client.

ghost use Rattle.std.specs.Prelude.{◌≡◌, ◌≤◌, ◌<◌, ◌++◌, [], length, drop, min, IsSome, IfSome, OnErr};
ghost use Rattle.obex_headers.specs.Packets.{HasFields, bare, packet_octets};
ghost use Rattle.obex_session.specs.Responses.{connect_fields};
ghost use Rattle.obex_session.specs.Asking.{fresh, asks_for, phase_of, answer_by, answer_to, after_by, after_answer};
ghost use Rattle.bt_base.specs.Counts.{HasCause};
ghost use Rattle.obex_session.specs.PutPackets.{Reaches, units_in};
ghost use Rattle.obex_session.specs.NextPut.{PutsNext, outcome_of, left_of, room_for};
ghost use Rattle.obex_session.specs.declared.asking.Request.TheVariants.{Connect, Abort, Disconnect};

mod looking;

use crate::asking::{Request, is_waiting, limit_by};
use crate::marks::{Marks, marks_of};
use crate::put_writing::write_put;
use crate::responding::connect_fields;
use bt_base::{PortFault, Shelf};
use obex_headers::{Code, ObexRefusal, Packet, packet_of, start_packet};
use std::marker::Model;

/// What a response says of the request that waited for it.
#[derive(Clone, Copy, Debug, PartialEq, Eq)]
pub enum Answered {
    /// It succeeded, and was no final PUT.
    Go,
    /// The final PUT succeeded: the object is stored.
    Done,
    /// It failed: the response has this code, which is not the awaited one.
    Refused(u8),
    /// The octets are no response to it.
    Bad(ObexRefusal),
    /// It has parameters of single response mode, which this client does not know.
    Srmp,
}

/// What a session does for the next PUT of an object.
#[derive(Clone, Copy, Debug, PartialEq, Eq)]
pub enum PutNext {
    /// A packet of so many octets was written, and whether it is final.
    Packet(usize, bool),
    /// A request waits for its response.
    Wait,
    /// The shelf failed.
    ShelfFault,
    /// The shelf found no memory.
    NoMemory,
}

/// The client's side of an OBEX connection (IrOBEX 1.5, 3.4; Object Push Profile 1.2, 4.3). It has
/// at most one request that has no response yet: in single response mode the PUTs of an object
/// behind the first are one request.
///
/// A clause sees a session by the greatest length of a packet that it takes, whether it wants single
/// response mode, the greatest length of a packet that it sends, how many octets of an object were
/// put, if one is under way, whether that one is in single response mode, and the request that has
/// no response.
#[derive(Debug, Drop)]
pub struct ClientSession {
    maximum: u16,
    wanted: bool,
    limit: u16,
    put: Option<u32>,
    single: bool,
    awaited: Option<Request>,
}

impl Model for ClientSession {
    ghost use Rattle.std.specs.Prelude.{◌≤◌};
    ghost use Rattle.obex_session.specs.Asking.{Asking};

    ghost Value = { Asking };

    ghost view = { λ session. record { maximum = session.maximum; wanted = session.wanted; limit = session.limit; put = session.put; single = session.single; awaited = session.awaited } };

    ghost invariant = { λ session. (255 ≤ session.limit) × (session.limit ≤ session.maximum) × (session.maximum ≤ 32767) };
}

impl ClientSession {
    /// A session that takes packets of at most `maximum` octets, from 255 to 32,767, sends none that
    /// is longer, and wants single response mode or does not.
    pub fn new(maximum: u16, wanted: bool) -> ClientSession
        requires least { 255 ≤ maximum }
        requires most { maximum ≤ 32767 }
        ensures { result ≡ fresh maximum wanted }
    {
        ClientSession {
            maximum,
            wanted,
            limit: maximum,
            put: None,
            single: false,
            awaited: None,
        }
    }

    /// Makes the session one that has said nothing, with the same maximum and the same wish.
    pub fn reset(&mut self)
        ensures { self.new ≡ fresh self.old.maximum self.old.wanted }
    {
        self.limit = self.maximum;
        self.put = None;
        self.single = false;
        self.awaited = None;
    }

    /// Notes a request, with which no object is under way.
    fn ask(&mut self, request: Request)
        ensures { self.new ≡ asks_for request self.old }
    {
        self.put = None;
        self.single = false;
        self.awaited = Some(request);
    }

    /// Writes CONNECT, with version 1.0, no flags and the own maximum, and answers how many octets
    /// it has (IrOBEX 1.5, 3.4.1). It needs 7 octets of room.
    pub fn connect(&mut self, into: &mut [u8]) -> usize
        requires room { 7 ≤ length into.old }
        ensures len { result ≡ 7 }
        ensures written { into.new ≡ packet_octets (bare 0x80 (connect_fields self.old.maximum)) ++ drop 7 into.old }
        ensures session { self.new ≡ asks_for Connect self.old }
    {
        self.ask(Request::Connect);
        start_packet(Code::Connect.octet(), &connect_fields(self.maximum), into)
    }

    /// Writes ABORT, and answers how many octets it has (IrOBEX 1.5, 3.4.5). No object is under way
    /// then, and a PUT that has no response yet waits for none any more. It needs 3 octets of room.
    pub fn abort(&mut self, into: &mut [u8]) -> usize
        requires room { 3 ≤ length into.old }
        ensures len { result ≡ 3 }
        ensures written { into.new ≡ packet_octets (bare 0xFF []) ++ drop 3 into.old }
        ensures session { self.new ≡ asks_for Abort self.old }
    {
        self.ask(Request::Abort);
        start_packet(Code::Abort.octet(), &[], into)
    }

    /// Writes DISCONNECT, and answers how many octets it has (IrOBEX 1.5, 3.4.2). It needs 3 octets
    /// of room.
    pub fn disconnect(&mut self, into: &mut [u8]) -> usize
        requires room { 3 ≤ length into.old }
        ensures len { result ≡ 3 }
        ensures written { into.new ≡ packet_octets (bare 0x81 []) ++ drop 3 into.old }
        ensures session { self.new ≡ asks_for Disconnect self.old }
    {
        self.ask(Request::Disconnect);
        start_packet(Code::Disconnect.octet(), &[], into)
    }

    /// Writes the next PUT of an object to the front of `into`, in at most `limit` octets and at most
    /// those that the response to CONNECT stated (IrOBEX 1.5, 3.4.3).
    ///
    /// The first packet of an object has its Name, its Length, single response mode where it is
    /// wanted, and the first octets. Each has as many octets as have room, for which the shelf is
    /// asked once, and not where there is none; the final one has all that are left, and ends the
    /// body. `Wait` is answered exactly where a response is awaited, which it is not behind the
    /// first PUT in single response mode; `ShelfFault` where the shelf failed, and `NoMemory` where
    /// it found no memory: then the session is unchanged. A shelf that tells an object of that name
    /// with `size` octets is asked for nothing that it does not have.
    ///
    /// It needs 32,767 octets of room, a name of at most 100 UTF-16 units and a limit of at least 255
    /// octets. The packets of one object are to be asked for with the same name and size.
    pub fn put_next<F: Shelf>(
        &mut self,
        name: &str,
        size: u32,
        shelf: &mut F,
        limit: u16,
        into: &mut [u8],
    ) -> PutNext
        requires few { length (units_in name.now) ≤ 100 }
        requires least { 255 ≤ limit }
        requires room { 32767 ≤ length into.old }
        ensures puts { PutsNext self.old self.new name.now size limit (F.content shelf.old) into.old into.new result }
        ensures content { F.content shelf.new ≡ F.content shelf.old }
        ensures cause { HasCause (F.faults shelf.old) (F.faults shelf.new) (F.shortages shelf.old) (F.shortages shelf.new) (outcome_of result) }
        ensures absence { Reaches size name.now (F.content shelf.old) → F.absences shelf.new ≡ F.absences shelf.old }
        ensures asked { OnErr (outcome_of result) (0 < min (left_of self.old size) (room_for self.old name.now size limit)) }
    {
        if is_waiting(self.awaited) {
            return PutNext::Wait;
        }
        let limit = self.limit.min(limit);
        let (count, part) = match write_put(self.wanted, self.put, name, size, limit, shelf, into) {
            Ok(done) => done,
            Err(PortFault::Failed) => return PutNext::ShelfFault,
            Err(PortFault::NoMemory) => return PutNext::NoMemory,
        };
        let request = Request::of_put(self.put.is_none(), part.is_final, self.single);
        self.put = part.next_place();
        self.single = !part.is_final && self.single;
        self.awaited = Some(request);
        PutNext::Packet(count, part.is_final)
    }

    /// Takes a response to the request that has none yet.
    ///
    /// It answers `Bad` exactly where the octets are no response of at most the session's maximum,
    /// with the fields of one to CONNECT where that is awaited; then `Srmp` exactly where a header
    /// with parameters of single response mode (98) stands in it: after both the session is
    /// unchanged. Then it answers `Refused` exactly where the code is not the awaited one, which is 90
    /// for a PUT that is not final, outside of single response mode or as the first, and A0 for all
    /// others: then no object is under way. Else it answers `Done` for a final PUT, and `Go` for all
    /// others; the response to CONNECT bounds the packets that the session sends, and that to the
    /// first PUT of an object begins single response mode, where it is wanted and the response
    /// enables it too (97 01).
    ///
    /// It needs a request that has no response yet.
    pub fn on_response(&mut self, packet: &[u8]) -> Answered
        requires waits { IsSome self.old.awaited }
        ensures answer { IfSome self.old.awaited (λ request. result ≡ answer_to self.old.maximum request packet.now) }
        ensures session { IfSome self.old.awaited (λ request. self.new ≡ after_answer self.old request packet.now) }
    {
        let Some(request) = self.awaited else {
            unreachable!()
        };
        match packet_of(packet, request.phase(), self.maximum) {
            Ok(response) => self.heard(request, &response, marks_of(&response)),
            Err(refusal) => Answered::Bad(refusal),
        }
    }

    /// Takes a response that was read.
    fn heard(&mut self, request: Request, response: &Packet<'_>, marks: Marks) -> Answered
        requires fields { HasFields (phase_of request) response.now.code response.now.extra.now }
        ensures answer { result ≡ answer_by request marks response.now.code }
        ensures session { self.new ≡ after_by self.old request marks response.now.code response.now.extra.now }
    {
        if marks.parameters {
            return Answered::Srmp;
        }
        self.awaited = None;
        if response.code != request.awaited_code() {
            self.put = None;
            self.single = false;
            return Answered::Refused(response.code);
        }
        self.limit = limit_by(request, response, self.limit);
        self.single = request.single_by(self.wanted, self.single, marks);
        request.success()
    }
}
