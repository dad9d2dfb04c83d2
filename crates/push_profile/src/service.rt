//! What a server makes of packets.

ghost use Rattle.std.specs.Prelude.{◌≡◌, ◌≤◌, true, false, length};
ghost use Rattle.obex_session.specs.Counting.{counts_of};
ghost use Rattle.push_model.specs.Sessions.{is_pending};
ghost use Rattle.push_model.specs.Service.{has_response, is_ignored, response_over, without_response, without_answer, answer_cut, new_service};
ghost use Rattle.push_profile.specs.Reactions.{ServiceParts, ServiceHears};

use crate::octets::{cut, put};
use crate::sessions::Sessions;
use arrayvec::ArrayVec;
use bt_base::{Inbox, NoMemory, Transport};
use std::marker::Model;

/// The longest response of a session, in octets: one with the fields of CONNECT (IrOBEX 1.5, 3.4.1).
pub(crate) const LONGEST_RESPONSE: usize = 7;

/// The octets of a response that waits; none waits where there are none.
pub(crate) type Response = ArrayVec<u8, LONGEST_RESPONSE>;

/// The sessions of a server, and the response that waits. A clause sees both, and whether memory was wanting.
#[derive(Drop)]
pub(crate) struct Service {
    pub(crate) sessions: Sessions,
    pub(crate) response: Response,
    pub(crate) answer: Response,
    pub(crate) failed: bool,
}

impl Model for Service {
    ghost use Rattle.push_model.specs.Service.{Service};

    ghost Value = { Service };

    ghost view = { λ service. record { sessions = service.sessions; response = service.response.items; answer = service.answer.items; failed = service.failed } };
}

impl Service {
    /// A service that heard nothing, with sessions that take packets of at most so many octets. The one over L2CAP offers
    /// single response mode or does not.
    pub(crate) fn new(direct: u16, carried: u16, offered: bool) -> Service
        requires direct { (255 ≤ direct) × (direct ≤ 32767) }
        requires carried { (255 ≤ carried) × (carried ≤ 32767) }
        ensures { result ≡ new_service direct carried offered }
    {
        Service {
            sessions: Sessions::new(direct, carried, offered),
            response: ArrayVec::new(),
            answer: ArrayVec::new(),
            failed: false,
        }
    }

    /// Whether a response waits, over either transport.
    fn has_response(&self) -> bool
        ensures { result ≡ has_response self.now }
    {
        !self.response.is_empty() || !self.answer.is_empty()
    }

    /// No response over L2CAP waits any more.
    pub(crate) fn clear_response(&mut self)
        ensures { self.new ≡ without_response self.old }
    {
        self.response.clear();
    }

    /// No response over RFCOMM waits any more.
    pub(crate) fn clear_answer(&mut self)
        ensures { self.new ≡ without_answer self.old }
    {
        self.answer.clear();
    }

    /// So many octets of the response over RFCOMM were taken.
    pub(crate) fn cut_answer(&mut self, count: usize)
        requires { count ≤ length self.old.answer }
        ensures { self.new ≡ answer_cut count self.old }
    {
        cut(&mut self.answer, count);
    }

    /// Whether a packet is ignored, since its response would be one too many.
    fn is_ignored(&self, transport: Transport, packet: &[u8]) -> bool
        ensures { result ≡ is_ignored transport packet.now self.now }
    {
        self.has_response() && !self.sessions.is_silent(transport, packet)
    }

    /// Lets a response wait over a transport, in place of one that waits there; no octets are none.
    fn keep(&mut self, transport: Transport, octets: &[u8])
        requires { length octets.now ≤ 7 }
        ensures { self.new ≡ response_over transport octets.now self.old }
    {
        if octets.is_empty() {
            return;
        }
        match transport {
            Transport::L2cap => put(&mut self.response, octets),
            Transport::Rfcomm => put(&mut self.answer, octets),
        }
    }

    /// Lets go of an object that is under way over a transport.
    pub(crate) fn part<B: Inbox>(
        &mut self,
        transport: Transport,
        inbox: &mut B,
    ) -> Result<(), NoMemory>
        requires pending { B.is_pending inbox.old ≡ is_pending self.old.sessions }
        requires works { self.old.failed ≡ false }
        ensures parts { ServiceParts transport self.old self.new (B.content inbox.old) (B.content inbox.new) (counts_of B.faults B.shortages inbox.old) (counts_of B.faults B.shortages inbox.new) result }
        ensures pending { B.is_pending inbox.new ≡ is_pending self.new.sessions }
    {
        let Ok(()) = self.sessions.let_go(transport, inbox) else {
            self.failed = true;
            return Err(NoMemory);
        };
        Ok(())
    }

    /// Hears a packet whose response finds room.
    fn take<B: Inbox>(
        &mut self,
        transport: Transport,
        packet: &[u8],
        inbox: &mut B,
    ) -> Result<(), NoMemory>
        requires pending { B.is_pending inbox.old ≡ is_pending self.old.sessions }
        requires works { self.old.failed ≡ false }
        requires heard { is_ignored transport packet.now self.old ≡ false }
        ensures hears { ServiceHears transport self.old self.new packet.now (B.content inbox.old) (B.content inbox.new) (counts_of B.faults B.shortages inbox.old) (counts_of B.faults B.shortages inbox.new) result }
        ensures pending { B.is_pending inbox.new ≡ is_pending self.new.sessions }
    {
        let mut room = [0u8; LONGEST_RESPONSE];
        let Ok(count) = self.sessions.hear(transport, packet, inbox, &mut room) else {
            self.failed = true;
            return Err(NoMemory);
        };
        self.keep(transport, &room[..count]);
        Ok(())
    }

    /// Hears a packet. One whose response would be one too many is ignored, and its session lets go of its object.
    pub(crate) fn hear<B: Inbox>(
        &mut self,
        transport: Transport,
        packet: &[u8],
        inbox: &mut B,
    ) -> Result<(), NoMemory>
        requires pending { B.is_pending inbox.old ≡ is_pending self.old.sessions }
        requires works { self.old.failed ≡ false }
        ensures hears { ServiceHears transport self.old self.new packet.now (B.content inbox.old) (B.content inbox.new) (counts_of B.faults B.shortages inbox.old) (counts_of B.faults B.shortages inbox.new) result }
        ensures pending { B.is_pending inbox.new ≡ is_pending self.new.sessions }
    {
        if self.is_ignored(transport, packet) {
            return self.part(transport, inbox);
        }
        self.take(transport, packet, inbox)
    }
}
