//! The two sessions of a server.

ghost use Rattle.std.specs.Prelude.{◌≡◌, ◌≤◌, true, false, length, Some, IfOk, is_err, is_none};
ghost use Rattle.push_model.specs.Sessions.{session_of, other_of, is_pending, is_naming, has_object};
ghost use Rattle.push_model.specs.Service.{new_service};
ghost use Rattle.obex_session.specs.Counting.{counts_of};
ghost use Rattle.obex_session.specs.Views.{is_silent, count_in};
ghost use Rattle.push_profile.specs.Reactions.{LetsGo, AnswersTo, HearsPacket};

use bt_base::{Inbox, NoMemory, Transport};
use obex_session::{Reply, ServerSession};
use std::marker::Model;

/// The session over L2CAP and the one over RFCOMM, over one inbox. A clause sees both.
#[derive(Drop)]
pub(crate) struct Sessions {
    direct: ServerSession,
    carried: ServerSession,
}

impl Model for Sessions {
    ghost use Rattle.push_model.specs.Sessions.{Sessions, IsSingle};

    ghost Value = { Sessions };

    ghost view = { λ sessions. record { direct = sessions.direct; carried = sessions.carried } };

    ghost invariant = { λ sessions. IsSingle (record { direct = sessions.direct; carried = sessions.carried }) };
}

/// The other transport.
fn other_of(transport: Transport) -> Transport
    ensures { result ≡ other_of transport }
{
    match transport {
        Transport::L2cap => Transport::Rfcomm,
        Transport::Rfcomm => Transport::L2cap,
    }
}

/// How many octets were answered.
fn count_of(answer: Reply) -> Result<usize, NoMemory>
    ensures count { IfOk result (λ count. count_in answer ≡ Some count) }
    ensures lacks { is_err result ≡ is_none (count_in answer) }
{
    match answer {
        Reply::Respond(count) => Ok(count),
        Reply::Silent => Ok(0),
        Reply::NoMemory => Err(NoMemory),
    }
}

impl Sessions {
    /// Sessions that heard nothing and take packets of at most so many octets. The one over L2CAP offers single response
    /// mode or does not.
    pub(crate) fn new(direct: u16, carried: u16, offered: bool) -> Sessions
        requires direct { (255 ≤ direct) × (direct ≤ 32767) }
        requires carried { (255 ≤ carried) × (carried ≤ 32767) }
        ensures { result ≡ (new_service direct carried offered).sessions }
    {
        Sessions {
            direct: ServerSession::new(direct, offered),
            carried: ServerSession::new(carried, false),
        }
    }

    /// Whether the octets are a PUT with a Name.
    fn is_naming(&self, transport: Transport, packet: &[u8]) -> bool
        ensures { result ≡ is_naming transport packet.now self.now }
    {
        match transport {
            Transport::L2cap => self.direct.is_naming(packet),
            Transport::Rfcomm => self.carried.is_naming(packet),
        }
    }

    /// Whether the packet is answered with nothing, if no call of the inbox fails.
    pub(crate) fn is_silent(&self, transport: Transport, packet: &[u8]) -> bool
        ensures { result ≡ is_silent (session_of transport self.now) packet.now }
    {
        match transport {
            Transport::L2cap => self.direct.is_silent(packet),
            Transport::Rfcomm => self.carried.is_silent(packet),
        }
    }

    /// Lets go of an object that is under way over a transport.
    pub(crate) fn let_go<B: Inbox>(
        &mut self,
        transport: Transport,
        inbox: &mut B,
    ) -> Result<(), NoMemory>
        requires pending { B.is_pending inbox.old ≡ is_pending self.old }
        ensures goes { LetsGo transport self.old self.new (B.content inbox.old) (B.content inbox.new) (counts_of B.faults B.shortages inbox.old) (counts_of B.faults B.shortages inbox.new) result }
        ensures pending { B.is_pending inbox.new ≡ is_pending self.new }
    {
        match transport {
            Transport::L2cap => self.direct.link_down(inbox),
            Transport::Rfcomm => self.carried.link_down(inbox),
        }
    }

    /// Answers a packet: so many octets of a response, or none. With a Name no object may be under way over the other
    /// transport.
    fn answer<B: Inbox>(
        &mut self,
        transport: Transport,
        packet: &[u8],
        inbox: &mut B,
        into: &mut [u8],
    ) -> Result<usize, NoMemory>
        requires room { 7 ≤ length into.old }
        requires pending { B.is_pending inbox.old ≡ is_pending self.old }
        requires single { is_naming transport packet.now self.old ≡ true → has_object (session_of (other_of transport) self.old) ≡ false }
        ensures answers { AnswersTo transport self.old self.new packet.now (B.content inbox.old) (B.content inbox.new) (counts_of B.faults B.shortages inbox.old) (counts_of B.faults B.shortages inbox.new) into.old into.new result }
        ensures pending { B.is_pending inbox.new ≡ is_pending self.new }
    {
        match transport {
            Transport::L2cap => count_of(self.direct.on_packet(packet, inbox, into)),
            Transport::Rfcomm => count_of(self.carried.on_packet(packet, inbox, into)),
        }
    }

    /// Hears a PUT with a Name: an object that is under way over the other transport is let go first.
    fn hear_name<B: Inbox>(
        &mut self,
        transport: Transport,
        packet: &[u8],
        inbox: &mut B,
        into: &mut [u8],
    ) -> Result<usize, NoMemory>
        requires room { 7 ≤ length into.old }
        requires pending { B.is_pending inbox.old ≡ is_pending self.old }
        requires named { is_naming transport packet.now self.old ≡ true }
        ensures hears { HearsPacket transport self.old self.new packet.now (B.content inbox.old) (B.content inbox.new) (counts_of B.faults B.shortages inbox.old) (counts_of B.faults B.shortages inbox.new) into.old into.new result }
        ensures pending { B.is_pending inbox.new ≡ is_pending self.new }
    {
        let Ok(()) = self.let_go(other_of(transport), inbox) else {
            return Err(NoMemory);
        };
        self.answer(transport, packet, inbox, into)
    }

    /// Hears a packet: so many octets of a response, or none. A Name first lets go of an object that is under way over the
    /// other transport.
    pub(crate) fn hear<B: Inbox>(
        &mut self,
        transport: Transport,
        packet: &[u8],
        inbox: &mut B,
        into: &mut [u8],
    ) -> Result<usize, NoMemory>
        requires room { 7 ≤ length into.old }
        requires pending { B.is_pending inbox.old ≡ is_pending self.old }
        ensures hears { HearsPacket transport self.old self.new packet.now (B.content inbox.old) (B.content inbox.new) (counts_of B.faults B.shortages inbox.old) (counts_of B.faults B.shortages inbox.new) into.old into.new result }
        ensures pending { B.is_pending inbox.new ≡ is_pending self.new }
    {
        if self.is_naming(transport, packet) {
            return self.hear_name(transport, packet, inbox, into);
        }
        self.answer(transport, packet, inbox, into)
    }
}
