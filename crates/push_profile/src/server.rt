//! The server of Object Push.

ghost use Rattle.std.specs.Prelude.{◌≡◌, ◌≤◌, [], None, true, false, length, is_err, IfOk, OnOk};
ghost use Rattle.obex_session.specs.Counting.{counts_of};
ghost use Rattle.push_model.specs.rfcomm_model.specs.Hearing.{up, hears};
ghost use Rattle.push_model.specs.Sessions.{is_pending};
ghost use Rattle.push_model.specs.Server.{new_server, hears_search, hears_octets, hears_up, hears_on, on_sdu, remuxed, unanswered, unreplied, unlent, lets_go_on, closed_on, channel_down, link_down, stepped};
ghost use Rattle.push_profile.specs.Reactions.{Comes};
ghost use Rattle.push_profile.specs.Serving.{reacted, has_failed, fails_now};

mod lending;

use crate::listener::Listener;
use crate::octets::put;
use crate::reception::Reception;
use arrayvec::ArrayVec;
use bt_base::{Inbox, NoMemory, Psm, Settings, Transport};
use obex_headers::Assembler;
use push_model::Outlet;
use push_rooms::WaitingFrame;
use rfcomm_mux::{Mux, MuxUp};
use sdp_server::Records;
use std::alloc::Global;
use std::marker::Model;

/// The PSM of the service records.
const SEARCH_PSM: u16 = 0x0001;

/// The PSM of RFCOMM.
const RFCOMM_PSM: u16 = 0x0003;

/// The PSM of Object Push over L2CAP.
const OBJECT_PSM: u16 = 0x1001;

/// The server channel that the service record names.
const SERVER_CHANNEL: u8 = 9;

/// How many octets a frame of the multiplexer has around its information at most.
const FRAME_SIZE: u16 = 6;

/// The room of a reply to a search, in octets.
const REPLY_ROOM: usize = 48;

/// A server of Object Push (Object Push Profile 1.2, 5 and 6): it answers searches, and stores the objects that clients push
/// over L2CAP and over RFCOMM in an inbox.
///
/// A clause sees the server as its small value, and each call as a function of it and of what the inbox answers.
#[derive(Drop)]
pub struct PushServer {
    records: Records,
    reply: ArrayVec<u8, REPLY_ROOM>,
    reception: Reception,
    mux: Mux,
    frame: WaitingFrame,
    lent: Option<Outlet>,
}

impl Model for PushServer {
    ghost use Rattle.push_model.specs.Server.{Server};
    ghost use Rattle.push_profile.specs.Serving.{server_of, IsSound};

    ghost Value = { Server };

    ghost view = { server_of };

    ghost invariant = { IsSound };
}

impl PushServer {
    /// A server with no link. It reserves all memory that it ever needs. `NoMemory` where that cannot be had.
    pub fn new(alloc: Global, settings: &Settings) -> Result<PushServer, NoMemory>
        ensures { IfOk result (λ server. server ≡ new_server settings.now) }
    {
        let mux = Mux::server(
            alloc,
            SERVER_CHANNEL,
            settings.mtu - FRAME_SIZE,
            settings.credits,
        )?;
        let reception = Reception {
            listener: Listener::new(settings.obex.min(settings.mtu), settings.obex, true),
            assembler: Assembler::new(alloc, settings.obex)?,
        };
        let frame = WaitingFrame::new(alloc)?;
        Ok(PushServer {
            records: Records::new(settings.serves),
            reply: ArrayVec::new(),
            reception,
            mux,
            frame,
            lent: None,
        })
    }

    /// Hears an SDU that came in on a channel of that PSM: a request to the service records, a packet over L2CAP, or a frame
    /// of the multiplexer. One on a channel of any other PSM is passed over.
    ///
    /// At most one reply to a search and one response wait to be sent: a request that would want one more is passed over, and
    /// the object that is under way on its transport is let go. `NoMemory` where the inbox had none, and in all calls behind
    /// such a one, which do nothing.
    ///
    /// The inbox has an object pending exactly where one is under way.
    pub fn on_sdu<B: Inbox>(&mut self, psm: Psm, sdu: &[u8], inbox: &mut B) -> Result<(), NoMemory>
        requires pending { B.is_pending inbox.old ≡ is_pending self.old.listener.service.sessions }
        ensures comes { Comes (on_sdu psm sdu.now self.old) (reacted self.new) (B.content inbox.old) (B.content inbox.new) (counts_of B.faults B.shortages inbox.old) (counts_of B.faults B.shortages inbox.new) (fails_now self.old self.new) }
        ensures fails { is_err result ≡ has_failed self.new }
        ensures pending { B.is_pending inbox.new ≡ is_pending self.new.listener.service.sessions }
    {
        if self.has_failed() {
            return Err(NoMemory);
        }
        self.hear(psm, sdu, inbox)
    }

    /// The channel of that PSM was closed: the object that is under way there is let go, and what is kept for it is as at the
    /// start. `NoMemory` as in `on_sdu`.
    pub fn channel_down<B: Inbox>(&mut self, psm: Psm, inbox: &mut B) -> Result<(), NoMemory>
        requires pending { B.is_pending inbox.old ≡ is_pending self.old.listener.service.sessions }
        ensures comes { Comes (channel_down psm self.old) (reacted self.new) (B.content inbox.old) (B.content inbox.new) (counts_of B.faults B.shortages inbox.old) (counts_of B.faults B.shortages inbox.new) (fails_now self.old self.new) }
        ensures fails { is_err result ≡ has_failed self.new }
        ensures pending { B.is_pending inbox.new ≡ is_pending self.new.listener.service.sessions }
    {
        if self.has_failed() {
            return Err(NoMemory);
        }
        self.close(psm, inbox)
    }

    /// The link is down: the object that is under way is let go, and all is as at the start. `NoMemory` as in `on_sdu`.
    pub fn link_down<B: Inbox>(&mut self, inbox: &mut B) -> Result<(), NoMemory>
        requires pending { B.is_pending inbox.old ≡ is_pending self.old.listener.service.sessions }
        ensures comes { Comes (link_down self.old) (reacted self.new) (B.content inbox.old) (B.content inbox.new) (counts_of B.faults B.shortages inbox.old) (counts_of B.faults B.shortages inbox.new) (fails_now self.old self.new) }
        ensures fails { is_err result ≡ has_failed self.new }
        ensures pending { B.is_pending inbox.new ≡ is_pending self.new.listener.service.sessions }
    {
        if self.has_failed() {
            return Err(NoMemory);
        }
        let Ok(()) = self.close_direct(inbox) else {
            return Err(NoMemory);
        };
        self.clear_reply();
        self.close_muxed(inbox)
    }

    /// Whether a call answered want of memory.
    fn has_failed(&self) -> bool
        ensures { result ≡ has_failed self.now }
    {
        self.reception.listener.service.failed
    }

    /// `on_sdu` where no call failed before.
    fn hear<B: Inbox>(&mut self, psm: Psm, sdu: &[u8], inbox: &mut B) -> Result<(), NoMemory>
        requires pending { B.is_pending inbox.old ≡ is_pending self.old.listener.service.sessions }
        requires works { has_failed self.old ≡ false }
        ensures comes { Comes (hears_on psm sdu.now self.old) (reacted self.new) (B.content inbox.old) (B.content inbox.new) (counts_of B.faults B.shortages inbox.old) (counts_of B.faults B.shortages inbox.new) (is_err result) }
        ensures fails { is_err result ≡ has_failed self.new }
        ensures pending { B.is_pending inbox.new ≡ is_pending self.new.listener.service.sessions }
    {
        let number = psm.get();
        if number == SEARCH_PSM {
            self.hear_search(sdu);
            return Ok(());
        }
        if number == RFCOMM_PSM {
            return self.hear_frame(sdu, inbox);
        }
        if number == OBJECT_PSM {
            return self.reception.listener.hear(Transport::L2cap, sdu, inbox);
        }
        Ok(())
    }

    /// Replies to a search, where no reply waits.
    fn hear_search(&mut self, sdu: &[u8])
        ensures { self.new ≡ hears_search sdu.now self.old }
    {
        if !self.reply.is_empty() {
            return;
        }
        let mut room = [0u8; REPLY_ROOM];
        let count = self.records.reply(sdu, &mut room);
        put(&mut self.reply, &room[..count]);
    }

    /// Hears a frame of the multiplexer.
    fn hear_frame<B: Inbox>(&mut self, sdu: &[u8], inbox: &mut B) -> Result<(), NoMemory>
        requires pending { B.is_pending inbox.old ≡ is_pending self.old.listener.service.sessions }
        requires works { has_failed self.old ≡ false }
        ensures comes { Comes (hears_up (up sdu.now self.old.mux) (record (self.old) { mux = hears sdu.now self.old.mux })) (reacted self.new) (B.content inbox.old) (B.content inbox.new) (counts_of B.faults B.shortages inbox.old) (counts_of B.faults B.shortages inbox.new) (is_err result) }
        ensures fails { is_err result ≡ has_failed self.new }
        ensures pending { B.is_pending inbox.new ≡ is_pending self.new.listener.service.sessions }
    {
        match self.mux.on_sdu(sdu) {
            MuxUp::Bytes(octets) => self.hear_octets(octets, inbox),
            MuxUp::Nothing | MuxUp::Opened | MuxUp::Closed(_) => Ok(()),
        }
    }

    /// Hears octets of the stream over RFCOMM, unless the multiplexer is to be closed.
    fn hear_octets<B: Inbox>(&mut self, octets: &[u8], inbox: &mut B) -> Result<(), NoMemory>
        requires pending { B.is_pending inbox.old ≡ is_pending self.old.listener.service.sessions }
        requires works { has_failed self.old ≡ false }
        ensures comes { Comes (hears_octets octets.now self.old) (reacted self.new) (B.content inbox.old) (B.content inbox.new) (counts_of B.faults B.shortages inbox.old) (counts_of B.faults B.shortages inbox.new) (is_err result) }
        ensures fails { is_err result ≡ has_failed self.new }
        ensures pending { B.is_pending inbox.new ≡ is_pending self.new.listener.service.sessions }
    {
        if self.reception.listener.breaks {
            return Ok(());
        }
        self.reception.hear(octets, inbox)
    }

    /// `channel_down` where no call failed before.
    fn close<B: Inbox>(&mut self, psm: Psm, inbox: &mut B) -> Result<(), NoMemory>
        requires pending { B.is_pending inbox.old ≡ is_pending self.old.listener.service.sessions }
        requires works { has_failed self.old ≡ false }
        ensures comes { Comes (closed_on psm self.old) (reacted self.new) (B.content inbox.old) (B.content inbox.new) (counts_of B.faults B.shortages inbox.old) (counts_of B.faults B.shortages inbox.new) (is_err result) }
        ensures fails { is_err result ≡ has_failed self.new }
        ensures pending { B.is_pending inbox.new ≡ is_pending self.new.listener.service.sessions }
    {
        let number = psm.get();
        if number == SEARCH_PSM {
            self.clear_reply();
            return Ok(());
        }
        if number == RFCOMM_PSM {
            return self.close_muxed(inbox);
        }
        if number == OBJECT_PSM {
            return self.close_direct(inbox);
        }
        Ok(())
    }

    /// The channel of the multiplexer was closed.
    fn close_muxed<B: Inbox>(&mut self, inbox: &mut B) -> Result<(), NoMemory>
        requires pending { B.is_pending inbox.old ≡ is_pending self.old.listener.service.sessions }
        requires works { has_failed self.old ≡ false }
        ensures comes { Comes (lets_go_on Transport.Rfcomm (remuxed self.old)) (reacted self.new) (B.content inbox.old) (B.content inbox.new) (counts_of B.faults B.shortages inbox.old) (counts_of B.faults B.shortages inbox.new) (is_err result) }
        ensures fails { is_err result ≡ has_failed self.new }
        ensures pending { B.is_pending inbox.new ≡ is_pending self.new.listener.service.sessions }
    {
        self.reset_mux();
        self.reception.listener.part(Transport::Rfcomm, inbox)
    }

    /// The channel over L2CAP was closed.
    fn close_direct<B: Inbox>(&mut self, inbox: &mut B) -> Result<(), NoMemory>
        requires pending { B.is_pending inbox.old ≡ is_pending self.old.listener.service.sessions }
        requires works { has_failed self.old ≡ false }
        ensures comes { Comes (lets_go_on Transport.L2cap (unanswered self.old)) (reacted self.new) (B.content inbox.old) (B.content inbox.new) (counts_of B.faults B.shortages inbox.old) (counts_of B.faults B.shortages inbox.new) (is_err result) }
        ensures fails { is_err result ≡ has_failed self.new }
        ensures pending { B.is_pending inbox.new ≡ is_pending self.new.listener.service.sessions }
    {
        self.reception.listener.service.clear_response();
        self.lent = unlent(Outlet::Direct, self.lent);
        self.reception.listener.part(Transport::L2cap, inbox)
    }

    /// No reply waits any more.
    fn clear_reply(&mut self)
        ensures { self.new ≡ unreplied self.old }
    {
        self.reply.clear();
        self.lent = unlent(Outlet::Records, self.lent);
    }

    /// What is kept for the channel of the multiplexer is as at the start.
    fn reset_mux(&mut self)
        ensures { self.new ≡ remuxed self.old }
    {
        let largest = self.mux.largest();
        self.mux.reset(largest);
        self.reception.listener.clear_answer();
        self.reception.assembler.reset();
        self.frame.clear();
        self.lent = unlent(Outlet::Muxed, self.lent);
    }
}

/// What was lent last, where that outlet was closed.
fn unlent(outlet: Outlet, lent: Option<Outlet>) -> Option<Outlet>
    ensures { result ≡ unlent outlet lent }
{
    match (outlet, lent) {
        (Outlet::Records, Some(Outlet::Records))
        | (Outlet::Direct, Some(Outlet::Direct))
        | (Outlet::Muxed, Some(Outlet::Muxed)) => None,
        _ => lent,
    }
}
