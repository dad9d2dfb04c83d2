//! The client of Object Push.

ghost use Rattle.std.specs.Prelude.{◌≡◌, ◌≤◌, [], true, false, length, is_err, IfOk, IsTrue};
ghost use Rattle.bt_base.specs.Counts.{HasRisen};
ghost use Rattle.bt_base.specs.Numbers.{IsPsm};
ghost use Rattle.obex_session.specs.PutPackets.{units_in, Reaches};
ghost use Rattle.push_model.specs.Client.{new_client, own_maximum, is_idle, may_cancel, cancelled};
ghost use Rattle.push_model.specs.Events.{hears_news, armed};
ghost use Rattle.push_model.specs.Payloads.{IsSaid};
ghost use Rattle.push_model.specs.Steps.{steps, stepped, is_muxed};
ghost use Rattle.push_client.specs.Putting.{Comes};
ghost use Rattle.push_client.specs.Pushing.{Begins, fails_now, gone, payload_in, wants_memory};
ghost use Rattle.push_client.specs.Telling.{news_of};

mod beginning;
mod channels;
mod ending;
mod hearing;
mod requesting;
mod searching;
mod stepping;

use crate::course::{Course, is_object, is_rest};
use crate::dialog::Dialog;
use crate::event::ProfileEvent;
use crate::outgoing::Outgoing;
use crate::reception::Reception;
use crate::step::Step;
use bt_base::{NoMemory, Psm, Settings, Shelf, Transport};
use obex_headers::Assembler;
use obex_session::ClientSession;
use push_model::{Contact, Stage};
use push_rooms::{ObjectName, WaitingFrame};
use push_terms::Outcome;
use rfcomm_mux::Mux;
use sdp_client::Query;
use std::alloc::Global;
use std::marker::Model;

/// The PSM of the service records.
const SEARCH_PSM: u16 = 0x0001;

/// The PSM of RFCOMM.
const RFCOMM_PSM: u16 = 0x0003;

/// How many octets a frame of the multiplexer has around its information at most.
const FRAME_SIZE: u16 = 6;

/// How many octets an OBEX packet has at most.
const LONGEST_PACKET: u16 = 32_767;

/// A client of Object Push (Object Push Profile 1.2, 4.3), which pushes one object after the other, each over a link of its
/// own: it asks the service records for the way to the server, makes the channel, and puts the object over OBEX.
///
/// `begin` begins a push. `advance` answers what is to be done next, `stepped` says that it was done, and `on` what has
/// happened. A clause sees the client as its small value, and each call as a function of it and of what the shelf answers.
#[derive(Drop)]
pub struct PushClient {
    transport: Transport,
    tries: u8,
    name: ObjectName,
    size: u32,
    query: Query,
    left: u8,
    psm: Psm,
    channel: u8,
    limit: u16,
    reception: Reception,
    outgoing: Outgoing,
    mux: Mux,
    frame: WaitingFrame,
    given: bool,
    failed: bool,
}

impl Model for PushClient {
    ghost use Rattle.push_model.specs.Client.{Client};
    ghost use Rattle.push_client.specs.Pushing.{client_of, IsSound};

    ghost Value = { Client };

    ghost view = { client_of };

    ghost invariant = { IsSound };
}

/// The greatest length of an OBEX packet that a client takes, and states.
fn own_maximum(settings: &Settings) -> u16
    ensures value { result ≡ own_maximum settings.now.transport settings.now }
    ensures least { 255 ≤ result }
    ensures most { result ≤ 32767 }
{
    match settings.transport {
        Transport::L2cap => settings.obex.min(settings.mtu),
        Transport::Rfcomm => settings.obex,
    }
}

impl PushClient {
    /// A client that began no push. It reserves all memory that it ever needs. `NoMemory` where that cannot be had.
    pub fn new(alloc: Global, settings: &Settings) -> Result<PushClient, NoMemory>
        ensures { IfOk result (λ client. client ≡ new_client settings.now) }
    {
        let maximum = own_maximum(settings);
        let is_direct = matches!(settings.transport, Transport::L2cap);
        let dialog = Dialog {
            course: Course {
                stage: Stage::Rest,
                cause: None,
            },
            contact: Contact::Unmet,
            session: ClientSession::new(maximum, is_direct && settings.srm),
            going: false,
        };
        let reception = Reception {
            dialog,
            assembler: Assembler::new(alloc, maximum)?,
        };
        let mux = Mux::client(alloc, 1, settings.mtu - FRAME_SIZE, settings.credits)?;
        Ok(PushClient {
            transport: settings.transport,
            tries: settings.tries,
            name: ObjectName::new(alloc)?,
            size: 0,
            query: Query::new(alloc)?,
            left: settings.tries,
            psm: psm_of(SEARCH_PSM),
            channel: 1,
            limit: LONGEST_PACKET,
            reception,
            outgoing: Outgoing::new(alloc)?,
            mux,
            frame: WaitingFrame::new(alloc)?,
            given: false,
            failed: false,
        })
    }

    /// Begins the push of the object of that name, and asks the shelf for its size. Where the shelf fails, the push is over
    /// with `Outcome::ShelfFault`, and no link is made. `NoMemory` where the shelf had none, and in all calls behind such a
    /// one, which do nothing.
    ///
    /// It needs a name of at most 100 UTF-16 units.
    pub fn begin<F: Shelf>(&mut self, name: &str, shelf: &mut F) -> Result<(), NoMemory>
        requires { length (units_in name.now) ≤ 100 }
        ensures begins { Begins self.old self.new name.now (F.content shelf.old) (F.faults shelf.old) (F.faults shelf.new) (F.shortages shelf.old) (F.shortages shelf.new) }
        ensures fails { is_err result ≡ self.new.failed }
        ensures short { IsTrue (fails_now self.old self.new) → HasRisen (F.shortages shelf.old) (F.shortages shelf.new) }
        ensures content { F.content shelf.new ≡ F.content shelf.old }
    {
        if self.failed {
            return Err(NoMemory);
        }
        self.begin_anew(name, shelf)
    }

    /// What is to be done next. A step is answered once, and the next one only where `stepped` said that it was done.
    ///
    /// The shelf is asked for a part of the object where a PUT is made. Where it fails, that is the first cause of the push,
    /// which aborts what it put. `NoMemory` where the shelf had none, and in all calls behind such a one, which do nothing.
    /// A shelf that tells an object of that name with as many octets as `begin` was told is asked for nothing that it does
    /// not have.
    pub fn advance<F: Shelf>(&mut self, shelf: &mut F) -> Step
        ensures comes { Comes (steps self.old) (gone self.new result) self.old (F.content shelf.old) (F.faults shelf.old) (F.faults shelf.new) (F.shortages shelf.old) (F.shortages shelf.new) (fails_now self.old self.new) }
        ensures fails { wants_memory result ≡ self.new.failed }
        ensures content { F.content shelf.new ≡ F.content shelf.old }
        ensures absence { Reaches self.old.size self.old.name (F.content shelf.old) → F.absences shelf.new ≡ F.absences shelf.old }
    {
        if self.failed {
            return Step::NoMemory;
        }
        if self.given {
            return Step::Wait;
        }
        self.go_on(shelf)
    }

    /// The octets of the SDU that is to be sent, from `Step::SendSdu` on until the next call of another kind.
    pub fn octets(&self) -> &[u8]
        ensures { IsSaid (payload_in self.now) result.now }
    {
        if self.is_muxed() {
            self.frame.octets()
        } else {
            self.outgoing.octets()
        }
    }

    /// The last step was done: of an SDU the last octet is out.
    pub fn stepped(&mut self)
        ensures { self.new ≡ stepped self.old }
    {
        self.given = false;
        if !self.is_muxed() {
            self.reception.dialog.going = false;
            self.outgoing.clear();
        } else if self.outgoing.is_empty() && !self.mux.has_data() {
            self.reception.dialog.going = false;
        }
    }

    /// Hears what has happened. What does not fit where the push is, is passed over.
    pub fn on(&mut self, event: ProfileEvent<'_>)
        ensures { self.new ≡ hears_news (news_of event.entry) self.old }
    {
        match event {
            ProfileEvent::LinkUp => self.link_up(),
            ProfileEvent::LinkDown(reason) => self.link_down(reason),
            ProfileEvent::LinkFailed(status) => self.link_failed(status),
            ProfileEvent::ChannelOpen(psm, mtu) => self.channel_open(psm, mtu),
            ProfileEvent::ChannelClosed(psm, cause) => self.channel_closed(psm, cause),
            ProfileEvent::Sdu(psm, octets) => self.hear_sdu(psm, octets),
            ProfileEvent::Features(features) => self.features_told(features),
            ProfileEvent::FeaturesLost => self.features_lost(),
            ProfileEvent::Timer => self.fire(),
        }
    }

    /// Whether a request to the service records waits for its reply: the timer is to run.
    pub fn armed(&self) -> bool
        ensures { result ≡ armed self.now }
    {
        matches!(self.reception.dialog.course.stage, Stage::Search) && self.query.is_awaiting()
    }

    /// How many credits its multiplexer holds: so many data frames may go out.
    pub fn credits(&self) -> u16
        ensures { result ≡ self.now.mux.account.held }
    {
        self.mux.credits()
    }

    /// Gives up the push, where that may be: it ends with `Outcome::Cancelled`. Else nothing is changed.
    pub fn cancel(&mut self)
        ensures { self.new ≡ cancelled self.old }
    {
        if self.may_cancel() {
            self.reception.dialog.course.end(Outcome::Cancelled);
        }
    }

    /// Whether the push may be given up: it goes on without a cause, and its final PUT was not made.
    pub fn may_cancel(&self) -> bool
        ensures { result ≡ may_cancel self.now }
    {
        !is_rest(self.reception.dialog.course.stage)
            && self.reception.dialog.course.cause.is_none()
            && !self.reception.dialog.session.has_put_all()
    }

    /// The first cause that came since the push was begun: its outcome.
    pub fn outcome(&self) -> Option<Outcome>
        ensures { result ≡ self.now.cause }
    {
        self.reception.dialog.course.cause
    }

    /// Whether no push goes on: none was begun, or the last one has ended.
    pub fn idle(&self) -> bool
        ensures { result ≡ is_idle self.now }
    {
        is_rest(self.reception.dialog.course.stage)
    }

    /// Whether requests pass through the multiplexer.
    fn is_muxed(&self) -> bool
        ensures { result ≡ is_muxed self.now }
    {
        is_object(self.reception.dialog.course.stage) && matches!(self.transport, Transport::Rfcomm)
    }
}

/// A PSM of that number.
fn psm_of(number: u16) -> Psm
    requires { IsPsm number }
    ensures { result ≡ number }
{
    let Some(psm) = Psm::of(number) else {
        unreachable!()
    };
    psm
}
