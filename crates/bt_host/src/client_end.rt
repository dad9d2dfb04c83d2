//! The end of a client.

ghost use Rattle.std.specs.Prelude.{◌≡◌, ◌≤◌, false, [], length, IfOk, OnOk, OnErr};
ghost use Rattle.std.specs.List.{AllByRecursion};
ghost use Rattle.bt_base.specs.Counts.{HasRisen};
ghost use Rattle.bt_base.specs.Numbers.{IsPsm};
ghost use Rattle.bt_base.specs.declared.settings.Settings.{Settings};
ghost use Rattle.channel_model.specs.Calls.{connected, connect_answer};
ghost use Rattle.l2cap_channels.specs.Machine.{with_channels};
ghost use Rattle.shelf_model.specs.obex_session.specs.PutPackets.{units_in};
ghost use Rattle.push_client.specs.Pushing.{payload_in, step_of};
ghost use Rattle.shelf_model.specs.world_model.specs.Machines.{Linked, Up, Down, Failed, TimerFired, Cancelled, Opening};
ghost use Rattle.shelf_model.specs.host_model.specs.Endpoints.{endpoint_of, with_answer};
ghost use Rattle.shelf_model.specs.host_model.specs.Clients.{client_profile, is_at_end, unlinked, told, happened, received, sent, done, submits, closes, takes, cause_of, calls};
ghost use Rattle.push_model.specs.Client.{is_idle, may_cancel};
ghost use Rattle.push_model.specs.Events.{armed};
ghost use Rattle.bt_host.specs.Calls.{Does};
ghost use Rattle.bt_host.specs.Pushing.{HasCid, Pushes, IsDue, AreOf};
ghost use Rattle.bt_host.specs.PushingLaws.{Answers};
ghost use Rattle.bt_host.specs.Shelving.{shelved_by, told_shelved};

use crate::end::End;
use crate::endpoints::Endpoints;
use crate::upper::are_octets;
use bt_base::{Cid, NoMemory, Psm, Settings, Shelf};
use channel_model::{ChannelEvent, CloseReason};
use l2cap_channels::Channels;
use push_client::{CloseCause, ProfileEvent, PushClient, Step};
use push_model::Stage;
use push_terms::Outcome;
use std::alloc::Global;
use std::marker::Model;

/// What a client asks of its line.
#[derive(Clone, Copy)]
enum Bid {
    /// Nothing.
    Nothing,
    /// That a link be made.
    Paging,
}

/// A client of Object Push, the channels that it asked for, the one that took its SDU until that is sent, and what it asks of its
/// line. A clause sees the profile of a client, without answers of its shelf.
#[derive(Drop)]
pub(crate) struct ClientEnd {
    client: PushClient,
    endpoints: Endpoints,
    submitted: Option<Cid>,
    bid: Bid,
}

impl Model for ClientEnd {
    ghost use Rattle.std.specs.Prelude.{[]};
    ghost use Rattle.shelf_model.specs.host_model.specs.Clients.{ClientProfile};
    ghost use Rattle.bt_host.specs.Pushing.{bid_of};

    ghost Value = { ClientProfile };

    ghost view = { λ end. record { client = end.client; parts = []; endpoints = end.endpoints; submitted = end.submitted; bid = bid_of end.bid } };
}

/// Why a channel was closed, as a client is told: one that went down with its link tells nothing of its own.
fn cause_of(reason: CloseReason) -> Option<CloseCause>
    ensures { result ≡ cause_of reason }
{
    match reason {
        CloseReason::PeerClosed => Some(CloseCause::Peer),
        CloseReason::Refused(answer) => Some(CloseCause::Refused(answer)),
        CloseReason::NoAgreement => Some(CloseCause::NoAgreement),
        CloseReason::RetryLimit => Some(CloseCause::RetryLimit),
        CloseReason::Ertm(reason) => Some(CloseCause::Broken(reason.number())),
        CloseReason::LinkDown => None,
        CloseReason::OwnClosed => Some(CloseCause::Own),
    }
}

/// Whether nothing is left to a push but the end of its link.
fn is_at_end(stage: Stage) -> bool
    ensures { result ≡ is_at_end stage }
{
    matches!(stage, Stage::LinkEnd(_))
}

impl ClientEnd {
    /// A client with no push. It reserves all memory that it ever needs; `NoMemory` where that cannot be had.
    pub(crate) fn new(alloc: Global, settings: &Settings) -> Result<ClientEnd, NoMemory>
        ensures { IfOk result (λ end. end ≡ (client_profile settings.now).first) }
    {
        Ok(ClientEnd {
            client: PushClient::new(alloc, settings)?,
            endpoints: Endpoints::new(),
            submitted: None,
            bid: Bid::Nothing,
        })
    }

    /// There is no link, or it is new.
    fn unlink(&mut self)
        ensures { self.new ≡ unlinked self.old.client self.old }
    {
        self.endpoints.clear();
        self.submitted = None;
        self.bid = Bid::Nothing;
    }

    /// The channel that it asked for last, for that PSM.
    fn channel_of(&self, psm: Psm) -> Option<Cid>
        requires { AllByRecursion HasCid self.now.endpoints }
        ensures { result ≡ endpoint_of psm self.now.endpoints }
    {
        let Some(own) = self.endpoints.of(psm.get()) else {
            return None;
        };
        Cid::of(own)
    }

    /// A link is up.
    fn hear_up(&mut self)
        ensures { self.new ≡ told [] (Linked Up) self.old }
    {
        self.client.link_up();
        self.unlink();
    }

    /// The link went down, for this reason.
    fn hear_down(&mut self, reason: u8)
        ensures { self.new ≡ told [] (Linked (Down reason)) self.old }
    {
        self.client.link_down(reason);
        self.client.end();
        self.unlink();
    }

    /// A link that was asked for was not made, with this status.
    fn hear_failed(&mut self, status: u8)
        ensures { self.new ≡ told [] (Failed status) self.old }
    {
        self.client.link_failed(status);
        self.client.end();
        self.unlink();
    }

    /// The timer of its host fired.
    fn hear_timer(&mut self)
        ensures { self.new ≡ told [] TimerFired self.old }
    {
        self.client.fire();
    }

    /// Gives up its push, where that may be.
    pub(crate) fn cancel(&mut self)
        requires sound { Pushes self.old }
        ensures is { self.new ≡ told [] Cancelled self.old }
        ensures sound { Pushes self.new }
    {
        self.client.cancel();
        self.client.end();
    }

    /// Hears what happened to its channels.
    fn hear_event(&mut self, event: ChannelEvent, channels: &Channels)
        ensures { self.new ≡ happened event channels.now.channels self.old }
    {
        match event {
            ChannelEvent::Opened(own, psm) => {
                if let Some(mtu) = channels.peer_mtu(own) {
                    self.client.on(ProfileEvent::ChannelOpen(psm, mtu));
                }
            }
            ChannelEvent::Closed(_, psm, reason) => {
                if let Some(cause) = cause_of(reason) {
                    self.client.on(ProfileEvent::ChannelClosed(psm, cause));
                }
            }
            ChannelEvent::Features(features) => self.client.on(ProfileEvent::Features(features)),
            ChannelEvent::FeaturesLost => self.client.on(ProfileEvent::FeaturesLost),
            ChannelEvent::DisconnectLost(_) => {}
        }
    }

    /// Hears an SDU of the multiplexer `psm`.
    fn hear_sdu(&mut self, own: u16, psm: u16, sdu: &[u8])
        requires { IsPsm self.old.client.psm }
        ensures { self.new ≡ received own psm sdu.now self.old }
    {
        let Some(psm) = Psm::of(psm) else {
            return;
        };
        self.client.hear_sdu(psm, sdu);
    }

    /// An SDU that waits no longer in its channel is sent.
    fn settle(&mut self, channels: &Channels)
        ensures { self.new ≡ sent channels.now.channels self.old }
    {
        let Some(own) = self.submitted else {
            return;
        };
        if !channels.waits(own) {
            self.submitted = None;
            self.client.stepped();
        }
    }

    /// Asks for a channel.
    fn open(&mut self, psm: Psm, channels: &mut Channels)
        requires endpoints { AllByRecursion HasCid self.old.endpoints }
        ensures is { self.new ≡ done (record self.old { endpoints = with_answer psm (connect_answer channels.old.channels) self.old.endpoints }) }
        ensures channels { channels.new ≡ with_channels channels.old (connected psm channels.old.channels) }
        ensures endpoints { AllByRecursion HasCid self.new.endpoints }
    {
        if let Some(own) = channels.connect(psm) {
            self.endpoints.put(psm.get(), own.get());
        }
        self.client.stepped();
    }

    /// Asks for the end of its channel.
    fn close(&mut self, psm: Psm, channels: &mut Channels)
        requires endpoints { AllByRecursion HasCid self.old.endpoints }
        requires told { channels.old.channels.events ≡ [] }
        ensures is { self.new ≡ done self.old }
        ensures channels { channels.new ≡ with_channels channels.old (closes (endpoint_of psm self.old.endpoints) channels.old.channels) }
    {
        if let Some(own) = self.channel_of(psm) {
            channels.disconnect(own);
        }
        self.client.stepped();
    }

    /// Gives its SDU to its channel, where that takes it.
    fn submit(&mut self, psm: Psm, channels: &mut Channels)
        requires endpoints { AllByRecursion HasCid self.old.endpoints }
        ensures strides { record { channels = channels.new.channels; profile = self.new; more = false } ≡ submits (endpoint_of psm self.old.endpoints) (payload_in self.old.client) channels.old.channels self.old }
        ensures endpoints { self.new.endpoints ≡ self.old.endpoints }
        ensures channels { channels.new ≡ with_channels channels.old channels.new.channels }
    {
        let Some(own) = self.channel_of(psm) else {
            return;
        };
        let sdu = self.client.octets();
        are_octets(sdu);
        if !channels.takes(own.get(), sdu.len()) {
            return;
        }
        channels.put_sdu(own.get(), sdu);
        self.submitted = Some(own);
    }

    /// Does a step of its push, and answers whether it is to be asked again.
    fn take(&mut self, step: Step, channels: &mut Channels) -> bool
        requires endpoints { AllByRecursion HasCid self.old.endpoints }
        requires told { channels.old.channels.events ≡ [] }
        ensures strides { record { channels = channels.new.channels; profile = self.new; more = result } ≡ takes (step_of (payload_in self.old.client) step) channels.old.channels self.old self.old }
        ensures channels { channels.new ≡ with_channels channels.old channels.new.channels }
        ensures endpoints { AllByRecursion HasCid self.new.endpoints }
    {
        match step {
            Step::Wait | Step::MakeLink | Step::Ended(_) | Step::NoMemory => false,
            Step::AskFeatures => {
                channels.ask_features();
                self.client.stepped();
                false
            }
            Step::OpenChannel(psm) => {
                self.open(psm, channels);
                false
            }
            Step::SendSdu(psm) => {
                self.submit(psm, channels);
                false
            }
            Step::CloseChannel(psm) => {
                self.close(psm, channels);
                true
            }
            Step::BreakLink => {
                self.bid = Bid::Nothing;
                self.client.stepped();
                false
            }
        }
    }

    /// Asks for its link, as its push begins.
    fn call<F: Shelf>(&mut self, shelf: &mut F)
        requires due { IsDue self.old.client }
        ensures is { self.new ≡ calls self.old }
        ensures answers { AreOf (F.content shelf.old) (F.content shelf.new) (F.faults shelf.old) (F.faults shelf.new) (F.shortages shelf.old) (F.shortages shelf.new) [] }
    {
        if let Step::MakeLink = self.client.advance(shelf) {
            self.client.stepped();
            self.bid = Bid::Paging;
        }
    }

    /// Begins the push of the object of that name, and asks the shelf for its size. Where the shelf fails, the push ends at once, and
    /// no link is asked for. `NoMemory` where the shelf had none. It needs a name of at most 100 UTF-16 units.
    pub(crate) fn begin<F: Shelf>(&mut self, name: &str, shelf: &mut F) -> Result<(), NoMemory>
        requires few { length (units_in name.now) ≤ 100 }
        requires sound { Pushes self.old }
        ensures does { OnOk result (Does (Answers F.content F.faults F.shortages) (λ rest. told_shelved rest (Opening name.now) (shelved_by F.content self.old shelf.old rest)) (shelved_by F.content self.new shelf.new) shelf.old shelf.new) }
        ensures sound { OnOk result (Pushes self.new) }
        ensures lacked { OnErr result (HasRisen (F.shortages shelf.old) (F.shortages shelf.new) × (F.shortages shelf.old ≤ F.shortages shelf.new)) }
    {
        self.client.begin(name, shelf)?;
        self.client.end();
        self.submitted = None;
        self.bid = Bid::Nothing;
        if !self.client.idle() {
            self.call(shelf);
        }
        Ok(())
    }

    /// Whether no push goes on.
    pub(crate) fn is_idle(&self) -> bool
        ensures { result ≡ is_idle self.now.client }
    {
        self.client.idle()
    }

    /// The first cause that came since its push was begun: its outcome.
    pub(crate) fn outcome(&self) -> Option<Outcome>
        ensures { result ≡ self.now.client.cause }
    {
        self.client.outcome()
    }

    /// Whether a request of its search waits for its reply.
    pub(crate) fn is_armed(&self) -> bool
        ensures { result ≡ armed self.now.client }
    {
        self.client.armed()
    }

    /// Whether its push may be given up.
    pub(crate) fn may_cancel(&self) -> bool
        ensures { result ≡ may_cancel self.now.client }
    {
        self.client.may_cancel()
    }
}

impl<F: Shelf> End<F> for ClientEnd {
    ghost use Rattle.std.specs.Prelude.{◌≡◌, ◌≤◌, Bool, false, refl};
    ghost use Rattle.bt_base.specs.Counts.{HasRisen};
    ghost use Rattle.bt_host.specs.NotedHosts.{credits_of_shelved};
    ghost use Rattle.bt_host.specs.Pushing.{Pushes};
    ghost use Rattle.bt_host.specs.PushingLaws.{Answers, joins, lacks};
    ghost use Rattle.bt_host.specs.Shelving.{Shelved, shelf_profile, shelved_by};
    ghost use Rattle.bt_host.specs.ShelvingLaws.{shelf_told_alone};

    ghost State = { Shelved };

    ghost profile = { shelf_profile };

    ghost is_server = { false };

    ghost pushing = { shelved_by F.content };

    ghost is_sound = { λ end shelf. Pushes end };

    ghost answers = { Answers F.content F.faults F.shortages };

    ghost lacked = { λ shelf shelf'. HasRisen (F.shortages shelf) (F.shortages shelf') × (F.shortages shelf ≤ F.shortages shelf') };

    fn link_up(&mut self, _port: &F) {
        self.hear_up();
    }

    fn link_down(&mut self, reason: u8, _port: &mut F) -> Result<(), NoMemory> {
        self.hear_down(reason);
        Ok(())
    }

    fn link_failed(&mut self, status: u8, _port: &F) {
        self.hear_failed(status);
    }

    fn fired(&mut self, _port: &F) {
        self.hear_timer();
    }

    fn received(&mut self, own: u16, psm: u16, sdu: &[u8], _port: &mut F) -> Result<(), NoMemory> {
        self.hear_sdu(own, psm, sdu);
        Ok(())
    }

    fn happened(
        &mut self,
        event: ChannelEvent,
        channels: &Channels,
        _port: &mut F,
    ) -> Result<(), NoMemory> {
        self.hear_event(event, channels);
        Ok(())
    }

    fn sent(&mut self, channels: &Channels, _port: &F) {
        self.settle(channels);
    }

    fn step(&mut self, channels: &mut Channels, port: &mut F) -> Result<bool, NoMemory> {
        match self.client.advance(port) {
            Step::NoMemory => Err(NoMemory),
            step => Ok(self.take(step, channels)),
        }
    }

    fn leaves_link(&self) -> bool {
        is_at_end(self.client.stage())
    }

    fn wants_link(&self) -> bool {
        matches!(self.bid, Bid::Paging) && !self.client.idle()
    }

    fn armed(&self) -> bool {
        self.client.armed()
    }

    ghost credits_in = { credits_of_shelved };

    fn credits(&self) -> u16 {
        self.client.credits()
    }

    ghost joins = { joins F.content F.faults F.shortages };

    ghost lacks = { lacks F.content F.faults F.shortages };

    ghost policy_is = { λ settings. refl };

    ghost told_alone = { shelf_told_alone };

    ghost given_once = { λ end port settings rest. refl };
}
