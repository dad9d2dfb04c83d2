//! The end of a server.

ghost use Rattle.std.specs.Prelude.{◌≡◌, ◌≤◌, [], IfOk, OnOk, OnErr, true, false};
ghost use Rattle.bt_base.specs.declared.settings.Settings.{Settings};
ghost use Rattle.push_model.specs.Server.{new_server};
ghost use Rattle.shelf_model.specs.host_model.specs.Servers.{is_told};

use crate::end::End;
use crate::endpoints::Endpoints;
use crate::upper::are_octets;
use bt_base::{Inbox, NoMemory, Psm, Settings};
use channel_model::{ChannelEvent, CloseReason};
use l2cap_channels::Channels;
use push_profile::PushServer;
use std::alloc::Global;
use std::marker::Model;

/// A server of Object Push, and the channels that its clients use. A clause sees both, and whether it ends the link.
#[derive(Drop)]
pub(crate) struct ServerEnd {
    server: PushServer,
    endpoints: Endpoints,
    breaks: bool,
}

impl Model for ServerEnd {
    ghost use Rattle.bt_host.specs.Serving.{Served};

    ghost Value = { Served };

    ghost view = { λ end. record { server = end.server; endpoints = end.endpoints; breaks = end.breaks } };
}

/// Whether a channel that closes for this reason tells of it: one that goes down with its link does not.
fn is_told(reason: CloseReason) -> bool
    ensures { result ≡ is_told reason }
{
    !matches!(reason, CloseReason::LinkDown)
}

impl ServerEnd {
    /// A server with no link. It reserves all memory that it ever needs; `NoMemory` where that cannot be had.
    pub(crate) fn new(alloc: Global, settings: &Settings) -> Result<ServerEnd, NoMemory>
        ensures { IfOk result (λ end. end ≡ record { server = new_server settings.now; endpoints = []; breaks = false }) }
    {
        Ok(ServerEnd {
            server: PushServer::new(alloc, settings)?,
            endpoints: Endpoints::new(),
            breaks: false,
        })
    }

    /// There is no link, or it is new.
    fn unlink(&mut self)
        ensures { self.new ≡ record self.old { endpoints = []; breaks = false } }
    {
        self.endpoints.clear();
        self.breaks = false;
    }
}

impl<B: Inbox> End<B> for ServerEnd {
    ghost use Rattle.std.specs.Prelude.{◌≡◌, Bool, true, refl};
    ghost use Rattle.shelf_model.specs.host_model.specs.Servers.{ServerProfile};
    ghost use Rattle.bt_host.specs.NotedHosts.{credits_of_server};
    ghost use Rattle.bt_host.specs.Serving.{serving, profile_of, Works, Asks, Lacks};
    ghost use Rattle.bt_host.specs.ServingLaws.{joins, lacks, told_alone};

    ghost State = { ServerProfile };

    ghost profile = { profile_of };

    ghost is_server = { true };

    ghost pushing = { λ end inbox rest. serving end (B.content inbox) rest };

    ghost is_sound = { λ end inbox. Works end (B.is_pending inbox) };

    ghost answers = { Asks B.faults B.shortages };

    ghost lacked = { Lacks B.shortages };

    fn link_up(&mut self, _port: &B) {
        self.unlink();
    }

    fn link_down(&mut self, _reason: u8, port: &mut B) -> Result<(), NoMemory> {
        self.server.link_down(port)?;
        self.unlink();
        Ok(())
    }

    fn link_failed(&mut self, _status: u8, _port: &B) {}

    fn fired(&mut self, _port: &B) {}

    fn received(&mut self, own: u16, psm: u16, sdu: &[u8], port: &mut B) -> Result<(), NoMemory> {
        self.endpoints.put(psm, own);
        let Some(psm) = Psm::of(psm) else {
            return Ok(());
        };
        self.server.on_sdu(psm, sdu, port)
    }

    fn happened(
        &mut self,
        event: ChannelEvent,
        _channels: &Channels,
        port: &mut B,
    ) -> Result<(), NoMemory> {
        match event {
            ChannelEvent::Closed(_, psm, reason) if is_told(reason) => {
                self.server.channel_down(psm, port)
            }
            ChannelEvent::DisconnectLost(_) => {
                self.breaks = true;
                Ok(())
            }
            _ => Ok(()),
        }
    }

    fn sent(&mut self, _channels: &Channels, _port: &B) {}

    fn step(&mut self, channels: &mut Channels, _port: &mut B) -> Result<bool, NoMemory> {
        let Some(psm) = self.server.next_sdu() else {
            return Ok(false);
        };
        let Some(own) = self.endpoints.of(psm.get()) else {
            return Ok(false);
        };
        let sdu = self.server.sdu();
        are_octets(sdu);
        if !channels.takes(own, sdu.len()) {
            return Ok(false);
        }
        channels.put_sdu(own, sdu);
        self.server.stepped();
        Ok(true)
    }

    fn leaves_link(&self) -> bool {
        self.breaks
    }

    fn wants_link(&self) -> bool {
        false
    }

    fn armed(&self) -> bool {
        false
    }

    ghost credits_in = { credits_of_server };

    fn credits(&self) -> u16 {
        self.server.credits()
    }

    ghost joins = { joins B.faults B.shortages };

    ghost lacks = { lacks B.faults B.shortages };

    ghost policy_is = { λ settings. refl };

    ghost told_alone = { told_alone };

    ghost given_once = { λ end port settings rest. refl };
}
