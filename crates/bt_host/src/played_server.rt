//! The host that receives objects, as a world plays it.

use crate::fed::want;
use crate::server_host::ServerHost;
use bt_base::{Inbox, NoMemory, Settings};
use radio_world::{Host, Measured};
use std::alloc::Global;

impl<I: Inbox> Host<I> for ServerHost {
    ghost use Rattle.std.specs.Prelude.{◌≡◌, false};
    ghost use Rattle.push_terms.specs.declared.word.Side.TheVariants.{B};
    ghost use Rattle.shelf_model.specs.host_model.specs.Circumstances.{Circumstance};
    ghost use Rattle.shelf_model.specs.host_model.specs.Servers.{ServerProfile};
    ghost use Rattle.shelf_model.specs.host_model.specs.Settings.{SetHost};
    ghost use Rattle.bt_host.specs.Serving.{Asks, Lacks};
    ghost use Rattle.bt_host.specs.Noting.{Noted};
    ghost use Rattle.bt_host.specs.NotedHosts.{noted_server_machine, noted_server, server_noting};
    ghost use Rattle.bt_host.specs.ServingLaws as laws;
    ghost use Rattle.bt_host.specs.Playing.{fresh_server, playing, ServesSoundly};
    ghost use Rattle.bt_host.specs.PlayingLaws.{joined, stops};
    ghost use Rattle.bt_host.specs.BeginningLaws.{server_begins};
    ghost use Rattle.bt_host.specs.SpeakingLaws.{speaks};
    ghost use Rattle.shelf_model.specs.host_model.specs.Hosts.{most_said};

    ghost State = { SetHost (Noted ServerProfile) };

    ghost Answer = { Circumstance };

    ghost most_more = { most_said };

    ghost machine = { noted_server_machine };

    ghost side = { B };

    ghost station = { λ host inbox. playing (server_noting I.content) inbox host.stack };

    ghost held = { λ host. host.framing.held };

    ghost is_sound = { ServesSoundly I.content I.is_pending };

    ghost answers = { Asks I.faults I.shortages };

    ghost lacked = { Lacks I.shortages };

    ghost is_unused = { λ inbox. I.is_pending inbox ≡ false };

    ghost fresh = { fresh_server };

    fn new(alloc: Global, settings: &Settings) -> Result<ServerHost, NoMemory> {
        ServerHost::new(alloc, settings)
    }

    fn out(&self) -> &[u8] {
        ServerHost::out(self)
    }

    fn taken(&mut self, n: usize, port: &mut I) -> Result<(), NoMemory> {
        ServerHost::taken(self, n);
        self.put_out(port)
    }

    fn feed(&mut self, octets: &[u8], port: &mut I) -> Result<(), NoMemory> {
        want(self.shell.hear(octets, port))
    }

    fn armed(&self) -> bool {
        ServerHost::armed(self)
    }

    fn on_timer(&mut self, port: &mut I) -> Result<(), NoMemory> {
        ServerHost::on_timer(self, port)
    }

    fn has_fcs(&self, channel: u16) -> bool {
        ServerHost::has_fcs(self, channel)
    }

    ghost begins = { λ settings inbox unused. server_begins I.content I.is_pending settings inbox unused };

    ghost lacks = { laws.lacks I.faults I.shortages };

    ghost joins = { joined (Asks I.faults I.shortages) (laws.joins I.faults I.shortages) };

    ghost speaks = { speaks noted_server (server_noting I.content) };

    ghost stops = { λ host inbox is. stops noted_server B (server_noting I.content) host.stack inbox is.2 };
}

impl<I: Inbox> Measured<I> for ServerHost {
    ghost use Rattle.bt_host.specs.Serving.{profile_of};
    ghost use Rattle.bt_host.specs.NotedHosts.{credits_of_server, server_noting};
    ghost use Rattle.std.specs.Prelude.{refl};
    ghost use Rattle.bt_host.specs.NotingLaws.{window_is_noted, credits_are_noted};

    ghost frames_sent = { λ host. host.stack.upper.end.window };

    ghost credits_held = { λ host. host.stack.upper.end.credits };

    fn greatest_window(&self) -> u8 {
        self.shell.end().window
    }

    fn greatest_credits(&self) -> u16 {
        self.shell.end().credits
    }

    ghost frames_noted = { window_is_noted credits_of_server profile_of (server_noting I.content) (λ host port rest. refl) };

    ghost credits_noted = { credits_are_noted credits_of_server profile_of (server_noting I.content) (λ host port rest. refl) };
}
