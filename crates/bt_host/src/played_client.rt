//! The host that pushes objects, as a world plays it.

use crate::client_host::ClientHost;
use crate::fed::want;
use bt_base::{NoMemory, Settings, Shelf};
use push_terms::Outcome;
use radio_world::{Client, Host, Measured};
use std::alloc::Global;

impl<F: Shelf> Host<F> for ClientHost {
    ghost use Rattle.push_terms.specs.declared.word.Side.TheVariants.{A};
    ghost use Rattle.shelf_model.specs.host_model.specs.Circumstances.{Circumstance};
    ghost use Rattle.shelf_model.specs.host_model.specs.Settings.{SetHost};
    ghost use Rattle.bt_host.specs.Pushing.{Lacks};
    ghost use Rattle.bt_host.specs.Shelving.{Shelved};
    ghost use Rattle.bt_host.specs.Noting.{Noted};
    ghost use Rattle.bt_host.specs.NotedHosts.{noted_client, noted_client_machine, client_noting};
    ghost use Rattle.bt_host.specs.PushingLaws as laws;
    ghost use Rattle.bt_host.specs.PushingLaws.{Answers};
    ghost use Rattle.bt_host.specs.Playing.{fresh_client, playing, PushesSoundly};
    ghost use Rattle.bt_host.specs.PlayingLaws.{joined, stops};
    ghost use Rattle.bt_host.specs.BeginningLaws.{client_begins};
    ghost use Rattle.bt_host.specs.SpeakingLaws.{speaks};
    ghost use Rattle.shelf_model.specs.host_model.specs.Hosts.{most_said};

    ghost State = { SetHost (Noted Shelved) };

    ghost Answer = { Circumstance };

    ghost most_more = { most_said };

    ghost machine = { noted_client_machine };

    ghost side = { A };

    ghost station = { λ host shelf. playing (client_noting F.content) shelf host.stack };

    ghost held = { λ host. host.framing.held };

    ghost is_sound = { PushesSoundly F.content };

    ghost answers = { Answers F.content F.faults F.shortages };

    ghost lacked = { Lacks F.shortages };

    ghost fresh = { fresh_client };

    fn new(alloc: Global, settings: &Settings) -> Result<ClientHost, NoMemory> {
        ClientHost::new(alloc, settings)
    }

    fn out(&self) -> &[u8] {
        ClientHost::out(self)
    }

    fn taken(&mut self, n: usize, port: &mut F) -> Result<(), NoMemory> {
        ClientHost::taken(self, n);
        self.put_out(port)
    }

    fn feed(&mut self, octets: &[u8], port: &mut F) -> Result<(), NoMemory> {
        want(self.shell.hear(octets, port))
    }

    fn armed(&self) -> bool {
        ClientHost::armed(self)
    }

    fn on_timer(&mut self, port: &mut F) -> Result<(), NoMemory> {
        ClientHost::on_timer(self, port)
    }

    fn has_fcs(&self, channel: u16) -> bool {
        ClientHost::has_fcs(self, channel)
    }

    ghost begins = { λ settings shelf unused. client_begins F.content settings shelf };

    ghost lacks = { laws.lacks F.content F.faults F.shortages };

    ghost joins = { joined (Answers F.content F.faults F.shortages) (laws.joins F.content F.faults F.shortages) };

    ghost speaks = { speaks noted_client (client_noting F.content) };

    ghost stops = { λ host shelf is. stops noted_client A (client_noting F.content) host.stack shelf is.2 };
}

impl<F: Shelf> Client<F> for ClientHost {
    fn idle(&self) -> bool {
        ClientHost::idle(self)
    }

    fn outcome(&self) -> Option<Outcome> {
        ClientHost::outcome(self)
    }

    fn may_cancel(&self) -> bool {
        ClientHost::may_cancel(self)
    }

    fn push(&mut self, name: &str, port: &mut F) -> Result<(), NoMemory> {
        ClientHost::push(self, name, port)
    }

    fn cancel(&mut self, port: &mut F) -> Result<(), NoMemory> {
        ClientHost::cancel(self, port)
    }
}

impl<F: Shelf> Measured<F> for ClientHost {
    ghost use Rattle.bt_host.specs.Shelving.{shelf_profile};
    ghost use Rattle.bt_host.specs.NotedHosts.{credits_of_shelved, client_noting};
    ghost use Rattle.std.specs.Prelude.{refl};
    ghost use Rattle.bt_host.specs.NotingLaws.{window_is_noted, credits_are_noted};

    ghost frames_sent = { λ host. host.stack.upper.end.window };

    ghost credits_held = { λ host. host.stack.upper.end.credits };

    fn greatest_window(&self) -> u8 {
        self.shell.end().window
    }

    fn greatest_credits(&self) -> u16 {
        self.shell.end().credits
    }

    ghost frames_noted = { window_is_noted credits_of_shelved shelf_profile (client_noting F.content) (λ host port rest. refl) };

    ghost credits_noted = { credits_are_noted credits_of_shelved shelf_profile (client_noting F.content) (λ host port rest. refl) };
}
