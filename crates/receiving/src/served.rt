//! The host that receives objects is fed octets.

use crate::fed_host::FedHost;
use bt_base::Inbox;
use bt_host::{FeedRefusal, ServerHost};

impl<B: Inbox> FedHost<B> for ServerHost {
    ghost use Rattle.std.specs.Prelude.{◌≡◌, None};
    ghost use Rattle.bt_host.specs.host_model.specs.Servers.{ServerProfile};
    ghost use Rattle.bt_host.specs.Noting.{Noted};
    ghost use Rattle.bt_host.specs.NotedHosts.{noted_server, server_noting};
    ghost use Rattle.bt_host.specs.Serving.{Works};
    ghost use Rattle.bt_host.specs.Shells.{settings_of};
    ghost use Rattle.bt_host.specs.Stacks.{standing};

    ghost State = { Noted ServerProfile };

    ghost profile = { λ host. noted_server (settings_of host) };

    ghost stands = { λ host inbox. standing (server_noting B.content) inbox host.stack };

    ghost framing = { λ host. host.framing };

    ghost is_sound = { λ host inbox. (host.refusal ≡ None) × Works host.stack.upper.end.end (B.is_pending inbox) };

    ghost faults = { B.faults };

    ghost shortages = { B.shortages };

    fn out(&self) -> &[u8] {
        ServerHost::out(self)
    }

    fn taken(&mut self, n: usize, _port: &B) {
        ServerHost::taken(self, n);
    }

    fn feed(&mut self, piece: &[u8], port: &mut B) -> Result<(), FeedRefusal> {
        ServerHost::feed(self, piece, port)
    }
}
