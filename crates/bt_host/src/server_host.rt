//! The host that receives objects.

use crate::feed_refusal::FeedRefusal;
use crate::noting::Noting;
use crate::server_end::ServerEnd;
use crate::shell::Shell;
use acl_credits::Ledger;
use bt_base::{Inbox, NoMemory, Settings};
use h4_framing::H4Refusal;
use host_link::Role;
use l2cap_channels::Channels;
use std::alloc::Global;
use std::marker::Model;

/// The host that receives objects and stores them in an inbox: octets of its controller in, octets for it out (Object Push
/// Profile 1.2, 4.3).
///
/// A clause sees how far it has come in what it was fed, its line, its channels with the server above them and what it noted of
/// both, and why it cannot go on.
#[derive(Drop)]
pub struct ServerHost {
    pub(crate) shell: Shell<Noting<ServerEnd>>,
}

impl Model for ServerHost {
    ghost use Rattle.std.specs.Prelude.{◌≡◌, None, true};
    ghost use Rattle.bt_host.specs.Noting.{Noted};
    ghost use Rattle.bt_host.specs.Serving.{Served};
    ghost use Rattle.bt_host.specs.Shells.{Shelled};
    ghost use Rattle.bt_host.specs.Uppers.{IsOf};

    ghost Value = { Shelled (Noted Served) };

    ghost view = { λ host. host.shell };

    ghost invariant = { λ host. host.shell.refusal ≡ None → IsOf true host.shell.stack.upper };
}

impl ServerHost {
    ghost use Rattle.std.specs.Prelude.{◌≡◌, ◌≤◌, None, Some, drop, length, IfOk, OnOk, OnErr};
    ghost use Rattle.h4_framing.specs.Taking.{EndsWith};
    ghost use Rattle.channel_model.specs.Calls as calls;
    ghost use Rattle.shelf_model.specs.world_model.specs.Machines.{TimerFired};
    ghost use Rattle.bt_host.specs.declared.feed_refusal.FeedRefusal.TheVariants as refusals;
    ghost use Rattle.bt_host.specs.Refusals.{fresh_framing};
    ghost use Rattle.bt_host.specs.Newness.{new_stack};
    ghost use Rattle.bt_host.specs.Stacks.{GoesOn, HearsNews};
    ghost use Rattle.bt_host.specs.Serving.{Works, Asks, Lacks};
    ghost use Rattle.bt_host.specs.NotedHosts.{noted_server, server_noting};
    ghost use Rattle.bt_host.specs.Shells.{settings_of, moment_of, ComesToRest, Feeds, RefusedNone, StaysFailed};

    /// A server whose first command stands in `out`. It reserves all memory that it ever needs; `NoMemory` where that cannot
    /// be had.
    pub fn new(alloc: Global, settings: &Settings) -> Result<ServerHost, NoMemory>
        ensures { IfOk result (λ host. host ≡ record { framing = fresh_framing; stack = new_stack settings.now; refusal = None }) }
    {
        let end = Noting::new(ServerEnd::new(alloc, settings)?);
        Ok(ServerHost {
            shell: Shell::new(alloc, settings, Role::Server, end)?,
        })
    }

    /// Takes octets of the controller: what was held back before goes out, and then the host hears each packet that is whole
    /// with this piece, and goes on. The rest is held.
    ///
    /// `Transport` where the octets are no packets, and `CommandFailed` and `BadBuffers` where a packet says so; what came
    /// before it was heard. `NoMemory` where the inbox had none. After any of these the same is answered for good, and the
    /// host stays as it is.
    ///
    /// It needs an inbox that has an object pending exactly where one is under way.
    pub fn feed<B: Inbox>(&mut self, piece: &[u8], inbox: &mut B) -> Result<(), FeedRefusal>
        requires works { self.old.refusal ≡ None → Works self.old.stack.upper.end.end (B.is_pending inbox.old) }
        ensures feeds { Feeds (noted_server (settings_of self.old)) (Asks B.faults B.shortages) (Lacks B.shortages) (server_noting B.content) piece.now self.old self.new inbox.old inbox.new result }
        ensures rests { OnOk result (ComesToRest noted_server (server_noting B.content) self.old self.new inbox.new) }
        ensures works { OnOk result (Works self.new.stack.upper.end.end (B.is_pending inbox.new)) }
    {
        self.shell.feed(piece, inbox)
    }

    /// The timer fires: requests that wait for their responses are given once more, or given up. `NoMemory` where the inbox
    /// had none; then the same is answered for good, and the host stays as it is. It needs a host that refused nothing else.
    pub fn on_timer<B: Inbox>(&mut self, inbox: &mut B) -> Result<(), NoMemory>
        requires sound { RefusedNone self.old }
        requires works { self.old.refusal ≡ None → Works self.old.stack.upper.end.end (B.is_pending inbox.old) }
        ensures hears { OnOk result (HearsNews (noted_server (settings_of self.old)) (Asks B.faults B.shortages) (server_noting B.content) TimerFired (moment_of self.old inbox.old) (moment_of self.new inbox.new)) }
        ensures rests { OnOk result (ComesToRest noted_server (server_noting B.content) self.old self.new inbox.new) }
        ensures stays { OnOk result (self.new ≡ record self.old { stack = self.new.stack }) }
        ensures works { OnOk result (Works self.new.stack.upper.end.end (B.is_pending inbox.new)) }
        ensures lacked { self.old.refusal ≡ None → OnErr result (Lacks B.shortages inbox.old inbox.new) }
        ensures refused { OnErr result (self.new.refusal ≡ Some refusals.NoMemory) }
        ensures failed { StaysFailed self.old self.new inbox.old inbox.new result }
    {
        self.shell.on_timer(inbox)
    }

    /// Puts out what was held back for want of room in `out`, and goes on. `NoMemory` where the inbox had none; then the
    /// same is answered for good, and the host stays as it is. It needs a host that refused nothing else.
    pub fn put_out<B: Inbox>(&mut self, inbox: &mut B) -> Result<(), NoMemory>
        requires sound { RefusedNone self.old }
        requires works { self.old.refusal ≡ None → Works self.old.stack.upper.end.end (B.is_pending inbox.old) }
        ensures goes { OnOk result (GoesOn (noted_server (settings_of self.old)) (Asks B.faults B.shortages) (server_noting B.content) (moment_of self.old inbox.old) (moment_of self.new inbox.new)) }
        ensures rests { OnOk result (ComesToRest noted_server (server_noting B.content) self.old self.new inbox.new) }
        ensures stays { OnOk result (self.new ≡ record self.old { stack = self.new.stack }) }
        ensures works { OnOk result (Works self.new.stack.upper.end.end (B.is_pending inbox.new)) }
        ensures lacked { self.old.refusal ≡ None → OnErr result (Lacks B.shortages inbox.old inbox.new) }
        ensures refused { OnErr result (self.new.refusal ≡ Some refusals.NoMemory) }
        ensures failed { StaysFailed self.old self.new inbox.old inbox.new result }
    {
        self.shell.put_out(inbox)
    }

    /// The octets for the controller, in their order.
    pub fn out(&self) -> &[u8]
        ensures { result.now ≡ self.now.stack.line.out }
    {
        self.shell.out()
    }

    /// The controller took the first `n` octets of `out`. It needs as many there.
    pub fn taken(&mut self, n: usize)
        requires { n ≤ length self.old.stack.line.out }
        ensures { self.new ≡ record self.old { stack = record self.old.stack { line = record self.old.stack.line { out = drop n self.old.stack.line.out } } } }
    {
        self.shell.taken(n);
    }

    /// What the controller holds of the packets that went out.
    pub fn ledger(&self) -> &Ledger
        ensures { result.now ≡ self.now.stack.line.ledger }
    {
        self.shell.ledger()
    }

    /// The channels of its link.
    pub fn channels(&self) -> &Channels
        ensures { result.now ≡ self.now.stack.upper.machine }
    {
        self.shell.channels()
    }

    /// Whether an own request waits for its response, or the machine of a channel for its timer.
    pub fn armed(&self) -> bool
        ensures { result ≡ calls.armed self.now.stack.upper.machine.channels }
    {
        self.shell.channels().armed()
    }

    /// Whether its channel of that number has a check word.
    pub fn has_fcs(&self, cid: u16) -> bool
        ensures { result ≡ calls.has_fcs cid self.now.stack.upper.machine.channels }
    {
        self.shell.channels().has_fcs(cid)
    }

    /// What the end of the octets means here: `Truncated`, with the place of its first octet, where a packet is not whole.
    /// After `Transport` it answers that refusal.
    pub fn end(&self) -> Result<(), (H4Refusal, u64)>
        ensures { EndsWith self.now.framing result }
    {
        self.shell.octets_end()
    }
}
