//! The host that pushes objects.

use crate::client_end::ClientEnd;
use crate::feed_refusal::FeedRefusal;
use crate::noting::Noting;
use crate::shell::Shell;
use acl_credits::Ledger;
use bt_base::{BdAddr, NoMemory, Settings, Shelf};
use h4_framing::H4Refusal;
use host_link::Role;
use l2cap_channels::Channels;
use push_terms::Outcome;
use std::alloc::Global;
use std::marker::Model;

/// The host that pushes objects of a shelf: octets of its controller in, octets for it out (Object Push Profile 1.2, 4.3).
///
/// A clause sees how far it has come in what it was fed, its line, its channels with the client above them and what it noted of
/// both, and why it cannot go on.
#[derive(Drop)]
pub struct ClientHost {
    pub(crate) shell: Shell<Noting<ClientEnd>>,
}

impl Model for ClientHost {
    ghost use Rattle.std.specs.Prelude.{◌≡◌, None, false};
    ghost use Rattle.shelf_model.specs.host_model.specs.Clients.{ClientProfile};
    ghost use Rattle.bt_host.specs.Noting.{Noted};
    ghost use Rattle.bt_host.specs.Shells.{Shelled};
    ghost use Rattle.bt_host.specs.Uppers.{IsOf};

    ghost Value = { Shelled (Noted ClientProfile) };

    ghost view = { λ host. host.shell };

    ghost invariant = { λ host. host.shell.refusal ≡ None → IsOf false host.shell.stack.upper };
}

impl ClientHost {
    ghost use Rattle.std.specs.Prelude.{◌≡◌, ◌≤◌, ◌||◌, true, None, Some, drop, length, IfOk, OnOk, OnErr};
    ghost use Rattle.push_model.specs.Client.{is_idle, may_cancel};
    ghost use Rattle.push_model.specs.Events.{armed};
    ghost use Rattle.h4_framing.specs.Taking.{EndsWith};
    ghost use Rattle.channel_model.specs.Calls as calls;
    ghost use Rattle.shelf_model.specs.obex_session.specs.PutPackets.{units_in};
    ghost use Rattle.shelf_model.specs.world_model.specs.Machines.{TimerFired, Cancelled, Opening};
    ghost use Rattle.bt_host.specs.declared.feed_refusal.FeedRefusal.TheVariants as refusals;
    ghost use Rattle.bt_host.specs.Refusals.{fresh_framing};
    ghost use Rattle.bt_host.specs.Stacks.{GoesOn, HearsNews};
    ghost use Rattle.bt_host.specs.Pushing.{new_stack, Pushes, Lacks};
    ghost use Rattle.bt_host.specs.NotedHosts.{noted_client, client_noting};
    ghost use Rattle.bt_host.specs.PushingLaws.{Answers};
    ghost use Rattle.bt_host.specs.Shells.{settings_of, moment_of, ComesToRest, Feeds, RefusedNone, StaysFailed};

    /// A client with no push, whose first command stands in `out`. It reserves all memory that it ever needs; `NoMemory` where
    /// that cannot be had.
    pub fn new(alloc: Global, settings: &Settings) -> Result<ClientHost, NoMemory>
        ensures { IfOk result (λ host. host ≡ record { framing = fresh_framing; stack = new_stack settings.now; refusal = None }) }
    {
        let end = Noting::new(ClientEnd::new(alloc, settings)?);
        Ok(ClientHost {
            shell: Shell::new(alloc, settings, Role::Client, end)?,
        })
    }

    /// Takes octets of the controller: what was held back before goes out, and then the host hears each packet that is whole
    /// with this piece, and goes on. The rest is held.
    ///
    /// `Transport` where the octets are no packets, and `CommandFailed` and `BadBuffers` where a packet says so; what came
    /// before it was heard. `NoMemory` where the shelf had none. After any of these the same is answered for good, and the
    /// host stays as it is.
    pub fn feed<F: Shelf>(&mut self, piece: &[u8], shelf: &mut F) -> Result<(), FeedRefusal>
        requires works { self.old.refusal ≡ None → Pushes self.old.stack.upper.end.end }
        ensures feeds { Feeds (noted_client (settings_of self.old)) (Answers F.content F.faults F.shortages) (Lacks F.shortages) (client_noting F.content) piece.now self.old self.new shelf.old shelf.new result }
        ensures rests { OnOk result (ComesToRest noted_client (client_noting F.content) self.old self.new shelf.new) }
        ensures works { OnOk result (Pushes self.new.stack.upper.end.end) }
    {
        self.shell.feed(piece, shelf)
    }

    /// The timer fires: requests that wait for their responses are given once more, or given up. `NoMemory` where the shelf
    /// had none; then the same is answered for good, and the host stays as it is. It needs a host that refused nothing else.
    pub fn on_timer<F: Shelf>(&mut self, shelf: &mut F) -> Result<(), NoMemory>
        requires sound { RefusedNone self.old }
        requires works { self.old.refusal ≡ None → Pushes self.old.stack.upper.end.end }
        ensures hears { OnOk result (HearsNews (noted_client (settings_of self.old)) (Answers F.content F.faults F.shortages) (client_noting F.content) TimerFired (moment_of self.old shelf.old) (moment_of self.new shelf.new)) }
        ensures rests { OnOk result (ComesToRest noted_client (client_noting F.content) self.old self.new shelf.new) }
        ensures stays { OnOk result (self.new ≡ record self.old { stack = self.new.stack }) }
        ensures works { OnOk result (Pushes self.new.stack.upper.end.end) }
        ensures lacked { self.old.refusal ≡ None → OnErr result (Lacks F.shortages shelf.old shelf.new) }
        ensures refused { OnErr result (self.new.refusal ≡ Some refusals.NoMemory) }
        ensures failed { StaysFailed self.old self.new shelf.old shelf.new result }
    {
        self.shell.on_timer(shelf)
    }

    /// Begins the push of the object of that name, and goes on: it asks for a link, where none is up. Where the shelf fails the push
    /// ends at once. `NoMemory` where the shelf had none; then the same is answered for good, and the host stays as it is.
    ///
    /// It needs a host that refused nothing else and pushes nothing, and a name of at most 100 UTF-16 units (Object Push Profile 1.2, 4.3).
    pub fn push<F: Shelf>(&mut self, name: &str, shelf: &mut F) -> Result<(), NoMemory>
        requires sound { RefusedNone self.old }
        requires works { self.old.refusal ≡ None → Pushes self.old.stack.upper.end.end }
        requires idle { is_idle self.old.stack.upper.end.end.client ≡ true }
        requires few { length (units_in name.now) ≤ 100 }
        ensures hears { OnOk result (HearsNews (noted_client (settings_of self.old)) (Answers F.content F.faults F.shortages) (client_noting F.content) (Opening name.now) (moment_of self.old shelf.old) (moment_of self.new shelf.new)) }
        ensures rests { OnOk result (ComesToRest noted_client (client_noting F.content) self.old self.new shelf.new) }
        ensures stays { OnOk result (self.new ≡ record self.old { stack = self.new.stack }) }
        ensures works { OnOk result (Pushes self.new.stack.upper.end.end) }
        ensures lacked { self.old.refusal ≡ None → OnErr result (Lacks F.shortages shelf.old shelf.new) }
        ensures refused { OnErr result (self.new.refusal ≡ Some refusals.NoMemory) }
        ensures failed { StaysFailed self.old self.new shelf.old shelf.new result }
    {
        self.shell.begin(name, shelf)
    }

    /// Gives up the push, and goes on. `NoMemory` where the shelf had none; then the same is answered for good, and
    /// the host stays as it is. It needs a host that refused nothing else, and a push that may be given up.
    pub fn cancel<F: Shelf>(&mut self, shelf: &mut F) -> Result<(), NoMemory>
        requires sound { RefusedNone self.old }
        requires works { self.old.refusal ≡ None → Pushes self.old.stack.upper.end.end }
        requires may { may_cancel self.old.stack.upper.end.end.client ≡ true }
        ensures hears { OnOk result (HearsNews (noted_client (settings_of self.old)) (Answers F.content F.faults F.shortages) (client_noting F.content) Cancelled (moment_of self.old shelf.old) (moment_of self.new shelf.new)) }
        ensures rests { OnOk result (ComesToRest noted_client (client_noting F.content) self.old self.new shelf.new) }
        ensures stays { OnOk result (self.new ≡ record self.old { stack = self.new.stack }) }
        ensures works { OnOk result (Pushes self.new.stack.upper.end.end) }
        ensures lacked { self.old.refusal ≡ None → OnErr result (Lacks F.shortages shelf.old shelf.new) }
        ensures refused { OnErr result (self.new.refusal ≡ Some refusals.NoMemory) }
        ensures failed { StaysFailed self.old self.new shelf.old shelf.new result }
    {
        self.shell.cancel(shelf)
    }

    /// Pages the device of that address from now on.
    pub fn page_device(&mut self, address: BdAddr)
        ensures { self.new ≡ record self.old { stack = record self.old.stack { paged = address } } }
    {
        self.shell.page_device(address);
    }

    /// Puts out what was held back for want of room in `out`, and goes on. `NoMemory` where the shelf had none; then the
    /// same is answered for good, and the host stays as it is. It needs a host that refused nothing else.
    pub fn put_out<F: Shelf>(&mut self, shelf: &mut F) -> Result<(), NoMemory>
        requires sound { RefusedNone self.old }
        requires works { self.old.refusal ≡ None → Pushes self.old.stack.upper.end.end }
        ensures goes { OnOk result (GoesOn (noted_client (settings_of self.old)) (Answers F.content F.faults F.shortages) (client_noting F.content) (moment_of self.old shelf.old) (moment_of self.new shelf.new)) }
        ensures rests { OnOk result (ComesToRest noted_client (client_noting F.content) self.old self.new shelf.new) }
        ensures stays { OnOk result (self.new ≡ record self.old { stack = self.new.stack }) }
        ensures works { OnOk result (Pushes self.new.stack.upper.end.end) }
        ensures lacked { self.old.refusal ≡ None → OnErr result (Lacks F.shortages shelf.old shelf.new) }
        ensures refused { OnErr result (self.new.refusal ≡ Some refusals.NoMemory) }
        ensures failed { StaysFailed self.old self.new shelf.old shelf.new result }
    {
        self.shell.put_out(shelf)
    }

    /// The octets for the controller, in their order.
    pub fn out(&self) -> &[u8]
        ensures { result.now ≡ self.now.stack.line.out }
    {
        self.shell.out()
    }

    /// The controller took the first `n` octets of `out`. It needs as many there.
    pub fn taken(&mut self, n: usize)
        requires { n ≤ length self.old.stack.line.out }
        ensures { self.new ≡ record self.old { stack = record self.old.stack { line = record self.old.stack.line { out = drop n self.old.stack.line.out } } } }
    {
        self.shell.taken(n);
    }

    /// What the controller holds of the packets that went out.
    pub fn ledger(&self) -> &Ledger
        ensures { result.now ≡ self.now.stack.line.ledger }
    {
        self.shell.ledger()
    }

    /// The channels of its link.
    pub fn channels(&self) -> &Channels
        ensures { result.now ≡ self.now.stack.upper.machine }
    {
        self.shell.channels()
    }

    /// The client.
    fn client(&self) -> &ClientEnd
        ensures { result.now ≡ self.now.stack.upper.end.end }
    {
        &self.shell.end().end
    }

    /// Whether an own request of signalling or of the search waits for its response, or the machine of a channel for its timer.
    pub fn armed(&self) -> bool
        ensures { result ≡ (calls.armed self.now.stack.upper.machine.channels || armed self.now.stack.upper.end.end.client) }
    {
        self.shell.channels().armed() || self.client().is_armed()
    }

    /// Whether no push goes on: none was begun, or the last one has ended.
    pub fn idle(&self) -> bool
        ensures { result ≡ is_idle self.now.stack.upper.end.end.client }
    {
        self.client().is_idle()
    }

    /// The first cause that came since the last push was begun: its outcome.
    pub fn outcome(&self) -> Option<Outcome>
        ensures { result ≡ self.now.stack.upper.end.end.client.cause }
    {
        self.client().outcome()
    }

    /// Whether the push may be given up: it goes on without a cause, and its final PUT was not made.
    pub fn may_cancel(&self) -> bool
        ensures { result ≡ may_cancel self.now.stack.upper.end.end.client }
    {
        self.client().may_cancel()
    }

    /// Whether its channel of that number has a check word.
    pub fn has_fcs(&self, cid: u16) -> bool
        ensures { result ≡ calls.has_fcs cid self.now.stack.upper.machine.channels }
    {
        self.shell.channels().has_fcs(cid)
    }

    /// What the end of the octets means here: `Truncated`, with the place of its first octet, where a packet is not whole.
    /// After `Transport` it answers that refusal.
    pub fn end(&self) -> Result<(), (H4Refusal, u64)>
        ensures { EndsWith self.now.framing result }
    {
        self.shell.octets_end()
    }
}
