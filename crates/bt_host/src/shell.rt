//! A host: octets in, octets out.

ghost use Rattle.std.specs.Prelude.{◌≡◌, None, Some, OnOk, OnErr};
ghost use Rattle.bt_host.specs.declared.feed_refusal.FeedRefusal.TheVariants as refusals;
ghost use Rattle.bt_host.specs.Refusals.{acl_limit};
ghost use Rattle.bt_host.specs.Uppers.{IsOf};
ghost use Rattle.bt_host.specs.Stacks.{IsResting};
ghost use Rattle.bt_host.specs.Shells.{Reads, FeedsOn};

use crate::end::End;
use crate::feed_refusal::FeedRefusal;
use crate::stack::Stack;
use acl_credits::Ledger;
use bt_base::{BdAddr, NoMemory, Settings};
use h4_framing::{Framer, H4Refusal, Taken};
use host_link::Role;
use l2cap_channels::Channels;
use std::alloc::Global;
use std::marker::Model;

/// The longest ACL packet that a host takes, in octets.
const ACL_LIMIT: u16 = 1_021;

/// A host with an end of some kind: octets of its controller in, octets for it out. A clause sees how far it has come in what it
/// was fed, its line with what stands above, and why it cannot go on.
#[derive(Drop)]
pub(crate) struct Shell<E> {
    framer: Framer,
    pub(crate) stack: Stack<E>,
    pub(crate) refusal: Option<FeedRefusal>,
}

impl<E> Model for Shell<E> {
    ghost use Rattle.std.specs.Prelude.{◌≡◌, None};
    ghost use Rattle.bt_host.specs.Refusals.{acl_limit};
    ghost use Rattle.bt_host.specs.Shells.{Shelled};

    ghost Value = { Shelled E };

    ghost view = { λ shell. record { framing = shell.framer; stack = shell.stack; refusal = shell.refusal } };

    ghost invariant = { λ shell. (shell.framer.limit ≡ acl_limit) × (shell.refusal ≡ None → shell.framer.fault ≡ None) };
}

/// Lets a host hear each packet that is whole with this piece.
fn feed_stack<P, E: End<P>>(
    framer: &mut Framer,
    stack: &mut Stack<E>,
    piece: &[u8],
    port: &mut P,
) -> Result<(), FeedRefusal>
    requires limit { framer.old.limit ≡ acl_limit }
    requires framed { framer.old.fault ≡ None }
    requires sound { E.is_sound stack.old.upper.end port.old }
    requires of { IsOf E.is_server stack.old.upper }
    requires rests { IsResting (E.profile stack.old.upper.machine.settings) E.pushing (record { stack = stack.old; port = port.old }) }
    ensures reads { Reads (E.profile stack.old.upper.machine.settings) E.answers E.lacked E.pushing piece.now framer.old framer.new (record { stack = stack.old; port = port.old }) (record { stack = stack.new; port = port.new }) result }
    ensures limit { framer.new.limit ≡ acl_limit }
    ensures settings { stack.new.upper.machine.settings ≡ stack.old.upper.machine.settings }
    ensures paged { stack.new.paged ≡ stack.old.paged }
    ensures rests { OnOk result (IsResting (E.profile stack.old.upper.machine.settings) E.pushing (record { stack = stack.new; port = port.new })) }
    ensures of { OnOk result (IsOf E.is_server stack.new.upper) }
    ensures sound { OnOk result (E.is_sound stack.new.upper.end port.new) }
{
    let mut rest = piece;
    loop {
        let place = framer.place();
        match framer.take(rest) {
            Taken::Whole(unit, used) => {
                stack.hear(unit, place, port)?;
                rest = &rest[used..];
            }
            Taken::More => return Ok(()),
            Taken::Refused(refusal, place) => return Err(FeedRefusal::Transport(refusal, place)),
        }
    }
}

/// Puts out what was held back, and lets a host hear each packet that is whole with this piece.
fn feed_on<P, E: End<P>>(
    framer: &mut Framer,
    stack: &mut Stack<E>,
    piece: &[u8],
    port: &mut P,
) -> Result<(), FeedRefusal>
    requires limit { framer.old.limit ≡ acl_limit }
    requires framed { framer.old.fault ≡ None }
    requires sound { E.is_sound stack.old.upper.end port.old }
    requires of { IsOf E.is_server stack.old.upper }
    ensures feeds { FeedsOn (E.profile stack.old.upper.machine.settings) E.answers E.lacked E.pushing piece.now framer.old framer.new (record { stack = stack.old; port = port.old }) (record { stack = stack.new; port = port.new }) result }
    ensures limit { framer.new.limit ≡ acl_limit }
    ensures settings { stack.new.upper.machine.settings ≡ stack.old.upper.machine.settings }
    ensures paged { stack.new.paged ≡ stack.old.paged }
    ensures rests { OnOk result (IsResting (E.profile stack.old.upper.machine.settings) E.pushing (record { stack = stack.new; port = port.new })) }
    ensures of { OnOk result (IsOf E.is_server stack.new.upper) }
    ensures sound { OnOk result (E.is_sound stack.new.upper.end port.new) }
{
    let Ok(()) = stack.put_out(port) else {
        return Err(FeedRefusal::NoMemory);
    };
    feed_stack(framer, stack, piece, port)
}

/// Notes that a host found no memory: it goes on no more.
pub(crate) fn noted(
    done: Result<(), NoMemory>,
    refusal: &mut Option<FeedRefusal>,
) -> Result<(), NoMemory>
    ensures answer { result ≡ done }
    ensures goes { OnOk done (refusal.new ≡ refusal.old) }
    ensures refused { OnErr done (refusal.new ≡ Some refusals.NoMemory) }
{
    if done.is_err() {
        *refusal = Some(FeedRefusal::NoMemory);
    }
    done
}

impl<E: Drop> Shell<E> {
    ghost use Rattle.std.specs.Prelude.{◌≡◌, ◌≤◌, None, Some, drop, length, IfOk, OnOk, OnErr};
    ghost use Rattle.h4_framing.specs.Taking.{EndsWith};
    ghost use Rattle.shelf_model.specs.world_model.specs.Machines.{TimerFired};
    ghost use Rattle.bt_host.specs.declared.feed_refusal.FeedRefusal.TheVariants as refusals;
    ghost use Rattle.bt_host.specs.Refusals.{fresh_framing, refusal_in};
    ghost use Rattle.bt_host.specs.Uppers.{IsOf};
    ghost use Rattle.bt_host.specs.Stacks.{fresh_stack, GoesOn, HearsNews, IsResting};
    ghost use Rattle.bt_host.specs.Shells.{settings_of, moment_of, ComesToRest, Feeds, Reads, RefusedNone, StaysFailed};

    /// A host of that role with that end, whose first command stands in `out`. It reserves all memory that it ever needs;
    /// `NoMemory` where that cannot be had.
    pub(crate) fn new(
        alloc: Global,
        settings: &Settings,
        role: Role,
        end: E,
    ) -> Result<Shell<E>, NoMemory>
        ensures { IfOk result (λ shell. shell ≡ record { framing = fresh_framing; stack = fresh_stack role settings.now end; refusal = None }) }
    {
        Ok(Shell {
            framer: Framer::new(alloc, ACL_LIMIT)?,
            stack: Stack::new(alloc, settings, role, end)?,
            refusal: None,
        })
    }

    /// Puts out what was held back, hears each packet that is whole with this piece, and goes on. Behind a refusal the same is
    /// answered for good, and the host stays as it is.
    pub(crate) fn feed<P>(&mut self, piece: &[u8], port: &mut P) -> Result<(), FeedRefusal>
    where
        E: End<P>,
        requires sound { self.old.refusal ≡ None → E.is_sound self.old.stack.upper.end port.old }
        requires of { self.old.refusal ≡ None → IsOf E.is_server self.old.stack.upper }
        ensures feeds { Feeds (E.profile (settings_of self.old)) E.answers E.lacked E.pushing piece.now self.old self.new port.old port.new result }
        ensures rests { OnOk result (ComesToRest E.profile E.pushing self.old self.new port.new) }
        ensures of { self.new.refusal ≡ None → IsOf E.is_server self.new.stack.upper }
        ensures sound { OnOk result (E.is_sound self.new.stack.upper.end port.new) }
    {
        if let Some(refusal) = self.refusal {
            return Err(refusal);
        }
        let fed = feed_on(&mut self.framer, &mut self.stack, piece, port);
        self.refusal = fed.err();
        fed
    }

    /// Hears each packet that is whole with this piece, and goes on. It needs a host that refused nothing and holds nothing back.
    pub(crate) fn hear<P>(&mut self, piece: &[u8], port: &mut P) -> Result<(), FeedRefusal>
    where
        E: End<P>,
        requires none { self.old.refusal ≡ None }
        requires sound { E.is_sound self.old.stack.upper.end port.old }
        requires of { IsOf E.is_server self.old.stack.upper }
        requires rests { IsResting (E.profile (settings_of self.old)) E.pushing (moment_of self.old port.old) }
        ensures reads { Reads (E.profile (settings_of self.old)) E.answers E.lacked E.pushing piece.now self.old.framing self.new.framing (moment_of self.old port.old) (moment_of self.new port.new) result }
        ensures refusal { self.new.refusal ≡ refusal_in result }
        ensures settings { settings_of self.new ≡ settings_of self.old }
        ensures paged { self.new.stack.paged ≡ self.old.stack.paged }
        ensures rests { OnOk result (IsResting (E.profile (settings_of self.old)) E.pushing (moment_of self.new port.new)) }
        ensures of { self.new.refusal ≡ None → IsOf E.is_server self.new.stack.upper }
        ensures sound { OnOk result (E.is_sound self.new.stack.upper.end port.new) }
    {
        let fed = feed_stack(&mut self.framer, &mut self.stack, piece, port);
        self.refusal = fed.err();
        fed
    }

    /// Its timer fires, and it goes on. `NoMemory` where its port had none; then the same is answered for good, and the host
    /// stays as it is. It needs a host that refused nothing else.
    pub(crate) fn on_timer<P>(&mut self, port: &mut P) -> Result<(), NoMemory>
    where
        E: End<P>,
        requires none { RefusedNone self.old }
        requires sound { self.old.refusal ≡ None → E.is_sound self.old.stack.upper.end port.old }
        requires of { self.old.refusal ≡ None → IsOf E.is_server self.old.stack.upper }
        ensures hears { OnOk result (HearsNews (E.profile (settings_of self.old)) E.answers E.pushing TimerFired (moment_of self.old port.old) (moment_of self.new port.new)) }
        ensures rests { OnOk result (ComesToRest E.profile E.pushing self.old self.new port.new) }
        ensures stays { OnOk result (self.new ≡ record self.old { stack = self.new.stack }) }
        ensures of { self.new.refusal ≡ None → IsOf E.is_server self.new.stack.upper }
        ensures sound { OnOk result (E.is_sound self.new.stack.upper.end port.new) }
        ensures lacked { self.old.refusal ≡ None → OnErr result (E.lacked port.old port.new) }
        ensures refused { OnErr result (self.new.refusal ≡ Some refusals.NoMemory) }
        ensures failed { StaysFailed self.old self.new port.old port.new result }
    {
        if self.refusal.is_some() {
            return Err(NoMemory);
        }
        noted(self.stack.fire(port), &mut self.refusal)
    }

    /// Puts out what was held back for want of room in `out`, and goes on. `NoMemory` where its port had none; then the same is
    /// answered for good, and the host stays as it is. It needs a host that refused nothing else.
    pub(crate) fn put_out<P>(&mut self, port: &mut P) -> Result<(), NoMemory>
    where
        E: End<P>,
        requires none { RefusedNone self.old }
        requires sound { self.old.refusal ≡ None → E.is_sound self.old.stack.upper.end port.old }
        requires of { self.old.refusal ≡ None → IsOf E.is_server self.old.stack.upper }
        ensures goes { OnOk result (GoesOn (E.profile (settings_of self.old)) E.answers E.pushing (moment_of self.old port.old) (moment_of self.new port.new)) }
        ensures rests { OnOk result (ComesToRest E.profile E.pushing self.old self.new port.new) }
        ensures stays { OnOk result (self.new ≡ record self.old { stack = self.new.stack }) }
        ensures of { self.new.refusal ≡ None → IsOf E.is_server self.new.stack.upper }
        ensures sound { OnOk result (E.is_sound self.new.stack.upper.end port.new) }
        ensures lacked { self.old.refusal ≡ None → OnErr result (E.lacked port.old port.new) }
        ensures refused { OnErr result (self.new.refusal ≡ Some refusals.NoMemory) }
        ensures failed { StaysFailed self.old self.new port.old port.new result }
    {
        if self.refusal.is_some() {
            return Err(NoMemory);
        }
        noted(self.stack.put_out(port), &mut self.refusal)
    }

    /// It pages the device of that address from now on.
    pub(crate) fn page_device(&mut self, address: BdAddr)
        ensures { self.new ≡ record self.old { stack = record self.old.stack { paged = address } } }
    {
        self.stack.page_device(address);
    }

    /// The octets for the controller, in their order.
    pub(crate) fn out(&self) -> &[u8]
        ensures { result.now ≡ self.now.stack.line.out }
    {
        self.stack.link().out()
    }

    /// The controller took the first `n` octets of `out`. It needs as many there.
    pub(crate) fn taken(&mut self, n: usize)
        requires { n ≤ length self.old.stack.line.out }
        ensures { self.new ≡ record self.old { stack = record self.old.stack { line = record self.old.stack.line { out = drop n self.old.stack.line.out } } } }
    {
        self.stack.taken(n);
    }

    /// What the controller holds of the packets that went out.
    pub(crate) fn ledger(&self) -> &Ledger
        ensures { result.now ≡ self.now.stack.line.ledger }
    {
        self.stack.link().ledger()
    }

    /// The channels of its link.
    pub(crate) fn channels(&self) -> &Channels
        ensures { result.now ≡ self.now.stack.upper.machine }
    {
        self.stack.channels()
    }

    /// What stands above its channels.
    pub(crate) fn end(&self) -> &E
        ensures { result.now ≡ self.now.stack.upper.end }
    {
        self.stack.end()
    }

    /// What the end of the octets means here: `Truncated`, with the place of its first octet, where a packet is not whole.
    /// After `Transport` it answers that refusal.
    pub(crate) fn octets_end(&self) -> Result<(), (H4Refusal, u64)>
        ensures { EndsWith self.now.framing result }
    {
        self.framer.end()
    }
}
