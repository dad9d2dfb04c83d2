//! A host without its framer.

ghost use Rattle.std.specs.Prelude.{◌≡◌, ◌<◌, ◌≤◌, ℕ, false, true, List, [], drop, length, vec_len, IfOk, OnOk, OnErr};
ghost use Rattle.h4_framing.specs.Packets.{packet};
ghost use Rattle.l2cap_channels.specs.Machine.{with_channels};
ghost use Rattle.shelf_model.specs.world_model.specs.Machines.{TimerFired};
ghost use Rattle.host_link.specs.PuttingOut.{can_take_pdu};
ghost use Rattle.shelf_model.specs.host_model.specs.Circumstances.{Circumstance};
ghost use Rattle.bt_host.specs.Uppers.{says, IsOf};
ghost use Rattle.bt_host.specs.Stacks.{standing, usual_peer, is_serving, fresh_stack, can_put_piece, says_one, says_all, leaves, pages, Steps, GoesOn, HasSaid, HearsNews, HearsOne, IsLeft, IsPaged, IsResting, KeepsLink, AsksForLink};

use crate::end::End;
use crate::feed_refusal::FeedRefusal;
use crate::upper::Upper;
use bt_base::{BdAddr, NoMemory, Settings};
use h4_framing::Unit;
use host_link::{HostLink, Role};
use l2cap_channels::Channels;
use std::alloc::Global;
use std::marker::Model;

/// How many octets the longest PDU has.
const LONGEST_PDU: usize = 32_775;

/// The device that a host pages where it is told of no other.
fn usual_peer() -> BdAddr
    ensures { result ≡ usual_peer }
{
    BdAddr::of(&[0x0B, 0, 0, 0, 0, 0]).unwrap()
}

/// Whether a host of that role is a server.
fn is_serving(role: Role) -> bool
    ensures { result ≡ is_serving role }
{
    match role {
        Role::Client => false,
        Role::Server => true,
    }
}

/// The line of a host, what stands above it, and the device that it pages. A clause sees these.
#[derive(Drop)]
pub(crate) struct Stack<E> {
    link: HostLink,
    pub(crate) upper: Upper<E>,
    paged: BdAddr,
    /// The PDU that is said is written here.
    room: Vec<u8>,
}

impl<E> Model for Stack<E> {
    ghost use Rattle.std.specs.Prelude.{◌≡◌, vec_len};
    ghost use Rattle.bt_host.specs.Stacks.{Stacked};

    ghost Value = { Stacked E };

    ghost view = { λ stack. record { line = stack.link; upper = stack.upper; paged = stack.paged } };

    ghost invariant = { λ stack. vec_len stack.room ≡ 32775 };
}

/// Says the next PDU, which is written from the front of `room`: pieces of it are put out, and the end goes on. It needs that a
/// PDU may be taken, and that there is one.
fn say_into<P, E: End<P>>(
    link: &mut HostLink,
    upper: &mut Upper<E>,
    room: &mut Vec<u8>,
    port: &mut P,
) -> Result<(), NoMemory>
    requires sound { E.is_sound upper.old.end port.old }
    requires told { upper.old.machine.channels.events ≡ [] }
    requires may { can_take_pdu link.old ≡ true }
    requires says { says upper.old ≡ true }
    requires room { vec_len room.old ≡ 32775 }
    ensures goes { OnOk result ((paged : List ℕ) → Steps (E.profile upper.old.machine.settings) E.answers E.pushing says_one (record { stack = record { line = link.old; upper = upper.old; paged = paged }; port = port.old }) (record { stack = record { line = link.new; upper = upper.new; paged = paged }; port = port.new })) }
    ensures pieces { OnOk result (can_put_piece link.new ≡ false) }
    ensures machine { upper.new.machine ≡ with_channels upper.old.machine upper.new.machine.channels }
    ensures told { OnOk result (upper.new.machine.channels.events ≡ []) }
    ensures fewer { OnOk result (upper.new.may_say < upper.old.may_say) }
    ensures sound { OnOk result (E.is_sound upper.new.end port.new) }
    ensures lacked { OnErr result (E.lacked port.old port.new) }
    ensures room { vec_len room.new ≡ 32775 }
{
    let size = upper.say(room, port)?;
    link.exchange_pdu(room, size);
    Ok(())
}

impl<E: Drop> Stack<E> {
    /// A host of that role with that end, before anything happened.
    pub(crate) fn new(
        alloc: Global,
        settings: &Settings,
        role: Role,
        end: E,
    ) -> Result<Stack<E>, NoMemory>
        ensures { IfOk result (λ stack. stack ≡ fresh_stack role settings.now end) }
    {
        let upper = Upper {
            channels: Channels::new(alloc, settings, is_serving(role))?,
            end,
            may_say: 0,
        };
        Ok(Stack {
            link: HostLink::new(alloc, role)?,
            upper,
            paged: usual_peer(),
            room: vec![in alloc; 0; LONGEST_PDU]?,
        })
    }

    /// Its line.
    pub(crate) fn link(&self) -> &HostLink
        ensures { result.now ≡ self.now.line }
    {
        &self.link
    }

    /// What stands above the channels.
    pub(crate) fn end(&self) -> &E
        ensures { result.now ≡ self.now.upper.end }
    {
        &self.upper.end
    }

    /// It pages the device of that address from now on.
    pub(crate) fn page_device(&mut self, address: BdAddr)
        ensures { self.new ≡ record self.old { paged = address } }
    {
        self.paged = address;
    }

    /// The channels.
    pub(crate) fn channels(&self) -> &Channels
        ensures { result.now ≡ self.now.upper.machine }
    {
        self.upper.channels()
    }

    /// The controller took the first `n` octets of what was put out. It needs as many there.
    pub(crate) fn taken(&mut self, n: usize)
        requires { n ≤ length self.old.line.out }
        ensures { self.new ≡ record self.old { line = record self.old.line { out = drop n self.old.line.out } } }
    {
        self.link.taken(n);
    }

    /// Says the next PDU: pieces of it are put out, and the end goes on. It needs that a PDU may be taken, and that there is
    /// one.
    fn say<P>(&mut self, port: &mut P) -> Result<(), NoMemory>
    where
        E: End<P>,
        requires sound { E.is_sound self.old.upper.end port.old }
        requires of { IsOf E.is_server self.old.upper }
        requires may { can_take_pdu self.old.line ≡ true }
        requires says { says self.old.upper ≡ true }
        ensures goes { OnOk result (Steps (E.profile self.old.upper.machine.settings) E.answers E.pushing says_one (record { stack = self.old; port = port.old }) (record { stack = self.new; port = port.new })) }
        ensures machine { self.new.upper.machine ≡ with_channels self.old.upper.machine self.new.upper.machine.channels }
        ensures paged { self.new.paged ≡ self.old.paged }
        ensures of { OnOk result (IsOf E.is_server self.new.upper) }
        ensures pieces { OnOk result (can_put_piece self.new.line ≡ false) }
        ensures fewer { OnOk result (self.new.upper.may_say < self.old.upper.may_say) }
        ensures sound { OnOk result (E.is_sound self.new.upper.end port.new) }
        ensures lacked { OnErr result (E.lacked port.old port.new) }
    {
        say_into(&mut self.link, &mut self.upper, &mut self.room, port)?;
        Ok(())
    }

    /// Says PDUs, as long as one may be taken.
    fn say_all<P>(&mut self, port: &mut P) -> Result<(), NoMemory>
    where
        E: End<P>,
        requires sound { E.is_sound self.old.upper.end port.old }
        requires of { IsOf E.is_server self.old.upper }
        requires pieces { can_put_piece self.old.line ≡ false }
        ensures goes { OnOk result (Steps (E.profile self.old.upper.machine.settings) E.answers E.pushing says_all (record { stack = self.old; port = port.old }) (record { stack = self.new; port = port.new })) }
        ensures machine { self.new.upper.machine ≡ with_channels self.old.upper.machine self.new.upper.machine.channels }
        ensures paged { self.new.paged ≡ self.old.paged }
        ensures said { OnOk result (HasSaid self.new) }
        ensures of { OnOk result (IsOf E.is_server self.new.upper) }
        ensures sound { OnOk result (E.is_sound self.new.upper.end port.new) }
        ensures lacked { OnErr result (E.lacked port.old port.new) }
    {
        if !self.link.can_take_pdu() {
            return Ok(());
        }
        if !self.upper.says() {
            return Ok(());
        }
        self.say(port)?;
        self.say_all(port)?;
        Ok(())
    }

    /// Lets the end of the link wait to be put out, where all is said and the end of the host ends the link.
    fn leave<P>(&mut self, port: &P)
    where
        E: End<P>,
        ensures goes { Steps (E.profile self.old.upper.machine.settings) E.answers E.pushing leaves (record { stack = self.old; port = port.now }) (record { stack = self.new; port = port.now }) }
        ensures stack { self.new ≡ record self.old { line = self.new.line } }
        ensures line { IsLeft self.old.line self.new.line }
        ensures keeps { (rest : List Circumstance) → KeepsLink (E.profile self.old.upper.machine.settings) (standing E.pushing port.now self.new rest) }
    {
        if !self.link.may_end() {
            return;
        }
        if self.link.waits() {
            return;
        }
        if self.upper.says() {
            return;
        }
        if !self.upper.leaves_link(port) {
            return;
        }
        self.link.disconnect();
    }

    /// Asks for a link, where none is up, none is asked for, and the end of the host wants one.
    fn page<P>(&mut self, port: &P)
    where
        E: End<P>,
        ensures goes { Steps (E.profile self.old.upper.machine.settings) E.answers E.pushing pages (record { stack = self.old; port = port.now }) (record { stack = self.new; port = port.now }) }
        ensures stack { self.new ≡ record self.old { line = self.new.line } }
        ensures line { IsPaged self.old.paged self.old.line self.new.line }
        ensures asks { (rest : List Circumstance) → AsksForLink (E.profile self.old.upper.machine.settings) (standing E.pushing port.now self.new rest) }
    {
        if self.link.link().is_some() {
            return;
        }
        if self.link.is_asking() {
            return;
        }
        if !self.upper.wants_link(port) {
            return;
        }
        self.link.connect(self.paged);
    }

    /// Does all that may be done: the pieces that wait are put out, then the PDUs that it says, and then a command; and it ends
    /// its link, or asks for one.
    pub(crate) fn put_out<P>(&mut self, port: &mut P) -> Result<(), NoMemory>
    where
        E: End<P>,
        requires sound { E.is_sound self.old.upper.end port.old }
        requires of { IsOf E.is_server self.old.upper }
        ensures goes { OnOk result (GoesOn (E.profile self.old.upper.machine.settings) E.answers E.pushing (record { stack = self.old; port = port.old }) (record { stack = self.new; port = port.new })) }
        ensures machine { self.new.upper.machine ≡ with_channels self.old.upper.machine self.new.upper.machine.channels }
        ensures paged { self.new.paged ≡ self.old.paged }
        ensures rests { OnOk result (IsResting (E.profile self.old.upper.machine.settings) E.pushing (record { stack = self.new; port = port.new })) }
        ensures of { OnOk result (IsOf E.is_server self.new.upper) }
        ensures sound { OnOk result (E.is_sound self.new.upper.end port.new) }
        ensures lacked { OnErr result (E.lacked port.old port.new) }
    {
        self.link.put_pieces();
        self.say_all(port)?;
        self.link.put_command();
        self.leave(port);
        self.page(port);
        self.link.put_command();
        Ok(())
    }

    /// Hears a packet of the controller, which begins at that place, and puts out what may be put out.
    pub(crate) fn hear<P>(
        &mut self,
        unit: Unit<'_>,
        place: u64,
        port: &mut P,
    ) -> Result<(), FeedRefusal>
    where
        E: End<P>,
        requires sound { E.is_sound self.old.upper.end port.old }
        requires of { IsOf E.is_server self.old.upper }
        ensures heard { HearsOne (E.profile self.old.upper.machine.settings) E.answers E.lacked E.pushing (packet unit.entry) place (record { stack = self.old; port = port.old }) (record { stack = self.new; port = port.new }) result }
        ensures machine { self.new.upper.machine ≡ with_channels self.old.upper.machine self.new.upper.machine.channels }
        ensures paged { self.new.paged ≡ self.old.paged }
        ensures rests { OnOk result (IsResting (E.profile self.old.upper.machine.settings) E.pushing (record { stack = self.new; port = port.new })) }
        ensures of { OnOk result (IsOf E.is_server self.new.upper) }
        ensures sound { OnOk result (E.is_sound self.new.upper.end port.new) }
    {
        let heard = match self.link.hear(unit) {
            Ok(news) => self.upper.hear(news, port),
            Err(fault) => return Err(FeedRefusal::by(fault, place)),
        };
        let Ok(()) = heard else {
            return Err(FeedRefusal::NoMemory);
        };
        let Ok(()) = self.put_out(port) else {
            return Err(FeedRefusal::NoMemory);
        };
        Ok(())
    }

    /// Its timer fires, and it puts out what may be put out.
    pub(crate) fn fire<P>(&mut self, port: &mut P) -> Result<(), NoMemory>
    where
        E: End<P>,
        requires sound { E.is_sound self.old.upper.end port.old }
        requires of { IsOf E.is_server self.old.upper }
        ensures hears { OnOk result (HearsNews (E.profile self.old.upper.machine.settings) E.answers E.pushing TimerFired (record { stack = self.old; port = port.old }) (record { stack = self.new; port = port.new })) }
        ensures machine { self.new.upper.machine ≡ with_channels self.old.upper.machine self.new.upper.machine.channels }
        ensures paged { self.new.paged ≡ self.old.paged }
        ensures rests { OnOk result (IsResting (E.profile self.old.upper.machine.settings) E.pushing (record { stack = self.new; port = port.new })) }
        ensures of { OnOk result (IsOf E.is_server self.new.upper) }
        ensures sound { OnOk result (E.is_sound self.new.upper.end port.new) }
        ensures lacked { OnErr result (E.lacked port.old port.new) }
    {
        self.upper.fire(port)?;
        self.put_out(port)?;
        Ok(())
    }
}
