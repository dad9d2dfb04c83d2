//! The half of a host above its line.

ghost use Rattle.std.specs.Prelude.{◌≡◌, ◌<◌, ◌≤◌, true, List, [], Some, IfOk, OnOk, OnErr, length, take};
ghost use Rattle.bt_base.specs.Octets.{IsOctets};
ghost use Rattle.shelf_model.specs.acl_fragments.specs.Pieces.{channel_of};
ghost use Rattle.channel_model.specs.Hearing as channels_heard;
ghost use Rattle.l2cap_channels.specs.Machine.{with_channels, policy_of};
ghost use Rattle.host_link.specs.Hearing.{plain_news};
ghost use Rattle.shelf_model.specs.world_model.specs.Machines as machines;
ghost use Rattle.shelf_model.specs.world_model.specs.Machines.{Linked, Down, Failed, Heard, TimerFired};
ghost use Rattle.shelf_model.specs.host_model.specs.Circumstances.{Circumstance};
ghost use Rattle.shelf_model.specs.host_model.specs.Hosts.{tells_events, drives, driven, handed, hear, steps_behind};
ghost use Rattle.bt_host.specs.Calls.{Does};
ghost use Rattle.bt_host.specs.Uppers.{asking, strode, says, told_of, hears_told, IsOf, IsTitled, SaysInto, GivesInto};

use crate::end::End;
use bt_base::NoMemory;
use host_link::News;
use l2cap_channels::{Channels, Up};
use std::marker::Model;

/// How many PDUs a host says at most until it hears something.
pub(crate) const MOST_SAID: u64 = 4_294_967_296;

/// Behind the others of these its profile is asked for no steps: they are for what waits in its channels.
const HALF_SAID: u64 = 2_147_483_648;

/// How many steps of its profile a host takes at most, one after the other.
const MOST_STEPS: u8 = 4;

/// The channels of a host and its end. A clause sees both, and how many PDUs it may say until it hears something.
#[derive(Drop)]
pub(crate) struct Upper<E> {
    pub(crate) channels: Channels,
    pub(crate) end: E,
    pub(crate) may_say: u64,
}

impl<E> Model for Upper<E> {
    ghost use Rattle.bt_host.specs.Uppers.{Upward};

    ghost Value = { Upward E };

    ghost view = { λ upper. record { machine = upper.channels; end = upper.end; may_say = upper.may_say } };
}

/// How many steps of its profile a host takes at most behind a PDU, where it may say so many more.
fn steps_behind(left: u64) -> u8
    ensures { result ≡ steps_behind left }
{
    if left >= HALF_SAID {
        return MOST_STEPS;
    }
    0
}

/// A slice has octets.
pub(crate) fn are_octets(octets: &[u8])
    ensures { IsOctets octets.now }
{
    let _ = octets;
}

/// Hands a PDU to the channels, and what they hand up to the end.
fn hand_pdu<P, E: End<P>>(
    channels: &mut Channels,
    end: &mut E,
    cid: u16,
    pdu: &[u8],
    port: &mut P,
) -> Result<(), NoMemory>
    requires sound { E.is_sound end.old port.old }
    requires told { channels.old.channels.events ≡ [] }
    ensures channels { channels.new ≡ with_channels channels.old (channels_heard.hears (policy_of channels.old) cid pdu.now channels.old.channels) }
    ensures does { OnOk result (Does E.answers (λ rest. handed (E.profile channels.old.settings) (channels_heard.up cid pdu.now channels.old.channels) (E.pushing end.old port.old rest)) (E.pushing end.new port.new) port.old port.new) }
    ensures sound { OnOk result (E.is_sound end.new port.new) }
    ensures lacked { OnErr result (E.lacked port.old port.new) }
{
    match channels.on_pdu(cid, pdu) {
        Up::Nothing => Ok(()),
        Up::Received { cid, psm, sdu } => end.received(cid, psm, sdu, port),
    }
}

impl<E: Drop> Upper<E> {
    /// Tells the end what happened to the channels.
    fn tell_events<P>(&mut self, port: &mut P) -> Result<(), NoMemory>
    where
        E: End<P>,
        requires sound { E.is_sound self.old.end port.old }
        ensures does { OnOk result (Does E.answers (λ rest. tells_events (E.profile self.old.machine.settings) (asking E.pushing port.old self.old rest)) (asking E.pushing port.new self.new) port.old port.new) }
        ensures machine { self.new.machine ≡ with_channels self.old.machine self.new.machine.channels }
        ensures told { OnOk result (self.new.machine.channels.events ≡ []) }
        ensures sound { OnOk result (E.is_sound self.new.end port.new) }
        ensures lacked { OnErr result (E.lacked port.old port.new) }
    {
        let Some(event) = self.channels.next_event() else {
            return Ok(());
        };
        self.end.happened(event, &self.channels, port)?;
        self.tell_events(port)?;
        Ok(())
    }

    /// Takes a step of the end, and tells it what came of that. Whether it is to be asked again.
    fn stride<P>(&mut self, port: &mut P) -> Result<bool, NoMemory>
    where
        E: End<P>,
        requires sound { E.is_sound self.old.end port.old }
        requires told { self.old.machine.channels.events ≡ [] }
        ensures does { IfOk result (λ more. Does E.answers (λ rest. strode (E.profile self.old.machine.settings) (asking E.pushing port.old self.old rest)) (λ rest. record { more = more; host = asking E.pushing port.new self.new rest }) port.old port.new) }
        ensures machine { self.new.machine ≡ with_channels self.old.machine self.new.machine.channels }
        ensures told { OnOk result (self.new.machine.channels.events ≡ []) }
        ensures sound { OnOk result (E.is_sound self.new.end port.new) }
        ensures lacked { OnErr result (E.lacked port.old port.new) }
    {
        let more = self.end.step(&mut self.channels, port)?;
        self.tell_events(port)?;
        Ok(more)
    }

    /// Takes so many steps of the end at most, until the channels have a PDU or the end waits.
    fn drive_by<P>(&mut self, count: u8, port: &mut P) -> Result<(), NoMemory>
    where
        E: End<P>,
        requires sound { E.is_sound self.old.end port.old }
        requires told { self.old.machine.channels.events ≡ [] }
        ensures does { OnOk result (Does E.answers (λ rest. drives (E.profile self.old.machine.settings) count (asking E.pushing port.old self.old rest)) (asking E.pushing port.new self.new) port.old port.new) }
        ensures machine { self.new.machine ≡ with_channels self.old.machine self.new.machine.channels }
        ensures told { OnOk result (self.new.machine.channels.events ≡ []) }
        ensures sound { OnOk result (E.is_sound self.new.end port.new) }
        ensures lacked { OnErr result (E.lacked port.old port.new) }
    {
        self.end.sent(&self.channels, port);
        if count == 0 {
            return Ok(());
        }
        if self.channels.gives() {
            return Ok(());
        }
        if !self.stride(port)? {
            return Ok(());
        }
        self.drive_by(count - 1, port)?;
        Ok(())
    }

    /// Takes steps of the end until the channels have a PDU or the end waits.
    pub(crate) fn drive<P>(&mut self, port: &mut P) -> Result<(), NoMemory>
    where
        E: End<P>,
        requires sound { E.is_sound self.old.end port.old }
        requires told { self.old.machine.channels.events ≡ [] }
        ensures does { OnOk result (Does E.answers (λ rest. driven (E.profile self.old.machine.settings) (asking E.pushing port.old self.old rest)) (asking E.pushing port.new self.new) port.old port.new) }
        ensures machine { self.new.machine ≡ with_channels self.old.machine self.new.machine.channels }
        ensures told { OnOk result (self.new.machine.channels.events ≡ []) }
        ensures sound { OnOk result (E.is_sound self.new.end port.new) }
        ensures lacked { OnErr result (E.lacked port.old port.new) }
    {
        self.drive_by(MOST_STEPS, port)
    }

    /// Whether it ends the link that is up.
    pub(crate) fn leaves_link<P>(&self, _port: &P) -> bool
    where
        E: End<P>,
        ensures { (rest : List Circumstance) → result ≡ (E.profile self.now.machine.settings).leaves_link (E.pushing self.now.end _port.now rest) }
    {
        self.end.leaves_link()
    }

    /// Whether it wants a link.
    pub(crate) fn wants_link<P>(&self, _port: &P) -> bool
    where
        E: End<P>,
        ensures { (rest : List Circumstance) → result ≡ (E.profile self.now.machine.settings).wants_link (E.pushing self.now.end _port.now rest) }
    {
        self.end.wants_link()
    }

    /// The channels.
    pub(crate) fn channels(&self) -> &Channels
        ensures { result.now ≡ self.now.machine }
    {
        &self.channels
    }

    /// Whether it has a PDU to say.
    pub(crate) fn says(&self) -> bool
        ensures { result ≡ says self.now }
    {
        self.may_say > 0 && self.channels.gives()
    }

    /// Writes the PDU that it says next from the front of `into`, and answers how many octets it has; then it goes on. It
    /// needs that it has a PDU to say.
    pub(crate) fn say<P>(&mut self, into: &mut [u8], port: &mut P) -> Result<usize, NoMemory>
    where
        E: End<P>,
        requires sound { E.is_sound self.old.end port.old }
        requires told { self.old.machine.channels.events ≡ [] }
        requires says { says self.old ≡ true }
        requires room { length into.old ≡ 32775 }
        ensures says { IfOk result (λ size. SaysInto (E.profile self.old.machine.settings) E.answers (asking E.pushing port.old self.old) (asking E.pushing port.new self.new) port.old port.new into.old size into.new) }
        ensures short { IfOk result (λ size. size ≤ 32775) }
        ensures fewer { OnOk result (self.new.may_say < self.old.may_say) }
        ensures machine { self.new.machine ≡ with_channels self.old.machine self.new.machine.channels }
        ensures told { OnOk result (self.new.machine.channels.events ≡ []) }
        ensures sound { OnOk result (E.is_sound self.new.end port.new) }
        ensures lacked { OnErr result (E.lacked port.old port.new) }
    {
        let left = self.may_say - 1;
        let steps = steps_behind(left);
        let size = self.give(into);
        self.drive_by(steps, port)?;
        self.may_say = left;
        Ok(size)
    }

    /// Takes the next PDU of the channels.
    fn give(&mut self, into: &mut [u8]) -> usize
        requires says { says self.old ≡ true }
        requires room { length into.old ≡ 32775 }
        ensures gives { GivesInto self.old into.old result self.new into.new }
        ensures short { result ≤ 32775 }
        ensures octets { IsOctets (take result into.new) }
    {
        match self.channels.next_pdu(into) {
            Some(size) => {
                are_octets(&into[..size]);
                size
            }
            None => 0,
        }
    }

    /// Hears a PDU, and goes on.
    fn hear_pdu<P>(&mut self, cid: u16, pdu: &[u8], port: &mut P) -> Result<(), NoMemory>
    where
        E: End<P>,
        requires sound { E.is_sound self.old.end port.old }
        requires of { IsOf E.is_server self.old }
        requires channel { cid ≡ channel_of pdu.now }
        ensures does { OnOk result (Does E.answers (λ rest. hear (E.profile self.old.machine.settings) rest (Heard pdu.now) (asking E.pushing port.old self.old rest)) (asking E.pushing port.new self.new) port.old port.new) }
        ensures machine { self.new.machine ≡ with_channels self.old.machine self.new.machine.channels }
        ensures told { OnOk result (self.new.machine.channels.events ≡ []) }
        ensures sound { OnOk result (E.is_sound self.new.end port.new) }
        ensures lacked { OnErr result (E.lacked port.old port.new) }
    {
        self.may_say = MOST_SAID;
        hand_pdu(&mut self.channels, &mut self.end, cid, pdu, port)?;
        self.tell_events(port)?;
        self.drive(port)?;
        Ok(())
    }

    /// Hears that the link is up, and goes on.
    fn hear_up<P>(&mut self, port: &mut P) -> Result<(), NoMemory>
    where
        E: End<P>,
        requires sound { E.is_sound self.old.end port.old }
        requires of { IsOf E.is_server self.old }
        ensures does { OnOk result (Does E.answers (λ rest. hear (E.profile self.old.machine.settings) rest (Linked machines.Up) (asking E.pushing port.old self.old rest)) (asking E.pushing port.new self.new) port.old port.new) }
        ensures machine { self.new.machine ≡ with_channels self.old.machine self.new.machine.channels }
        ensures told { OnOk result (self.new.machine.channels.events ≡ []) }
        ensures sound { OnOk result (E.is_sound self.new.end port.new) }
        ensures lacked { OnErr result (E.lacked port.old port.new) }
    {
        self.may_say = MOST_SAID;
        self.channels.link_up();
        self.end.link_up(port);
        self.drive(port)?;
        Ok(())
    }

    /// Hears that the link went down, and goes on.
    fn hear_down<P>(&mut self, reason: u8, port: &mut P) -> Result<(), NoMemory>
    where
        E: End<P>,
        requires sound { E.is_sound self.old.end port.old }
        requires of { IsOf E.is_server self.old }
        ensures does { OnOk result (Does E.answers (λ rest. hear (E.profile self.old.machine.settings) rest (Linked (Down reason)) (asking E.pushing port.old self.old rest)) (asking E.pushing port.new self.new) port.old port.new) }
        ensures machine { self.new.machine ≡ with_channels self.old.machine self.new.machine.channels }
        ensures told { OnOk result (self.new.machine.channels.events ≡ []) }
        ensures sound { OnOk result (E.is_sound self.new.end port.new) }
        ensures lacked { OnErr result (E.lacked port.old port.new) }
    {
        self.may_say = MOST_SAID;
        self.channels.link_down();
        self.tell_events(port)?;
        self.end.link_down(reason, port)?;
        self.drive(port)?;
        Ok(())
    }

    /// Hears that a link was not made, and goes on.
    fn hear_failed<P>(&mut self, status: u8, port: &mut P) -> Result<(), NoMemory>
    where
        E: End<P>,
        requires sound { E.is_sound self.old.end port.old }
        requires of { IsOf E.is_server self.old }
        ensures does { OnOk result (Does E.answers (λ rest. hear (E.profile self.old.machine.settings) rest (Failed status) (asking E.pushing port.old self.old rest)) (asking E.pushing port.new self.new) port.old port.new) }
        ensures machine { self.new.machine ≡ with_channels self.old.machine self.new.machine.channels }
        ensures told { OnOk result (self.new.machine.channels.events ≡ []) }
        ensures sound { OnOk result (E.is_sound self.new.end port.new) }
        ensures lacked { OnErr result (E.lacked port.old port.new) }
    {
        self.may_say = MOST_SAID;
        self.end.link_failed(status, port);
        self.drive(port)?;
        Ok(())
    }

    /// Its timer fires, and it goes on.
    pub(crate) fn fire<P>(&mut self, port: &mut P) -> Result<(), NoMemory>
    where
        E: End<P>,
        requires sound { E.is_sound self.old.end port.old }
        requires of { IsOf E.is_server self.old }
        ensures does { OnOk result (Does E.answers (λ rest. hear (E.profile self.old.machine.settings) rest TimerFired (asking E.pushing port.old self.old rest)) (asking E.pushing port.new self.new) port.old port.new) }
        ensures machine { self.new.machine ≡ with_channels self.old.machine self.new.machine.channels }
        ensures told { OnOk result (self.new.machine.channels.events ≡ []) }
        ensures sound { OnOk result (E.is_sound self.new.end port.new) }
        ensures lacked { OnErr result (E.lacked port.old port.new) }
    {
        self.may_say = MOST_SAID;
        self.channels.on_timer();
        self.tell_events(port)?;
        self.end.fired(port);
        self.drive(port)?;
        Ok(())
    }

    /// Hears what its line tells.
    pub(crate) fn hear<P>(&mut self, news: News<'_>, port: &mut P) -> Result<(), NoMemory>
    where
        E: End<P>,
        requires sound { E.is_sound self.old.end port.old }
        requires of { IsOf E.is_server self.old }
        requires titled { IsTitled (plain_news news) }
        ensures does { OnOk result (Does E.answers (λ rest. hears_told (E.profile self.old.machine.settings) rest (told_of (plain_news news.entry)) (asking E.pushing port.old self.old rest)) (asking E.pushing port.new self.new) port.old port.new) }
        ensures machine { self.new.machine ≡ with_channels self.old.machine self.new.machine.channels }
        ensures told { OnOk result (self.new.machine.channels.events ≡ []) }
        ensures sound { OnOk result (E.is_sound self.new.end port.new) }
        ensures lacked { OnErr result (E.lacked port.old port.new) }
    {
        match news {
            News::Nothing => Ok(()),
            News::LinkUp => self.hear_up(port),
            News::LinkDown(reason) => self.hear_down(reason, port),
            News::LinkFailed(status) => self.hear_failed(status, port),
            News::Pdu(cid, pdu) => self.hear_pdu(cid, pdu, port),
        }
    }
}
