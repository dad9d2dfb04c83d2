//! The half of a host that faces its controller.

use crate::command_flow::CommandFlow;
use crate::host_command::HostCommand;
use crate::outbox::Outbox;
use crate::role::Role;
use acl_credits::Ledger;
use acl_fragments::Joiner;
use bt_base::{BdAddr, Handle, NoMemory};
use std::alloc::Global;
use std::marker::Model;

/// The longest PDU that a host takes, in octets.
const LONGEST_PDU: u32 = 32_775;

/// A packet is put out only while fewer octets than these wait to be taken.
pub(crate) const ROOM: usize = 65_536;

/// How many octets the longest packet has that a host puts out.
pub(crate) const LONGEST_PACKET: usize = 1_026;

/// What a host has to do with its controller: the start, the flow of commands, the one link, the
/// buffers, and the PDUs that go out and come in on the link (Core 5.1, Volume 2 Part E, 4.1.1,
/// 4.4, 5.4 and 7).
///
/// A clause sees it as a `Line`.
#[derive(Drop)]
pub struct HostLink {
    pub(crate) role: Role,
    pub(crate) commands: CommandFlow,
    pub(crate) outbox: Outbox,
    pub(crate) ledger: Ledger,
    /// Whether a Connection Complete is awaited.
    pub(crate) asked: bool,
    /// The handle of the link that is up.
    pub(crate) link: Option<Handle>,
    /// Whether that link was ended already: its Disconnection Complete is awaited.
    pub(crate) ending: bool,
    pub(crate) joiner: Joiner,
    /// What was put out and not taken yet.
    pub(crate) out: Vec<u8>,
}

impl Model for HostLink {
    ghost use Rattle.std.specs.Prelude.{◌≡◌, ◌≤◌, vec_capacity};
    ghost use Rattle.host_link.specs.Lines.{Line, IsSound};

    ghost Value = { Line };

    ghost view = { λ host. record { role = host.role; commands = host.commands; size = host.outbox.size; ledger = host.ledger; asked = host.asked; link = host.link; ending = host.ending; joining = host.joiner.octets; pieces = host.outbox.pieces; out = host.out.items } };

    ghost invariant = { λ host. IsSound (record { role = host.role; commands = host.commands; size = host.outbox.size; ledger = host.ledger; asked = host.asked; link = host.link; ending = host.ending; joining = host.joiner.octets; pieces = host.outbox.pieces; out = host.out.items }) × (host.joiner.limit ≡ 32775) × (66562 ≤ vec_capacity host.out) };
}

impl HostLink {
    ghost use Rattle.std.specs.Prelude.{◌≡◌, ◌≤◌, ◌<◌, true, [], length, take, drop, vec_len, IfOk};
    ghost use Rattle.host_link.specs.Lines.{IsSound, fresh};
    ghost use Rattle.host_link.specs.PuttingOut.{connecting, leaving, can_take_pdu, take_pdu, is_waiting, started};
    ghost use Rattle.host_link.specs.Waiting.{longest_put};
    ghost use Rattle.host_link.specs.Stands.{Stands, Says, StandsStill};

    /// A host whose first command stands in `out`, where the others wait behind it. It reserves
    /// `out`, 66,562 octets, what joins PDUs, 32,775 octets, and the PDU that is put out, 32,775
    /// octets. `NoMemory` where these cannot be had; no other call takes memory.
    pub fn new(alloc: Global, role: Role) -> Result<HostLink, NoMemory>
        ensures line { IfOk result (λ host. host ≡ started role) }
        ensures sound { IfOk result (λ host. IsSound host) }
        ensures stands { IfOk result (λ host. Says (fresh role) host) }
        ensures nothing { Stands [] (fresh role) }
    {
        let mut host = HostLink {
            role,
            commands: CommandFlow::new(role),
            outbox: Outbox::new(alloc)?,
            ledger: Ledger::new(0),
            asked: false,
            link: None,
            ending: false,
            joiner: Joiner::new(alloc, LONGEST_PDU)?,
            out: Vec::with_capacity(alloc, ROOM + LONGEST_PACKET)?,
        };
        host.put_out();
        Ok(host)
    }

    /// Lets Create Connection to that address wait to be put out.
    pub fn connect(&mut self, address: BdAddr)
        ensures line { self.new ≡ connecting address self.old }
        ensures history { StandsStill self.old self.new }
    {
        self.commands.wait(HostCommand::CreateConnection(address));
    }

    /// Lets Disconnect of the link that is up wait to be put out, once for a link. Without a link,
    /// or where its end was asked for already, it does nothing.
    pub fn disconnect(&mut self)
        ensures line { self.new ≡ leaving self.old.link self.old }
        ensures history { StandsStill self.old self.new }
    {
        let Some(handle) = self.link else {
            return;
        };
        if self.ending {
            return;
        }
        self.ending = true;
        self.commands.wait(HostCommand::Disconnect(handle));
    }

    /// Whether a PDU may be taken now: a link is up, no piece of the PDU before waits, and there is a
    /// buffer and room for its first piece.
    pub fn can_take_pdu(&self) -> bool
        ensures { result ≡ can_take_pdu self.now }
    {
        self.link.is_some()
            && self.outbox.is_over()
            && self.ledger.may_send()
            && self.out.len() < ROOM
    }

    /// Takes a PDU, and puts its pieces out as long as there is a buffer and room for the next; the
    /// others wait. It takes no memory.
    ///
    /// It needs that a PDU may be taken, and that this one has at most 32,775 octets.
    pub fn take_pdu(&mut self, pdu: &[u8])
        requires may { can_take_pdu self.old ≡ true }
        requires short { length pdu.now ≤ longest_put }
        ensures line { self.new ≡ take_pdu pdu.now self.old }
        ensures history { Says self.old self.new }
        ensures sound { IsSound self.new }
    {
        self.outbox.take(pdu);
        self.put_pieces();
    }

    /// Takes the first `end` octets of a buffer as a PDU, as [`HostLink::take_pdu`] does, without a copy of them: the buffer
    /// changes places with that of the PDU before.
    ///
    /// It needs that a PDU may be taken, a buffer of 32,775 octets, and `end` within it.
    pub fn exchange_pdu(&mut self, buffer: &mut Vec<u8>, end: usize)
        requires may { can_take_pdu self.old ≡ true }
        requires whole { vec_len buffer.old ≡ longest_put }
        requires end { end ≤ longest_put }
        ensures line { self.new ≡ take_pdu (take end buffer.old.items) self.old }
        ensures whole { vec_len buffer.new ≡ longest_put }
        ensures history { Says self.old self.new }
        ensures sound { IsSound self.new }
    {
        self.outbox.exchange(buffer, end);
        self.put_pieces();
    }

    /// The octets for the controller, in their order.
    pub fn out(&self) -> &[u8]
        ensures { result.now ≡ self.now.out }
    {
        &self.out
    }

    /// The controller took the first `n` octets of `out`. It needs as many there.
    pub fn taken(&mut self, n: usize)
        requires { n ≤ length self.old.out }
        ensures line { self.new ≡ record self.old { out = drop n self.old.out } }
        ensures history { StandsStill self.old self.new }
    {
        let _taken = self.out.drain(..n);
    }

    /// Whether a piece of a PDU waits to be put out.
    pub fn waits(&self) -> bool
        ensures { result ≡ is_waiting self.now }
    {
        !self.outbox.is_over()
    }

    /// What the controller holds of the packets that went out.
    pub fn ledger(&self) -> &Ledger
        ensures value { result.now ≡ self.now.ledger }
        ensures sound { IsSound self.now }
    {
        &self.ledger
    }

    /// Whether the end of the link that is up was asked for, and Disconnection Complete is awaited.
    pub fn is_ending(&self) -> bool
        ensures { result ≡ self.now.ending }
    {
        self.ending
    }

    /// The handle of the link that is up.
    pub fn link(&self) -> Option<Handle>
        ensures { result ≡ self.now.link }
    {
        self.link
    }
}
