//! What a host hears from its controller.

ghost use Rattle.std.specs.Prelude.{◌≡◌, ◌≤◌, ℕ, List, fold, Some, None, IfSome};
ghost use Rattle.h4_framing.specs.Packets.{Acl};
ghost use Rattle.std.specs.List.{AllByRecursion};
ghost use Rattle.std.specs.Option.{option_map};
ghost use Rattle.bt_base.specs.Numbers.{IsHandle};
ghost use Rattle.hci_packets.specs.Events.{plain_event, AllowsEvent, entries_of};
ghost use Rattle.host_link.specs.EventReading.{event_in};
ghost use Rattle.host_link.specs.Hearing.{given_back, piece_on};

use crate::host_command::HostCommand;
use crate::host_link::HostLink;
use crate::news::{ControllerFault, News};
use crate::returned::{Returned, completes, returned_by};
use crate::role::Role;
use acl_credits::Ledger;
use acl_fragments::Got;
use bt_base::{BdAddr, Handle};
use byteorder::{ByteOrder, LittleEndian};
use h4_framing::Unit;
use hci_packets::{Boundary, Event, acl_word, event_of};

/// A link type of Connection Request: ACL (Core 5.1, Volume 2 Part E, 7.7.4).
const ACL_LINK: u8 = 0x01;

/// The most buffers of its controller that a host uses.
const MOST_BUFFERS: u16 = 64;

/// The most octets of an ACL packet that a host uses.
const MOST_OCTETS: u16 = 1_021;

/// The event of that code with those parameters, none where they are refused.
fn event_in<'a>(code: u8, params: &'a [u8]) -> Option<Event<'a>>
    ensures event { option_map plain_event result ≡ event_in code params.now }
    ensures allowed { IfSome result (λ event. AllowsEvent (plain_event event)) }
{
    match event_of(code, params) {
        Ok(event) => Some(event),
        Err(_) => None,
    }
}

/// Where the piece of a packet with this word stands in its PDU: none where it is no piece, or none
/// of the link.
fn boundary_on(link: Option<Handle>, word: u16) -> Option<Boundary>
    ensures { (octets : List ℕ) → piece_on link (Acl word octets) ≡ option_map (λ boundary. record { boundary = boundary; octets = octets }) result }
{
    let handle = link?;
    match acl_word(word) {
        Ok(head) if head.broadcast == 0 && head.handle == handle => Some(head.boundary),
        _ => None,
    }
}

/// Gives back what the entries of Number Of Completed Packets say; more packets of a handle than
/// are outstanding on it are not given back.
fn give_back(ledger: &mut Ledger, entries: &[u8])
    requires { AllByRecursion (λ entry. IsHandle entry.0) (entries_of entries.now) }
    ensures { ledger.new ≡ fold given_back ledger.old (entries_of entries.now) }
{
    let mut rest = entries;
    while let [a, b, c, d, behind @ ..] = rest {
        if let Some(handle) = Handle::of(LittleEndian::read_u16(&[*a, *b])) {
            let _too_many_are_ignored = ledger.completed(handle, LittleEndian::read_u16(&[*c, *d]));
        }
        rest = behind;
    }
}

impl HostLink {
    ghost use Rattle.std.specs.Prelude.{◌≡◌, ◌≤◌, ⊤, Some, None, IfOk, OnOk, OnErr, MatchResult};
    ghost use Rattle.std.specs.Borrow.{sem};
    ghost use Rattle.host_link.specs.contracts.host_link.HostLink.{the_row};
    ghost use mathlib.Core.Option.{none};
    ghost use denote.Follow.{follows_so};
    ghost use Rattle.bt_base.specs.Numbers.{IsHandle};
    ghost use Rattle.h4_framing.specs.Packets.{packet};
    ghost use Rattle.host_link.specs.EventReading.{event_in};
    ghost use Rattle.host_link.specs.Returning.{returned_fault};
    ghost use Rattle.host_link.specs.Hearing.{plain_news, event_fault, event_news, after_event, complete_fault, after_complete, after_other, after_answer, learn, command_fault, after_status, connection_news, after_connection, after_request, disconnection_news, after_disconnection, HearsPiece};
    ghost use Rattle.host_link.specs.Stands.{Hears};

    /// Hears a packet from the controller, and says what it means for the layers above. It takes no
    /// memory.
    ///
    /// Commands, synchronous packets, packets of other handles and broadcasts, and events whose
    /// parameters are refused mean nothing. `CommandFailed` where the answer to the awaited command
    /// has a status other than 0. `BadBuffers` where the answer to Read Buffer Size has an ACL
    /// length below 27 or a count of 0. After a fault all is as it was.
    ///
    /// A PDU that came in one piece is lent from its packet; one that was cut, from the host.
    pub fn hear<'a>(&'a mut self, unit: Unit<'a>) -> Result<News<'a>, ControllerFault>
        ensures* { sem 𝓛 (follows_so the_row the_row self.entry.ghost_name none (λ _ _. ⊤) (λ new. Hears self.old (packet unit.entry) result new)) }
    {
        match unit {
            Unit::Event { code, params } => self.hear_event(code, params),
            Unit::Acl { word, octets } => Ok(self.hear_piece(word, octets)),
            Unit::Command { .. } | Unit::Sync { .. } => Ok(News::Nothing),
        }
    }

    /// Hears an ACL packet.
    fn hear_piece<'a>(&'a mut self, word: u16, octets: &'a [u8]) -> News<'a>
        ensures* { sem 𝓛 (follows_so the_row the_row self.entry.ghost_name none (λ _ _. ⊤) (λ new. HearsPiece self.old word octets.now result new)) }
    {
        let Some(boundary) = boundary_on(self.link, word) else {
            return News::Nothing;
        };
        match self.joiner.take(boundary, octets).got {
            Got::Pdu(channel, pdu) => News::Pdu(channel, pdu),
            Got::More | Got::Dropped(_) => News::Nothing,
        }
    }

    /// Hears an event.
    fn hear_event<'a>(&mut self, code: u8, params: &[u8]) -> Result<News<'a>, ControllerFault>
        ensures fault { MatchResult result (λ _. event_fault (event_in code params.now) self.old ≡ None) (λ fault. event_fault (event_in code params.now) self.old ≡ Some fault) }
        ensures news { IfOk result (λ news. plain_news news ≡ event_news (event_in code params.now) self.old) }
        ensures ok { OnOk result (self.new ≡ after_event (event_in code params.now) self.old) }
        ensures unchanged { OnErr result (self.new ≡ self.old) }
    {
        let Some(event) = event_in(code, params) else {
            return Ok(News::Nothing);
        };
        match event {
            Event::CommandComplete {
                number,
                opcode,
                returned,
            } => {
                self.command_complete(number, opcode, returned_by(opcode, returned))?;
                Ok(News::Nothing)
            }
            Event::CommandStatus {
                status,
                number,
                opcode,
            } => {
                self.command_status(status, number, opcode)?;
                Ok(News::Nothing)
            }
            Event::ConnectionComplete { status, handle, .. } => {
                Ok(self.connection_complete(status, handle))
            }
            Event::ConnectionRequest { address, link, .. } => {
                self.connection_request(address, link);
                Ok(News::Nothing)
            }
            Event::DisconnectionComplete {
                status,
                handle,
                reason,
            } => Ok(self.disconnection_complete(status, handle, reason)),
            Event::CompletedPackets { entries, .. } => {
                give_back(&mut self.ledger, entries);
                Ok(News::Nothing)
            }
            Event::Other { .. } => Ok(News::Nothing),
        }
    }

    fn command_complete(
        &mut self,
        number: u8,
        opcode: u16,
        returned: Returned,
    ) -> Result<(), ControllerFault>
        ensures fault { MatchResult result (λ _. complete_fault opcode returned self.old ≡ None) (λ fault. complete_fault opcode returned self.old ≡ Some fault) }
        ensures ok { OnOk result (self.new ≡ after_complete number opcode returned self.old) }
        ensures unchanged { OnErr result (self.new ≡ self.old) }
    {
        if !self.commands.awaits(opcode) {
            self.hear_number(number, returned);
            return Ok(());
        }
        returned.judge(opcode)?;
        self.hear_answer(number, returned);
        Ok(())
    }

    /// Another command than the awaited one is answered: only the number of commands counts.
    fn hear_number(&mut self, number: u8, returned: Returned)
        ensures { self.new ≡ after_other number returned self.old }
    {
        match returned {
            Returned::Refused => {}
            Returned::Unlisted | Returned::Status(_) | Returned::Buffers { .. } => {
                self.commands.state(number);
            }
        }
    }

    /// The awaited command is answered with success.
    fn hear_answer(&mut self, number: u8, returned: Returned)
        requires { returned_fault 0 returned ≡ None }
        ensures { self.new ≡ after_answer number returned self.old }
    {
        match returned {
            Returned::Refused => {}
            Returned::Unlisted => self.commands.state(number),
            Returned::Status(_) => self.commands.answer(number),
            Returned::Buffers { length, count, .. } => {
                self.commands.answer(number);
                self.learn(length, count);
            }
        }
    }

    /// Learns how many ACL packets the controller takes, and of how many octets, before a link is
    /// up.
    fn learn(&mut self, length: u16, count: u16)
        requires { 27 ≤ length }
        ensures { self.new ≡ learn length count self.old }
    {
        if self.link.is_none() {
            self.outbox.resize(length.min(MOST_OCTETS));
            self.ledger = Ledger::new(count.min(MOST_BUFFERS));
        }
    }

    fn command_status(&mut self, status: u8, number: u8, opcode: u16) -> Result<(), ControllerFault>
        ensures fault { MatchResult result (λ _. command_fault status opcode self.old ≡ None) (λ fault. command_fault status opcode self.old ≡ Some fault) }
        ensures ok { OnOk result (self.new ≡ after_status number opcode self.old) }
        ensures unchanged { OnErr result (self.new ≡ self.old) }
    {
        if !self.commands.awaits(opcode) {
            self.commands.state(number);
            return Ok(());
        }
        if status != 0 {
            return Err(ControllerFault::CommandFailed { opcode, status });
        }
        if completes(opcode) {
            self.commands.state(number);
        } else {
            self.commands.answer(number);
        }
        Ok(())
    }

    fn connection_complete<'a>(&mut self, status: u8, handle: u16) -> News<'a>
        requires { status ≡ 0 → IsHandle handle }
        ensures news { plain_news result ≡ connection_news status self.old }
        ensures line { self.new ≡ after_connection status handle self.old }
    {
        if !self.asked {
            return News::Nothing;
        }
        self.asked = false;
        if status != 0 {
            return News::LinkFailed(status);
        }
        if self.link.is_some() {
            return News::Nothing;
        }
        self.link = Handle::of(handle);
        self.ending = false;
        self.joiner.forget();
        News::LinkUp
    }

    fn connection_request(&mut self, address: BdAddr, kind: u8)
        ensures { self.new ≡ after_request address kind self.old }
    {
        let free = self.link.is_none() && !self.asked && !self.commands.has_accept();
        if self.role == Role::Server && kind == ACL_LINK && free {
            self.commands.wait(HostCommand::AcceptConnection(address));
        }
    }

    fn disconnection_complete<'a>(&mut self, status: u8, handle: Handle, reason: u8) -> News<'a>
        ensures news { plain_news result ≡ disconnection_news status handle reason self.old }
        ensures line { self.new ≡ after_disconnection status handle self.old }
    {
        if status != 0 || self.link != Some(handle) {
            return News::Nothing;
        }
        self.ledger.closed(handle);
        self.outbox.clear();
        self.joiner.forget();
        self.link = None;
        self.ending = false;
        News::LinkDown(reason)
    }
}
