//! What a host puts out.

ghost use Rattle.std.specs.Prelude.{◌≡◌, ◌+◌, ◌≤◌, ◌++◌, length, vec_len, vec_capacity};
ghost use Rattle.h4_framing.specs.Packets.{spelling, IsPacket};
ghost use Rattle.bt_base.specs.Numbers.{IsHandle};
ghost use Rattle.hci_packets.specs.AclWords.{acl_word_of};
ghost use Rattle.host_link.specs.HostCommands.{command_packet, IsWhole};
ghost use Rattle.host_link.specs.PuttingOut.{has_room, has_buffer, piece_packet, with_pieces, put_pieces, with_next, put_command, put_out};
ghost use Rattle.host_link.specs.Stands.{Says};

use crate::host_command::{HostCommand, LONGEST_COMMAND};
use crate::host_link::{HostLink, LONGEST_PACKET, ROOM};
use bt_base::Handle;
use hci_packets::Boundary;

/// The first word of a packet on a handle, to one device (Core 5.1, Volume 2 Part E, 5.4.2).
fn word_of(handle: Handle, boundary: Boundary) -> u16
    ensures word { result ≡ acl_word_of (record { handle = handle; boundary = boundary; broadcast = 0 }) }
    ensures handle { IsHandle handle }
{
    let flag = match boundary {
        Boundary::First => 0,
        Boundary::Continuing => 0x1000,
        Boundary::FirstFromController => 0x2000,
    };
    handle.get() + flag
}

/// Writes the packet of a piece behind the octets of `out`.
fn write_piece(out: &mut Vec<u8>, handle: Handle, boundary: Boundary, octets: &[u8])
    requires short { length octets.now ≤ 1021 }
    requires room { vec_len out.old + LONGEST_PACKET ≤ vec_capacity out.old }
    ensures written { out.new.items ≡ out.old.items ++ spelling (piece_packet handle (record { boundary = boundary; octets = octets.now })) }
    ensures packet { IsPacket 1021 (piece_packet handle (record { boundary = boundary; octets = octets.now })) }
    ensures handle { IsHandle handle }
    ensures capacity { vec_capacity out.old ≤ vec_capacity out.new }
{
    let [low, high] = word_of(handle, boundary).to_le_bytes();
    let [short, long] = (octets.len() as u16).to_le_bytes();
    let _room_was_reserved = out.extend_from_slice(&[2, low, high, short, long]);
    let _room_was_reserved = out.extend_from_slice(octets);
}

/// Writes the packet of a command behind the octets of `out`.
fn write_command(out: &mut Vec<u8>, command: HostCommand)
    requires room { vec_len out.old + LONGEST_PACKET ≤ vec_capacity out.old }
    ensures written { out.new.items ≡ out.old.items ++ spelling (command_packet command) }
    ensures packet { IsPacket 1021 (command_packet command) }
    ensures whole { IsWhole command }
    ensures capacity { vec_capacity out.old ≤ vec_capacity out.new }
{
    let mut packet = [0; LONGEST_COMMAND];
    let end = command.write(&mut packet);
    let _room_was_reserved = out.extend_from_slice(&packet[..end]);
}

impl HostLink {
    ghost use Rattle.host_link.specs.Lines.{IsSound};
    ghost use Rattle.std.specs.Prelude.{◌≡◌, ◌≢◌, ◌<◌, ◌&&◌, not, ◌==◌, true, Some, [], length};

    /// Puts out all that room, buffers and the flow of commands permit: first the packets of the
    /// link, then a command.
    pub fn put_out(&mut self)
        ensures line { self.new ≡ put_out self.old }
        ensures history { Says self.old self.new }
        ensures sound { IsSound self.new }
    {
        self.put_pieces();
        self.put_command();
    }

    /// Puts out the pieces that wait, as long as there is room and a buffer for the next.
    pub fn put_pieces(&mut self)
        ensures line { self.new ≡ put_pieces self.old }
        ensures history { Says self.old self.new }
        ensures sound { IsSound self.new }
    {
        let Some(handle) = self.link else {
            return;
        };
        while self.may_put_piece() {
            self.put_piece(handle);
        }
    }

    /// Whether a piece waits, and there is room and a buffer for it.
    fn may_put_piece(&self) -> bool
        ensures piece { result ≡ (has_room self.now && has_buffer self.now && not (length self.now.pieces == 0)) }
        ensures sound { IsSound self.now }
    {
        self.out.len() < ROOM && self.ledger.may_send() && !self.outbox.is_over()
    }

    /// Puts out the next piece. It needs one, with room and a buffer for it.
    fn put_piece(&mut self, handle: Handle)
        requires link { self.old.link ≡ Some handle }
        requires room { has_room self.old ≡ true }
        requires buffer { has_buffer self.old ≡ true }
        ensures next { with_pieces handle self.new.pieces self.new ≡ with_pieces handle self.old.pieces self.old }
        ensures fewer { 0 < length self.old.pieces → length self.new.pieces < length self.old.pieces }
        ensures link { self.new.link ≡ self.old.link }
        ensures history { Says self.old self.new }
    {
        let Some((boundary, octets)) = self.outbox.first() else {
            return;
        };
        write_piece(&mut self.out, handle, boundary, octets);
        self.ledger.sent(handle);
        self.outbox.advance();
    }

    /// Puts out the next command, where there is room and the flow of commands permits one.
    pub fn put_command(&mut self)
        ensures line { self.new ≡ put_command self.old }
        ensures history { Says self.old self.new }
        ensures sound { IsSound self.new }
    {
        if self.out.len() >= ROOM {
            return;
        }
        let Some(command) = self.commands.take_next() else {
            return;
        };
        let asks = command.asks();
        self.asked = self.asked || asks;
        write_command(&mut self.out, command);
    }
}
