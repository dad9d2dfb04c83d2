//! What a controller tells its host.

ghost use Rattle.std.specs.Prelude.{◌≡◌, ◌+◌, ◌≤◌, ◌<◌, ◌∷◌, ◌++◌, [], length};
ghost use Rattle.hci_packets.specs.Units.{Writes, event_unit};
ghost use Rattle.hci_packets.specs.Events.{ConnectionComplete, ConnectionRequest, DisconnectionComplete, CommandComplete, CommandStatus, CompletedPackets};
ghost use Rattle.bt_base.specs.Octets.{le16};
ghost use Rattle.radio_model.specs.Controllers.{address, other_side, answer_packet};
ghost use Rattle.radio_air.specs.Plain.{plain_answer};
ghost use Rattle.radio_model.specs.Owed.{back_by};
ghost use Rattle.radio_model.specs.Queues.{IsWritten, IsShort};

use bt_base::{BdAddr, Handle};
use hci_packets::{Event, put_event};
use push_terms::Side;

/// What a controller tells its host (Core 5.1, Volume 2 Part E, 7.7).
#[derive(Clone, Copy, Debug)]
pub(crate) enum Answer {
    /// Command Complete of a command of that number, which returns its status alone.
    Done(u16),
    /// Command Complete of Read Buffer Size: how many octets an ACL packet may have, and how many
    /// packets the controller takes.
    BufferSizes { size: u16, count: u16 },
    /// Command Complete of Read BD_ADDR: the address of that side.
    Address(Side),
    /// Command Status of a command of that number.
    Stated(u16),
    /// Connection Request of the other device.
    Called,
    /// Connection Complete.
    LinkMade(Handle),
    /// Disconnection Complete.
    LinkGone { handle: Handle, reason: u8 },
    /// Number Of Completed Packets: so many of that handle.
    GivenBack { handle: Handle, packets: u16 },
}

impl Answer {
    /// How many packets of the handle of that number it gives back.
    pub(crate) fn given_back(self, number: u16) -> u16
        ensures { result ≡ back_by number (plain_answer self) }
    {
        match self {
            Answer::GivenBack { handle, packets } => {
                if handle.get() == number { packets } else { 0 }
            }
            _ => 0,
        }
    }
}

const READ_BUFFER_SIZE: u16 = 0x1005;

const READ_BD_ADDR: u16 = 0x1009;

/// The link type of ACL data.
const ACL_LINK: u8 = 1;

/// The address of the device of a side.
pub(crate) fn address(side: Side) -> BdAddr
    ensures { result ≡ address side }
{
    match side {
        Side::A => BdAddr::of(&[0x0A, 0, 0, 0, 0, 0]).unwrap(),
        Side::B => BdAddr::of(&[0x0B, 0, 0, 0, 0, 0]).unwrap(),
    }
}

/// The address of the device that a side speaks to.
fn peer_address(side: Side) -> BdAddr
    ensures { result ≡ address (other_side side) }
{
    match side {
        Side::A => address(Side::B),
        Side::B => address(Side::A),
    }
}

/// Writes Command Complete with those return parameters.
fn put_returned(opcode: u16, returned: &[u8], into: &mut [u8]) -> usize
    requires few { length returned.now ≤ 8 }
    requires room { 14 ≤ length into.old }
    ensures { Writes into.old into.new result (event_unit (CommandComplete 1 opcode returned.now)) }
{
    let event = Event::CommandComplete {
        number: 1,
        opcode,
        returned,
    };
    put_event(&event, into)
}

fn put_buffer_sizes(size: u16, count: u16, into: &mut [u8]) -> usize
    requires { 14 ≤ length into.old }
    ensures { Writes into.old into.new result (event_unit (CommandComplete 1 READ_BUFFER_SIZE (0 ∷ (le16 size ++ (0 ∷ (le16 count ++ le16 0)))))) }
{
    let [a, b] = size.to_le_bytes();
    let [c, d] = count.to_le_bytes();
    put_returned(READ_BUFFER_SIZE, &[0, a, b, 0, c, d, 0, 0], into)
}

fn put_address(of: Side, into: &mut [u8]) -> usize
    requires { 14 ≤ length into.old }
    ensures { Writes into.old into.new result (event_unit (CommandComplete 1 READ_BD_ADDR (0 ∷ address of))) }
{
    let [a, b, c, d, e, f] = address(of).get();
    put_returned(READ_BD_ADDR, &[0, a, b, c, d, e, f], into)
}

fn put_stated(opcode: u16, into: &mut [u8]) -> usize
    requires { 14 ≤ length into.old }
    ensures { Writes into.old into.new result (event_unit (CommandStatus 0 1 opcode)) }
{
    let event = Event::CommandStatus {
        status: 0,
        number: 1,
        opcode,
    };
    put_event(&event, into)
}

fn put_called(side: Side, into: &mut [u8]) -> usize
    requires { 14 ≤ length into.old }
    ensures { Writes into.old into.new result (event_unit (ConnectionRequest (address (other_side side)) 0 1)) }
{
    let event = Event::ConnectionRequest {
        address: peer_address(side),
        class: 0,
        link: ACL_LINK,
    };
    put_event(&event, into)
}

fn put_link_made(side: Side, handle: Handle, into: &mut [u8]) -> usize
    requires { 14 ≤ length into.old }
    ensures { Writes into.old into.new result (event_unit (ConnectionComplete 0 handle (address (other_side side)) 1 0)) }
{
    let event = Event::ConnectionComplete {
        status: 0,
        handle: handle.get(),
        address: peer_address(side),
        link: ACL_LINK,
        encryption: 0,
    };
    put_event(&event, into)
}

fn put_link_gone(handle: Handle, reason: u8, into: &mut [u8]) -> usize
    requires { 14 ≤ length into.old }
    ensures { Writes into.old into.new result (event_unit (DisconnectionComplete 0 handle reason)) }
{
    let event = Event::DisconnectionComplete {
        status: 0,
        handle,
        reason,
    };
    put_event(&event, into)
}

fn put_given_back(handle: Handle, packets: u16, into: &mut [u8]) -> usize
    requires { 14 ≤ length into.old }
    ensures { Writes into.old into.new result (event_unit (CompletedPackets 1 (le16 handle ++ le16 packets))) }
{
    let [a, b] = handle.get().to_le_bytes();
    let [c, d] = packets.to_le_bytes();
    let event = Event::CompletedPackets {
        count: 1,
        entries: &[a, b, c, d],
    };
    put_event(&event, into)
}

impl Answer {
    /// Writes the packet for the host of a side at the front of `into`, and answers how many octets
    /// it has. The rest of `into` stays as it is.
    ///
    /// It needs room for 14 octets, which the longest has.
    pub(crate) fn write(&self, side: Side, into: &mut [u8]) -> usize
        requires room { 14 ≤ length into.old }
        ensures written { IsWritten (answer_packet side (plain_answer self.now)) result into.old into.new }
        ensures short { IsShort 14 (answer_packet side (plain_answer self.now)) }
    {
        match *self {
            Answer::Done(opcode) => put_returned(opcode, &[0], into),
            Answer::BufferSizes { size, count } => put_buffer_sizes(size, count, into),
            Answer::Address(of) => put_address(of, into),
            Answer::Stated(opcode) => put_stated(opcode, into),
            Answer::Called => put_called(side, into),
            Answer::LinkMade(handle) => put_link_made(side, handle, into),
            Answer::LinkGone { handle, reason } => put_link_gone(handle, reason, into),
            Answer::GivenBack { handle, packets } => put_given_back(handle, packets, into),
        }
    }
}
