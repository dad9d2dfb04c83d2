//! Events as whole H4 units.

ghost use Rattle.std.specs.Prelude.{◌≡◌, ◌+◌, ◌<◌, ◌≤◌, ◌^◌, ◌∷◌, ◌++◌, length};
ghost use Rattle.hci_packets.specs.Events.{plain_event, event_params, AllowsEvent, ConnectionComplete, ConnectionRequest, DisconnectionComplete, CommandComplete, CommandStatus};
ghost use Rattle.hci_packets.specs.Units.{Writes, event_unit};

use crate::class::class_octets;
use crate::event::Event;
use crate::rows::{
    COMMAND_COMPLETE, COMMAND_STATUS, COMPLETED_PACKETS, CONNECTION_COMPLETE, CONNECTION_REQUEST,
    DISCONNECTION_COMPLETE,
};
use crate::unit::{octets_of, put_unit};
use bt_base::{BdAddr, Handle};

const EVENT_INDICATOR: u8 = 0x04;

/// Writes the H4 unit of an event at the front, and answers how many octets it has. The rest of
/// `into` stays as it is.
///
/// It needs room, an event that stands in the table, and at most 255 octets of parameters.
pub fn put_event(event: &Event<'_>, into: &mut [u8]) -> usize
    requires allowed { AllowsEvent (plain_event event.now) }
    requires few { length (event_params (plain_event event.now)) < 256 }
    requires room { length (event_unit (plain_event event.now)) ≤ length into.old }
    ensures { Writes into.old into.new result (event_unit (plain_event event.now)) }
{
    match *event {
        Event::ConnectionComplete {
            status,
            handle,
            address,
            link,
            encryption,
        } => put_connection_complete(status, handle, address, link, encryption, into),
        Event::ConnectionRequest {
            address,
            class,
            link,
        } => put_connection_request(address, class, link, into),
        Event::DisconnectionComplete {
            status,
            handle,
            reason,
        } => put_disconnection_complete(status, handle, reason, into),
        Event::CommandComplete {
            number,
            opcode,
            returned,
        } => put_command_complete(number, opcode, returned, into),
        Event::CommandStatus {
            status,
            number,
            opcode,
        } => put_command_status(status, number, opcode, into),
        Event::CompletedPackets { count, entries } => {
            put_row(COMPLETED_PACKETS, &[count], entries, into)
        }
        Event::Other { code, params } => put_row(code, params, &[], into),
    }
}

fn put_connection_complete(
    status: u8,
    handle: u16,
    address: BdAddr,
    link: u8,
    encryption: u8,
    into: &mut [u8],
) -> usize
    requires { length (event_unit (ConnectionComplete status handle address link encryption)) ≤ length into.old }
    ensures { Writes into.old into.new result (event_unit (ConnectionComplete status handle address link encryption)) }
{
    let [low, high] = octets_of(handle);
    let [a, b, c, d, e, f] = address.get();
    let params = [status, low, high, a, b, c, d, e, f, link, encryption];
    put_row(CONNECTION_COMPLETE, &params, &[], into)
}

fn put_connection_request(address: BdAddr, class: u32, link: u8, into: &mut [u8]) -> usize
    requires room { length (event_unit (ConnectionRequest address class link)) ≤ length into.old }
    requires class { class < 2 ^ 24 }
    ensures { Writes into.old into.new result (event_unit (ConnectionRequest address class link)) }
{
    let [a, b, c, d, e, f] = address.get();
    let [low, middle, high] = class_octets(class);
    let params = [a, b, c, d, e, f, low, middle, high, link];
    put_row(CONNECTION_REQUEST, &params, &[], into)
}

fn put_disconnection_complete(status: u8, handle: Handle, reason: u8, into: &mut [u8]) -> usize
    requires { 7 ≤ length into.old }
    ensures { Writes into.old into.new result (event_unit (DisconnectionComplete status handle reason)) }
{
    let [low, high] = octets_of(handle.get());
    put_row(
        DISCONNECTION_COMPLETE,
        &[status, low, high, reason],
        &[],
        into,
    )
}

fn put_command_complete(number: u8, opcode: u16, returned: &[u8], into: &mut [u8]) -> usize
    requires few { 3 + length returned.now < 256 }
    requires room { 6 + length returned.now ≤ length into.old }
    ensures { Writes into.old into.new result (event_unit (CommandComplete number opcode returned.now)) }
{
    let [low, high] = octets_of(opcode);
    put_row(COMMAND_COMPLETE, &[number, low, high], returned, into)
}

fn put_command_status(status: u8, number: u8, opcode: u16, into: &mut [u8]) -> usize
    requires { 7 ≤ length into.old }
    ensures { Writes into.old into.new result (event_unit (CommandStatus status number opcode)) }
{
    let [low, high] = octets_of(opcode);
    put_row(COMMAND_STATUS, &[status, number, low, high], &[], into)
}

/// Writes the unit of an event of that code, with its parameters in two parts.
fn put_row(code: u8, first: &[u8], rest: &[u8], into: &mut [u8]) -> usize
    requires few { length first.now + length rest.now < 256 }
    requires room { 3 + length first.now + length rest.now ≤ length into.old }
    ensures { Writes into.old into.new result (EVENT_INDICATOR ∷ code ∷ (length first.now + length rest.now) ∷ (first.now ++ rest.now)) }
{
    put_unit(into, &[EVENT_INDICATOR, code], first, rest)
}
