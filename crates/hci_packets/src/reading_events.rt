//! Events from their parameters.

ghost use Rattle.std.specs.Prelude.{◌≡◌, ◌<◌, IfOk, IsOkAnd, Some, None, slice_index, drop, length, nat_lt, if◌then◌else◌};
ghost use Rattle.std.specs.List.{list_any};
ghost use Rattle.byteorder.specs.Endian.{little_number};
ghost use Rattle.hci_packets.specs.declared.refusal.HciRefusal.TheVariants.{ShortParams};
ghost use Rattle.hci_packets.specs.Refusals.{RefusedBy, wrong_length, wrong_handle, bad_handle};
ghost use Rattle.hci_packets.specs.Events.{PlainEvent, IsEvent, plain_event, event_refusal, wrong_connection, wrong_entries, entries_of};

use crate::class::class_of;
use crate::event::Event;
use crate::refusal::HciRefusal;
use crate::rows::{
    COMMAND_COMPLETE, COMMAND_STATUS, COMPLETED_PACKETS, CONNECTION_COMPLETE, CONNECTION_REQUEST,
    DISCONNECTION_COMPLETE, of_length,
};
use bt_base::{BdAddr, Handle, read_le16};

/// The event of that code with those parameters. A code that the table does not have is `Other`.
///
/// `ShortParams` and `LongParams` for another length than the row's, then `BadHandle` for a handle
/// above 0x0EFF: not where a connection was not made, and in any entry of completed packets.
pub fn event_of<'a>(code: u8, params: &'a [u8]) -> Result<Event<'a>, HciRefusal>
    // What is read stands in the table with this code and these parameters.
    ensures read { IfOk result (λ event. IsEvent (plain_event event) code params.now) }
    // Each event that stands in the table so is read.
    ensures all { (event : PlainEvent) → IsEvent event code params.now → IsOkAnd result (λ read. plain_event read ≡ event) }
    // Each refusal comes exactly on its condition.
    ensures refused { RefusedBy result (event_refusal code params.now) }
{
    by_row(code, params)
}

fn by_row<'a>(code: u8, params: &'a [u8]) -> Result<Event<'a>, HciRefusal>
    ensures read { IfOk result (λ event. IsEvent (plain_event event) code params.now) }
    ensures refused { RefusedBy result (event_refusal code params.now) }
{
    match code {
        CONNECTION_COMPLETE => connection_complete(params),
        CONNECTION_REQUEST => connection_request(params),
        DISCONNECTION_COMPLETE => disconnection_complete(params),
        COMMAND_COMPLETE => command_complete(params),
        COMMAND_STATUS => command_status(params),
        COMPLETED_PACKETS => completed_packets(params),
        _ => Ok(Event::Other { code, params }),
    }
}

fn connection_complete<'a>(params: &[u8]) -> Result<Event<'a>, HciRefusal>
    ensures read { IfOk result (λ event. IsEvent (plain_event event) CONNECTION_COMPLETE params.now) }
    ensures refused { RefusedBy result (wrong_length 11 params.now (wrong_connection (slice_index params.now 0) (little_number 2 (drop 1 params.now)))) }
{
    of_length(params, 11)?;
    let status = params[0];
    let handle = read_le16(&params[1..]);
    if status == 0 && Handle::of(handle).is_none() {
        return Err(HciRefusal::BadHandle);
    }
    Ok(Event::ConnectionComplete {
        status,
        handle,
        address: BdAddr::of(&params[3..9]).unwrap(),
        link: params[9],
        encryption: params[10],
    })
}

fn connection_request<'a>(params: &[u8]) -> Result<Event<'a>, HciRefusal>
    ensures read { IfOk result (λ event. IsEvent (plain_event event) CONNECTION_REQUEST params.now) }
    ensures refused { RefusedBy result (wrong_length 10 params.now None) }
{
    of_length(params, 10)?;
    Ok(Event::ConnectionRequest {
        address: BdAddr::of(&params[..6]).unwrap(),
        class: class_of(&params[6..]),
        link: params[9],
    })
}

fn disconnection_complete<'a>(params: &[u8]) -> Result<Event<'a>, HciRefusal>
    ensures read { IfOk result (λ event. IsEvent (plain_event event) DISCONNECTION_COMPLETE params.now) }
    ensures refused { RefusedBy result (wrong_length 4 params.now (wrong_handle (little_number 2 (drop 1 params.now)))) }
{
    of_length(params, 4)?;
    let Some(handle) = Handle::of(read_le16(&params[1..])) else {
        return Err(HciRefusal::BadHandle);
    };
    Ok(Event::DisconnectionComplete {
        status: params[0],
        handle,
        reason: params[3],
    })
}

fn command_complete<'a>(params: &'a [u8]) -> Result<Event<'a>, HciRefusal>
    ensures read { IfOk result (λ event. IsEvent (plain_event event) COMMAND_COMPLETE params.now) }
    ensures refused { RefusedBy result (if nat_lt (length params.now) 3 then Some ShortParams else None) }
{
    if params.len() < 3 {
        return Err(HciRefusal::ShortParams);
    }
    Ok(Event::CommandComplete {
        number: params[0],
        opcode: read_le16(&params[1..]),
        returned: &params[3..],
    })
}

fn command_status<'a>(params: &[u8]) -> Result<Event<'a>, HciRefusal>
    ensures read { IfOk result (λ event. IsEvent (plain_event event) COMMAND_STATUS params.now) }
    ensures refused { RefusedBy result (wrong_length 4 params.now None) }
{
    of_length(params, 4)?;
    Ok(Event::CommandStatus {
        status: params[0],
        number: params[1],
        opcode: read_le16(&params[2..]),
    })
}

fn completed_packets<'a>(params: &'a [u8]) -> Result<Event<'a>, HciRefusal>
    ensures read { IfOk result (λ event. IsEvent (plain_event event) COMPLETED_PACKETS params.now) }
    ensures refused { RefusedBy result (wrong_entries params.now) }
{
    let [count, entries @ ..] = params else {
        return Err(HciRefusal::ShortParams);
    };
    of_length(entries, 4 * usize::from(*count))?;
    if has_bad_handle(entries) {
        return Err(HciRefusal::BadHandle);
    }
    Ok(Event::CompletedPackets {
        count: *count,
        entries,
    })
}

/// Whether the handle of one of these entries is above 0x0EFF.
fn has_bad_handle(entries: &[u8]) -> bool
    ensures { result ≡ list_any (λ entry. bad_handle entry.0) (entries_of entries.now) }
{
    let mut rest = entries;
    while let [low, high, _, _, after @ ..] = rest {
        if Handle::of(read_le16(&[*low, *high])).is_none() {
            return true;
        }
        rest = after;
    }
    false
}
