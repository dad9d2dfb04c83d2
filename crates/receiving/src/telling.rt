//! How it is told what came of a stream.

ghost use Rattle.std.specs.Prelude.{◌≡◌, ◌≢◌, ◌≤◌, ◌+◌, ◌⊎◌, ◌++◌, length, take, Ok, IsErrOf};
ghost use Rattle.bt_base.specs.Counts.{HasRisen};
ghost use Rattle.btpush_forms.specs.h4_view.specs.View.{IsAnswered};
ghost use Rattle.btpush_forms.specs.Carrying.{place_line};
ghost use Rattle.btpush_forms.specs.Refusing.{Refuses};
ghost use Rattle.receiving.specs.Receiving.{refusal_name, Tells};

use crate::fault::{ListenFault, StreamRefusal};
use bt_base::{PortFault, Sink};
use btpush_forms::Status;
use itoa::Buffer;

/// Room for the line of a refusal, in octets.
const LINE_ROOM: usize = 80;

/// The name of a refusal in its line.
fn refusal_name(refusal: StreamRefusal) -> &'static str
    ensures name { result.now ≡ refusal_name refusal }
    ensures short { length result.now ≤ 13 }
{
    match refusal {
        StreamRefusal::BadIndicator => "BadIndicator",
        StreamRefusal::AclTooLong => "AclTooLong",
        StreamRefusal::Truncated => "Truncated",
        StreamRefusal::CommandFailed => "CommandFailed",
        StreamRefusal::BadBuffers => "BadBuffers",
        StreamRefusal::TooLong => "TooLong",
    }
}

/// Writes a part at that place, and answers the place behind it.
fn put_part(into: &mut [u8], at: usize, part: &[u8]) -> usize
    requires room { at + length part.now ≤ length into.old }
    ensures end { result ≡ at + length part.now }
    ensures written { take result into.new ≡ take at into.old ++ part.now }
{
    let end = at + part.len();
    into[at..end].copy_from_slice(part);
    end
}

/// Writes the line of a refusal at that place from the first octet on, and answers how many octets it has.
fn put_line(name: &str, place: u64, into: &mut [u8]) -> usize
    requires short { length name.now ≤ 13 }
    requires room { 80 ≤ length into.old }
    ensures within { result ≤ length into.old }
    ensures written { take result into.new ≡ place_line name.now place }
{
    let mut buffer = Buffer::new();
    let number = buffer.format(place);
    let head = put_part(into, 0, b"refused offset ");
    let numbered = put_part(into, head, number.as_bytes());
    let blank = put_part(into, numbered, b" ");
    let named = put_part(into, blank, name.as_bytes());
    put_part(into, named, b"\n")
}

/// Writes the line of a refusal to the trace. It takes no memory of its own.
fn refuse<T: Sink>(refusal: StreamRefusal, place: u64, trace: &mut T) -> Status
    ensures refuses { Refuses (place_line (refusal_name refusal) place) (T.content trace.old) (T.content trace.new) result }
    ensures faults { IsAnswered (T.faults trace.old) (T.faults trace.new) (result ≡ Status.WriteFault) }
    ensures short { IsAnswered (T.shortages trace.old) (T.shortages trace.new) (result ≡ Status.NoMemory) }
    ensures write { result ≡ Status.WriteFault → HasRisen (T.faults trace.old) (T.faults trace.new) }
    ensures lacked { result ≡ Status.NoMemory → HasRisen (T.shortages trace.old) (T.shortages trace.new) }
{
    let mut line = [0u8; LINE_ROOM];
    let n = put_line(refusal_name(refusal), place, &mut line);
    match trace.put(&line[..n]) {
        Ok(()) => Status::InputRefused,
        Err(PortFault::Failed) => Status::WriteFault,
        Err(PortFault::NoMemory) => Status::NoMemory,
    }
}

/// Tells what came of a stream.
pub(crate) fn tell<T: Sink>(end: Result<(), ListenFault>, trace: &mut T) -> Status
    ensures tells { Tells end (T.content trace.old) (T.content trace.new) result }
    ensures faults { IsAnswered (T.faults trace.old) (T.faults trace.new) (result ≡ Status.WriteFault) }
    ensures short { IsAnswered (T.shortages trace.old) (T.shortages trace.new) (result ≡ Status.NoMemory) }
    ensures read { result ≡ Status.ReadFault → IsErrOf end ListenFault.ReadFault }
    ensures write { result ≡ Status.WriteFault → IsErrOf end ListenFault.WriteFault ⊎ HasRisen (T.faults trace.old) (T.faults trace.new) }
    ensures lacked { result ≡ Status.NoMemory → IsErrOf end ListenFault.NoMemory ⊎ HasRisen (T.shortages trace.old) (T.shortages trace.new) }
    ensures told { IsErrOf end ListenFault.ReadFault → result ≡ Status.ReadFault }
    ensures told_write { IsErrOf end ListenFault.WriteFault → result ≡ Status.WriteFault }
    ensures told_short { IsErrOf end ListenFault.NoMemory → result ≡ Status.NoMemory }
    ensures well { result ≡ Status.Ok → end ≡ Ok tt }
    ensures known { (result ≢ Status.BadWords) × (result ≢ Status.SomeFailed) }
{
    match end {
        Ok(()) => Status::Ok,
        Err(ListenFault::Refused(refusal, place)) => refuse(refusal, place, trace),
        Err(ListenFault::ReadFault) => Status::ReadFault,
        Err(ListenFault::WriteFault) => Status::WriteFault,
        Err(ListenFault::NoMemory) => Status::NoMemory,
    }
}
