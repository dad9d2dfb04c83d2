//! A file header and records as octets.

ghost use Rattle.std.specs.Prelude.{◌≡◌, ◌+◌, ◌≤◌, ◌++◌, length, take, drop};
ghost use Rattle.btsnoop.specs.Files.{plain_record, file_header, record_octets, IsRecord};
ghost use Rattle.btsnoop.specs.Writing.{Writes};

use crate::fields::{IDENTIFICATION, UART_DATALINK, VERSION};
use crate::record::Record;

/// Writes the file header to the front of `into`, and answers how many octets it has. The octets
/// behind it stay as they are. It needs room.
pub fn put_header(into: &mut [u8]) -> usize
    requires { length file_header ≤ length into.old }
    ensures { Writes into.old into.new result file_header }
{
    let at = put(into, 0, &IDENTIFICATION.to_be_bytes());
    let at = put(into, at, &VERSION.to_be_bytes());
    put(into, at, &UART_DATALINK.to_be_bytes())
}

/// Writes the record to the front of `into`, and answers how many octets it has. The octets behind
/// it stay as they are. It needs room, and a record of at most 65,540 octets and no more than its
/// packet had.
pub fn put_record(item: &Record<'_>, into: &mut [u8]) -> usize
    requires item { IsRecord (plain_record item.now) }
    requires room { length (record_octets (plain_record item.now)) ≤ length into.old }
    ensures { Writes into.old into.new result (record_octets (plain_record item.now)) }
{
    let at = put(into, 0, &item.original.to_be_bytes());
    let at = put(into, at, &(item.octets.len() as u32).to_be_bytes());
    let at = put(into, at, &item.flags.to_be_bytes());
    let at = put(into, at, &item.drops.to_be_bytes());
    let at = put(into, at, &item.time.to_be_bytes());
    put(into, at, item.octets)
}

/// Writes octets at a place, and answers the place behind them.
fn put(into: &mut [u8], at: usize, octets: &[u8]) -> usize
    requires { at + length octets.now ≤ length into.old }
    ensures end { result ≡ at + length octets.now }
    ensures written { into.new ≡ take at into.old ++ (octets.now ++ drop (at + length octets.now) into.old) }
{
    let end = at + octets.len();
    into[at..end].copy_from_slice(octets);
    end
}
