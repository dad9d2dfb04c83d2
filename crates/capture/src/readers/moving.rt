//! The packets of one host.

ghost use Rattle.std.specs.Prelude.{◌≡◌, IfOk};
ghost use Rattle.std.specs.Option.{option_map};
ghost use Rattle.capture.specs.Moves.{move_of, moves};
ghost use Rattle.capture.specs.Lent.{plain_entry, plain_entries, plain_move, plain_moves};

use crate::entry::Entry;
use crate::readers::Move;
use bt_base::NoMemory;
use push_terms::Side;
use std::alloc::Global;

fn move_of<'a>(entry: &Entry<'a>, host: Side) -> Option<Move<'a>>
    ensures { option_map plain_move result ≡ move_of host (plain_entry entry.now) }
{
    match (*entry, host) {
        (
            Entry::Moved {
                side: Side::A,
                flow,
                unit,
            },
            Side::A,
        ) => Some(Move { flow, unit }),
        (
            Entry::Moved {
                side: Side::B,
                flow,
                unit,
            },
            Side::B,
        ) => Some(Move { flow, unit }),
        _ => None,
    }
}

/// The packets that moved out of a host or into it, in their order.
pub fn moves<'a>(
    alloc: Global,
    entries: &[Entry<'a>],
    host: Side,
) -> Result<Vec<Move<'a>>, NoMemory>
    ensures { IfOk result (λ found. plain_moves found.items ≡ moves host (plain_entries entries.now)) }
{
    let mut found = Vec::new(alloc);
    for entry in entries {
        if let Some(moved) = move_of(entry, host) {
            found.push(moved)?;
        }
    }
    Ok(found)
}
