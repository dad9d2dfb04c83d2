//! The memory of channels, given and taken back.

ghost use Rattle.std.specs.Prelude.{◌≡◌, ◌≤◌, ◌+◌, [], length, vec_capacity, IfOk};

use crate::channels::PLACES;
use crate::line::Line;
use crate::place::Place;
use bt_base::NoMemory;
use std::alloc::Global;

/// The memory of four channels.
pub(crate) fn four_lines(alloc: Global) -> Result<Vec<Line>, NoMemory>
    ensures four { IfOk result (λ lines. length lines.items ≡ 4) }
    ensures room { IfOk result (λ lines. 4 ≤ vec_capacity lines) }
{
    let mut lines = Vec::with_capacity(alloc, PLACES)?;
    for _ in 0..PLACES {
        lines.push(Line::new(alloc)?)?;
    }
    Ok(lines)
}

/// Takes the memory of channels back.
pub(crate) fn release(places: &mut Vec<Place>, free: &mut Vec<Line>)
    requires four { length places.old.items + length free.old.items ≡ 4 }
    requires room { 4 ≤ vec_capacity free.old }
    ensures none { places.new.items ≡ [] }
    ensures all { length free.new.items ≡ 4 }
    ensures room { 4 ≤ vec_capacity free.new }
    ensures places_room { vec_capacity places.old ≤ vec_capacity places.new }
{
    while let Some(place) = places.pop() {
        let _room_was_reserved = free.push(place.into_line());
    }
}
