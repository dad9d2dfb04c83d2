//! A shelf that tells what it holds, as its client is told.
#![tactic(auto)]

ghost use Rattle.shelf_model.specs.Held.{ShelvesGiveWhatTheyHold, SizesAreOfObjects};

/// Whatever a shelf holds and tells, all that it gives are octets, those of its objects where it tells what it holds; and each length that it tells is a
/// number of four octets.
pub fn shelves_give_what_they_hold()
    ensures { ShelvesGiveWhatTheyHold }
{}

/// Where a shelf tells how long an object is, it holds one of that name, and that is as long.
pub fn sizes_are_of_objects()
    ensures { SizesAreOfObjects }
{}
