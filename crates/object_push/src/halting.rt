//! Whether a scenario came to its end.

ghost use Rattle.std.specs.Prelude.{◌≡◌, true, false, IfErr, IfOk, IsErrOf, is_ok};
ghost use Rattle.object_push.specs.Halting.{Follows, Halts};

use radio_world::WorldFault;
use scenario_play::Played;

/// A scenario that came to its end.
#[derive(Drop)]
pub(crate) struct Ended {
    /// What came of it.
    pub(crate) played: Played,
    /// How many objects the inbox stored. The count stands still at 2^32 - 1.
    pub(crate) kept: u32,
}

/// What was played, with the count of what was stored. A trace that failed is told before a port that found no memory, and both
/// whatever was played.
pub(crate) fn end_of(
    played: Result<Played, WorldFault>,
    kept: u32,
    failed: bool,
    short: bool,
) -> Result<Ended, WorldFault>
    ensures follows { IfOk result (λ ended. Follows failed short played ended.played) }
    ensures kept { IfOk result (λ ended. ended.kept ≡ kept) }
    ensures halts { IfErr result (Halts failed short played) }
    ensures failed { failed ≡ true → IsErrOf result WorldFault.TraceFault }
    ensures short { failed ≡ false → short ≡ true → IsErrOf result WorldFault.NoMemory }
{
    if failed {
        return Err(WorldFault::TraceFault);
    }
    if short {
        return Err(WorldFault::NoMemory);
    }
    match played {
        Ok(played) => Ok(Ended { played, kept }),
        Err(fault) => Err(fault),
    }
}
