//! Why a world cannot go on.

use bt_base::NoMemory;

/// Why a world stopped. After either it does not go on.
#[derive(Clone, Copy, Debug, PartialEq, Eq)]
pub enum WorldFault {
    /// The trace failed.
    TraceFault,
    /// No memory could be had.
    NoMemory,
}

impl From<NoMemory> for WorldFault {
    ghost use Rattle.std.specs.Prelude.{◌≡◌};
    ghost use Rattle.radio_world.specs.declared.fault.WorldFault.TheVariants.{NoMemory};

    ghost from_gives = { λ _ fault. fault ≡ NoMemory };

    fn from(_error: NoMemory) -> WorldFault {
        WorldFault::NoMemory
    }
}
