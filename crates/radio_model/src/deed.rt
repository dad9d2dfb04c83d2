//! What a word does.

use crate::fate::Fate;
use push_terms::{Side, Way};

/// What a word of a radio script finds to act on.
#[derive(Clone, Copy, Debug, PartialEq, Eq)]
pub enum Deed {
    /// It finds nothing.
    Nothing,
    /// The first frame that waits in a direction meets its fate.
    Meets(Way, Fate),
    /// The timer of a host fires, if it is armed.
    Fires(Side),
    /// The timers of both hosts fire, each if it is armed.
    FiresBoth,
    /// The link breaks.
    Breaks,
    /// The push under way is to be cancelled, which is no matter of the air.
    Cancels,
}
