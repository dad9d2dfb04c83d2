//! What the lines of a scenario that were read say.

use crate::names::Names;
use crate::runs::Runs;
use crate::stated::Keys;
use std::marker::Model;

/// What was read of a scenario so far.
#[derive(Drop)]
pub(crate) struct Draft {
    pub(crate) keys: Keys,
    pub(crate) names: Names,
    /// Whether the line `radio` was read.
    pub(crate) radio: bool,
    pub(crate) runs: Runs,
}

impl Model for Draft {
    ghost use Rattle.push_script.specs.Stated.{Known, IsKnown};

    ghost Value = { Known };

    ghost view = { λ d. record { keys = d.keys; names = d.names; radio = d.radio; runs = d.runs } };

    ghost invariant = { λ d. IsKnown (record { keys = d.keys; names = d.names; radio = d.radio; runs = d.runs }) };
}
