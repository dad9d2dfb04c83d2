//! Laws of runs over the line. Each is the contract of a function that does nothing.

ghost use Rattle.three_wire.specs.Carrying.{UnitsAreSpelled};

/// Units that were carried are written to the sink as they stand in the source.
pub fn units_are_spelled()
    ensures { UnitsAreSpelled }
{}
