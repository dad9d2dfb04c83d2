//! What always holds of one machine, and of two ends of a channel over a link that loses, repeats and
//! damages.

ghost use Rattle.ertm_model.specs.Absolute.{GivesAbsolutely, HearsAbsolutely, RejectsAhead, OthersStand};
ghost use Rattle.ertm_model.specs.Laws.{CutSpells};
ghost use Rattle.ertm_model.specs.Order.{NewStands, TurnsStand, StandingIsInOrder, AlwaysInOrder};
ghost use Rattle.ertm_model.specs.Recovery.{AlwaysAffords, RestIsDone};
ghost use Rattle.ertm_model.specs.Runs.{AlwaysSaid};

/// What an SDU is cut into are its segments.
pub fn cutting_spells()
    ensures { CutSpells }
{}

/// Two ends, and what is on its way between them, are in order: two new ends are, every turn keeps it,
/// and it says that frames are accepted in their order and once, that numbers are read as they were
/// sent, and that nothing but want of tries closes an end.
pub fn ends_are_in_order()
    ensures new { NewStands }
    ensures kept { TurnsStand }
    ensures says { StandingIsInOrder }
    ensures always { AlwaysInOrder }
{}

/// What a machine holds while it is open is what the PDUs say that came in and went out, whatever they
/// are.
pub fn machines_hold_what_is_said()
    ensures { AlwaysSaid }
{}

/// A frame or a poll is given once more only after one more turn that went wrong, and an end closes for
/// want of tries only after as many as it has tries; timers that fire where both ends are at rest are
/// free.
pub fn sendings_are_paid()
    ensures { AlwaysAffords }
{}

/// Of two ends at rest one that is not armed has nothing left: the other end handed up all that was
/// submitted to it.
pub fn rest_is_done()
    ensures { RestIsDone }
{}

/// Each step of a machine is one of plain numbers: of those that are acknowledged, were given and were
/// accepted.
pub fn steps_are_absolute()
    ensures gives { GivesAbsolutely }
    ensures hears { HearsAbsolutely }
    ensures rejects { RejectsAhead }
    ensures others { OthersStand }
{}
