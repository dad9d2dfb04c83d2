//! What a host does by itself, as a relation: PDU after PDU is said until none may be said.
#![tactic(auto)]

ghost use Rattle.saying_laws.specs.Laws.{PdusAreSaidUntilNone, ItGoesUntilNone};

/// There is one moment to which PDU after PDU leads until none may be said, and it is the one that is reckoned.
pub fn pdus_are_said_until_none<S>()
    ensures { PdusAreSaidUntilNone S }
{}

/// All that a host does by itself leads to one moment, the one that is reckoned: its PDUs are said until none may be said.
pub fn it_goes_until_none<S>()
    ensures { ItGoesUntilNone S }
{}
