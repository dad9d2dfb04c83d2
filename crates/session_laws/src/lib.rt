//! Laws of sessions of OBEX: of two over a pipe of packets, what the server hears of an object of any size and what the client makes of the responses; and of
//! those of a server, whatever the inbox answers.
#![tactic(auto)]

ghost use Rattle.session_laws.specs.AbortedFirst.{NamesAbortFirst};
ghost use Rattle.session_laws.specs.BlamesNone.{PairsBlameNone};
ghost use Rattle.session_laws.specs.Once.{PairsSpellOnce};

/// What the server heard of a push, wherever its packets have moved to, spells the object of the shelf once or nothing, of any size that four octets
/// state; and nothing where it has more than 16,777,215 octets.
pub fn pairs_spell_once()
    ensures { PairsSpellOnce }
{}

/// Wherever the packets of a push have moved to, the client finds its peer at fault for no response that comes next: none is in a row of the table.
pub fn pairs_blame_none()
    ensures { PairsBlameNone }
{}

/// Where a Name comes over one transport of a server while an object is under way over the other, Abort is the first call of the inbox,
/// whatever that answers. The calls of the packet itself come behind it, unless memory was wanting: then none does, and nothing is answered.
pub fn names_abort_first()
    ensures { NamesAbortFirst }
{}
