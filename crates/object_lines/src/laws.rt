//! Laws of the objects that hosts hear. Each is the contract of a function that does nothing.

ghost use Rattle.object_lines.specs.Laws.{HearByTheirOwn};
ghost use Rattle.object_lines.specs.Matters.{MattersLead};

/// Which objects a host hears is told by its own packets.
pub fn hosts_hear_by_their_own()
    ensures { HearByTheirOwn }
{}

/// What matters of what is held of a channel leads on by itself, and tells of the same objects.
pub fn matters_lead()
    ensures { MattersLead }
{}
