//! Laws of pushes that are done: the object of each is stored, whatever the inbox answers besides.
#![tactic(auto)]

ghost use Rattle.done_laws.specs.Kept.{DoneIsLast, DonePushesAreKept, KeptLeaveOut, PushesSpellEach};
ghost use Rattle.done_laws.specs.Runs.{OwnServersKeepDone};
ghost use Rattle.done_laws.specs.Storing.{OwnServersStoreDone};

/// Over L2CAP, push after push, whatever becomes of the pushes and whatever the inbox answers but want of memory: each push has one object at most in what
/// the packets spell, and the inbox gained it or left it out; that of a push that is done is there, and was gained. Of one that was cancelled none is there.
pub fn done_pushes_are_kept()
    ensures { DonePushesAreKept }
{}

/// So push after push the packets spell one object more, or none: one with each push that is done.
pub fn pushes_spell_each()
    ensures { PushesSpellEach }
{}

/// Of a push that is done, where no other did anything since, the object is the last one that the packets spell, and the inbox gained it besides what it had
/// ahead of that push.
pub fn done_is_last()
    ensures { DoneIsLast }
{}

/// What the inbox gained of the pushes is what the packets spell of them, in its order, but for as many at most as it has less.
pub fn kept_leave_out()
    ensures { KeptLeaveOut }
{}

/// So it is of the pushes of host a in each run over L2CAP, wherever it broke off, with a server that keeps its answers, none of which is want of memory: push
/// by push, what the capture spells is the shelf's object or nothing, and the inbox gained that or left it out, and that of each push that is done it gained. Where nothing
/// is owed to either host and host a's client is done, the last push in which it did anything is.
pub fn own_servers_keep_done()
    ensures { OwnServersKeepDone }
{}

/// One list of marks tells which of the objects that the packets of such a run spell the inbox gained, whatever its calls came to but want of memory. Wherever a push ends that is done, what
/// the packets spell that host b heard is what they spelled before it was begun, and one object more, which is marked: where the capture shows why the push ended so. That object is the
/// shelf's under the name of that push, where the client did not lack memory.
pub fn own_servers_store_done()
    ensures { OwnServersStoreDone }
{}
