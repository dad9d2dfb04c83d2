//! Laws of pushes that are not marked: of which the packets spell no object, so that the inbox gains none.
#![tactic(auto)]

ghost use Rattle.unmarked_laws.specs.Ends.{OwnServersEndSo};
ghost use Rattle.unmarked_laws.specs.Unserved.{OwnServersSpellNone};
ghost use Rattle.unmarked_laws.specs.Unspelled.{WithheldSpellNone};

/// Over L2CAP, push after push, whatever the inbox answers: of a push that was cancelled, whose shelf failed, or that found no service, the packets spell no object.
pub fn withheld_spell_none()
    ensures { WithheldSpellNone }
{}

/// So it is of the pushes of host a in each run over L2CAP, wherever it broke off. And where nothing is owed to either host and host a's client is done, refused, or found no service, the
/// last push in which it did anything came to that: an SDU that came in on the link of that push brought it about.
pub fn own_servers_end_so()
    ensures { OwnServersEndSo }
{}

/// So wherever a push of such a run ends that found no service, what the packets spell that host b heard is what they spelled before that push was begun: it has no object among them. And
/// wherever nothing is owed to either host while the link of host b is up, it is so of one that was cancelled or whose shelf failed.
pub fn own_servers_spell_none()
    ensures { OwnServersSpellNone }
{}
