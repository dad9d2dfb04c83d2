//! Laws of pushes whose objects were not sent: wherever they end, the packets spell nothing of them.
#![tactic(auto)]

ghost use Rattle.unspelled_laws.specs.Withheld.{OwnServersWithholdAll};

/// Wherever a push of a run over L2CAP ends as cancelled, as the shelf's fault or for want of a service, what the packets spell that host b heard is what they spelled before that push was
/// begun: it has no object among them. And so it is at any moment at which the client of host a came to such an outcome, whatever is still under way.
pub fn own_servers_withhold_all()
    ensures { OwnServersWithholdAll }
{}
