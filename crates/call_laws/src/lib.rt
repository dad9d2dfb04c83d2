//! What a host in code lends while a maker calls it is read off the units that move between it and its controller.
#![tactic(auto)]

ghost use Rattle.call_laws.specs.Laws.{ClientsLend, ServersLend};

/// Whatever a maker called of a new `ClientHost`, in any order: the ledger that it lends has for every handle the packets that its units leave outstanding
/// there.
pub fn clients_lend<P>()
    ensures { ClientsLend P }
{}

/// Whatever a maker called of a new `ServerHost`, in any order: the ledger that it lends has for every handle the packets that its units leave outstanding
/// there.
pub fn servers_lend<P>()
    ensures { ServersLend P }
{}
