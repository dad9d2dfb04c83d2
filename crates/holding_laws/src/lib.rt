//! The channels that a host in code lends, whatever a maker calls of it, are those of a run of the rules of channels over what moves and where its timer
//! fires.
#![tactic(auto)]

ghost use Rattle.holding_laws.specs.Laws.{ClientsHold, ServersHold};

/// Whatever a maker called of a new `ClientHost`, in any order and with any ports: the channels that it lends are those of a run to which came the PDUs that
/// were fed and the calls of `on_timer`, in this order, and which gave the PDUs that it put out, each before it was out. Each channel is open exactly where
/// that run says so.
pub fn clients_hold<P>()
    ensures { ClientsHold P }
{}

/// The same of a new `ServerHost`.
pub fn servers_hold<P>()
    ensures { ServersHold P }
{}
