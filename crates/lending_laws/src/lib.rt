//! The channels that a host in code lends while a maker calls it are read off the units that move between it and its controller.
#![tactic(auto)]

ghost use Rattle.lending_laws.specs.Channels.{ClientsShow, ServersShow, ServersShowWhatMoved};
ghost use Rattle.lending_laws.specs.Freely.{FreeClientsShow, FreeServersShow, FreeServersShowWhatMoved, FreeClientsRun, FreeServersRun};

/// Whatever a maker called of a new `ClientHost`, where what came to it came in turn: the channels that it lends are those that its units say, each open
/// exactly where they say so.
pub fn clients_show<P>()
    ensures { ClientsShow P }
{}

/// Whatever a maker called of a new `ServerHost`, where what came to it came in turn: the channels that it lends are those that its units say, each open
/// exactly where they say so.
pub fn servers_show<P>()
    ensures { ServersShow P }
{}

/// And where its timer never fired, they are those of what moved alone.
pub fn servers_show_what_moved<P>()
    ensures { ServersShowWhatMoved P }
{}

/// Whatever a maker called of a new `ClientHost`, one packet a piece, where by the units that moved its controller took one packet more whenever the host was
/// told a PDU, or its maker told it something: the channels that it lends are those that its units say, each open exactly where they say so.
pub fn free_clients_show<P>()
    ensures { FreeClientsShow P }
{}

/// The same of a new `ServerHost`.
pub fn free_servers_show<P>()
    ensures { FreeServersShow P }
{}

/// And where its timer never fired, they are those of what moved alone.
pub fn free_servers_show_what_moved<P>()
    ensures { FreeServersShowWhatMoved P }
{}

/// The channels that such a client lends are those of a run to which happened what moved on the last link, and where its maker called `on_timer` between,
/// each in its place.
pub fn free_clients_run<P>()
    ensures { FreeClientsRun P }
{}

/// The same of a server.
pub fn free_servers_run<P>()
    ensures { FreeServersRun P }
{}
