//! A host that had done all that it could puts out the same octets whether all its PDUs come before a command, as its code has it, or round after round one
//! PDU, a command and a step of its profile; and where another one differs.
#![tactic(auto)]

ghost use Rattle.order_laws.specs.Differing.{OrdersMayDiffer, RoomSuffices};
ghost use Rattle.order_laws.specs.Hosts.{ClientsGoInRounds, ServersGoInRounds};
ghost use Rattle.order_laws.specs.Laws.{HeldBackGoInRounds, NewsGoInRounds, PacketsGoInRounds};

/// Whatever packet comes to a host that had done all that it could, it puts out what it does in rounds.
pub fn packets_go_in_rounds<S>()
    ensures { PacketsGoInRounds S }
{}

/// So it does with news that no packet brings, as that its timer fired.
pub fn news_go_in_rounds<S>()
    ensures { NewsGoInRounds S }
{}

/// And once octets of it were taken, where no command can go out, or nothing else can.
pub fn held_back_go_in_rounds<S>()
    ensures { HeldBackGoInRounds S }
{}

/// A `ClientHost` that had done all that it could is where rounds end, behind each packet that it heard and all else that it was told.
pub fn clients_go_in_rounds<P>()
    ensures { ClientsGoInRounds P }
{}

/// So is a `ServerHost`.
pub fn servers_go_in_rounds<P>()
    ensures { ServersGoInRounds P }
{}

/// Where a command and PDUs were held back together the two orders may differ.
pub fn orders_may_differ()
    ensures { OrdersMayDiffer }
{}

/// But where room is left behind all that goes out, they differ in the place of the command alone.
pub fn room_suffices<S>()
    ensures { RoomSuffices S }
{}
