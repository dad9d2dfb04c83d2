//! Why a client in code answers an outcome of its push, exactly, over what its maker calls of it and the units that move.
#![tactic(auto)]

ghost use Rattle.explaining_laws.specs.Explaining.{ClientsExplain};

/// Whatever a maker called of a new `ClientHost`, in any order, one packet a piece, where by the units that moved its controller took one packet more whenever
/// the host was told a PDU, or its maker told it something: all that happened to it falls to these calls, each with the packet that came and the units that moved with
/// it; and what `outcome` answers behind them is an outcome exactly where one of these things showed it since the last `push`, or with that, ahead of which there was none.
pub fn clients_explain<P>()
    ensures { ClientsExplain P }
{}
