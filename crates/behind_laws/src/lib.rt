//! What the inbox of a server gains over its own units where channels of objects come one behind the other on a link.
#![tactic(auto)]

ghost use Rattle.behind_laws.specs.InTurn.{ServersGainInTurn};
ghost use Rattle.behind_laws.specs.Orderly.{ServersGainOrderlyInTurn};

/// A server over L2CAP whose client has at each moment at most one channel of objects on a link, and any number of them one behind the other, came to its units by a
/// talk, and lived so through it; and if nothing that came was lost so, its inbox gained exactly the objects that its own units spell, channel after channel.
pub fn servers_gain_in_turn()
    ensures { ServersGainInTurn }
{}

/// On input that is orderly by its own units, with any number of channels of objects one behind the other on a link, the inbox of a server gains exactly the objects
/// that these spell, over L2CAP.
pub fn servers_gain_orderly_in_turn()
    ensures { ServersGainOrderlyInTurn }
{}
