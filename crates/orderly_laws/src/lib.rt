//! What the inbox of a server gains on orderly input, which is read off its own units alone: the packets that move between it and its controller.
#![tactic(auto)]

ghost use Rattle.orderly_laws.specs.Carried.{ServersGainCarried};
ghost use Rattle.orderly_laws.specs.Channels.{ServersHoldWhatMoved};
ghost use Rattle.orderly_laws.specs.Orderly.{ServersGainAsked};
ghost use Rattle.orderly_laws.specs.Served.{ServersGainServed};

/// On input that is orderly by its own units the inbox of a server gains exactly the objects that these spell, over L2CAP.
pub fn servers_gain_asked()
    ensures { ServersGainAsked }
{}

/// A server over RFCOMM or over L2CAP came to its units by a talk, and lived so through it; and if nothing that came was lost so, its inbox gained exactly the
/// objects that its own units spell.
pub fn servers_gain_served()
    ensures { ServersGainServed }
{}

/// On input that is orderly by its own units the inbox of a server gains exactly the objects that these spell, over RFCOMM.
pub fn servers_gain_carried()
    ensures { ServersGainCarried }
{}

/// The channels of a server whose timer never fired are those of what moved on its link, and behind it of some sayings that go out, as what it let wait;
/// and each is open exactly where they say so; where the host has said all, by what moved alone.
pub fn servers_hold_what_moved()
    ensures { ServersHoldWhatMoved }
{}
