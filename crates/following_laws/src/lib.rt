//! What the inbox of a server gains where channels of objects come one behind the other on a link.
#![tactic(auto)]

ghost use Rattle.following_laws.specs.Following.{HostsGainFollowing, HostsReadFollowing, OneChannelFollows};
ghost use Rattle.following_laws.specs.OneAtATime.{SinglesFollow};

/// A link on which one channel alone carries packets is one on which channels of objects come one behind the other.
pub fn one_channel_follows()
    ensures { OneChannelFollows }
{}

/// What a server heard over its links spells what the PDUs spell that moved on them, link after link, and on each link channel after channel: where each channel of
/// objects that brought an SDU was told to be closed before another one brings one or is closed.
pub fn hosts_read_following()
    ensures { HostsReadFollowing }
{}

/// So its inbox gains exactly these objects, where no call of the inbox fails and no request is ignored.
pub fn hosts_gain_following()
    ensures { HostsGainFollowing }
{}

/// Where what moved on a link has at most one channel of objects at a time, these come one behind the other, as their server is told: of a host that hears one command at
/// a time, where it has said and was told all.
pub fn singles_follow()
    ensures { SinglesFollow }
{}
