//! What the channels of a host are by its own talk, whatever is said on its link.
#![tactic(auto)]
