//! The pure world over abstract hosts, and the world of turns.
#![tactic(auto)]
