//! Both hosts above their lines, as small values: the channels of a link with the profile above them, and each as an
//! upper machine of a world in which hosts speak in turn.
#![tactic(auto)]

pub mod laws;
