//! Check words over octets, as what a long division of their bits leaves.
#![tactic(auto)]

mod behind;
mod fcs;
mod fold;
pub mod laws;
mod rfcomm;
mod rfcomm_table;
mod table;

pub use fcs::fcs16;
pub use rfcomm::fcs8;
