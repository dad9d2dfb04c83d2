//! The buffers of a controller: how many ACL packets it holds for which link
//! (Core 5.1, Volume 2 Part E, 4.1.1).
#![tactic(auto)]

mod ledger;

pub use ledger::{Ledger, LedgerRefusal};
