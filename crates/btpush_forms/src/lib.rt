//! What `btpush` does without hosts: the forms `decode`, `snoop` and `wire`, words that are no command
//! line, and how the text of a scenario is had from its source.
#![tactic(auto)]

mod alone;
mod carrying;
mod gathering;
mod hosted;
mod snooping;
mod status;
mod usage;
mod viewing;

pub use alone::run_alone;
pub use gathering::{GatherFault, gather};
pub use hosted::Hosted;
pub use status::Status;
pub use viewing::Viewing;
