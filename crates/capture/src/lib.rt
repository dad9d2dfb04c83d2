//! What a capture of two hosts says: which packets moved, which links there were, which PDUs crossed them, and what was
//! outstanding.
#![tactic(auto)]

mod capture_reading;
mod entry;
mod entry_refusal;
mod flow;
pub mod laws;
pub mod readers;
mod reading;
mod writing;

pub use capture_reading::entries_of;
pub use entry::Entry;
pub use entry_refusal::{CaptureFault, EntryRefusal};
pub use flow::Flow;
pub use reading::entry_of;
pub use writing::put_entry;
