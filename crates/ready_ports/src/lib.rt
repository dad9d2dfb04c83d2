//! Ports that stand ready: over memory, over files, and over the standard streams.
#![tactic(auto)]

mod calls;
mod fault_counts;
mod file_inbox;
mod file_shelf;
mod mem_inbox;
mod mem_shelf;
mod mem_sink;
mod mem_source;
mod std_streams;

pub use file_inbox::FileInbox;
pub use file_shelf::FileShelf;
pub use mem_inbox::MemInbox;
pub use mem_shelf::MemShelf;
pub use mem_sink::MemSink;
pub use mem_source::MemSource;
pub use std_streams::{StdSink, StdSource};
