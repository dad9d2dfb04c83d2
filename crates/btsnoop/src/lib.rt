//! The captures that phones and analysers write: btsnoop files, read in any pieces and written.
#![tactic(auto)]

mod converting;
mod fault;
mod fields;
mod front;
mod gathering;
pub mod laws;
mod reader;
mod record;
mod refusal;
mod writing;

pub use converting::convert;
pub use fault::SnoopFault;
pub use fields::Part;
pub use front::{FirstPart, first_part};
pub use reader::{Reader, SnoopTaken};
pub use record::Record;
pub use refusal::SnoopRefusal;
pub use writing::{put_header, put_record};
