//! The entries of a capture where they stand: each as a record, of a tag and a payload.
#![tactic(auto)]

pub mod laws;
mod record;

pub use record::{FirstRecord, first_record, least_length};
