//! The words of the command line, as `clap` reads them.
#![tactic(auto)]

mod command;
mod form;
mod reading;

pub use form::Form;
pub use reading::{NoMemory, form_of};
