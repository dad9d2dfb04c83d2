//! The configuration options of an L2CAP channel (Bluetooth Core Specification 5.1, Volume 3 Part A,
//! section 5), and how two sides come to an agreement on them (section 7.1).
#![tactic(auto)]

mod agreement;
mod item;
pub mod laws;
mod options;
mod reading;
mod unknown;
mod wish;
mod writing;

pub use agreement::{ConfigAnswer, Settled, agree, answer, settle};
pub use options::{ConfigRefusal, ModeOption, Options, merged};
pub use reading::options_of;
pub use unknown::UnknownTypes;
pub use wish::{Agreed, Mode, Wish};
pub use writing::put_options;
