//! What every layer of the stack stands on: octets and the numbers in them, the small checked
//! numbers of the standard, and the ports through which a layer reaches the outside.
#![tactic(auto)]

mod cursor;
mod no_memory;
mod numbers;
mod octets;
mod ports;
mod settings;

pub use cursor::Cursor;
pub use no_memory::NoMemory;
pub use numbers::{BdAddr, Cid, Dlci, Handle, Psm};
pub use octets::{read_be16, read_be32, read_le16};
pub use ports::{Inbox, PortFault, Shelf, Sink, Source};
pub use settings::{Serves, Settings, Transport};
