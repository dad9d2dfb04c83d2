//! Packets of OBEX and their headers (IrOBEX 1.5), read and written against one spelling.
#![tactic(auto)]

mod assembler;
mod codes;
mod fault;
mod header;
pub mod identifiers;
pub mod laws;
mod packet;
mod reading;
pub mod runs;
mod text;
mod walk;
mod writing;

pub use assembler::{Assembled, Assembler};
pub use codes::{Code, is_put};
pub use fault::ObexRefusal;
pub use header::{Header, HeaderValue};
pub use packet::{Packet, Phase, packet_of};
pub use text::name_units;
pub use walk::{Headers, headers_of};
pub use writing::{add_header, add_placed, start_packet};
