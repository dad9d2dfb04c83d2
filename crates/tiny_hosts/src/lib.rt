//! Two tiny hosts, an echo and a counter, over the half of a host that faces its controller: the smallest hosts that a
//! world takes. Their tests play them over every word of a radio script.
#![tactic(auto)]

mod counter;
mod echo;
mod hosting;
mod mind;
mod playing;
mod tiny_host;
mod told;

pub use counter::Counter;
pub use echo::Echo;
pub use mind::Mind;
pub use playing::play;
pub use tiny_host::TinyHost;
pub use told::Told;
