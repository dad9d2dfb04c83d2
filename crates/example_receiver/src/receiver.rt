//! A host that receives objects, over any source, sink and inbox.

ghost use Rattle.std.specs.Prelude.{◌≡◌, false, [], IfSome, OnOk};

use bt_base::{Inbox, NoMemory, PortFault, Settings, Sink, Source};
use bt_host::{FeedRefusal, ServerHost};
use std::alloc::Global;
use std::io;
use thiserror::Error;

/// Why a host was not fed to the end of its source.
#[derive(Debug, Drop, Error)]
pub enum Halt {
    #[error("no memory could be had")]
    Memory(#[from] NoMemory),
    #[error("a port failed: {0:?}")]
    Port(#[from] PortFault),
    #[error("the host refused what it was fed: {0:?}")]
    Host(#[from] FeedRefusal),
    #[error("the source ended within a packet")]
    Cut,
    #[error("nothing could be told: {0:?}")]
    Telling(#[from] io::Error),
}

/// Feeds a new host from the source to its end. What it says goes to the sink, and the objects that it is sent into the inbox.
pub fn receive<S: Source, K: Sink, B: Inbox>(
    alloc: Global,
    source: &mut S,
    sink: &mut K,
    inbox: &mut B,
) -> Result<(), Halt>
    requires { B.is_pending inbox.old ≡ false }
    ensures { OnOk result (IfSome (S.content source.new) (λ left. left ≡ [])) }
{
    let mut host = ServerHost::new(alloc, &Settings::plain())?;
    let mut piece = [0u8; 256];
    for _ in 0..u64::MAX {
        let said = host.out().len();
        sink.put(host.out())?;
        host.taken(said);
        let n = source.read(&mut piece)?;
        if n == 0 {
            return host.end().map_err(|_| Halt::Cut);
        }
        host.feed(&piece[..n], inbox)?;
    }
    Err(Halt::Cut)
}
