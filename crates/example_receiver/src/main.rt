//! The library from another crate: a host that receives objects is fed from a source of octets. What it says to its controller goes to a
//! sink, and the objects that it is sent into an inbox. Here both are in memory, and the source is the standard input.
#![tactic(auto)]

mod receiver;

use ready_ports::{MemInbox, MemSink, StdSource};
use receiver::{Halt, receive};
use std::process::ExitCode;

/// Feeds a host what its controller says on the standard input, and tells how much it said and stored.
fn receive_and_tell(rt: &HostRuntime) -> Result<(), Halt> {
    let mut source = StdSource::new(rt.stdin());
    let mut sink = MemSink::new(rt.alloc(), &[])?;
    let mut inbox = MemInbox::new(rt.alloc(), &[])?;
    receive(rt.alloc(), &mut source, &mut sink, &mut inbox)?;
    println!(rt;
        "said {} octets, stored {}",
        sink.octets().len(),
        inbox.len()
    )?;
    Ok(())
}

fn main(rt: HostRuntime) -> ExitCode {
    match receive_and_tell(&rt) {
        Ok(()) => ExitCode::SUCCESS,
        Err(_) => ExitCode::FAILURE,
    }
}
