//! `btpush`: Object Push over a Bluetooth Classic host stack.
//!
//! `btpush decode` reads a stream of H4 packets from the standard input and writes a line for each
//! to the standard output; `decode --tagged` does so for a capture of two hosts, and `decode --snoop`
//! for a btsnoop file. `btpush snoop --side a` reads a capture and writes the btsnoop file of its host
//! a to the standard output. `btpush receive` is a host that receives objects: it reads what its
//! controller says from the standard input, writes what it says to the standard output, and keeps what
//! arrives in the folder `inbox`. `btpush push` reads a scenario from the standard input, pushes files
//! of the current folder over a simulated radio, keeps what arrives in the folder `inbox`, and writes a
//! report to the standard output and the capture to the standard error. `btpush wire` carries the
//! packets of the standard input over a simulated three-wire line to the standard output, and writes
//! each packet on the line to the standard error.
#![tactic(auto)]

mod run;
#[cfg(test)]
mod tests;

use btpush_forms::Status;
use ready_ports::{FileInbox, FileShelf, StdSink, StdSource};
use run::run;
use std::env;
use std::process::ExitCode;

/// The words of the command line, the program's name first. None can be had where one is no text.
fn command_line(rt: &HostRuntime) -> Vec<String> {
    let words = match env::args(rt) {
        Ok(words) => words.collect(rt.alloc()),
        Err(_) => Ok(Vec::new(rt.alloc())),
    };
    match words {
        Ok(words) => words,
        Err(_) => Vec::new(rt.alloc()),
    }
}

fn run_on_standard_streams(rt: &HostRuntime) -> Status {
    let words = command_line(rt);
    let mut source = StdSource::new(rt.stdin());
    let mut sink = StdSink::new(rt.stdout());
    let mut trace = StdSink::new(rt.stderr());
    let mut shelf = FileShelf::new(rt, rt.alloc(), ".");
    let mut inbox = FileInbox::new(rt, rt.alloc(), "inbox");
    run(
        rt.alloc(),
        &words,
        &mut source,
        &mut sink,
        &mut trace,
        &mut shelf,
        &mut inbox,
    )
}

fn main(rt: HostRuntime) -> ExitCode {
    ExitCode::from(run_on_standard_streams(&rt).code())
}
