//! A source and a sink over the standard streams. They tell no content.

ghost use Rattle.std.specs.Prelude.{◌≡◌, None};

use bt_base::{PortFault, Sink, Source};
use std::io::{Print, Read};

/// A source over a reader such as the standard input. Any error of the reader is `Failed`.
#[derive(Drop)]
pub struct StdSource<R> {
    reader: R,
    faults: u64,
}

impl<R: Read> StdSource<R> {
    /// A source that reads from `reader`, and has not failed yet.
    pub fn new(reader: R) -> StdSource<R>
        ensures counts { result.faults ≡ 0 }
    {
        StdSource { reader, faults: 0 }
    }
}

impl<R: Read> Source for StdSource<R> {
    ghost content = { λ _. None };

    ghost faults = { λ source. source.faults };

    ghost shortages = { λ _. 0 };

    fn read(&mut self, into: &mut [u8]) -> Result<usize, PortFault> {
        match self.reader.read(into) {
            Ok(n) => Ok(n),
            Err(_) => {
                self.faults = self.faults.saturating_add(1);
                Err(PortFault::Failed)
            }
        }
    }
}

/// A sink over a printer such as the standard output or the standard error. Any error of the
/// printer is `Failed`, and so is a write that takes nothing of a piece that is not empty.
#[derive(Drop)]
pub struct StdSink<P> {
    printer: P,
    faults: u64,
}

impl<P: Print> StdSink<P> {
    /// A sink that writes to `printer`, and has not failed yet.
    pub fn new(printer: P) -> StdSink<P>
        ensures counts { result.faults ≡ 0 }
    {
        StdSink { printer, faults: 0 }
    }
}

impl<P: Print> Sink for StdSink<P> {
    ghost content = { λ _. None };

    ghost faults = { λ sink. sink.faults };

    ghost shortages = { λ _. 0 };

    fn put(&mut self, piece: &[u8]) -> Result<(), PortFault> {
        let mut rest = piece;
        while !rest.is_empty() {
            match self.printer.write_some(rest) {
                Ok(n) if n > 0 => rest = &rest[n..],
                _ => {
                    self.faults = self.faults.saturating_add(1);
                    return Err(PortFault::Failed);
                }
            }
        }
        Ok(())
    }
}
