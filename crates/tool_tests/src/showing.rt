//! What views write of inputs by hand.

use h4_view::{ViewFault, view_entries, view_raw, view_snoop};
use object_lines::view_tagged;
use ready_ports::{MemSink, MemSource};
use std::alloc::Global;

/// Which view is written.
#[derive(Clone, Copy)]
pub(crate) enum View {
    /// That of a stream of packets.
    Raw,
    /// That of a btsnoop file.
    Snoop,
    /// That of a capture, and that of its entries alone.
    Tagged,
    Entries,
}

/// A part of an input and what is written of it.
pub(crate) type Part = (&'static [u8], &'static str);

/// Whether a view is written to its end, which is that of a whole stream of packets, or where memory was ample.
fn is_written(alloc: Global, view: View, source: &mut MemSource, sink: &mut MemSink) -> bool {
    let is_short = match view {
        View::Raw => view_raw(alloc, source, sink).is_err(),
        View::Snoop => matches!(view_snoop(alloc, source, sink), Err(ViewFault::NoMemory)),
        View::Tagged => matches!(view_tagged(alloc, source, sink), Err(ViewFault::NoMemory)),
        View::Entries => matches!(view_entries(alloc, source, sink), Err(ViewFault::NoMemory)),
    };
    !is_short
}

/// The same of octets that are read in pieces of so many, one at least.
pub(crate) fn is_written_of(
    alloc: Global,
    view: View,
    octets: &[u8],
    step: usize,
    sink: &mut MemSink,
) -> bool {
    match MemSource::new(alloc, octets, step.max(1), &[]) {
        Ok(mut source) => is_written(alloc, view, &mut source, sink),
        Err(_) => false,
    }
}

/// Whether the view of octets that are read in pieces of so many is that text, in front of that end.
pub(crate) fn shows(
    alloc: Global,
    view: View,
    octets: &[u8],
    step: usize,
    text: &[u8],
    end: &[u8],
) -> bool {
    match MemSink::new(alloc, &[]) {
        Ok(mut sink) => {
            is_written_of(alloc, view, octets, step, &mut sink)
                && sink.octets().strip_suffix(end) == Some(text)
        }
        Err(_) => false,
    }
}

/// Whether the view of octets is that text, in whatever pieces they are read.
pub(crate) fn is_shown(alloc: Global, view: View, octets: &[u8], text: &[u8]) -> bool {
    shows(alloc, view, octets, 65_536, text, b"")
        && shows(alloc, view, octets, 7, text, b"")
        && shows(alloc, view, octets, 1, text, b"")
}

/// The octets of all parts.
fn octets_of(alloc: Global, parts: &[Part]) -> Option<Vec<u8>> {
    let mut octets = Vec::new(alloc);
    for (part, _) in parts {
        octets.extend_from_slice(*part).ok()?;
    }
    Some(octets)
}

/// What is written of all parts.
fn lines_of(alloc: Global, parts: &[Part]) -> Option<Vec<u8>> {
    let mut lines = Vec::new(alloc);
    for (_, text) in parts {
        lines.extend_from_slice(text.as_bytes()).ok()?;
    }
    Some(lines)
}

/// Whether the view of the octets of parts is what is written of each.
fn is_shown_of(alloc: Global, view: View, octets: &[u8], parts: &[Part]) -> bool {
    match lines_of(alloc, parts) {
        Some(lines) => is_shown(alloc, view, octets, &lines),
        None => false,
    }
}

/// Whether the view of an input is what is written of its parts, in whatever pieces it is read.
pub(crate) fn parts_are_shown(alloc: Global, view: View, parts: &[Part]) -> bool {
    match octets_of(alloc, parts) {
        Some(octets) => is_shown_of(alloc, view, &octets, parts),
        None => false,
    }
}
