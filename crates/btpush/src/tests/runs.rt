//! Runs of the program over ports in memory. Each function here owns one thing and lends it to the next.

ghost use Rattle.std.specs.Prelude.{◌≡◌, false};

use crate::run::run;
use bt_base::{Inbox, NoMemory, Source};
use btpush_forms::Status;
use ready_ports::{MemInbox, MemShelf, MemSink, MemSource};
use std::alloc::Global;

/// The rows of a table. No contract tells what they are, so that a proof does not carry them along: the run compares them.
pub(crate) fn rows<T>(table: &[T]) -> &[T] {
    table
}

/// What lies on the shelf or in the inbox under a name: these octets, or so many that go on from 0 to 250 and begin anew.
#[derive(Clone, Copy)]
pub(crate) enum Content {
    Text(&'static [u8]),
    Filled(u32),
}

/// An object that is stored: the units of its name, and its content.
pub(crate) type Stored = (&'static [u16], Content);

/// Which calls of each port fail.
#[derive(Clone, Copy)]
pub(crate) struct Failing {
    pub(crate) source: &'static [u32],
    pub(crate) sink: &'static [u32],
    pub(crate) trace: &'static [u32],
    pub(crate) shelf: &'static [u32],
    pub(crate) inbox: &'static [u32],
}

/// No call fails.
pub(crate) const WELL: Failing = Failing {
    source: &[],
    sink: &[],
    trace: &[],
    shelf: &[],
    inbox: &[],
};

/// What a run is given: the words behind the program's name, the octets of its source and how many of them are handed out at a time, what lies
/// on its shelf, and which calls of its ports fail.
#[derive(Clone, Copy)]
pub(crate) struct Run<'a> {
    pub(crate) line: &'a str,
    pub(crate) input: &'a [u8],
    pub(crate) step: usize,
    pub(crate) objects: &'static [(&'static str, Content)],
    pub(crate) failing: Failing,
}

/// A run on these words and this input, over ports that do not fail and an empty shelf.
pub(crate) fn plain<'a>(line: &'a str, input: &'a [u8]) -> Run<'a> {
    Run {
        line,
        input,
        step: 65_536,
        objects: &[],
        failing: WELL,
    }
}

/// Tells whether a run ended as it should, by its status and what its sink and its trace have then.
pub(crate) trait Judge {
    fn judges(&self, alloc: Global, status: Status, sink: &[u8], trace: &[u8]) -> bool;
}

/// How a run ends, and all that its sink and its trace have then.
#[derive(Clone, Copy)]
pub(crate) struct Left<'a> {
    pub(crate) status: Status,
    pub(crate) sink: &'a [u8],
    pub(crate) trace: &'a [u8],
}

impl<'a> Judge for Left<'a> {
    fn judges(&self, _alloc: Global, status: Status, sink: &[u8], trace: &[u8]) -> bool {
        status == self.status && sink == self.sink && trace == self.trace
    }
}

/// How a run ends, and the end of what its sink has then. Its trace has nothing.
#[derive(Clone, Copy)]
pub(crate) struct Tail<'a> {
    pub(crate) status: Status,
    pub(crate) sink: &'a [u8],
}

impl<'a> Judge for Tail<'a> {
    fn judges(&self, _alloc: Global, status: Status, sink: &[u8], trace: &[u8]) -> bool {
        status == self.status && sink.ends_with(self.sink) && trace.is_empty()
    }
}

/// The octet at a place of content that is filled.
fn octet_at(place: usize) -> u8 {
    (place % 251) as u8
}

/// The octets of that content.
fn octets_of(alloc: Global, content: Content) -> Result<Vec<u8>, NoMemory> {
    let mut octets = Vec::new(alloc);
    match content {
        Content::Text(text) => octets.extend_from_slice(text)?,
        Content::Filled(length) => {
            for place in 0..length {
                octets.push(octet_at(place as usize))?;
            }
        }
    }
    Ok(octets)
}

/// Lays an object on the shelf; whether it lies there.
fn lay(alloc: Global, shelf: &mut MemShelf, name: &str, content: Content) -> bool {
    match octets_of(alloc, content) {
        Ok(octets) => octets.len() <= 1_000_000 && shelf.add(name, &octets).is_ok(),
        Err(_) => false,
    }
}

/// Lays these objects on the shelf; whether they lie there.
fn lay_all(alloc: Global, shelf: &mut MemShelf, objects: &[(&'static str, Content)]) -> bool {
    for (name, content) in objects {
        if !lay(alloc, shelf, *name, *content) {
            return false;
        }
    }
    true
}

/// The words of a line, with the program's name ahead of them.
fn words_of(alloc: Global, line: &str) -> Result<Vec<String>, NoMemory> {
    let mut words = Vec::new(alloc);
    words.push(String::from_str(alloc, "btpush")?)?;
    for word in line.split(' ') {
        if !word.is_empty() {
            words.push(String::from_str(alloc, word)?)?;
        }
    }
    Ok(words)
}

/// How a run on these words ends, with its objects on a shelf. Nothing where memory is wanting for that.
fn ran_on<S: Source, B: Inbox>(
    alloc: Global,
    words: &Vec<String>,
    given: &Run<'_>,
    source: &mut S,
    sink: &mut MemSink,
    trace: &mut MemSink,
    inbox: &mut B,
) -> Option<Status>
    requires { B.is_pending inbox.old ≡ false }
{
    match MemShelf::new(alloc, given.failing.shelf) {
        Ok(mut shelf) => {
            let shelved = lay_all(alloc, &mut shelf, given.objects);
            let status = run(alloc, words, source, sink, trace, &mut shelf, inbox);
            if shelved { Some(status) } else { None }
        }
        Err(_) => None,
    }
}

/// The same on the words of its line.
pub(crate) fn ran<S: Source, B: Inbox>(
    alloc: Global,
    given: &Run<'_>,
    source: &mut S,
    sink: &mut MemSink,
    trace: &mut MemSink,
    inbox: &mut B,
) -> Option<Status>
    requires { B.is_pending inbox.old ≡ false }
{
    match words_of(alloc, given.line) {
        Ok(words) => ran_on(alloc, &words, given, source, sink, trace, inbox),
        Err(_) => None,
    }
}

/// Whether a run over that source and sink, into that inbox, ends as it should.
fn ends_with<S: Source, B: Inbox, J: Judge>(
    alloc: Global,
    given: &Run<'_>,
    source: &mut S,
    sink: &mut MemSink,
    inbox: &mut B,
    judge: &J,
) -> bool
    requires { B.is_pending inbox.old ≡ false }
{
    match MemSink::new(alloc, given.failing.trace) {
        Ok(mut trace) => match ran(alloc, given, source, sink, &mut trace, inbox) {
            Some(status) => judge.judges(alloc, status, sink.octets(), trace.octets()),
            None => false,
        },
        Err(_) => false,
    }
}

/// Whether a run over that source, into that inbox, ends as it should.
pub(crate) fn ends_over<S: Source, B: Inbox, J: Judge>(
    alloc: Global,
    given: &Run<'_>,
    source: &mut S,
    inbox: &mut B,
    judge: &J,
) -> bool
    requires { B.is_pending inbox.old ≡ false }
{
    match MemSink::new(alloc, given.failing.sink) {
        Ok(mut sink) => ends_with(alloc, given, source, &mut sink, inbox, judge),
        Err(_) => false,
    }
}

/// Whether a run into that inbox ends as it should.
pub(crate) fn ends_into<B: Inbox, J: Judge>(
    alloc: Global,
    given: &Run<'_>,
    inbox: &mut B,
    judge: &J,
) -> bool
    requires { B.is_pending inbox.old ≡ false }
{
    match MemSource::new(alloc, given.input, given.step.max(1), given.failing.source) {
        Ok(mut source) => ends_over(alloc, given, &mut source, inbox, judge),
        Err(_) => false,
    }
}

/// Whether a run ends as it should, and exactly these objects are stored then.
pub(crate) fn ends<J: Judge>(alloc: Global, given: &Run<'_>, judge: &J, stored: &[Stored]) -> bool {
    match MemInbox::new(alloc, given.failing.inbox) {
        Ok(mut inbox) => ends_into(alloc, given, &mut inbox, judge) && are_stored(&inbox, stored),
        Err(_) => false,
    }
}

/// Whether the octets are that content.
fn is_content(octets: &[u8], content: Content) -> bool {
    match content {
        Content::Text(text) => octets == text,
        Content::Filled(length) => {
            let mut same = octets.len() == length as usize;
            for (place, octet) in octets.iter().enumerate() {
                same = same && *octet == octet_at(place);
            }
            same
        }
    }
}

/// Whether an object is stored at that place, under that name and with that content.
fn is_stored(inbox: &MemInbox, place: usize, name: &[u16], content: Content) -> bool {
    let (Some(units), Some(octets)) = (inbox.name_at(place), inbox.octets_at(place)) else {
        return false;
    };
    units == name && is_content(octets, content)
}

/// Whether these objects are stored, and no others.
fn are_stored(inbox: &MemInbox, stored: &[Stored]) -> bool {
    for (place, (name, content)) in stored.iter().enumerate() {
        if !is_stored(inbox, place, *name, *content) {
            return false;
        }
    }
    inbox.len() == stored.len()
}

/// Whether the part stands somewhere in the octets.
pub(crate) fn contains(octets: &[u8], part: &[u8]) -> bool {
    for at in 0..octets.len() {
        if octets[at..].starts_with(part) {
            return true;
        }
    }
    false
}

/// Whether all parts stand there.
pub(crate) fn contains_all(octets: &[u8], parts: &[&'static [u8]]) -> bool {
    for part in parts {
        if !contains(octets, *part) {
            return false;
        }
    }
    true
}

/// Whether none of the parts stands there.
pub(crate) fn contains_none(octets: &[u8], parts: &[&'static [u8]]) -> bool {
    for part in parts {
        if contains(octets, *part) {
            return false;
        }
    }
    true
}

/// Whether the view of a capture ends with these lines.
pub(crate) fn shows(alloc: Global, capture: &[u8], lines: &[u8]) -> bool {
    let viewed = Tail {
        status: Status::Ok,
        sink: lines,
    };
    ends(alloc, &plain("decode --tagged", capture), &viewed, &[])
}
