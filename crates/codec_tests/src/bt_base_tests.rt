use crate::tables::rows;
use bt_base::*;
use ready_ports::*;
use std::alloc::Global;
use std::test::Fail;

/// The numbers at the front of what is left.
fn numbers_of(cursor: &mut Cursor<'_>) -> Option<(u8, u16, u16, u32)> {
    Some((cursor.u8()?, cursor.le16()?, cursor.be16()?, cursor.be32()?))
}

#[test]
fn cursor_walks_octets(rt: HostRuntime) {
    let octets = [1, 2, 3, 4, 5, 6, 7, 8, 9, 10, 11];
    let mut cursor = Cursor::new(&octets);
    assert!(rt; numbers_of(&mut cursor) == Some((1, 0x0302, 0x0405, 0x0607_0809)));
    assert!(rt; numbers_of(&mut cursor) == None);
    assert!(rt; cursor.left() == 1);
}

/// Numbers, and whether they are a handle, a channel identifier and a PSM.
const NUMBERS: [(u16, bool, bool, bool); 9] = [
    (0x0000, true, false, false),
    (0x0001, true, true, true),
    (0x003F, true, false, true),
    (0x0040, true, true, false),
    (0x0EFF, true, true, true),
    (0x0F00, false, true, false),
    (0x0101, true, true, false),
    (0x1001, false, true, true),
    (0xFFFF, false, true, false),
];

/// Numbers, and whether they are a DLCI.
const DLCIS: [(u8, bool); 5] = [(0, true), (1, false), (2, true), (61, true), (62, false)];

/// Whether a number is a handle, a channel identifier and a PSM, as a row says.
fn is_checked(raw: u16, handle: bool, cid: bool, psm: bool) -> bool {
    Handle::of(raw).is_some() == handle
        && Cid::of(raw).is_some() == cid
        && Psm::of(raw).is_some() == psm
}

#[test]
fn small_numbers_are_checked(rt: HostRuntime) {
    for (raw, handle, cid, psm) in rows(&NUMBERS) {
        assert!(rt; is_checked(*raw, *handle, *cid, *psm));
    }
    for (raw, dlci) in rows(&DLCIS) {
        assert!(rt; Dlci::of(*raw).is_some() == *dlci);
    }
    assert!(rt;
        matches!(BdAddr::of(&[10, 0, 0, 0, 0, 1]), Some(address) if address.get() == [10, 0, 0, 0, 0, 1])
    );
    assert!(rt; BdAddr::of(&[10, 0, 0, 0, 0]).is_none());
}

/// Whether the next read into four octets gives these.
fn gives(source: &mut impl Source, piece: &[u8]) -> Result<bool, PortFault> {
    let mut into = [0; 4];
    let n = source.read(&mut into)?;
    Ok(&into[..n] == piece)
}

/// What a source gives read by read, whose second call fails.
const READS: [(&[u8], Result<bool, PortFault>); 5] = [
    (b"he", Ok(true)),
    (b"", Err(PortFault::Failed)),
    (b"ll", Ok(true)),
    (b"o", Ok(true)),
    (b"", Ok(true)),
];

/// What a sink is given, whose second call fails.
const WRITES: [(&[u8], Result<(), PortFault>); 3] = [
    (b"ab", Ok(())),
    (b"cd", Err(PortFault::Failed)),
    (b"ef", Ok(())),
];

/// Whether a source gives what the rows say.
fn reads_all(source: &mut MemSource) -> bool {
    for (piece, answer) in rows(&READS) {
        if gives(source, *piece) != *answer {
            return false;
        }
    }
    true
}

/// Whether a sink answers as the rows say, and keeps what it took.
fn writes_all(sink: &mut MemSink) -> bool {
    for (piece, answer) in rows(&WRITES) {
        if sink.put(*piece) != *answer {
            return false;
        }
    }
    sink.octets() == b"abef".as_slice()
}

/// Whether a source of `hello` reads so.
fn source_fails(alloc: Global) -> bool {
    match MemSource::new(alloc, b"hello", 2, &[2]) {
        Ok(mut source) => reads_all(&mut source),
        Err(_) => false,
    }
}

/// Whether a sink writes so.
fn sink_fails(alloc: Global) -> bool {
    match MemSink::new(alloc, &[2]) {
        Ok(mut sink) => writes_all(&mut sink),
        Err(_) => false,
    }
}

#[test]
fn memory_streams_fail_as_planned(rt: HostRuntime) {
    assert!(rt; source_fails(rt.alloc()));
    assert!(rt; sink_fails(rt.alloc()));
}

/// The objects that are laid on a shelf, and the two octets that stand there where it is asked: none where the call fails.
const LAID: [(&str, &[u8]); 3] = [("a", b"older"), ("b", b"other"), ("a", b"newer")];

const ASKED: [(&str, u32, &[u8]); 5] = [
    ("a", 3, b"er"),
    ("a", 4, b""),
    ("a", 0, b""),
    ("a", 0, b"ne"),
    ("c", 0, b""),
];

/// Lays an object on a shelf; whether it lies there.
fn lays(shelf: &mut MemShelf, name: &str, octets: &[u8]) -> bool {
    octets.len() < 100 && shelf.add(name, octets).is_ok()
}

/// Whether two octets of an object stand there, or the call fails where there are to be none.
fn has_two(shelf: &mut impl Shelf, name: &str, at: u32, octets: &[u8]) -> bool {
    let mut into = [0; 2];
    match shelf.fill(name, at, &mut into) {
        Ok(()) => into.as_slice() == octets,
        Err(fault) => octets.is_empty() && fault == PortFault::Failed,
    }
}

/// Whether a shelf answers as a table says.
fn answers(shelf: &mut impl Shelf, table: &[(&str, u32, &[u8])]) -> bool {
    for (name, at, octets) in table {
        if !has_two(shelf, *name, *at, *octets) {
            return false;
        }
    }
    true
}

/// Whether a shelf on which the objects are laid answers as the rows say.
fn tells_objects(shelf: &mut MemShelf) -> bool {
    for (name, octets) in rows(&LAID) {
        if !lays(shelf, *name, *octets) {
            return false;
        }
    }
    answers(shelf, rows(&ASKED)) && shelf.size("b") == Ok(5)
}

/// The same of a shelf whose third call fails.
fn new_shelf_tells(alloc: Global) -> bool {
    match MemShelf::new(alloc, &[3]) {
        Ok(mut shelf) => tells_objects(&mut shelf),
        Err(_) => false,
    }
}

#[test]
fn memory_shelf_answers(rt: HostRuntime) {
    assert!(rt; new_shelf_tells(rt.alloc()));
}

/// Begins an object of that name, with these octets.
fn start(inbox: &mut impl Inbox, name: &[u16], octets: &[u8]) -> Result<(), PortFault> {
    inbox.abort()?;
    inbox.begin(name)?;
    inbox.append(octets)
}

/// Stores an object of that name.
fn store(inbox: &mut impl Inbox, name: &[u16], octets: &[u8]) -> Result<(), PortFault> {
    inbox.abort()?;
    inbox.begin(name)?;
    inbox.append(octets)?;
    inbox.commit()
}

/// Whether an inbox keeps what is committed, and nothing else.
fn keeps_committed(inbox: &mut MemInbox) -> bool {
    start(inbox, &[97], b"hi").is_ok()
        && inbox.is_empty()
        && store(inbox, &[98], b"hello").is_ok()
        && store(inbox, &[99], b"") == Err(PortFault::Failed)
        && inbox.len() == 1
        && inbox.name_at(0) == Some([98].as_slice())
        && inbox.octets_at(0) == Some(b"hello".as_slice())
}

/// The same of an inbox whose tenth call fails.
fn new_inbox_keeps(alloc: Global) -> bool {
    match MemInbox::new(alloc, &[10]) {
        Ok(mut inbox) => keeps_committed(&mut inbox),
        Err(_) => false,
    }
}

#[test]
fn memory_inbox_stores_at_commit_alone(rt: HostRuntime) {
    assert!(rt; new_inbox_keeps(rt.alloc()));
}

#[test]
fn standard_streams_read_and_write(rt: HostRuntime) {
    let mut source = StdSource::new(b"hi".as_slice());
    assert!(rt; gives(&mut source, b"hi") == Ok(true));
    assert!(rt; gives(&mut source, b"") == Ok(true));
    let mut sink = StdSink::new(rt.stdout());
    assert!(rt; sink.put(b"written to the standard output\n").is_ok());
}

/// A folder for the files of this run.
fn test_folder(rt: &HostRuntime) -> Result<String, Fail> {
    let temporary = std::env::temp_dir(rt)?;
    let process = std::process::id(rt.process());
    Ok(format!(in rt.alloc(); "{}/bt_base_{process}", temporary.as_str())?)
}

/// Whether an object is stored in a new inbox over the folder.
fn stores_file(rt: &HostRuntime, folder: &str, name: &[u16], octets: &[u8]) -> bool {
    let mut inbox = FileInbox::new(rt, rt.alloc(), folder);
    store(&mut inbox, name, octets).is_ok()
}

/// What stands in a file of a folder where it is asked, and in one that is no plain name.
const IN_FILES: [(&str, u32, &[u8]); 3] = [
    ("0001-a_b", 3, b"lo"),
    ("0001-a_b", 4, b""),
    ("./0001-a_b", 0, b""),
];

/// Whether a shelf has the file that is stored last.
fn has_file(shelf: &mut impl Shelf) -> bool {
    shelf.size("0001-a_b") == Ok(5) && answers(shelf, rows(&IN_FILES))
}

/// Whether what is stored in a folder is read there.
fn files_tell(rt: &HostRuntime, folder: &str) -> bool {
    let mut shelf = FileShelf::new(rt, rt.alloc(), folder);
    has_file(&mut shelf)
}

/// Whether files are stored in a folder, the later one in the place of the other, and read there.
fn stores_and_reads(rt: &HostRuntime, folder: &str) -> bool {
    stores_file(rt, folder, &[97, 0xF6, 98], b"old")
        && stores_file(rt, folder, &[97, 47, 98], b"hello")
        && files_tell(rt, folder)
}

#[test]
fn files_are_stored_and_read(rt: HostRuntime) -> Result<(), Fail> {
    let folder = test_folder(&rt)?;
    let is_right = stores_and_reads(&rt, folder.as_str());
    std::fs::remove_dir_all(&rt, folder.as_str())?;
    assert!(rt; is_right);
    Ok(())
}
