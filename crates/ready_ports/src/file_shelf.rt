//! A shelf over a folder of files. It tells no content.

ghost use Rattle.std.specs.Prelude.{◌≡◌, None};

use crate::fault_counts::FaultCounts;
use bt_base::{PortFault, Shelf};
use std::alloc::Global;
use std::fs::{self, OpenFile};
use std::io::{Read, Seek, SeekFrom};
use std::rt::Files;

/// The files of a folder, by their names. A name with `/` is not there, nor is a file of more than
/// 4,294,967,295 octets.
#[derive(Drop)]
pub struct FileShelf<'a, R> {
    files: &'a R,
    alloc: Global,
    folder: &'a str,
    counts: FaultCounts,
}

impl<'a, R: Files> FileShelf<'a, R> {
    /// The files of `folder`, which are opened anew at each call.
    pub fn new(files: &'a R, alloc: Global, folder: &'a str) -> FileShelf<'a, R>
        ensures faults { result.counts.faults ≡ 0 }
        ensures shortages { result.counts.shortages ≡ 0 }
    {
        FileShelf {
            files,
            alloc,
            folder,
            counts: FaultCounts::new(),
        }
    }

    fn open(&self, name: &str) -> Result<R::File, PortFault> {
        if name.contains('/') {
            return Err(PortFault::Failed);
        }
        let Ok(path) = format!(in self.alloc; "{}/{}", self.folder, name) else {
            return Err(PortFault::NoMemory);
        };
        match fs::open(self.files, path.as_str()) {
            Ok(file) => Ok(file),
            Err(_) => Err(PortFault::Failed),
        }
    }

    fn size_of(&self, name: &str) -> Result<u32, PortFault> {
        let file = self.open(name)?;
        let Ok(metadata) = file.metadata() else {
            return Err(PortFault::Failed);
        };
        match u32::try_from(metadata.len()) {
            Ok(size) if metadata.is_file() => Ok(size),
            _ => Err(PortFault::Failed),
        }
    }

    fn part_of(&self, name: &str, at: u32, into: &mut [u8]) -> Result<(), PortFault> {
        let mut file = self.open(name)?;
        if file.seek(SeekFrom::Start(u64::from(at))).is_err() || file.read_exact(into).is_err() {
            return Err(PortFault::Failed);
        }
        Ok(())
    }
}

impl<R: Files> Shelf for FileShelf<'_, R> {
    ghost content = { λ _. None };

    ghost faults = { λ shelf. shelf.counts.faults };

    ghost shortages = { λ shelf. shelf.counts.shortages };

    ghost absences = { λ _. 0 };

    fn size(&mut self, name: &str) -> Result<u32, PortFault> {
        match self.size_of(name) {
            Ok(size) => Ok(size),
            Err(fault) => self.counts.fail(fault),
        }
    }

    fn fill(&mut self, name: &str, at: u32, into: &mut [u8]) -> Result<(), PortFault> {
        match self.part_of(name, at, into) {
            Ok(()) => Ok(()),
            Err(fault) => self.counts.fail(fault),
        }
    }
}
