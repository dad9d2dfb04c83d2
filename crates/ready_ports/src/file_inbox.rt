//! An inbox over a folder of files. It tells no content.

ghost use Rattle.std.specs.Prelude.{◌≡◌, false, None, is_some};

use crate::fault_counts::FaultCounts;
use bt_base::{Inbox, PortFault};
use std::alloc::{AllocError, Global};
use std::fs;
use std::io::Write;
use std::rt::Files;

/// How many units of an object's name go into its file's name.
const UNITS_IN_FILE_NAME: usize = 100;

/// Stores each object in a file of its own. The pending object is the file `part` of the folder; a
/// commit renames it to `NNNN-NAME`, with the number of the commit in this run, from 0001 on, and
/// replaces a file that has this name already.
#[derive(Drop)]
pub struct FileInbox<'a, R: Files> {
    files: &'a R,
    alloc: Global,
    folder: &'a str,
    file: Option<R::File>,
    name: String,
    commits: u64,
    counts: FaultCounts,
}

/// A file's name for an object's name: each unit that is no ASCII letter, digit, `.`, `-` or `_`
/// becomes `_`.
fn file_name(alloc: Global, units: &[u16]) -> Result<String, AllocError> {
    let mut name = String::new(alloc);
    for unit in units.iter().take(UNITS_IN_FILE_NAME) {
        let letter = match u8::try_from(*unit) {
            Ok(b @ (b'a'..=b'z' | b'A'..=b'Z' | b'0'..=b'9' | b'.' | b'-' | b'_')) => char::from(b),
            _ => '_',
        };
        name.push(letter)?;
    }
    Ok(name)
}

impl<'a, R: Files> FileInbox<'a, R> {
    /// An inbox that stores in `folder`, which is made at the first `begin` where it is missing.
    pub fn new(files: &'a R, alloc: Global, folder: &'a str) -> FileInbox<'a, R>
        ensures idle { is_some result.file ≡ false }
        ensures faults { result.counts.faults ≡ 0 }
        ensures shortages { result.counts.shortages ≡ 0 }
    {
        FileInbox {
            files,
            alloc,
            folder,
            file: None,
            name: String::new(alloc),
            commits: 0,
            counts: FaultCounts::new(),
        }
    }

    fn part_path(&self) -> Result<String, PortFault> {
        format!(in self.alloc; "{}/part", self.folder).map_err(|_| PortFault::NoMemory)
    }

    /// Makes the folder where it is missing, and the file of the pending object.
    fn make_part(&self) -> Result<R::File, PortFault> {
        let path = self.part_path()?;
        if fs::metadata(self.files, self.folder).is_err()
            && fs::create_dir(self.files, self.folder).is_err()
        {
            return Err(PortFault::Failed);
        }
        fs::create(self.files, path.as_str()).map_err(|_| PortFault::Failed)
    }

    /// Gives the file of the pending object its own name.
    fn rename_part(&self) -> Result<(), PortFault> {
        let from = self.part_path()?;
        let number = self.commits.saturating_add(1);
        let to = format!(in self.alloc; "{}/{:04}-{}", self.folder, number, self.name).map_err(
            |_| PortFault::NoMemory,
        )?;
        fs::rename(self.files, from.as_str(), to.as_str()).map_err(|_| PortFault::Failed)
    }

    fn remove_part(&self) -> Result<(), PortFault> {
        let path = self.part_path()?;
        fs::remove_file(self.files, path.as_str()).map_err(|_| PortFault::Failed)
    }
}

impl<R: Files> Inbox for FileInbox<'_, R> {
    ghost content = { λ _. None };

    ghost is_pending = { λ inbox. is_some inbox.file };

    ghost faults = { λ inbox. inbox.counts.faults };

    ghost shortages = { λ inbox. inbox.counts.shortages };

    ghost told = { λ _. tt };

    fn begin(&mut self, name: &[u16]) -> Result<(), PortFault> {
        let Ok(name) = file_name(self.alloc, name) else {
            self.file = None;
            return self.counts.fail(PortFault::NoMemory);
        };
        match self.make_part() {
            Ok(file) => {
                self.name = name;
                self.file = Some(file);
                Ok(())
            }
            Err(fault) => {
                self.file = None;
                self.counts.fail(fault)
            }
        }
    }

    fn append(&mut self, piece: &[u8]) -> Result<(), PortFault> {
        let mut file = self.file.take().unwrap();
        if file.write_all(piece).is_err() {
            return self.counts.fail(PortFault::Failed);
        }
        self.file = Some(file);
        Ok(())
    }

    fn commit(&mut self) -> Result<(), PortFault> {
        self.file = None;
        match self.rename_part() {
            Ok(()) => {
                self.commits = self.commits.saturating_add(1);
                Ok(())
            }
            Err(fault) => self.counts.fail(fault),
        }
    }

    fn abort(&mut self) -> Result<(), PortFault> {
        if self.file.take().is_none() {
            return Ok(());
        }
        match self.remove_part() {
            Ok(()) => Ok(()),
            Err(fault) => self.counts.fail(fault),
        }
    }
}
