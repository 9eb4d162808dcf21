//! The files below the names in the arguments.

ghost use Rattle.std.specs.Prelude.{None};

use crate::error::Error;
use crate::store::Store;
use rapidhash::RapidHashSet;
use std::alloc::AllocError;
use std::fs::{File, Metadata};
use std::io::ErrorKind;
use std::os::unix::fs::MetadataExt;
use std::{fs, io};

/// A file: its name, and its size when it was found.
#[derive(Drop, PartialEq, Eq, PartialOrd, Ord)]
pub struct Named {
    pub name: String,
    pub size: u64,
}

/// Files of the operating system, by their names.
#[derive(Drop)]
pub struct Names<'a> {
    pub rt: &'a HostRuntime,
    pub files: &'a [Named],
}

impl Store for Names<'_> {
    type Reader = File;

    ghost bytes = { λ store file. None };

    fn size(&self, file: usize) -> u64 {
        match self.files.get(file) {
            Some(named) => named.size,
            None => 0,
        }
    }

    fn open(&self, file: usize) -> io::Result<File> {
        match self.files.get(file) {
            Some(named) => File::open(self.rt, named.name.as_str()),
            None => Err(io::Error::from(ErrorKind::NotFound)),
        }
    }
}

/// A search for files: the files found, and the names still to be visited.
#[derive(Drop)]
pub struct Search<'s> {
    /// The files that were found.
    pub files: Vec<Named>,
    /// The number of names that could not be read. Each was reported on standard error.
    pub failures: u64,
    folders: Vec<String>,
    seen: RapidHashSet<'s, (u64, u64)>,
}

/// Reports a failure in one line on standard error. If that cannot be written, the status still
/// reports it.
pub fn tell(rt: &HostRuntime, name: &str, error: &io::Error) {
    let _ = eprintln!(rt; "example_dedupe: {name}: {error}");
}

impl<'s> Search<'s> {
    /// Returns a search that has found nothing.
    pub fn new(rt: &HostRuntime, seen: RapidHashSet<'s, (u64, u64)>) -> Search<'s> {
        Search {
            files: Vec::new(rt.alloc()),
            failures: 0,
            folders: Vec::new(rt.alloc()),
            seen,
        }
    }

    // A failure to read a name does not stop the search, but a failed allocation does.
    fn fail(&mut self, rt: &HostRuntime, name: &str, error: io::Error) -> Result<(), Error> {
        if error.kind() == ErrorKind::OutOfMemory {
            return Err(Error::Memory(AllocError));
        }
        tell(rt, name, &error);
        self.failures = self.failures.saturating_add(1);
        Ok(())
    }

    // A file is used once, however many names it has. Everything that is neither a file nor a
    // directory, such as a symbolic link below a directory, is left out.
    fn visit(&mut self, name: String, metadata: Metadata) -> Result<(), Error> {
        if metadata.is_dir() {
            self.folders.push(name)?;
        } else if metadata.is_file() && self.seen.insert((metadata.dev(), metadata.ino()))? {
            let size = metadata.len();
            self.files.push(Named { name, size })?;
        }
        Ok(())
    }

    // The names in a directory.
    fn visit_folder(&mut self, rt: &HostRuntime, folder: &str) -> Result<(), Error> {
        let entries = match fs::read_dir(rt, folder) {
            Ok(entries) => entries,
            Err(error) => return self.fail(rt, folder, error),
        };
        for entry in entries {
            let entry = match entry {
                Ok(entry) => entry,
                Err(error) if error.kind() == ErrorKind::InvalidFilename => {
                    let unnamed = io::Error::other("contains a file name that is not valid UTF-8");
                    self.fail(rt, folder, unnamed)?;
                    continue;
                }
                Err(error) => {
                    self.fail(rt, folder, error)?;
                    continue;
                }
            };
            let name = String::from_str(rt.alloc(), entry.path().to_string_lossy())?;
            match entry.metadata() {
                Ok(metadata) => self.visit(name, metadata)?,
                Err(error) => self.fail(rt, name.as_str(), error)?,
            }
        }
        Ok(())
    }

    /// Finds the files of a name, and of all directories below it. A name that is a symbolic link
    /// is followed; one below a directory is not.
    pub fn find(&mut self, rt: &HostRuntime, name: String) -> Result<(), Error> {
        match fs::metadata(rt, name.as_str()) {
            Ok(metadata) => self.visit(name, metadata)?,
            Err(error) => self.fail(rt, name.as_str(), error)?,
        }
        for _ in 0..u64::MAX {
            let Some(folder) = self.folders.pop() else {
                break;
            };
            self.visit_folder(rt, folder.as_str())?;
        }
        Ok(())
    }
}
