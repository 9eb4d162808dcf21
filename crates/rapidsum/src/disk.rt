//! Files of the system, with a progress line if standard error is a terminal.

ghost use Rattle.std.specs.Prelude.{None};

use crate::store::Store;
use std::fs::File;
use std::io::{Error, ErrorKind, IsTerminal, Read, Result, Stdin, Write};
use std::str;

/// The number of bytes after which the progress line is written again.
const STEP: u64 = 1 << 27;

/// Files by their names; `-` is standard input.
#[derive(Drop)]
pub struct Disk<'a> {
    rt: &'a HostRuntime,
    shows_progress: bool,
}

impl<'a> Disk<'a> {
    /// Returns the files of the system, with progress lines if standard error is a terminal.
    pub fn new(rt: &'a HostRuntime) -> Self {
        Disk {
            rt,
            shows_progress: rt.stderr().is_terminal(),
        }
    }
}

impl<'a> Store for Disk<'a> {
    type Reader = OpenFile<'a>;

    ghost told = { λ disk name. None };

    fn open(&self, name: &[u8]) -> Result<OpenFile<'a>> {
        let Ok(path) = str::from_utf8(name) else {
            return Err(Error::new(ErrorKind::InvalidInput, "the name is not UTF-8"));
        };
        let input = if path == "-" {
            Input::Stdin(self.rt.stdin())
        } else {
            Input::File(File::open(self.rt, path)?)
        };
        Ok(OpenFile {
            input,
            rt: self.rt,
            shows_progress: self.shows_progress,
            read: 0,
            shown: 0,
        })
    }

    fn length(&self, reader: &OpenFile<'a>) -> Option<u64> {
        let Input::File(file) = &reader.input else {
            return None;
        };
        let metadata = file.metadata().ok()?;
        if metadata.is_file() {
            Some(metadata.len())
        } else {
            None
        }
    }
}

#[derive(Drop)]
enum Input {
    Stdin(Stdin),
    File(File),
}

/// A file that is read.
#[derive(Drop)]
pub struct OpenFile<'a> {
    input: Input,
    rt: &'a HostRuntime,
    shows_progress: bool,
    read: u64,
    shown: u64,
}

impl OpenFile<'_> {
    // Adds to the number of bytes, and sometimes shows it. If that fails, the run continues.
    fn count(&mut self, bytes: usize) {
        self.read = self.read.saturating_add(bytes as u64);
        if !self.shows_progress {
            return;
        }
        if bytes == 0 && self.shown > 0 {
            let _ = self.rt.stderr().write_all(b"\r\x1b[K");
        } else if self.read.saturating_sub(self.shown) >= STEP {
            self.shown = self.read;
            let _ = eprint!(self.rt; "\r{} MiB\x1b[K", self.read >> 20);
        }
    }
}

impl Read for OpenFile<'_> {
    fn read(&mut self, buf: &mut [u8]) -> Result<usize> {
        let count = match &mut self.input {
            Input::Stdin(stdin) => stdin.read(buf)?,
            Input::File(file) => file.read(buf)?,
        };
        self.count(count);
        Ok(count)
    }
}
