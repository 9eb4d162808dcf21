//! Output to standard output and standard error.

use crate::check::{Checked, Report, Verdict};
use crate::list::List;
use crate::names::{needs_escape, push_escaped};
use crate::options::{Options, QUIET, STATUS, WARN};
use crate::problem::{Problem, reason_of};
use crate::quote::push_name;
use std::alloc::Global;
use std::io::{IsTerminal, Write};
use std::{fs, io};

/// The most bytes of lines in a write to a regular file.
const FILE_BLOCK: usize = 65536;

/// The same elsewhere. A system does not mix such a write to a pipe with those of other programs.
const PIPE_BLOCK: usize = 4096;

const STDIN_TWICE: &[u8] =
    b"rapidsum: when reading file names from stdin, no file name of '-' allowed\n";

/// Standard output, standard error, and the options that select the output.
#[derive(Drop)]
pub struct Console<'a> {
    /// The system.
    pub rt: &'a HostRuntime,
    /// The options of a check.
    pub options: Options<'a>,
    /// The line that is not ended yet.
    pub line: Vec<u8>,
    lines: Vec<u8>,
    block: usize,
    /// Why a message could not be written: the call goes on, but fails at its end.
    pub untold: Option<Problem>,
}

// Returns the most bytes of lines in a write, or 0 if each line is written at once.
fn block_of(rt: &HostRuntime) -> usize {
    if rt.stdout().is_terminal() {
        return 0;
    }
    match fs::metadata(rt, "/dev/stdout") {
        Ok(metadata) if metadata.is_file() => FILE_BLOCK,
        _ => PIPE_BLOCK,
    }
}

/// Returns a name as in a line, and the texts around it.
pub fn with_name(alloc: Global, start: &str, name: &[u8], end: &str) -> Result<Vec<u8>, Problem> {
    let mut text = Vec::new(alloc);
    text.extend_from_slice(start.as_bytes())?;
    if needs_escape(name) {
        text.push(b'\\')?;
    }
    push_escaped(&mut text, name)?;
    text.extend_from_slice(end.as_bytes())?;
    Ok(text)
}

impl<'a> Console<'a> {
    /// Returns the standard streams without a line.
    pub fn new(rt: &'a HostRuntime, options: Options<'a>) -> Self {
        Console {
            rt,
            options,
            line: Vec::new(rt.alloc()),
            lines: Vec::new(rt.alloc()),
            block: block_of(rt),
            untold: None,
        }
    }

    /// Writes the lines so far.
    pub fn flush(&mut self) -> Result<(), Problem> {
        let written = self.rt.stdout().write_all(self.lines.as_slice());
        self.lines.clear();
        written.map_err(Problem::Write)
    }

    /// Adds the line to those that are written together. If it made them longer than a block, they
    /// are written before.
    pub fn end_line(&mut self) -> Result<(), Problem> {
        if self.lines.len().saturating_add(self.line.len()) > self.block {
            self.flush()?;
        }
        self.lines.extend_from_slice(self.line.as_slice())?;
        self.line.clear();
        if self.lines.len() >= self.block {
            self.flush()?;
        }
        Ok(())
    }

    // Writes a text to standard error, after the lines so far.
    fn say(&mut self, text: &[u8]) -> Result<(), Problem> {
        self.flush()?;
        if let Err(error) = self.rt.stderr().write_all(text) {
            self.untold = Some(Problem::Write(error));
        }
        Ok(())
    }

    /// Reports on standard error why a file or a list is refused.
    pub fn complain(&mut self, name: &[u8], why: &str) -> Result<(), Problem> {
        self.complain_by(name, ": ", why)
    }

    // Does the same with this text between the name and the reason.
    fn complain_by(&mut self, name: &[u8], between: &str, why: &str) -> Result<(), Problem> {
        let mut text = Vec::new(self.rt.alloc());
        text.extend_from_slice(b"rapidsum: ")?;
        push_name(&mut text, name)?;
        text.extend_from_slice(between.as_bytes())?;
        text.extend_from_slice(why.as_bytes())?;
        text.push(b'\n')?;
        self.say(text.as_slice())
    }

    /// Returns whether a name in a list can name a file, and reports it otherwise.
    pub fn accepts(&mut self, list: &[u8], number: u64, name: &[u8]) -> Result<bool, Problem> {
        let alloc = self.rt.alloc();
        match (list, name) {
            (_, []) => {
                let why = format!(in alloc; "{number}: invalid zero-length file name")?;
                self.complain_by(list, ":", why.as_str())?;
            }
            ([b'-'], [b'-']) => self.say(STDIN_TWICE)?,
            _ => return Ok(true),
        }
        Ok(false)
    }

    /// Reports on standard error why a file could not be opened or read.
    pub fn complain_of(&mut self, name: &[u8], error: io::Error) -> Result<(), Problem> {
        let why = reason_of(self.rt.alloc(), &error)?;
        self.complain(name, why.as_str())
    }

    // Reports a malformed line of a list.
    fn warn_of_line(&mut self, name: &[u8], number: u64) -> Result<(), Problem> {
        let why = format!(in self.rt.alloc(); "{number}: improperly formatted checksum line")?;
        self.complain(name, why.as_str())
    }

    /// Reports each malformed line of a list, if the option `--warn` is set.
    pub fn warn_of_lines(&mut self, name: &[u8], list: &List) -> Result<(), Problem> {
        if !self.options.has(WARN) {
            return Ok(());
        }
        for number in &list.malformed {
            self.warn_of_line(name, *number)?;
        }
        Ok(())
    }

    // Prints a warning with the number of wrong lines or files, if there are any.
    fn warn(&mut self, count: usize, one: &str, several: &str) -> Result<(), Problem> {
        if count == 0 || self.options.has(STATUS) {
            return Ok(());
        }
        let what = if count == 1 { one } else { several };
        let text = format!(in self.rt.alloc(); "rapidsum: WARNING: {count} {what}\n")?;
        self.say(text.as_bytes())
    }

    /// Prints the warnings at the end of a list, unless the option `--status` is set.
    pub fn warn_of_verdicts(
        &mut self,
        name: &[u8],
        list: &List,
        checked: &Checked<Global>,
    ) -> Result<(), Problem> {
        self.warn(
            list.malformed.len(),
            "line is improperly formatted",
            "lines are improperly formatted",
        )?;
        self.warn(
            checked.count(Verdict::Unreadable),
            "listed file could not be read",
            "listed files could not be read",
        )?;
        let different = checked.count(Verdict::Different);
        self.warn(
            different,
            "computed checksum did NOT match",
            "computed checksums did NOT match",
        )?;
        if checked.count(Verdict::Same) > 0 || self.options.has(STATUS) {
            return Ok(());
        }
        if different > 1 && !list.names_a_version() {
            self.complain(
                name,
                "no file matched: the list may be for another version, seed or program",
            )?;
        }
        if checked.count(Verdict::Missing) > 0 {
            self.complain(name, "no file was verified")?;
        }
        Ok(())
    }
}

impl Report for Console<'_> {
    fn tell(
        &mut self,
        name: &[u8],
        verdict: Verdict,
        error: Option<io::Error>,
    ) -> Result<(), Problem> {
        if let Some(error) = error {
            self.complain_of(name, error)?;
        }
        let end = match verdict {
            Verdict::Same if self.options.has(QUIET) => return Ok(()),
            Verdict::Same => ": OK\n",
            Verdict::Different => ": FAILED\n",
            Verdict::Unreadable => ": FAILED open or read\n",
            Verdict::Missing => return Ok(()),
        };
        if self.options.has(STATUS) {
            return Ok(());
        }
        let text = with_name(self.rt.alloc(), "", name, end)?;
        self.line.extend_from_slice(text.as_slice())?;
        self.end_line()
    }
}
