//! The errors of the program.

ghost use Rattle.std.specs.Prelude.{◌≡◌};
ghost use Rattle.rapidsum.specs.declared.problem.Problem.TheVariants.{Memory};

use std::alloc::{AllocError, AllocFailed, Global};
use std::io::ErrorKind;
use std::{fmt, io};

/// The reason for a failed call.
#[derive(Drop)]
pub enum Problem {
    /// An allocation failed.
    Memory,
    /// An argument is too long.
    Long,
    /// A file could not be opened or read.
    Read(io::Error),
    /// A line could not be written.
    Write(io::Error),
}

/// Returns the text of a system's error, without its number.
///
/// # Errors
///
/// If an allocation fails.
pub fn reason_of(alloc: Global, error: &io::Error) -> Result<String, Problem> {
    let text = format!(in alloc; "{error}")?;
    let Some((reason, _)) = text.split_once(" (os error ") else {
        return Ok(text);
    };
    Ok(format!(in alloc; "{reason}")?)
}

impl Problem {
    /// Returns the text of the problem.
    ///
    /// # Errors
    ///
    /// If an allocation fails.
    pub fn text(&self, alloc: Global) -> Result<String, Problem> {
        Ok(match self {
            Problem::Read(error) => reason_of(alloc, error)?,
            Problem::Write(error) => {
                let reason = reason_of(alloc, error)?;
                format!(in alloc; "write error: {reason}")?
            }
            _ => format!(in alloc; "{self}")?,
        })
    }

    /// Returns whether a line was written to a pipe that its reader has closed.
    pub fn is_broken_pipe(&self) -> bool {
        matches!(self, Problem::Write(error) if error.kind() == ErrorKind::BrokenPipe)
    }
}

impl From<AllocError> for Problem {
    ghost from_gives = { λ error problem. problem ≡ Memory };

    fn from(_error: AllocError) -> Problem {
        Problem::Memory
    }
}

impl<T: Drop> From<AllocFailed<T>> for Problem {
    ghost from_gives = { λ failed problem. problem ≡ Memory };

    fn from(_error: AllocFailed<T>) -> Problem {
        Problem::Memory
    }
}

impl fmt::Display for Problem {
    fn fmt<W: fmt::Write>(&self, f: &mut fmt::Formatter<W>) -> fmt::Result {
        match self {
            Problem::Memory => write!(f, "out of memory"),
            Problem::Long => write!(f, "an argument is too long"),
            Problem::Read(error) => write!(f, "{error}"),
            Problem::Write(error) => write!(f, "write error: {error}"),
        }
    }
}
