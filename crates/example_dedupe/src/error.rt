//! The errors that stop the program.

use std::alloc::AllocError;
use std::io;
use std::io::ErrorKind;
use std::process::ExitCode;

/// An error that stops the program. A file that cannot be read does not stop it.
#[derive(Debug, Drop, thiserror::Error)]
pub enum Error {
    /// `env::args` returns no argument at all if one of them is not UTF-8.
    #[error("an argument is not UTF-8")]
    Args,
    #[error("missing FILE argument")]
    NoName,
    #[error("unknown option '{0}'")]
    Option(String),
    #[error("cannot get random bytes: {0}")]
    Random(io::Error),
    #[error("could not write standard output: {0}")]
    Write(io::Error),
    #[error("out of memory")]
    Memory(#[from(alloc)] AllocError),
}

impl Error {
    /// Returns the exit status: 2 for wrong arguments, and 1 for a run that failed.
    pub fn status(&self) -> ExitCode {
        match self {
            Error::Args | Error::NoName | Error::Option(_) => ExitCode::from(2),
            _ => ExitCode::from(1),
        }
    }

    /// Returns the error of a failed write or allocation.
    pub fn of_write(error: io::Error) -> Error {
        if error.kind() == ErrorKind::OutOfMemory {
            return Error::Memory(AllocError);
        }
        Error::Write(error)
    }
}
