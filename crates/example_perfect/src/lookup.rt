//! Splits a list into keys and looks up the lines of the input.

ghost use Rattle.example_perfect.specs.Table.{IsPerfect};

use crate::table::Table;
use std::alloc::{AllocError, Global};
use std::io::{self, BufRead, ErrorKind, Write};

/// An error that stops a lookup.
#[derive(Debug, thiserror::Error, Drop)]
pub enum LookupError {
    /// An allocation failed.
    #[error("out of memory")]
    Memory,
    /// A read failed.
    #[error("could not read standard input: {0}")]
    Read(io::Error),
    /// A write failed, or accepted no byte.
    #[error("could not write standard output: {0}")]
    Write(io::Error),
}

/// Returns the lines of a list. A newline ends a line, and the last line may lack it.
pub fn lines(alloc: Global, list: &[u8]) -> Result<Vec<&[u8]>, AllocError> {
    let mut lines = Vec::new(alloc);
    if list.is_empty() {
        return Ok(lines);
    }
    let list = list.strip_suffix(b"\n").unwrap_or(list);
    for line in list.split(|byte| *byte == b'\n') {
        lines.push(line)?;
    }
    Ok(lines)
}

fn read_error(error: io::Error) -> LookupError {
    match error.kind() {
        ErrorKind::OutOfMemory => LookupError::Memory,
        _ => LookupError::Read(error),
    }
}

// An index counts from 0, and a line's number from 1.
fn write_answer<W: Write>(out: &mut W, index: Option<usize>, line: &[u8]) -> io::Result<()> {
    match index {
        Some(index) => write!(out, "{} ", (index as u64).saturating_add(1))?,
        None => out.write_all(b"absent ")?,
    }
    out.write_all(line)?;
    out.write_all(b"\n")
}

/// Writes a line for each line of the input: its number in the list, or `absent`, and the line.
pub fn answer<R: BufRead, W: Write>(
    alloc: Global,
    table: &Table<'_>,
    input: &mut R,
    out: &mut W,
) -> Result<(), LookupError>
    requires { IsPerfect table.now }
{
    let mut line = Vec::new(alloc);
    for _ in 0..u64::MAX {
        line.clear();
        if input.read_until(b'\n', &mut line).map_err(read_error)? == 0 {
            break;
        }
        let key = line.as_slice();
        let key = key.strip_suffix(b"\n").unwrap_or(key);
        write_answer(out, table.find(key), key).map_err(LookupError::Write)?;
    }
    out.flush().map_err(LookupError::Write)
}
