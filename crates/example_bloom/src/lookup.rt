//! Inserts the lines of lists and looks up the lines of the input.

ghost use Rattle.std.specs.Prelude.{IfOk};
ghost use Rattle.example_bloom.specs.Filter.{HasWords, KeepsAll};

use crate::filter::Filter;
use crate::shape::{Shape, ShapeError};
use std::alloc::{AllocError, Global};
use std::io::{self, BufRead, ErrorKind, Write};

/// An error that stops the program between its files.
#[derive(Debug, thiserror::Error, Drop)]
pub enum LookupError {
    /// There is no filter for this many keys at this rate.
    #[error("{0}")]
    Shape(#[from] ShapeError),
    /// An allocation failed.
    #[error("out of memory")]
    Memory(#[from] AllocError),
    /// A read failed.
    #[error("could not read standard input: {0}")]
    Read(io::Error),
    /// A write failed, or accepted no byte.
    #[error("could not write standard output: {0}")]
    Write(io::Error),
}

// A newline ends a line, and the last line may lack it.
fn count_lines(list: &[u8]) -> u64 {
    let newlines = list.iter().filter(|byte| **byte == b'\n').count() as u64;
    match list.last() {
        None | Some(b'\n') => newlines,
        Some(_) => newlines.saturating_add(1),
    }
}

// Inserts each line of a list.
fn insert_lines(filter: &mut Filter, list: &[u8])
    requires { HasWords filter.old }
    ensures { KeepsAll filter.old filter.new }
{
    if list.is_empty() {
        return;
    }
    let lines = list.strip_suffix(b"\n").unwrap_or(list);
    for line in lines.split(|byte| *byte == b'\n') {
        filter.insert(line);
    }
}

/// Returns the filter of all lines of the lists. Each list fills a separate filter, as if the lists
/// came from different places, and these are united.
pub fn filter_of(alloc: Global, lists: &[Vec<u8>], one_in: u32) -> Result<Filter, LookupError>
    ensures { IfOk result HasWords }
{
    let mut keys = 0u64;
    for list in lists {
        keys = keys.saturating_add(count_lines(list.as_slice()));
    }
    let mut whole = Filter::new(alloc, Shape::new(keys, one_in)?)?;
    for list in lists {
        let mut part = whole.empty_alike(alloc)?;
        insert_lines(&mut part, list.as_slice());
        whole.unite(&part);
    }
    Ok(whole)
}

fn read_error(error: io::Error) -> LookupError {
    match error.kind() {
        ErrorKind::OutOfMemory => LookupError::Memory(AllocError),
        _ => LookupError::Read(error),
    }
}

fn write_answer<W: Write>(out: &mut W, is_found: bool, key: &[u8]) -> io::Result<()> {
    out.write_all(if is_found { b"maybe " } else { b"no " })?;
    out.write_all(key)?;
    out.write_all(b"\n")
}

/// Writes a line for each line of the input: `maybe` or `no`, and the line.
pub fn answer<R: BufRead, W: Write>(
    alloc: Global,
    filter: &Filter,
    input: &mut R,
    out: &mut W,
) -> Result<(), LookupError>
    requires { HasWords filter.now }
{
    let mut line = Vec::new(alloc);
    for _ in 0..u64::MAX {
        line.clear();
        if input.read_until(b'\n', &mut line).map_err(read_error)? == 0 {
            break;
        }
        let key = line.as_slice();
        let key = key.strip_suffix(b"\n").unwrap_or(key);
        write_answer(out, filter.contains(key), key).map_err(LookupError::Write)?;
    }
    out.flush().map_err(LookupError::Write)
}
