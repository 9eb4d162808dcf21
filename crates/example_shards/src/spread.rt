//! Reads lines and prints their numbers.

use crate::moves::{Move, bucket_move, shard_move};
use crate::request::{Request, Way};
use rapidhash::v3::rapidhash_v3;
use std::alloc::{AllocError, Global};
use std::io::{self, BufRead, ErrorKind, Write};

/// An error that stops the program between its lines.
#[derive(Debug, thiserror::Error, Drop)]
pub enum SpreadError {
    /// An allocation failed.
    #[error("out of memory")]
    Memory(#[from] AllocError),
    /// A read failed.
    #[error("could not read standard input: {0}")]
    Read(io::Error),
    /// A write failed, or accepted no byte.
    #[error("could not write standard output: {0}")]
    Write(io::Error),
}

fn read_error(error: io::Error) -> SpreadError {
    match error.kind() {
        ErrorKind::OutOfMemory => SpreadError::Memory(AllocError),
        _ => SpreadError::Read(error),
    }
}

// Returns the numbers of a line for a request.
fn moves_of(request: &Request, line: &[u8]) -> Move {
    let hash = rapidhash_v3(line);
    let count = request.count.get();
    let new = request.new.unwrap_or(request.count).get();
    match request.way {
        Way::Shard => shard_move(hash, count, new),
        Way::Bucket => bucket_move(hash, count, new),
    }
}

// Writes the answer for a line. A line that stays has none, if the request has a new count.
fn write_answer<W: Write>(out: &mut W, request: &Request, line: &[u8]) -> io::Result<()> {
    let Move { from, to } = moves_of(request, line);
    match request.new {
        None => write!(out, "{from}\t")?,
        Some(_) if from != to => write!(out, "{from}\t{to}\t")?,
        Some(_) => return Ok(()),
    }
    out.write_all(line)?;
    out.write_all(b"\n")
}

/// Writes the answer for each line of the input.
pub fn answer<R: BufRead, W: Write>(
    alloc: Global,
    request: &Request,
    input: &mut R,
    out: &mut W,
) -> Result<(), SpreadError> {
    let mut line = Vec::new(alloc);
    for _ in 0..u64::MAX {
        line.clear();
        if input.read_until(b'\n', &mut line).map_err(read_error)? == 0 {
            break;
        }
        let key = line.as_slice();
        let key = key.strip_suffix(b"\n").unwrap_or(key);
        write_answer(out, request, key).map_err(SpreadError::Write)?;
    }
    out.flush().map_err(SpreadError::Write)
}
