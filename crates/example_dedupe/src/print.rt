//! The printed groups.

use crate::error::Error;
use crate::names::{Named, tell};
use std::alloc::{AllocError, Global};
use std::io;
use std::io::Write;

// Each file after its leader, group by group.
fn in_order(
    alloc: Global,
    places: &[io::Result<usize>],
) -> Result<Vec<(usize, usize)>, AllocError> {
    let mut pairs = Vec::new(alloc);
    for (file, place) in places.iter().enumerate() {
        if let Ok(leader) = place {
            pairs.push((*leader, file))?;
        }
    }
    pairs.sort()?;
    Ok(pairs)
}

// The files of one group, and the empty line after it.
fn print_group<W: Write>(
    out: &mut W,
    files: &[Named],
    group: &[(usize, usize)],
) -> Result<(), Error> {
    for (_, file) in group {
        if let Some(named) = files.get(*file) {
            writeln!(out, "{}", named.name.as_str()).map_err(Error::of_write)?;
        }
    }
    writeln!(out, "").map_err(Error::of_write)
}

/// Prints each group of two or more files: one name per line, and an empty line after the group.
/// Reports on standard error each file that could not be read or compared. Returns their number.
pub fn print_groups<W: Write>(
    rt: &HostRuntime,
    out: &mut W,
    files: &[Named],
    places: &[io::Result<usize>],
) -> Result<u64, Error> {
    let pairs = in_order(rt.alloc(), places)?;
    for group in pairs
        .as_slice()
        .chunk_by(|first, second| first.0 == second.0)
    {
        if group.len() > 1 {
            print_group(out, files, group)?;
        }
    }
    out.flush().map_err(Error::of_write)?;
    let mut failures = 0u64;
    for (named, place) in files.iter().zip(places) {
        if let Err(error) = place {
            tell(rt, named.name.as_str(), error);
            failures = failures.saturating_add(1);
        }
    }
    Ok(failures)
}
