//! Finds lines in a list, by a perfect hash table: each line of the list has a place of its own, so
//! that one look-up finds the line's number, or that it is absent.
//!
//! The table, and what is proved about it, are in `table`. An error is one line on standard error,
//! with status 1, or 2 for a wrong command line.
#![tactic(auto)]

mod displace;
pub mod lookup;
pub mod table;

use anyhow::{Context, Error, Result, anyhow};
use std::io::{BufReader, BufWriter};
use std::process::ExitCode;
use std::{env, fs};
use table::{BuildError, Table};

/// The usage.
const USAGE: &str = "usage: example_perfect LIST

For each line of standard input, prints its line number in LIST ('NUMBER LINE')
or 'absent LINE'. LIST must not contain duplicates.";

// The error of a list with the numbers of its lines, which count from 1.
fn list_error(name: &str, error: BuildError) -> Error {
    match error {
        BuildError::Twice { first, second } => {
            let (first, second) = (first as u64 + 1, second as u64 + 1);
            anyhow!("lines {first} and {second} of {name} are the same")
        }
        error => anyhow!("cannot build a table from {name}: {error}"),
    }
}

fn look_up(rt: &HostRuntime, name: &str) -> Result<()> {
    let list = fs::read(rt, name).context(format_args!("could not read {name}"))?;
    let keys = lookup::lines(rt.alloc(), list.as_slice())?;
    let table = match Table::build(rt.alloc(), keys.as_slice()) {
        Ok(table) => table,
        Err(error) => return Err(list_error(name, error)),
    };
    let mut input = BufReader::new(rt.alloc(), rt.stdin())?;
    let mut out = BufWriter::new(rt.alloc(), rt.stdout())?;
    lookup::answer(rt.alloc(), &table, &mut input, &mut out)?;
    Ok(())
}

fn run(rt: &HostRuntime) -> Result<ExitCode> {
    let words = env::args(rt).context("could not read the arguments as UTF-8")?;
    let words: Vec<String> = words.skip(1).collect(rt.alloc())?;
    match words.as_slice() {
        [word] if word.as_str() == "--help" => {
            println!(rt; "{USAGE}").context("could not write standard output")?;
        }
        [name] => look_up(rt, name.as_str())?,
        _ => {
            eprintln!(rt; "example_perfect: expected exactly one LIST\n{USAGE}")?;
            return Ok(ExitCode::from(2));
        }
    }
    Ok(ExitCode::SUCCESS)
}

fn main(rt: HostRuntime) -> ExitCode {
    match run(&rt) {
        Ok(status) => status,
        Err(error) => {
            // If standard error cannot be written, the status still reports the error.
            let _ = eprintln!(rt; "example_perfect: {error:#}");
            ExitCode::FAILURE
        }
    }
}
