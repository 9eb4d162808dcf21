//! Spreads the lines of standard input over shards or buckets, or prints the lines that move when
//! their number changes.
//!
//! The numbers of a line, and what is proved about lines that move, are in `moves`. An error is one
//! line on standard error, with status 1, or 2 for a wrong command line.
#![tactic(auto)]

pub mod moves;
pub mod request;
pub mod spread;

use anyhow::{Context, Result};
use request::{USAGE, parse_words};
use std::env;
use std::io::{BufReader, BufWriter};
use std::process::ExitCode;

fn run(rt: &HostRuntime) -> Result<ExitCode> {
    let words = env::args(rt).context("could not read the arguments as UTF-8")?;
    let words: Vec<String> = words.skip(1).collect(rt.alloc())?;
    let request = match parse_words(words.as_slice()) {
        Ok(request) => request,
        Err(error) => {
            eprintln!(rt; "example_shards: {error}\n{USAGE}")?;
            return Ok(ExitCode::from(2));
        }
    };
    let mut input = BufReader::new(rt.alloc(), rt.stdin())?;
    let mut out = BufWriter::new(rt.alloc(), rt.stdout())?;
    spread::answer(rt.alloc(), &request, &mut input, &mut out)?;
    Ok(ExitCode::SUCCESS)
}

fn main(rt: HostRuntime) -> ExitCode {
    match run(&rt) {
        Ok(status) => status,
        Err(error) => {
            // If standard error cannot be written, the status still reports the error.
            let _ = eprintln!(rt; "example_shards: {error:#}");
            ExitCode::FAILURE
        }
    }
}
