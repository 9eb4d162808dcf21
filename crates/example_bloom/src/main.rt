//! Reports for each line of standard input whether it may be a line of a list, with a bloom filter:
//! it finds every inserted line, and few others.
//!
//! The filter, and what is proved about it, are in `filter`. An error is one line on standard
//! error, with status 1, or 2 for a wrong command line.
#![tactic(auto)]

pub mod filter;
pub mod lookup;
pub mod options;
pub mod shape;

use anyhow::{Context, Result};
use options::{Request, USAGE, parse_words};
use std::io::{self, BufReader, BufWriter};
use std::process::ExitCode;
use std::{env, fs};

fn look_up(rt: &HostRuntime, one_in: u32, names: &[String]) -> Result<()> {
    let mut lists = Vec::new(rt.alloc());
    for name in names {
        let list = fs::read(rt, name.as_str()).context(format_args!("could not read {name}"))?;
        lists.push(list)?;
    }
    let filter = lookup::filter_of(rt.alloc(), lists.as_slice(), one_in)?;
    let mut input = BufReader::new(rt.alloc(), rt.stdin())?;
    let mut out = BufWriter::new(rt.alloc(), rt.stdout())?;
    lookup::answer(rt.alloc(), &filter, &mut input, &mut out)?;
    Ok(())
}

fn run(rt: &HostRuntime) -> Result<ExitCode> {
    let words = env::args(rt).context("could not read the arguments as UTF-8")?;
    let words: Vec<String> = words.skip(1).collect(rt.alloc())?;
    match parse_words(words.as_slice()) {
        Ok(Request::Help) => println!(rt; "{USAGE}").context("could not write standard output")?,
        Ok(Request::LookUp { one_in, lists }) => look_up(rt, one_in, lists)?,
        Err(error) => {
            eprintln!(rt; "example_bloom: {error}\n{USAGE}")?;
            return Ok(ExitCode::from(2));
        }
    }
    Ok(ExitCode::SUCCESS)
}

fn main(rt: HostRuntime) -> ExitCode {
    match run(&rt) {
        Ok(status) => status,
        Err(error) => {
            // If standard error cannot be written, the status still reports the error.
            let _ = eprintln!(rt; "example_bloom: {error:#}");
            ExitCode::FAILURE
        }
    }
}
