//! Replays files of cases, whose values come from elsewhere (see data/README.md), with the library.
//! It prints a line of counts for each file named in its arguments, the cases that differ on
//! standard error, and ends with status 1 if one does. Without arguments it prints how it is
//! called, and ends with status 2.
#![tactic(auto)]

mod bodies;
mod cases;
mod draws;
mod items;
mod keys;
mod readers;
mod rules;
mod shards;
mod streams;

use anyhow::{Context, Result, bail};
use std::process::ExitCode;
use std::rt::{Env, Files};
use std::{env, fs};

/// The usage.
const USAGE: &str = "usage: test_replay FILE..

Compares the library with the values of files of cases.";

fn main(rt: HostRuntime) -> Result<ExitCode> {
    let names: Vec<String> = env::args(&rt)?.skip(1).collect(rt.alloc())?;
    if names.is_empty() {
        eprintln!(rt; "{USAGE}")?;
        return Ok(ExitCode::from(2));
    }
    let mut differing = 0u64;
    for name in &names {
        differing = differing.saturating_add(replay(&rt, name.as_str())?);
    }
    if differing > 0 {
        bail!("{differing} cases differ");
    }
    Ok(ExitCode::SUCCESS)
}

/// Replays one file. Returns the number of cases that differ.
fn replay(rt: &(impl Files + Print + Eprint + AllocGlobal), name: &str) -> Result<u64> {
    let text = fs::read_to_string(rt, name).context(format_args!("reading {name}"))?;
    let mut lines = text.lines().filter(|line| !line.starts_with("#"));
    if lines.next() != Some(cases::COLUMNS) {
        bail!("{name} has other columns");
    }
    let (mut all, mut agreed) = (0u64, 0u64);
    for line in lines {
        let agrees = cases::replay(rt.alloc(), line).context(format_args!("{name}: {line}"))?;
        if !agrees {
            rt.eprintln(format_args!("{name}: {line}"))?;
        }
        all = all.saturating_add(1);
        agreed = agreed.saturating_add(u64::from(agrees));
    }
    println!(rt; "{name}: {agreed} of {all} cases")?;
    Ok(all.saturating_sub(agreed))
}
