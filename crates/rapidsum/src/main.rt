//! Prints the hash of each file as a line and checks such lines, as sha256sum does with its own.
#![tactic(auto)]

mod algorithm;
mod arguments;
mod check;
mod console;
mod disk;
mod entry;
mod line;
mod list;
mod names;
mod options;
mod parse;
mod parts;
mod problem;
mod quote;
mod reading;
mod runs;
mod seed;
mod sources;
mod store;
mod sum;
mod tag;
mod usage;

use arguments::arguments_of;
use options::rows;
use parse::parse;
use problem::Problem;
use std::process::ExitCode;

/// The status that ends xargs, as the signal SIGPIPE would.
const BROKEN_PIPE: u8 = 255;

// Carries out the request in the arguments. Returns whether all files could be read and all checks
// passed.
fn run(rt: &HostRuntime) -> Result<bool, Problem> {
    let words = arguments_of(rt, rt.alloc())?;
    match parse(rt.alloc(), rows(), words.as_slice())? {
        Ok(call) => runs::run_files(rt, &call),
        Err(stop) => usage::report(rt, stop),
    }
}

// Prints a problem. If standard error cannot be written, the status still reports it.
fn tell(rt: &HostRuntime, problem: &Problem) {
    if let Ok(text) = problem.text(rt.alloc()) {
        let _ = eprintln!(rt; "rapidsum: {text}");
    } else {
        let _ = eprintln!(rt; "rapidsum: {problem}");
    }
}

fn main(rt: HostRuntime) -> ExitCode {
    match run(&rt) {
        Ok(true) => ExitCode::SUCCESS,
        Ok(false) => ExitCode::FAILURE,
        Err(problem) if problem.is_broken_pipe() => ExitCode::from(BROKEN_PIPE),
        Err(problem) => {
            tell(&rt, &problem);
            ExitCode::FAILURE
        }
    }
}
