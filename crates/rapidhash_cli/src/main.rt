//! The program: it collects its arguments, carries out their plan, and reports an error in one line
//! on standard error, with status 1. All rules are in `rapidhash_tool`.
#![tactic(auto)]

ghost use Rattle.std.specs.Prelude.{◌≡◌, Err, IfErr, IfOk, Ok};
ghost use Rattle.std.specs.Fs.{metadata_len};

use rapidhash_tool::{CliFault, Plan, RapidhashVersion, plan, run_file, run_help, run_stdin};
use std::env;
use std::fs::{File, Metadata};
use std::io::{Error, ErrorKind, Write};
use std::process::ExitCode;

// All arguments, the program's name first. If one is not UTF-8, `env::args` fails and returns none.
// The error is that of a file that cannot be opened, since such an argument nearly always names a
// file.
fn gather(rt: &HostRuntime) -> Result<Vec<String>, CliFault> {
    let args = match env::args(rt) {
        Ok(args) => args,
        Err(error) if error.kind() == ErrorKind::OutOfMemory => return Err(CliFault::Memory),
        Err(_) => return Err(CliFault::Open),
    };
    let Ok(args) = args.collect(rt.alloc()) else {
        return Err(CliFault::Memory);
    };
    Ok(args)
}

// Returns the number of bytes of the file to hash, or 0 if the version reads it to its end. A
// directory is refused, as it may report that it has none.
fn length(version: &RapidhashVersion, file: &File) -> Result<u64, CliFault> {
    if !version.needs_length() {
        return Ok(0);
    }
    let metadata = file.metadata();
    if matches!(&metadata, Ok(found) if found.is_dir()) {
        return Err(CliFault::File);
    }
    length_of(metadata)
}

fn length_of(metadata: Result<Metadata, Error>) -> Result<u64, CliFault>
    ensures known { IfOk metadata (λ found. result ≡ Ok (metadata_len found)) }
    ensures unknown { IfErr metadata (λ _. result ≡ Err CliFault.File) }
{
    match metadata {
        Ok(found) => Ok(found.len()),
        Err(_) => Err(CliFault::File),
    }
}

fn hash_named(rt: &HostRuntime, version: &RapidhashVersion, path: &str) -> Result<(), CliFault> {
    let Ok(file) = File::open(rt, path) else {
        return Err(CliFault::Open);
    };
    let len = length(version, &file)?;
    run_file(version, file, len, &mut rt.stdout())
}

fn run(rt: &HostRuntime) -> Result<(), CliFault> {
    let args = gather(rt)?;
    match plan(args.as_slice()) {
        Plan::Help => run_help(&mut rt.stdout())?,
        Plan::Refused => return Err(CliFault::Versions),
        Plan::Run {
            version,
            file: None,
        } => run_stdin(rt.alloc(), &version, rt.stdin(), &mut rt.stdout())?,
        Plan::Run {
            version,
            file: Some(place),
        } => hash_named(rt, &version, args.as_slice()[place].as_str())?,
    }
    if rt.stdout().flush().is_err() {
        return Err(CliFault::Write);
    }
    Ok(())
}

fn main(rt: HostRuntime) -> ExitCode {
    match run(&rt) {
        Ok(()) => ExitCode::SUCCESS,
        Err(fault) => {
            let text = fault.text();
            // If standard error cannot be written, the status still reports the error.
            let _ = eprintln!(rt; "{text}");
            ExitCode::FAILURE
        }
    }
}
