//! Prints groups of equal files, as `fdupes -r` does.
//!
//! `example_dedupe NAME..` accepts files, and directories with everything below them. It prints the
//! names of each group of two or more equal files, one per line, and an empty line after each
//! group.
#![tactic(auto)]

mod compare;
mod error;
mod groups;
mod names;
mod print;
mod store;

ghost use Rattle.std.specs.Prelude.{true, false};
ghost use Rattle.rapidhash_portable.specs.Form.{standard, v3};
ghost use Rattle.rapidhash_portable.specs.Hash.{default_hash};

use error::Error;
use names::{Names, Search};
use rapidhash::inner::{GlobalSecrets, SeedSource};
use rapidhash::v3::rapidhash_v3_file;
use rapidhash::{HashSetExt, fast};
use std::alloc::AllocError;
use std::io::{BufWriter, ErrorKind, Read};
use std::process::ExitCode;
use std::random::RandomSource;
use std::{env, io};
use store::Fingerprint;

/// The hash of rapidhash V3, with its default seed.
struct Rapidhash;

impl Fingerprint for Rapidhash {
    ghost number = { λ _ bytes. default_hash v3 standard bytes };

    fn of<R: Read + Drop>(&self, reader: R) -> io::Result<u64> {
        rapidhash_v3_file(reader)
    }
}

fn random_word(rt: &HostRuntime) -> Result<u64, Error> {
    let mut bytes = [0; 8];
    rt.fill_bytes(&mut bytes).map_err(Error::Random)?;
    Ok(u64::from_le_bytes(bytes))
}

// The names in the arguments.
fn gather(rt: &HostRuntime) -> Result<Vec<String>, Error> {
    let args = match env::args(rt) {
        Ok(args) => args,
        Err(error) if error.kind() == ErrorKind::OutOfMemory => {
            return Err(Error::Memory(AllocError));
        }
        Err(_) => return Err(Error::Args),
    };
    let mut names = Vec::new(rt.alloc());
    for arg in args.skip(1) {
        if arg.as_str().starts_with("--") {
            return Err(Error::Option(arg));
        }
        names.push(arg)?;
    }
    if names.is_empty() {
        return Err(Error::NoName);
    }
    Ok(names)
}

// Prints the groups. Returns whether every name could be read.
fn run(rt: &HostRuntime) -> Result<bool, Error> {
    let names = gather(rt)?;
    let secrets = GlobalSecrets::new(random_word(rt)?);
    let mut source = SeedSource::new(&secrets, random_word(rt)?);
    let state = fast::RandomState::new(&secrets, &mut source);
    let mut search = Search::new(rt, HashSetExt::new(rt.alloc(), state));
    for name in names {
        search.find(rt, name)?;
    }
    search.files.sort()?;
    let files = search.files.as_slice();
    let store = Names { rt, files };
    let places = groups::groups(&store, &Rapidhash, files.len(), rt.alloc(), state)?;
    let mut out = BufWriter::new(rt.alloc(), io::writer(rt)).map_err(Error::of_write)?;
    let failures = print::print_groups(rt, &mut out, files, places.as_slice())?;
    Ok(search.failures == 0 && failures == 0)
}

fn main(rt: HostRuntime) -> ExitCode {
    match run(&rt) {
        Ok(true) => ExitCode::SUCCESS,
        Ok(false) => ExitCode::FAILURE,
        Err(error) => {
            // If standard error cannot be written, the status still reports the error.
            let _ = eprintln!(rt; "example_dedupe: {error}");
            error.status()
        }
    }
}
