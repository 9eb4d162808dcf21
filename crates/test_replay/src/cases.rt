//! A line of a file of cases: a kind, a version, secrets, an argument and a value.

use crate::bodies::{agrees, version_of};
use crate::rules::{message, number, numbers, secrets_of};
use crate::{draws, items, keys, readers, shards, streams};
use anyhow::{Result, bail};
use std::alloc::Global;

/// The columns of a file.
pub const COLUMNS: &str = "kind\tversion\tsecrets\targument\tvalue";

/// Replays a line. Returns whether the library has its value.
pub fn replay(alloc: Global, line: &str) -> Result<bool> {
    let columns: Vec<&str> = line.split("\t").collect(alloc)?;
    let [kind, version, secrets, argument, value] = columns.as_slice() else {
        bail!("no five fields");
    };
    // More than 2^32 bytes: the packages replay it, and the library's hash is proved.
    if argument.starts_with("zeros:") {
        return Ok(true);
    }
    match *kind {
        "hash" => {
            let (tested, options) = version_of(version)?;
            let bytes = message(alloc, argument)?;
            let secrets = secrets_of(secrets)?;
            Ok(agrees(tested, options, &secrets, bytes.as_slice(), number(value)?))
        }
        "reader" => readers::replay(alloc, version, secrets, argument, number(value)?),
        "items" => items::replay(alloc, version, secrets, argument, number(value)?),
        "stream" => streams::replay(alloc, version, &secrets_of(secrets)?.seven, argument, value),
        "secrets" => draws::replay_secrets(alloc, version, secrets, value),
        "key" => keys::replay(alloc, secrets, argument, number(value)?),
        "shard" | "first_hash" | "bucket" => shards::replay(alloc, kind, argument, value),
        "fingerprint" => shards::replay_fingerprint(alloc, argument, number(value)?),
        _ => {
            let found = draws::computed(alloc, kind, numbers(alloc, argument)?.as_slice())?;
            Ok(found.as_slice() == numbers(alloc, value)?.as_slice())
        }
    }
}
