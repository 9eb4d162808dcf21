//! Cases of what a hash decides: shards, buckets and fingerprints.

use crate::rules::number;
use anyhow::{Result, bail};
use rapidhash::fingerprints::{add, fingerprint, remove};
use rapidhash::shards::{bucket, first_hash, shard};
use std::alloc::Global;

/// Returns what a call returns for two numbers, unless they are outside its preconditions.
fn called(kind: &str, first: u64, count: u64) -> Option<u64> {
    match kind {
        "shard" if count > 0 => Some(shard(first, count)),
        "first_hash" if first < count => Some(first_hash(first, count)),
        "bucket" if count > 0 => Some(u64::from(bucket(first, u32::try_from(count).ok()?))),
        _ => None,
    }
}

/// Replays a shard, the first hash of a shard, or a bucket.
pub fn replay(alloc: Global, kind: &str, argument: &str, value: &str) -> Result<bool> {
    let words: Vec<&str> = argument.split(" ").collect(alloc)?;
    let [first, count] = words.as_slice() else {
        bail!("no two numbers");
    };
    Ok(match called(kind, number(first)?, number(count)?) {
        Some(found) => found == number(value)?,
        None => value == "refused",
    })
}

/// Replays the fingerprint of hashes, also hash by hash.
pub fn replay_fingerprint(alloc: Global, argument: &str, expected: u64) -> Result<bool> {
    let mut hashes = Vec::new(alloc);
    let mut sum = 0u64;
    for text in argument.split_whitespace().filter(|text| *text != "-") {
        let hash = number(text)?;
        hashes.push(hash)?;
        sum = add(sum, hash);
    }
    let whole = fingerprint(hashes.as_slice());
    for hash in &hashes {
        sum = remove(sum, *hash);
    }
    Ok(expected == whole && sum == 0)
}
