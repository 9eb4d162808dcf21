//! Cases of stream hashers: messages in pieces, with hashes between them, saved and restored.

ghost use Rattle.rapidhash_portable.specs.Lanes.{IsLaneCount};

use crate::bodies::{Tested, version_of};
use crate::rules::{message, number};
use anyhow::{Result, bail};
use rapidhash_portable::form::{Options, Version};
use rapidhash_portable::v3::{RapidSecrets, RapidStreamHasherLanes, SAVED_SIZE};
use std::alloc::Global;

/// The bytes of a saved hasher before its check.
const CHECKED: usize = 200;

fn is_restored<const LANES: usize, const AVALANCHE: bool, const PROTECTED: bool>(
    bytes: &[u8],
    secrets: &RapidSecrets,
) -> bool
    requires { IsLaneCount LANES }
{
    RapidStreamHasherLanes::<LANES, AVALANCHE, PROTECTED>::restore(bytes, secrets).is_some()
}

/// Returns whether each changed bit is refused.
fn refuses_each_bit<const LANES: usize, const AVALANCHE: bool, const PROTECTED: bool>(
    saved: &[u8; SAVED_SIZE],
    secrets: &RapidSecrets,
) -> bool
    requires { IsLaneCount LANES }
{
    let mut bytes = *saved;
    let mut refused = true;
    for at in 0..SAVED_SIZE {
        let old = bytes[at];
        for bit in 0..8u32 {
            bytes[at] = old ^ 1u8.wrapping_shl(bit);
            refused = refused && !is_restored::<LANES, AVALANCHE, PROTECTED>(&bytes, secrets);
        }
        bytes[at] = old;
    }
    refused
}

/// Copies bytes to a place.
fn put(bytes: &mut [u8], place: usize, others: &[u8]) -> Result<()> {
    for (at, other) in others.iter().enumerate() {
        match bytes.get_mut(place.saturating_add(at)) {
            Some(byte) => *byte = *other,
            None => bail!("no place {place}"),
        }
    }
    Ok(())
}

/// Replays a change, `AT:DIGITS:CHECK`. Returns whether it is accepted.
fn forge<const LANES: usize, const AVALANCHE: bool, const PROTECTED: bool>(
    alloc: Global,
    saved: &[u8; SAVED_SIZE],
    secrets: &RapidSecrets,
    text: &str,
) -> Result<bool>
    requires { IsLaneCount LANES }
{
    let Some((place, rest)) = text.split_once(":") else {
        bail!("no place in {text}");
    };
    let Some((digits, check)) = rest.split_once(":") else {
        bail!("no check in {text}");
    };
    let mut bytes = *saved;
    put(
        &mut bytes,
        place.parse::<usize>()?,
        hex::decode(alloc, digits)?.as_slice(),
    )?;
    put(&mut bytes, CHECKED, hex::decode(alloc, check)?.as_slice())?;
    Ok(is_restored::<LANES, AVALANCHE, PROTECTED>(&bytes, secrets))
}

/// Replays an operation that leaves the hasher as it is. Returns whether it is as expected.
fn change<const LANES: usize, const AVALANCHE: bool, const PROTECTED: bool>(
    alloc: Global,
    saved: &[u8; SAVED_SIZE],
    secrets: &RapidSecrets,
    operation: &str,
) -> Result<bool>
    requires { IsLaneCount LANES }
{
    if let Some(text) = operation.strip_prefix("^") {
        return Ok(!forge::<LANES, AVALANCHE, PROTECTED>(alloc, saved, secrets, text)?);
    }
    if let Some(text) = operation.strip_prefix("+") {
        return forge::<LANES, AVALANCHE, PROTECTED>(alloc, saved, secrets, text);
    }
    if let Some(digits) = operation.strip_prefix("!") {
        let bytes = hex::decode(alloc, digits)?;
        return Ok(!is_restored::<LANES, AVALANCHE, PROTECTED>(bytes.as_slice(), secrets));
    }
    if operation == "~" {
        return Ok(refuses_each_bit::<LANES, AVALANCHE, PROTECTED>(saved, secrets));
    }
    bail!("no operation {operation}");
}

/// A message whose pieces a stream hasher is given one after the other.
#[derive(Drop)]
struct Source {
    bytes: Vec<u8>,
    written: usize,
}

impl Source {
    /// Returns the next bytes.
    fn next(&mut self, count: u64) -> Result<&[u8]> {
        let first = self.written;
        self.written = first.saturating_add(usize::try_from(count)?);
        match self.bytes.as_slice().get(first..self.written) {
            Some(bytes) => Ok(bytes),
            None => bail!("no {count} bytes are left"),
        }
    }
}

/// Returns a hasher that was saved.
fn restored<'s, const LANES: usize, const AVALANCHE: bool, const PROTECTED: bool>(
    bytes: &[u8],
    secrets: &'s RapidSecrets,
) -> Result<RapidStreamHasherLanes<'s, LANES, AVALANCHE, PROTECTED>>
    requires { IsLaneCount LANES }
{
    let Some(hasher) = RapidStreamHasherLanes::restore(bytes, secrets) else {
        bail!("a saved hasher is refused");
    };
    Ok(hasher)
}

/// Returns whether bytes are the ones that digits tell.
fn are(alloc: Global, bytes: &[u8], digits: Option<&str>) -> Result<bool> {
    let Some(digits) = digits else {
        bail!("too few values");
    };
    Ok(hex::decode(alloc, digits)?.as_slice() == bytes)
}

/// Replays the operations of a hasher of `LANES` lanes.
fn play<const LANES: usize, const AVALANCHE: bool, const PROTECTED: bool>(
    alloc: Global,
    secrets: &RapidSecrets,
    operations: &str,
    value: &str,
) -> Result<bool>
    requires { IsLaneCount LANES }
{
    let mut hasher = RapidStreamHasherLanes::<LANES, AVALANCHE, PROTECTED>::new(secrets);
    let mut saved = [0; SAVED_SIZE];
    let mut source = Source {
        bytes: Vec::new(alloc),
        written: 0,
    };
    let mut values = value.split_whitespace();
    let mut holds = true;
    for operation in operations.split_whitespace() {
        if let Some(digits) = operation.strip_prefix("w") {
            hasher.write(hex::decode(alloc, digits)?.as_slice());
        } else if operation == "r" {
            hasher.reset();
        } else if operation == "f" {
            let Some(value) = values.next() else {
                bail!("too few values");
            };
            holds = holds && hasher.finish() == number(value)?;
        } else if operation == "s" {
            saved = hasher.save();
            holds = are(alloc, &saved, values.next())? && holds;
            hasher = restored(&saved, secrets)?;
        } else if let Some(digits) = operation.strip_prefix("=") {
            holds = are(alloc, &saved, Some(digits))? && holds;
            hasher = restored(&saved, secrets)?;
        } else if let Ok(count) = operation.parse::<u64>() {
            hasher.write(source.next(count)?);
        } else if operation.starts_with("square:") || operation.starts_with("random:") {
            source.bytes = message(alloc, operation)?;
        } else {
            holds = change::<LANES, AVALANCHE, PROTECTED>(alloc, &saved, secrets, operation)?
                && holds;
        }
    }
    Ok(holds && values.next().is_none())
}

/// Replays the operations of a hasher with options that are values.
fn play_with<const LANES: usize>(
    alloc: Global,
    options: Options,
    secrets: &RapidSecrets,
    operations: &str,
    value: &str,
) -> Result<bool>
    requires { IsLaneCount LANES }
{
    match (options.avalanche, options.protected) {
        (true, true) => play::<LANES, true, true>(alloc, secrets, operations, value),
        (true, false) => play::<LANES, true, false>(alloc, secrets, operations, value),
        (false, true) => play::<LANES, false, true>(alloc, secrets, operations, value),
        (false, false) => play::<LANES, false, false>(alloc, secrets, operations, value),
    }
}

/// Replays the operations of a stream hasher.
pub fn replay(
    alloc: Global,
    name: &str,
    secrets: &RapidSecrets,
    operations: &str,
    value: &str,
) -> Result<bool> {
    let (version, options) = version_of(name)?;
    match version {
        Tested::Named(Version::V3Nano) => play_with::<3>(
            alloc, options, secrets, operations, value,
        ),
        Tested::Named(Version::V3Micro) => play_with::<5>(
            alloc, options, secrets, operations, value,
        ),
        Tested::Named(Version::V3) => play_with::<7>(alloc, options, secrets, operations, value),
        _ => bail!("no stream hasher of {name}"),
    }
}
