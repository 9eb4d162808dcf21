//! Cases of the hashes of a reader.

use crate::bodies::{Secrets, Tested, version_of};
use crate::rules::{message, secrets_of};
use anyhow::Result;
use rapidhash_portable::form::Version;
use rapidhash_portable::v1::rapidhash_v1_file_inline;
use rapidhash_portable::v2::rapidhash_v2_file_inline;
use rapidhash_portable::v3::rapidhash_v3_file_inline;
use std::alloc::Global;
use std::io;

/// The hash of all bytes of a reader.
fn of_reader<const PROTECTED: bool>(
    version: Tested,
    secrets: &Secrets,
    bytes: &[u8],
) -> io::Result<u64> {
    let mut reader = bytes;
    let len = bytes.len() as u64;
    let three = &secrets.three;
    let seven = &secrets.seven;
    match version {
        Tested::Named(Version::V1) | Tested::V1Bug => rapidhash_v1_file_inline::<&[u8], PROTECTED>(
            &mut reader,
            len,
            three,
        ),
        Tested::Named(Version::V2Minor0) => rapidhash_v2_file_inline::<&[u8], 0, PROTECTED>(
            &mut reader,
            len,
            seven,
        ),
        Tested::Named(Version::V2Minor1) => rapidhash_v2_file_inline::<&[u8], 1, PROTECTED>(
            &mut reader,
            len,
            seven,
        ),
        Tested::Named(Version::V2Minor2) => rapidhash_v2_file_inline::<&[u8], 2, PROTECTED>(
            &mut reader,
            len,
            seven,
        ),
        _ => rapidhash_v3_file_inline::<&[u8], PROTECTED>(bytes, seven),
    }
}

/// Replays a hash of a reader, with the avalanche on.
pub fn replay(
    alloc: Global,
    name: &str,
    secrets: &str,
    argument: &str,
    expected: u64,
) -> Result<bool> {
    let (version, options) = version_of(name)?;
    let secrets = secrets_of(secrets)?;
    let bytes = message(alloc, argument)?;
    let answer = if options.protected {
        of_reader::<true>(version, &secrets, bytes.as_slice())?
    } else {
        of_reader::<false>(version, &secrets, bytes.as_slice())?
    };
    Ok(answer == expected)
}
