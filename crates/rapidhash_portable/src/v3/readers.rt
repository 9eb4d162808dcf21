//! V3 and its relatives of all bytes of a reader. The bytes go through a fixed buffer into the
//! stream hasher. Nothing is allocated, and any length is allowed.
//!
//! One loop makes all the reads, in `read_all`.

ghost use Rattle.std.specs.Prelude.{◌<◌, ◌^◌, [], false, true};
ghost use Rattle.rapidhash_portable.specs.declared.form.Form.TheVariants.{V3};
ghost use Rattle.rapidhash_portable.specs.Form.{options, standard, v3};
ghost use Rattle.rapidhash_portable.specs.Lanes.{IsLaneCount};
ghost use Rattle.rapidhash_portable.specs.Reading.{FlagsFailures, HashesAll, HashesKnown};
ghost use Rattle.rapidhash_portable.specs.Hash.{default_hash, seeded_hash};
ghost use Rattle.rapidhash_portable.specs.Source.{error_flag, reader_of};
ghost use Rattle.rapidhash_portable.specs.Stream.{StreamRepresents, secrets_of_stream};

use super::stream::RapidStreamHasherLanes;
use crate::reader::Source;
use crate::secrets::RapidSecrets;
use std::io;
use std::io::{ErrorKind, Read};

/// The buffer of the calls that name no size, in bytes.
const BUFFER: usize = 8192;

/// Returns the hash of all that the reader still has, up to the first read that returns 0. It reads
/// 8192 bytes at a time, into a buffer on the stack.
///
/// ```
/// use rapidhash::reader::Source;
/// use rapidhash::v3::{DEFAULT_RAPID_SECRETS, rapidhash_v3_source};
///
/// let mut source = Source::new(b"hello".as_slice());
/// let hash = rapidhash_v3_source::<&[u8], false>(&mut source, &DEFAULT_RAPID_SECRETS)?;
/// assert_eq!(hash, 3327445792987248966);
/// # Ok::<(), std::io::Error>(())
/// ```
///
/// # Errors
///
/// If the error flag is set after the call, the error is the reader's own, also for an interrupted
/// read. Otherwise it is `ErrorKind::Other`: 2^64 - 1 reads returned bytes, and the hash gave up.
/// After either error the bytes that were read are lost.
pub fn rapidhash_v3_source<R: Read, const PROTECTED: bool>(
    source: &mut Source<R>,
    secrets: &RapidSecrets,
) -> io::Result<u64>
    ensures all { HashesAll
        (R.remaining (reader_of source.old)) (R.remaining (reader_of source.new)) result
        (λ _. error_flag source.new) (seeded_hash v3 (options true PROTECTED) secrets.now) }
    ensures flag { FlagsFailures result (error_flag source.new) ErrorKind.Other }
{
    rapidhash_v3_source_lanes::<R, 7, BUFFER, PROTECTED>(source, secrets)
}

/// Returns the hash of [`rapidhash_v3_source`], with a buffer of `SIZE` bytes on the stack: no read
/// requests more. A call does not compile if `SIZE` is 0.
///
/// # Errors
///
/// Returns the errors of [`rapidhash_v3_source`].
pub fn rapidhash_v3_source_sized<R: Read, const SIZE: usize, const PROTECTED: bool>(
    source: &mut Source<R>,
    secrets: &RapidSecrets,
) -> io::Result<u64>
    requires { 0 < SIZE }
    ensures all { HashesAll
        (R.remaining (reader_of source.old)) (R.remaining (reader_of source.new)) result
        (λ _. error_flag source.new) (seeded_hash v3 (options true PROTECTED) secrets.now) }
    ensures flag { FlagsFailures result (error_flag source.new) ErrorKind.Other }
{
    rapidhash_v3_source_lanes::<R, 7, SIZE, PROTECTED>(source, secrets)
}

/// Returns the hash of [`rapidhash_v3_source_sized`] by V3 or the relative of it that has `LANES`
/// lanes. A call does not compile if none has, or if `SIZE` is 0.
///
/// ```
/// use rapidhash::reader::Source;
/// use rapidhash::v3::{DEFAULT_RAPID_SECRETS, rapidhash_v3_source_lanes};
///
/// let mut source = Source::new(b"hello".as_slice());
/// let secrets = &DEFAULT_RAPID_SECRETS;
/// let hash = rapidhash_v3_source_lanes::<&[u8], 5, 65536, false>(&mut source, secrets)?;
/// assert_eq!(hash, 3327445792987248966);
/// # Ok::<(), std::io::Error>(())
/// ```
///
/// # Errors
///
/// Returns the errors of [`rapidhash_v3_source`].
pub fn rapidhash_v3_source_lanes<
    R: Read,
    const LANES: usize,
    const SIZE: usize,
    const PROTECTED: bool,
>(source: &mut Source<R>, secrets: &RapidSecrets) -> io::Result<u64>
    requires lanes { IsLaneCount LANES }
    requires room { 0 < SIZE }
    ensures all { HashesAll
        (R.remaining (reader_of source.old)) (R.remaining (reader_of source.new)) result
        (λ _. error_flag source.new) (seeded_hash (V3 LANES) (options true PROTECTED) secrets.now) }
    ensures flag { FlagsFailures result (error_flag source.new) ErrorKind.Other }
{
    prove!(SIZE > 0, "SIZE must be at least 1");
    let hasher = RapidStreamHasherLanes::new(secrets);
    // No array is larger than `isize::MAX`: the `else` is dead, and spares callers a precondition.
    if SIZE <= isize::MAX as usize {
        read_all::<R, LANES, SIZE, PROTECTED>(source, hasher)
    } else {
        read_all::<R, LANES, BUFFER, PROTECTED>(source, hasher)
    }
}

/// Returns the hash with a hasher of no bytes: the loop of every public call here. Short reads
/// gather in the buffer until it is more than half full, so that no read requests less than half of
/// it. The loop is out of line because of its buffer.
#[inline(never)]
fn read_all<R: Read, const LANES: usize, const SIZE: usize, const PROTECTED: bool>(
    source: &mut Source<R>,
    mut hasher: RapidStreamHasherLanes<'_, LANES, true, PROTECTED>,
) -> io::Result<u64>
    requires empty { StreamRepresents PROTECTED hasher [] }
    requires room { 0 < SIZE }
    requires size_fits { SIZE < 2 ^ 63 }
    ensures all { HashesAll
        (R.remaining (reader_of source.old)) (R.remaining (reader_of source.new)) result
        (λ _. error_flag source.new)
        (seeded_hash (V3 LANES) (options true PROTECTED) (secrets_of_stream hasher.entry)) }
    ensures flag { FlagsFailures result (error_flag source.new) ErrorKind.Other }
{
    source.clear();
    let mut room = [0u8; SIZE];
    let buffer = &mut room[..];
    let mut at = 0;
    for _turn in 0..u64::MAX {
        let n = source.read(&mut buffer[at..])?;
        if n == 0 {
            hasher.write(&buffer[..at]);
            return Ok(hasher.finish());
        }
        at += n;
        if at > SIZE / 2 {
            hasher.write(&buffer[..at]);
            at = 0;
        }
    }
    Err(io::Error::from(ErrorKind::Other))
}

/// Returns the hash of all that a reader has, with the default seed and secrets.
///
/// ```
/// use rapidhash::v3::rapidhash_v3_file;
///
/// assert_eq!(rapidhash_v3_file(b"hello".as_slice())?, 3327445792987248966);
/// # Ok::<(), std::io::Error>(())
/// ```
///
/// # Errors
///
/// The reader's own error, also for an interrupted read, which is not repeated. Otherwise
/// `ErrorKind::Other`, after 2^64 - 1 reads that returned bytes.
pub fn rapidhash_v3_file<R: Read + Drop>(data: R) -> io::Result<u64>
    ensures { HashesKnown (R.remaining «data») result (default_hash v3 standard) }
{
    rapidhash_v3_file_lanes::<R, 7, BUFFER, false>(data, RapidSecrets::default_ref())
}

/// Returns the hash of all that a reader has, with the caller's seed and secrets.
///
/// ```
/// use rapidhash::v3::{RapidSecrets, rapidhash_v3_file_seeded, rapidhash_v3_seeded};
///
/// let secrets = RapidSecrets::seed(7);
/// let hash = rapidhash_v3_file_seeded(b"hello".as_slice(), &secrets)?;
/// assert_eq!(hash, rapidhash_v3_seeded(b"hello", &secrets));
/// # Ok::<(), std::io::Error>(())
/// ```
///
/// # Errors
///
/// Returns the errors of [`rapidhash_v3_file`].
pub fn rapidhash_v3_file_seeded<R: Read + Drop>(data: R, secrets: &RapidSecrets) -> io::Result<u64>
    ensures { HashesKnown (R.remaining «data») result
        (seeded_hash v3 standard secrets.now) }
{
    rapidhash_v3_file_lanes::<R, 7, BUFFER, false>(data, secrets)
}

/// Returns the plain or the protected hash of all that a reader has.
///
/// ```
/// use rapidhash::v3::{DEFAULT_RAPID_SECRETS, rapidhash_v3_file_inline, rapidhash_v3_inline};
///
/// let secrets = &DEFAULT_RAPID_SECRETS;
/// let hash = rapidhash_v3_file_inline::<_, true>(b"hello".as_slice(), secrets)?;
/// assert_eq!(hash, rapidhash_v3_inline::<true, false, true>(b"hello", secrets));
/// # Ok::<(), std::io::Error>(())
/// ```
///
/// # Errors
///
/// Returns the errors of [`rapidhash_v3_file`].
pub fn rapidhash_v3_file_inline<R: Read + Drop, const PROTECTED: bool>(
    data: R,
    secrets: &RapidSecrets,
) -> io::Result<u64>
    ensures { HashesKnown (R.remaining «data») result
        (seeded_hash v3 (options true PROTECTED) secrets.now) }
{
    rapidhash_v3_file_lanes::<R, 7, BUFFER, PROTECTED>(data, secrets)
}

/// Returns the hash of [`rapidhash_v3_file_inline`], with a buffer of `SIZE` bytes on the stack: no
/// read requests more. A call does not compile if `SIZE` is 0.
///
/// # Errors
///
/// Returns the errors of [`rapidhash_v3_file`].
pub fn rapidhash_v3_file_sized<R: Read + Drop, const SIZE: usize, const PROTECTED: bool>(
    data: R,
    secrets: &RapidSecrets,
) -> io::Result<u64>
    requires { 0 < SIZE }
    ensures { HashesKnown (R.remaining «data») result
        (seeded_hash v3 (options true PROTECTED) secrets.now) }
{
    rapidhash_v3_file_lanes::<R, 7, SIZE, PROTECTED>(data, secrets)
}

/// Returns the hash of [`rapidhash_v3_file_sized`] by V3 or the relative of it that has `LANES`
/// lanes. A call does not compile if none has, or if `SIZE` is 0.
///
/// # Errors
///
/// Returns the errors of [`rapidhash_v3_file`].
#[tactic(auto, using(crate::proofs::Cases::of_reader))]
pub fn rapidhash_v3_file_lanes<
    R: Read + Drop,
    const LANES: usize,
    const SIZE: usize,
    const PROTECTED: bool,
>(data: R, secrets: &RapidSecrets) -> io::Result<u64>
    requires lanes { IsLaneCount LANES }
    requires room { 0 < SIZE }
    ensures { HashesKnown (R.remaining «data») result
        (seeded_hash (V3 LANES) (options true PROTECTED) secrets.now) }
{
    let mut source = Source::new(data);
    rapidhash_v3_source_lanes::<R, LANES, SIZE, PROTECTED>(&mut source, secrets)
}
