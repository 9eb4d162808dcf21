//! V2 of a slice, in its three minors.

ghost use Rattle.std.specs.Prelude.{◌≡◌, ◌+◌, ◌*◌, ◌<◌, ◌≤◌, ℕ, List, if◌then◌else◌, nat_lt, drop, length, slice_index};
ghost use Rattle.rapidhash_portable.specs.declared.form.Form.TheVariants.{V2};
ghost use Rattle.rapidhash_portable.specs.Folded.{AfterRows};
ghost use Rattle.rapidhash_portable.specs.Form.{longest_rowless, masks, options, shape_of, start_seed};
ghost use Rattle.rapidhash_portable.specs.Hash.{close, portable_hash};
ghost use Rattle.rapidhash_portable.specs.Words.{last_16, short_words};

use crate::lanes::mixed_lanes;
use crate::tail::{close, fold_tail};
use crate::util::ALTERNATING_BITS;
use crate::words::{last_16, short_words_v2};

/// Returns the hash of `bytes`. `AVALANCHE` mixes the last product once more, `PROTECTED` mixes
/// each product with its factors, and `COMPACT` changes the code but no value.
#[inline(always)]
pub fn hash<const MINOR: u8, const AVALANCHE: bool, const COMPACT: bool, const PROTECTED: bool>(
    bytes: &[u8],
    seed: u64,
    secrets: &[u64; 7],
) -> u64
    requires { MINOR ≤ 2 }
    ensures { let chosen = options AVALANCHE PROTECTED in
        result ≡ portable_hash (V2 MINOR) chosen seed secrets.now bytes.now }
{
    let n = bytes.len();
    let start = seed ^ n as u64;
    if n > 16 {
        return long::<MINOR, AVALANCHE, COMPACT, PROTECTED>(bytes, start, secrets);
    }
    close_short::<AVALANCHE, PROTECTED>(bytes, short_words_v2::<MINOR>(bytes), start, secrets)
}

/// Returns the hash of at most 16 bytes from their two words and the seed with their length.
#[inline(always)]
#[tactic(auto, using(crate::proofs::Cases::short))]
fn close_short<const AVALANCHE: bool, const PROTECTED: bool>(
    bytes: &[u8],
    words: (u64, u64),
    start: u64,
    secrets: &[u64; 7],
) -> u64
    requires { length bytes.now ≤ 16 }
    ensures { (minor seed : ℕ) → words ≡ short_words (V2 minor) bytes.now →
        start ≡ start_seed (V2 minor) (length bytes.now) seed →
        result ≡ portable_hash (V2 minor) (options AVALANCHE PROTECTED) seed secrets.now bytes.now }
{
    let len = bytes.len() as u64;
    let second = secrets[1];
    close::<AVALANCHE, PROTECTED>(words, start, second, (ALTERNATING_BITS ^ len, second))
}

/// Returns the hash above 16 bytes from the seed with the length. A message that has no row makes
/// no call. It is cold so that shorter messages take no jump.
#[cold]
#[inline(always)]
fn long<const MINOR: u8, const AVALANCHE: bool, const COMPACT: bool, const PROTECTED: bool>(
    bytes: &[u8],
    start: u64,
    secrets: &[u64; 7],
) -> u64
    requires above_16 { 16 < length bytes.now }
    requires minor { MINOR ≤ 2 }
    ensures { (seed : ℕ) → start ≡ start_seed (V2 MINOR) (length bytes.now) seed →
        let chosen = options AVALANCHE PROTECTED in
        result ≡ portable_hash (V2 MINOR) chosen seed secrets.now bytes.now }
{
    let n = bytes.len();
    if n <= longest_rowless::<MINOR>() {
        without_rows::<MINOR, AVALANCHE, PROTECTED>(bytes, start, secrets)
    } else {
        with_rows::<MINOR, AVALANCHE, COMPACT, PROTECTED>(bytes, start, secrets)
    }
}

/// Returns the hash above 16 bytes of a message that has no row. Up to 32 bytes it tests no further
/// pair.
#[inline(always)]
fn without_rows<const MINOR: u8, const AVALANCHE: bool, const PROTECTED: bool>(
    bytes: &[u8],
    start: u64,
    secrets: &[u64; 7],
) -> u64
    requires above_16 { 16 < length bytes.now }
    requires rowless { length bytes.now ≤ longest_rowless (V2 MINOR) }
    requires minor { MINOR ≤ 2 }
    ensures { (seed : ℕ) → start ≡ start_seed (V2 MINOR) (length bytes.now) seed →
        let chosen = options AVALANCHE PROTECTED in
        result ≡ portable_hash (V2 MINOR) chosen seed secrets.now bytes.now }
{
    let len = bytes.len() as u64;
    if len <= 32 {
        let seed = fold_tail::<1, PROTECTED>(bytes, &[secrets[0]], start);
        return close_long::<AVALANCHE, PROTECTED>(bytes, len, seed, secrets);
    }
    let table = [secrets[0], secrets[1], secrets[last_place::<MINOR>()]];
    let seed = fold_tail::<3, PROTECTED>(bytes, &table, start);
    close_long::<AVALANCHE, PROTECTED>(bytes, len, seed, secrets)
}

/// Returns the hash of a message that has a row, out of line.
#[cold]
#[inline(never)]
#[tactic(auto, using(crate::proofs::Cases::tests), unfolding(crate::specs::Form::shape_of))]
fn with_rows<const MINOR: u8, const AVALANCHE: bool, const COMPACT: bool, const PROTECTED: bool>(
    bytes: &[u8],
    start: u64,
    secrets: &[u64; 7],
) -> u64
    requires { longest_rowless (V2 MINOR) < length bytes.now }
    ensures { (seed : ℕ) → start ≡ start_seed (V2 MINOR) (length bytes.now) seed →
        let chosen = options AVALANCHE PROTECTED in
        result ≡ portable_hash (V2 MINOR) chosen seed secrets.now bytes.now }
{
    let len = bytes.len() as u64;
    let (joined, tail) = mixed_lanes::<COMPACT, PROTECTED>(bytes, start, secrets);
    close_tail::<AVALANCHE, PROTECTED>(tail, bytes, len, joined, secrets)
}

/// Returns the hash of `len` bytes that have a row, from the joined lanes, the tail, and bytes that
/// end in the message's last 16.
#[inline(always)]
pub(crate) fn close_tail<const AVALANCHE: bool, const PROTECTED: bool>(
    tail: &[u8],
    ending: &[u8],
    len: u64,
    joined: u64,
    secrets: &[u64; 7],
) -> u64
    requires { 16 ≤ length ending.now }
    ensures { (minor seed : ℕ) (x : List ℕ) → longest_rowless (V2 minor) < length x →
        length x ≡ len →
        last_16 ending.now ≡ last_16 x →
        AfterRows PROTECTED secrets.now x (shape_of (V2 minor) (length x))
        (start_seed (V2 minor) (length x) seed) joined tail.now →
        result ≡ portable_hash (V2 minor) (options AVALANCHE PROTECTED) seed secrets.now x }
{
    let seed = fold_tail::<2, PROTECTED>(tail, &[secrets[2], secrets[2]], joined);
    close_long::<AVALANCHE, PROTECTED>(ending, len, seed, secrets)
}

/// Returns the hash of `len` bytes, more than 16, from the seed after all pairs, and bytes that end
/// in the message's last 16.
#[inline(always)]
fn close_long<const AVALANCHE: bool, const PROTECTED: bool>(
    ending: &[u8],
    len: u64,
    seed: u64,
    secrets: &[u64; 7],
) -> u64
    requires { 16 ≤ length ending.now }
    ensures { (minor tail : ℕ) → result
        ≡ close (options AVALANCHE PROTECTED) (last_16 ending.now) seed (slice_index secrets.now 1)
        (masks (V2 minor) secrets.now len tail) }
{
    close::<AVALANCHE, PROTECTED>(
        last_16(ending),
        seed,
        secrets[1],
        (ALTERNATING_BITS ^ len, secrets[1]),
    )
}

/// Returns the length of the longest message without a row.
#[inline(always)]
#[tactic(auto, using(crate::proofs::Cases::tests))]
fn longest_rowless<const MINOR: u8>() -> usize
    ensures { result ≡ longest_rowless (V2 MINOR) }
{
    if MINOR == 0 { 56 } else { 64 }
}

/// Returns the index of the secret for the third pair of a message without a row.
#[inline(always)]
#[tactic(auto, using(crate::proofs::Cases::tests))]
fn last_place<const MINOR: u8>() -> usize
    ensures place { result ≡ (if nat_lt MINOR 2 then 0 else 1) }
    ensures within { result ≤ 1 }
{
    if MINOR < 2 { 0 } else { 1 }
}
