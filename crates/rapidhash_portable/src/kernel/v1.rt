//! V1 of a slice.

ghost use Rattle.std.specs.Prelude.{◌≡◌, ◌+◌, ◌*◌, ◌<◌, ◌≤◌, ℕ, Bool, List, length, drop};
ghost use Rattle.rapidhash_portable.specs.declared.form.Form.TheVariants.{V1};
ghost use Rattle.rapidhash_portable.specs.Folded.{AfterRows};
ghost use Rattle.rapidhash_portable.specs.Form.{longest_rowless, options, shape_of, start_seed};
ghost use Rattle.rapidhash_portable.specs.Hash.{portable_hash};
ghost use Rattle.rapidhash_portable.specs.Words.{last_16, short_words};

use crate::lanes::wide_lanes;
use crate::tail::{close, fold_tail};
use crate::words::{last_16, short_words_v1};

/// Returns the hash of `bytes`. `AVALANCHE` mixes the last product once more, `PROTECTED` mixes
/// each product with its factors, `V1_BUG` folds a row at 48 bytes, and `COMPACT` changes the code
/// but no value.
#[inline(always)]
pub fn hash<const AVALANCHE: bool, const COMPACT: bool, const PROTECTED: bool, const V1_BUG: bool>(
    bytes: &[u8],
    seed: u64,
    secrets: &[u64; 3],
) -> u64
    ensures { let chosen = options AVALANCHE PROTECTED in
        result ≡ portable_hash (V1 V1_BUG) chosen seed secrets.now bytes.now }
{
    let n = bytes.len();
    if n > 16 {
        return long::<AVALANCHE, COMPACT, PROTECTED, V1_BUG>(bytes, seed, secrets);
    }
    close_short::<AVALANCHE, PROTECTED>(bytes, short_words_v1(bytes), seed, secrets)
}

/// Returns the hash of at most 16 bytes from their two words.
#[inline(always)]
#[tactic(auto, using(crate::proofs::Cases::short))]
fn close_short<const AVALANCHE: bool, const PROTECTED: bool>(
    bytes: &[u8],
    words: (u64, u64),
    seed: u64,
    secrets: &[u64; 3],
) -> u64
    requires { length bytes.now ≤ 16 }
    ensures { (bug : Bool) → words ≡ short_words (V1 bug) bytes.now →
        result ≡ portable_hash (V1 bug) (options AVALANCHE PROTECTED) seed secrets.now bytes.now }
{
    let len = bytes.len() as u64;
    let [first, second, _] = *secrets;
    close::<AVALANCHE, PROTECTED>(words, seed ^ len, second, (first ^ len, second))
}

/// Returns the hash above 16 bytes. A message that has no row makes no call.
#[inline(always)]
#[tactic(auto, using(crate::proofs::Cases::no_rows), unfolding(crate::specs::Form::shape_of))]
fn long<const AVALANCHE: bool, const COMPACT: bool, const PROTECTED: bool, const V1_BUG: bool>(
    bytes: &[u8],
    seed: u64,
    secrets: &[u64; 3],
) -> u64
    requires { 16 < length bytes.now }
    ensures { let chosen = options AVALANCHE PROTECTED in
        result ≡ portable_hash (V1 V1_BUG) chosen seed secrets.now bytes.now }
{
    let n = bytes.len();
    if n <= longest_rowless::<V1_BUG>() {
        let len = n as u64;
        close_tail::<AVALANCHE, PROTECTED>(bytes, bytes, len, seed ^ len, secrets)
    } else {
        with_rows::<AVALANCHE, COMPACT, PROTECTED, V1_BUG>(bytes, seed, secrets)
    }
}

/// Returns the hash of a message that has a row. With rows of three lanes it is short enough to be
/// inlined.
#[inline]
#[tactic(auto, using(crate::proofs::Cases::tests), unfolding(crate::specs::Form::shape_of))]
fn with_rows<const AVALANCHE: bool, const COMPACT: bool, const PROTECTED: bool, const V1_BUG: bool>(
    bytes: &[u8],
    seed: u64,
    secrets: &[u64; 3],
) -> u64
    requires { longest_rowless (V1 V1_BUG) < length bytes.now }
    ensures { let chosen = options AVALANCHE PROTECTED in
        result ≡ portable_hash (V1 V1_BUG) chosen seed secrets.now bytes.now }
{
    let len = bytes.len() as u64;
    let (joined, tail) = wide_lanes::<3, 0, COMPACT, PROTECTED>(bytes, seed ^ len, secrets);
    close_tail::<AVALANCHE, PROTECTED>(tail, bytes, len, joined, secrets)
}

/// Returns the hash of `len` bytes, more than 16, from the joined lanes, the tail, and bytes that
/// end in the message's last 16.
#[inline(always)]
pub(crate) fn close_tail<const AVALANCHE: bool, const PROTECTED: bool>(
    tail: &[u8],
    ending: &[u8],
    len: u64,
    joined: u64,
    secrets: &[u64; 3],
) -> u64
    requires { 16 ≤ length ending.now }
    ensures { (bug : Bool) (seed : ℕ) (x : List ℕ) → 16 < length x → length x ≡ len →
        last_16 ending.now ≡ last_16 x →
        AfterRows PROTECTED secrets.now x (shape_of (V1 bug) (length x))
        (start_seed (V1 bug) (length x) seed) joined tail.now →
        result ≡ portable_hash (V1 bug) (options AVALANCHE PROTECTED) seed secrets.now x }
{
    let (s, mut seed) = (secrets, joined);
    if tail.len() > 16 {
        seed ^= s[1];
    }
    seed = fold_tail::<2, PROTECTED>(tail, &[s[2], s[2]], seed);
    close::<AVALANCHE, PROTECTED>(last_16(ending), seed, s[1], (s[0] ^ len, s[1]))
}

/// Returns the length of the longest message without a row.
#[inline(always)]
#[tactic(auto, using(crate::proofs::Cases::tests))]
fn longest_rowless<const V1_BUG: bool>() -> usize
    ensures { result ≡ longest_rowless (V1 V1_BUG) }
{
    if V1_BUG { 47 } else { 48 }
}
