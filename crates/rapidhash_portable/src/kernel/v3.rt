//! V3 of a slice, and its relatives, which differ from it in the number of lanes.

ghost use Rattle.std.specs.Prelude.{◌≡◌, ◌<◌, ◌≤◌, ◌+◌, ◌*◌, ◌%◌, ℕ, List, length, drop};
ghost use Rattle.rapidhash_portable.specs.declared.form.Form.TheVariants.{V3};
ghost use Rattle.rapidhash_portable.specs.Folded.{AfterRows};
ghost use Rattle.rapidhash_portable.specs.Form.{longest_rowless, options, shape_of, start_seed, tail_places};
ghost use Rattle.rapidhash_portable.specs.Tail.{picked};
ghost use Rattle.rapidhash_portable.specs.Hash.{portable_hash};
ghost use Rattle.rapidhash_portable.specs.Words.{last_16, short_words};

use crate::lanes::wide_lanes;
use crate::tail::{close, fold_tail};
use crate::util::ALTERNATING_BITS;
use crate::words::{last_16, short_words_v3, words_from_4};

/// The longest message that makes no call. Longer tails, inlined into a loop, make the shortest
/// messages slower.
const LONGEST_INLINED: usize = 80;

/// Returns the hash of `bytes` with an odd number of lanes. `AVALANCHE` mixes the last product once
/// more, `PROTECTED` XORs the factors into each product, and `COMPACT` changes the code but no
/// value.
#[inline(always)]
pub fn hash<const LANES: usize, const AVALANCHE: bool, const COMPACT: bool, const PROTECTED: bool>(
    bytes: &[u8],
    seed: u64,
    secrets: &[u64; 7],
) -> u64
    requires at_most_7 { LANES ≤ 7 }
    requires odd { LANES % 2 ≡ 1 }
    ensures { let chosen = options AVALANCHE PROTECTED in
        result ≡ portable_hash (V3 LANES) chosen seed secrets.now bytes.now }
{
    let n = bytes.len();
    if n > 16 {
        return long::<LANES, AVALANCHE, COMPACT, PROTECTED>(bytes, seed, secrets);
    }
    if n > 3 {
        let words = words_from_4(bytes);
        return close_short::<LANES, AVALANCHE, PROTECTED>(bytes, words, seed ^ n as u64, secrets);
    }
    close_short::<LANES, AVALANCHE, PROTECTED>(bytes, short_words_v3(bytes), seed, secrets)
}

/// Returns the hash of at most 16 bytes from their two words, and from the seed, into which the
/// length is mixed from 4 bytes on. It is compiled twice, so that one test finds both.
#[inline(always)]
#[tactic(auto, using(crate::proofs::Cases::short))]
fn close_short<const LANES: usize, const AVALANCHE: bool, const PROTECTED: bool>(
    bytes: &[u8],
    words: (u64, u64),
    start: u64,
    secrets: &[u64; 7],
) -> u64
    requires at_most_16 { length bytes.now ≤ 16 }
    requires odd { LANES % 2 ≡ 1 }
    ensures { (seed : ℕ) → words ≡ short_words (V3 LANES) bytes.now →
        start ≡ start_seed (V3 LANES) (length bytes.now) seed →
        let chosen = options AVALANCHE PROTECTED in
        result ≡ portable_hash (V3 LANES) chosen seed secrets.now bytes.now }
{
    let (n, second) = (bytes.len() as u64, secrets[1]);
    close::<AVALANCHE, PROTECTED>(words, start, second, (ALTERNATING_BITS, second ^ n))
}

/// Returns the hash above 16 bytes. It is cold so that shorter messages take no jump.
#[cold]
#[inline(always)]
#[tactic(auto, using(crate::proofs::Cases::no_rows))]
fn long<const LANES: usize, const AVALANCHE: bool, const COMPACT: bool, const PROTECTED: bool>(
    bytes: &[u8],
    seed: u64,
    secrets: &[u64; 7],
) -> u64
    requires above_16 { 16 < length bytes.now }
    requires at_most_7 { LANES ≤ 7 }
    requires odd { LANES % 2 ≡ 1 }
    ensures { let chosen = options AVALANCHE PROTECTED in
        result ≡ portable_hash (V3 LANES) chosen seed secrets.now bytes.now }
{
    let n = bytes.len();
    if n <= LONGEST_INLINED && n <= 16 * LANES {
        close_rowless::<LANES, AVALANCHE, PROTECTED>(bytes, seed, secrets)
    } else {
        above_inlined::<LANES, AVALANCHE, COMPACT, PROTECTED>(bytes, seed, secrets)
    }
}

/// Returns the hash above 16 bytes of a message that has no row. It mixes the length into the
/// secret alone: in [`close_tail`], that would take one more register.
#[inline(always)]
fn close_rowless<const LANES: usize, const AVALANCHE: bool, const PROTECTED: bool>(
    bytes: &[u8],
    seed: u64,
    secrets: &[u64; 7],
) -> u64
    requires above_16 { 16 < length bytes.now }
    requires odd { LANES % 2 ≡ 1 }
    requires rowless { length bytes.now ≤ 16 * LANES }
    ensures { let chosen = options AVALANCHE PROTECTED in
        result ≡ portable_hash (V3 LANES) chosen seed secrets.now bytes.now }
{
    let folded = fold_tail::<6, PROTECTED>(bytes, &tail_secrets(secrets), seed);
    let secret = secrets[1] ^ bytes.len() as u64;
    close::<AVALANCHE, PROTECTED>(last_16(bytes), folded, secret, (ALTERNATING_BITS, secret))
}

/// Returns the hash of a message that has no row, out of line and without lanes.
#[cold]
#[inline(never)]
#[tactic(auto, using(crate::proofs::Cases::no_rows))]
fn rowless<const LANES: usize, const AVALANCHE: bool, const PROTECTED: bool>(
    bytes: &[u8],
    seed: u64,
    secrets: &[u64; 7],
) -> u64
    requires above_16 { 16 < length bytes.now }
    requires at_most_7 { LANES ≤ 7 }
    requires odd { LANES % 2 ≡ 1 }
    requires rowless { length bytes.now ≤ 16 * LANES }
    ensures { let chosen = options AVALANCHE PROTECTED in
        result ≡ portable_hash (V3 LANES) chosen seed secrets.now bytes.now }
{
    close_tail::<AVALANCHE, PROTECTED>(bytes, bytes, seed, secrets)
}

/// Returns the hash above 16 bytes, out of line.
#[cold]
#[inline(never)]
#[tactic(auto, unfolding(crate::specs::Form::shape_of))]
fn above_inlined<
    const LANES: usize,
    const AVALANCHE: bool,
    const COMPACT: bool,
    const PROTECTED: bool,
>(bytes: &[u8], seed: u64, secrets: &[u64; 7]) -> u64
    requires above_16 { 16 < length bytes.now }
    requires at_most_7 { LANES ≤ 7 }
    requires odd { LANES % 2 ≡ 1 }
    ensures { let chosen = options AVALANCHE PROTECTED in
        result ≡ portable_hash (V3 LANES) chosen seed secrets.now bytes.now }
{
    // With this test LLVM knows that the last 16 bytes exist.
    if bytes.len() <= 16 * LANES {
        return rowless::<LANES, AVALANCHE, PROTECTED>(bytes, seed, secrets);
    }
    let (joined, tail) = wide_lanes::<LANES, 1, COMPACT, PROTECTED>(bytes, seed, secrets);
    close_tail::<AVALANCHE, PROTECTED>(tail, bytes, joined, secrets)
}

/// Returns the hash above 16 bytes, from the joined lanes, the tail, and bytes that end in the
/// message's last 16.
#[inline(always)]
pub(crate) fn close_tail<const AVALANCHE: bool, const PROTECTED: bool>(
    tail: &[u8],
    ending: &[u8],
    joined: u64,
    secrets: &[u64; 7],
) -> u64
    requires { 16 ≤ length ending.now }
    ensures { (lanes seed : ℕ) (x : List ℕ) → 16 < length x →
        last_16 ending.now ≡ last_16 x →
        AfterRows PROTECTED secrets.now x (shape_of (V3 lanes) (length x)) seed joined tail.now →
        result ≡ portable_hash (V3 lanes) (options AVALANCHE PROTECTED) seed secrets.now x }
{
    let seed = fold_tail::<6, PROTECTED>(tail, &tail_secrets(secrets), joined);
    let (t, second) = (tail.len() as u64, secrets[1]);
    let (a, b) = last_16(ending);
    close::<AVALANCHE, PROTECTED>((a ^ t, b), seed, second, (ALTERNATING_BITS, second ^ t))
}

/// Returns the secrets that the pairs of a tail are mixed with, in order.
#[inline(always)]
#[tactic(auto, unfolding(crate::specs::Form::tail_places))]
fn tail_secrets(secrets: &[u64; 7]) -> [u64; 6]
    ensures { (lanes n : ℕ) → result ≡ picked secrets.now (tail_places (V3 lanes) n) }
{
    let (second, third) = (secrets[1], secrets[2]);
    [third, third, second, second, third, second]
}
