//! The rows of every hash: 16-byte pairs folded into lanes, and the lanes joined. They are generic
//! in the number of lanes and written once.
//!
//! The callers are thin: a form is its row widths, its tail's table and what goes into its close
//! (module `tail`). The speed of the hashes depends on the loops here: after a change look at the
//! machine code with `objdump`.

ghost use Rattle.std.specs.Prelude.{◌≡◌, ◌+◌, ◌*◌, ◌≤◌, ◌<◌, ℕ, List, length, replicate, take};
ghost use Rattle.rapidhash_portable.specs.Folded.{AfterRows, HaveFolded, PrefixIsFolded};
ghost use Rattle.rapidhash_portable.specs.Lanes.{joined, mixed_shape, pair_at, step, wide_shape};

use crate::util::{rapid_mix, read_u64};

/// Returns a lane, or the seed of a tail, after the pair at byte `at`. With the lane in the first
/// factor, which the definition has second, LLVM needs an instruction less.
#[inline(always)]
#[tactic(auto, using(crate::proofs::MultiplyLemmas::mix_comm))]
pub(crate) fn fold_pair<const PROTECTED: bool>(
    bytes: &[u8],
    at: usize,
    secret: u64,
    lane: u64,
) -> u64
    requires { at + 16 ≤ length bytes.now }
    ensures { result ≡ step PROTECTED secret lane (pair_at bytes.now at) }
{
    rapid_mix::<PROTECTED>(read_u64(bytes, at + 8) ^ lane, read_u64(bytes, at) ^ secret)
}

/// Folds a row of `WIDTH` pairs at the head of `row` into the first `WIDTH` lanes.
#[inline(always)]
#[tactic(auto, unfolding(crate::specs::Lanes::lane_of, crate::specs::Lanes::pairs_of))]
pub(crate) fn fold_row<const LANES: usize, const WIDTH: usize, const PROTECTED: bool>(
    lanes: &mut [u64; LANES],
    row: &[u8],
    secrets: &[u64],
)
    requires enough { 16 * WIDTH ≤ length row.now }
    requires secrets { WIDTH ≤ length secrets.now }
    requires within_lanes { WIDTH ≤ LANES }
    requires at_most_7 { WIDTH ≤ 7 }
    ensures { HaveFolded PROTECTED secrets.now row.now WIDTH lanes.old lanes.new 1 }
{
    for i in 0..WIDTH {
        lanes[i] = fold_pair::<PROTECTED>(row, 16 * i, secrets[i], lanes[i]);
    }
}

/// Folds two rows of `WIDTH` pairs at the head of `rows` into the first `WIDTH` lanes: the body of
/// the unrolled loop. Seven lanes do not fit into registers, so each is folded twice in turn.
#[inline(always)]
pub(crate) fn fold_two_rows<const LANES: usize, const WIDTH: usize, const PROTECTED: bool>(
    lanes: &mut [u64; LANES],
    rows: &[u8],
    secrets: &[u64],
)
    requires enough { 32 * WIDTH ≤ length rows.now }
    requires secrets { WIDTH ≤ length secrets.now }
    requires within_lanes { WIDTH ≤ LANES }
    requires at_most_7 { WIDTH ≤ 7 }
    ensures { HaveFolded PROTECTED secrets.now rows.now WIDTH lanes.old lanes.new 2 }
{
    if WIDTH == 7 {
        fold_two_rows_by_lane::<LANES, WIDTH, PROTECTED>(lanes, rows, secrets);
    } else {
        fold_row::<LANES, WIDTH, PROTECTED>(lanes, rows, secrets);
        fold_row::<LANES, WIDTH, PROTECTED>(lanes, &rows[16 * WIDTH..], secrets);
    }
}

/// Folds two rows lane by lane: lanes that are in memory are then loaded and stored once. For lanes
/// in registers it needs one register more.
#[inline(always)]
#[tactic(auto, unfolding(crate::specs::Lanes::lane_of, crate::specs::Lanes::pairs_of))]
pub(crate) fn fold_two_rows_by_lane<const LANES: usize, const WIDTH: usize, const PROTECTED: bool>(
    lanes: &mut [u64; LANES],
    rows: &[u8],
    secrets: &[u64],
)
    requires enough { 32 * WIDTH ≤ length rows.now }
    requires secrets { WIDTH ≤ length secrets.now }
    requires within_lanes { WIDTH ≤ LANES }
    requires at_most_7 { WIDTH ≤ 7 }
    ensures { HaveFolded PROTECTED secrets.now rows.now WIDTH lanes.old lanes.new 2 }
{
    for i in 0..WIDTH {
        let first = fold_pair::<PROTECTED>(rows, 16 * i, secrets[i], lanes[i]);
        lanes[i] = fold_pair::<PROTECTED>(rows, 16 * (WIDTH + i), secrets[i], first);
    }
}

/// Folds all rows of `WIDTH` pairs into the first `WIDTH` lanes, and returns the bytes after them,
/// of which there are at least `LEAST`. The lanes may have folded a prefix of the message before.
/// Without `COMPACT` the loop folds two rows per iteration, and then at most one more.
#[inline(always)]
pub(crate) fn fold_rows<
    'x,
    const LANES: usize,
    const WIDTH: usize,
    const LEAST: usize,
    const COMPACT: bool,
    const PROTECTED: bool,
>(lanes: &mut [u64; LANES], bytes: &'x [u8], secrets: &[u64]) -> &'x [u8]
    requires secrets { WIDTH ≤ length secrets.now }
    requires within_lanes { WIDTH ≤ LANES }
    requires has_lanes { 0 < WIDTH }
    requires at_most_7 { WIDTH ≤ 7 }
    requires keeps { LEAST ≤ length bytes.now }
    requires keeps_few { LEAST ≤ 1 }
    ensures on { (x starts : List ℕ) →
        PrefixIsFolded PROTECTED secrets.now x WIDTH LEAST starts lanes.old bytes.now →
        PrefixIsFolded PROTECTED secrets.now x WIDTH LEAST starts lanes.new result.now }
    ensures all { length result.now < 16 * WIDTH + LEAST }
{
    let mut rest = bytes;
    if !COMPACT {
        while rest.len() >= 32 * WIDTH + LEAST {
            fold_two_rows::<LANES, WIDTH, PROTECTED>(lanes, rest, secrets);
            rest = &rest[32 * WIDTH..];
        }
    }
    while rest.len() >= 16 * WIDTH + LEAST {
        fold_row::<LANES, WIDTH, PROTECTED>(lanes, rest, secrets);
        rest = &rest[16 * WIDTH..];
    }
    rest
}

/// Returns the XOR of the first `WIDTH` lanes.
#[inline(always)]
#[tactic(auto, unfolding(crate::specs::Lanes::joined))]
pub(crate) fn join<const LANES: usize, const WIDTH: usize>(lanes: &[u64; LANES]) -> u64
    requires { WIDTH ≤ LANES }
    ensures { result ≡ joined (take WIDTH lanes.now) }
{
    let mut all = 0;
    for i in 0..WIDTH {
        all ^= lanes[i];
    }
    all
}

/// Returns the seed after all rows of `LANES` pairs, and the remaining bytes.
#[inline(always)]
pub(crate) fn wide_lanes<
    'x,
    const LANES: usize,
    const LEAST: usize,
    const COMPACT: bool,
    const PROTECTED: bool,
>(bytes: &'x [u8], seed: u64, secrets: &[u64]) -> (u64, &'x [u8])
    requires secrets { LANES ≤ length secrets.now }
    requires has_lanes { 0 < LANES }
    requires at_most_7 { LANES ≤ 7 }
    requires keeps { LEAST ≤ length bytes.now }
    requires keeps_few { LEAST ≤ 1 }
    ensures { let shape = wide_shape LANES LEAST (length bytes.now) in
        AfterRows PROTECTED secrets.now bytes.now shape seed result.0 result.1.now }
{
    let mut lanes = [seed; LANES];
    join_wide::<LANES, LEAST, COMPACT, PROTECTED>(&mut lanes, bytes, secrets)
}

/// Returns the seed after all rows of seven pairs and then of three, which the first three lanes
/// fold, and the remaining bytes.
#[inline(always)]
pub(crate) fn mixed_lanes<'x, const COMPACT: bool, const PROTECTED: bool>(
    bytes: &'x [u8],
    seed: u64,
    secrets: &[u64; 7],
) -> (u64, &'x [u8])
    ensures { let shape = mixed_shape 7 (length bytes.now) in
        AfterRows PROTECTED secrets.now bytes.now shape seed result.0 result.1.now }
{
    let mut lanes = [seed; 7];
    join_mixed::<COMPACT, PROTECTED>(&mut lanes, bytes, secrets)
}

/// Returns the same as [`wide_lanes`], if the lanes have already folded a prefix and `bytes` follow
/// it.
#[inline(always)]
pub(crate) fn join_wide<
    'x,
    const LANES: usize,
    const LEAST: usize,
    const COMPACT: bool,
    const PROTECTED: bool,
>(lanes: &mut [u64; LANES], bytes: &'x [u8], secrets: &[u64]) -> (u64, &'x [u8])
    requires secrets { LANES ≤ length secrets.now }
    requires has_lanes { 0 < LANES }
    requires at_most_7 { LANES ≤ 7 }
    requires keeps { LEAST ≤ length bytes.now }
    requires keeps_few { LEAST ≤ 1 }
    ensures { (x : List ℕ) (seed : ℕ) → let starts = replicate LANES seed in
        PrefixIsFolded PROTECTED secrets.now x LANES LEAST starts lanes.old bytes.now →
        let shape = wide_shape LANES LEAST (length x) in
        AfterRows PROTECTED secrets.now x shape seed result.0 result.1.now }
{
    let rest = fold_rows::<LANES, LANES, LEAST, COMPACT, PROTECTED>(lanes, bytes, secrets);
    (join::<LANES, LANES>(lanes), rest)
}

/// Returns the same as [`mixed_lanes`], if the lanes have already folded a prefix and `bytes`
/// follow it.
#[inline(always)]
pub(crate) fn join_mixed<'x, const COMPACT: bool, const PROTECTED: bool>(
    lanes: &mut [u64; 7],
    bytes: &'x [u8],
    secrets: &[u64; 7],
) -> (u64, &'x [u8])
    ensures { (x : List ℕ) (seed : ℕ) →
        PrefixIsFolded PROTECTED secrets.now x 7 0 (replicate 7 seed) lanes.old bytes.now →
        let shape = mixed_shape 7 (length x) in
        AfterRows PROTECTED secrets.now x shape seed result.0 result.1.now }
{
    let wide = fold_rows::<7, 7, 0, COMPACT, PROTECTED>(lanes, bytes, secrets);
    let rest = fold_rows::<7, 3, 0, COMPACT, PROTECTED>(lanes, wide, secrets);
    (join::<7, 7>(lanes), rest)
}

#[cfg(test)]
mod tests;
