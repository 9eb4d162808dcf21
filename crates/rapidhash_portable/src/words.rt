//! The two words that a message ends in: its last 16 bytes, or all of at most 16 bytes.

ghost use Rattle.std.specs.Prelude.{◌≡◌, ◌≤◌, ◌<◌, Bool, ℕ, length};
ghost use Rattle.rapidhash_portable.specs.declared.form.Form.TheVariants.{V1, V2, V3};
ghost use Rattle.rapidhash_portable.specs.Words.{last_16, short_words, three_bytes};

use crate::util::{read_u32, read_u32_combined, read_u64};

/// Returns the last 16 bytes as two words.
#[inline(always)]
pub(crate) fn last_16(bytes: &[u8]) -> (u64, u64)
    requires { 16 ≤ length bytes.now }
    ensures { result ≡ last_16 bytes.now }
{
    let n = bytes.len();
    (read_u64(bytes, n - 16), read_u64(bytes, n - 8))
}

/// Returns the first, the middle and the last of 1 to 3 bytes in one word.
#[inline(always)]
#[tactic(auto, using(crate::proofs::WordsLemmas::packed_three))]
fn three_bytes(bytes: &[u8]) -> u64
    requires { 0 < length bytes.now }
    ensures { result ≡ three_bytes bytes.now }
{
    let n = bytes.len();
    ((bytes[0] as u64) << 56) | ((bytes[n / 2] as u64) << 32) | bytes[n - 1] as u64
}

/// Returns the two words of at most 16 bytes in V1.
#[inline(always)]
#[tactic(auto, using(crate::proofs::Cases::tests), unfolding(crate::specs::Words::short_words))]
pub(crate) fn short_words_v1(bytes: &[u8]) -> (u64, u64)
    requires { length bytes.now ≤ 16 }
    ensures { (bug : Bool) → result ≡ short_words (V1 bug) bytes.now }
{
    let n = bytes.len();
    if n >= 8 {
        (
            read_u32_combined(bytes, 0, n - 4),
            read_u32_combined(bytes, 4, n - 8),
        )
    } else if n >= 4 {
        let all = read_u32_combined(bytes, 0, n - 4);
        (all, all)
    } else if n > 0 {
        (three_bytes(bytes), 0)
    } else {
        (0, 0)
    }
}

/// Returns the two words of at most 16 bytes in V2.
#[inline(always)]
#[tactic(auto, using(crate::proofs::Cases::tests), unfolding(crate::specs::Words::short_words))]
pub(crate) fn short_words_v2<const MINOR: u8>(bytes: &[u8]) -> (u64, u64)
    requires { length bytes.now ≤ 16 }
    ensures { result ≡ short_words (V2 MINOR) bytes.now }
{
    let n = bytes.len();
    if n >= 4 {
        words_from_4(bytes)
    } else if n == 0 {
        (0, 0)
    } else if MINOR < 2 {
        (three_bytes(bytes), 0)
    } else {
        let (first, middle, last) = (bytes[0], bytes[n / 2], bytes[n - 1]);
        ((first as u64) << 56 | last as u64, middle as u64)
    }
}

/// Returns the two words of at most 16 bytes in V3 and its relatives.
#[inline(always)]
#[tactic(auto, using(crate::proofs::Cases::tests), unfolding(crate::specs::Words::short_words))]
pub(crate) fn short_words_v3(bytes: &[u8]) -> (u64, u64)
    requires { length bytes.now ≤ 16 }
    ensures { (lanes : ℕ) → result ≡ short_words (V3 lanes) bytes.now }
{
    let n = bytes.len();
    if n >= 4 {
        words_from_4(bytes)
    } else if n == 0 {
        (0, 0)
    } else {
        let (first, middle, last) = (bytes[0], bytes[n / 2], bytes[n - 1]);
        ((first as u64) << 45 | last as u64, middle as u64)
    }
}

/// Returns the two words of at most 16 bytes in the in-memory core: those of V3. Its first test is
/// that of 8 bytes, which most keys have.
#[inline(always)]
#[tactic(auto, using(crate::proofs::Cases::tests), unfolding(crate::specs::Words::short_words))]
pub(crate) fn short_words_in_memory(bytes: &[u8]) -> (u64, u64)
    requires { length bytes.now ≤ 16 }
    ensures { (lanes : ℕ) → result ≡ short_words (V3 lanes) bytes.now }
{
    let n = bytes.len();
    if n >= 8 {
        (read_u64(bytes, 0), read_u64(bytes, n - 8))
    } else {
        short_words_below_8(bytes)
    }
}

/// Returns the two words of fewer than 8 bytes. It is cold, so that the code for more has no jump.
#[cold]
#[inline(always)]
fn short_words_below_8(bytes: &[u8]) -> (u64, u64)
    requires { length bytes.now < 8 }
    ensures { (lanes : ℕ) → result ≡ short_words (V3 lanes) bytes.now }
{
    short_words_v3(bytes)
}

/// Returns the two words of 4 to 16 bytes in V2, and in V3 and its relatives.
#[inline(always)]
#[tactic(auto, using(crate::proofs::Cases::tests), unfolding(crate::specs::Words::short_words))]
pub(crate) fn words_from_4(bytes: &[u8]) -> (u64, u64)
    requires at_least_4 { 4 ≤ length bytes.now }
    requires at_most_16 { length bytes.now ≤ 16 }
    ensures v2 { (minor : ℕ) → result ≡ short_words (V2 minor) bytes.now }
    ensures v3 { (lanes : ℕ) → result ≡ short_words (V3 lanes) bytes.now }
{
    let n = bytes.len();
    if n >= 8 {
        (read_u64(bytes, 0), read_u64(bytes, n - 8))
    } else {
        (read_u32(bytes, 0) as u64, read_u32(bytes, n - 4) as u64)
    }
}
