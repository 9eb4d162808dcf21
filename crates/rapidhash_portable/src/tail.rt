//! The end of every hash, after its rows: the pairs of the tail are folded into the seed, and the
//! close computes the hash from the seed and the last two words.

ghost use Rattle.std.specs.Prelude.{◌≡◌, ◌≤◌, length};
ghost use Rattle.rapidhash_portable.specs.Hash.{close};
ghost use Rattle.rapidhash_portable.specs.Lanes.{pair_of};
ghost use Rattle.rapidhash_portable.specs.Form.{options};
ghost use Rattle.rapidhash_portable.specs.Tail.{after_tail};

use crate::lanes::fold_pair;
use crate::util::{rapid_mix, rapid_mum};

/// Returns the seed after the pairs of a tail: pair j is mixed with secret j of the table, and the
/// last 1 to 16 bytes form no pair.
#[inline(always)]
#[tactic(auto, using(crate::proofs::Cases::tail))]
pub(crate) fn fold_tail<const COUNT: usize, const PROTECTED: bool>(
    tail: &[u8],
    table: &[u64; COUNT],
    start: u64,
) -> u64
    requires { COUNT ≤ 6 }
    ensures { result ≡ after_tail PROTECTED table.now (pair_of tail.now) 0 (length tail.now) start }
{
    let mut seed = start;
    // Where pair j ends. It is counted beside j: a sum in the test compiles to a longer one.
    let mut end = 16;
    for j in 0..COUNT {
        if tail.len() > end {
            seed = fold_pair::<PROTECTED>(tail, 16 * j, table[j], seed);
        }
        end += 16;
    }
    seed
}

/// Returns the value of the last two words and the seed.
#[inline(always)]
#[tactic(auto, unfolding(crate::specs::Hash::close))]
pub(crate) fn close<const AVALANCHE: bool, const PROTECTED: bool>(
    words: (u64, u64),
    seed: u64,
    secret: u64,
    masks: (u64, u64),
) -> u64
    ensures { result ≡ close (options AVALANCHE PROTECTED) words seed secret masks }
{
    let (a, b) = rapid_mum::<PROTECTED>(words.0 ^ secret, words.1 ^ seed);
    if AVALANCHE {
        rapid_mix::<PROTECTED>(a ^ masks.0, b ^ masks.1)
    } else {
        a ^ b
    }
}
