//! The lanes of a stream hasher, and how many chunks they have folded.
//!
//! No other code can fold a chunk without counting it, or count one without folding it: both are
//! private here, and only `step`, `step_twice` and `clear` change them. `with_lanes` starts from
//! lanes that were saved, with a count of 0. The count needs no memory and no time; only contracts
//! see it.
//!
//! The speed of large pieces depends on the loop of `fold_chunks`: after a change look at the
//! machine code with `objdump`. If the lanes are copied from `self` into local variables, the
//! compiler packs them into vectors and unpacks them, which needs half as much time again.

ghost use Rattle.std.specs.Prelude.{◌≡◌, ◌+◌, ◌*◌, ◌≤◌, ℕ, List, length, replicate, take};
ghost use Rattle.std.specs.Borrow.{ftrue};
ghost use Rattle.rapidhash_portable.specs.Folded.{HaveFolded, Running};
ghost use Rattle.rapidhash_portable.specs.Lanes.{IsLaneCount, joined};

use crate::lanes::{fold_row, fold_two_rows_by_lane, join};
use std::marker::Model;

/// How many chunks were folded.
#[repr(C)]
#[derive(Drop)]
struct Count {
    ghost steps: { ℕ },
}

impl Model for Count {
    ghost also_owns = { λ _. ftrue };
}

impl Count {
    /// Returns a count of none.
    const fn new() -> Count
        ensures { result.steps ≡ 0 }
    {
        Count {}
    }

    /// Returns one more than before.
    fn after(_before: &Count) -> Count
        ensures { result.steps ≡ _before.now.steps + 1 }
    {
        Count {}
    }
}

/// Seven lanes, of which a stream of fewer uses the first, and how many chunks were folded into
/// them.
#[repr(C)]
#[derive(Drop)]
pub(crate) struct Folded {
    lanes: [u64; 7],
    count: Count,
}

impl Folded {
    /// Returns lanes that all hold the seed.
    #[inline(always)]
    pub(crate) const fn new(seed: u64) -> Self
        ensures lanes { result.lanes ≡ replicate 7 seed }
        ensures none { result.count.steps ≡ 0 }
    {
        Folded {
            lanes: [seed; 7],
            count: Count::new(),
        }
    }

    /// Returns lanes that hold these words.
    pub(super) const fn with_lanes(lanes: [u64; 7]) -> Self
        ensures lanes { result.lanes ≡ lanes }
        ensures none { result.count.steps ≡ 0 }
    {
        Folded {
            lanes,
            count: Count::new(),
        }
    }

    /// Returns the lanes.
    pub(super) fn lanes(&self) -> &[u64]
        ensures { result.now ≡ self.now.lanes }
    {
        &self.lanes
    }

    /// Folds the chunk at the head of `bytes`, one pair into each of the first `LANES` lanes.
    #[inline(always)]
    pub(crate) fn step<const LANES: usize, const PROTECTED: bool>(
        &mut self,
        bytes: &[u8],
        secrets: &[u64; 7],
    )
        requires enough { 16 * LANES ≤ length bytes.now }
        requires at_most_7 { LANES ≤ 7 }
        ensures folded { HaveFolded PROTECTED secrets.now bytes.now LANES
            self.old.lanes self.new.lanes 1 }
        ensures one { self.new.count.steps ≡ self.old.count.steps + 1 }
    {
        fold_row::<7, LANES, PROTECTED>(&mut self.lanes, bytes, secrets);
        self.count = Count::after(&self.count);
    }

    /// Folds the two chunks at the head of `bytes`.
    #[inline(always)]
    fn step_twice<const LANES: usize, const PROTECTED: bool>(
        &mut self,
        bytes: &[u8],
        secrets: &[u64; 7],
    )
        requires enough { 32 * LANES ≤ length bytes.now }
        requires at_most_7 { LANES ≤ 7 }
        ensures folded { HaveFolded PROTECTED secrets.now bytes.now LANES
            self.old.lanes self.new.lanes 2 }
        ensures two { self.new.count.steps ≡ self.old.count.steps + 2 }
    {
        fold_two_rows_by_lane::<7, LANES, PROTECTED>(&mut self.lanes, bytes, secrets);
        self.count = Count::after(&Count::after(&self.count));
    }

    /// Folds every whole chunk of `bytes` that a further byte follows, and returns the bytes after
    /// them. An iteration folds two chunks, as in the hash of a slice.
    #[inline(always)]
    pub(crate) fn fold_chunks<'x, const LANES: usize, const PROTECTED: bool>(
        &mut self,
        bytes: &'x [u8],
        secrets: &[u64; 7],
    ) -> &'x [u8]
        requires { IsLaneCount LANES }
        ensures on { (x : List ℕ) (seed earlier : ℕ) →
            Running PROTECTED secrets.now x LANES seed
            self.old.lanes (earlier + self.old.count.steps) bytes.now →
            Running PROTECTED secrets.now x LANES seed
            self.new.lanes (earlier + self.new.count.steps) result.now }
        ensures all { length result.now ≤ 16 * LANES }
        ensures fewer { length result.now ≤ length bytes.now }
    {
        let mut rest = bytes;
        while rest.len() > 32 * LANES {
            self.step_twice::<LANES, PROTECTED>(rest, secrets);
            rest = &rest[32 * LANES..];
        }
        if rest.len() > 16 * LANES {
            self.step::<LANES, PROTECTED>(rest, secrets);
            rest = &rest[16 * LANES..];
        }
        rest
    }

    /// Starts again.
    #[inline(always)]
    pub(crate) fn clear(&mut self, seed: u64)
        ensures lanes { self.new.lanes ≡ replicate 7 seed }
        ensures none { self.new.count.steps ≡ 0 }
    {
        *self = Folded::new(seed);
    }

    /// Returns the XOR of the first `LANES` lanes.
    #[inline(always)]
    pub(crate) fn joined<const LANES: usize>(&self) -> u64
        requires { LANES ≤ 7 }
        ensures { result ≡ joined (take LANES self.now.lanes) }
    {
        join::<7, LANES>(&self.lanes)
    }
}
