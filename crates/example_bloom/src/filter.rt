//! The filter: bits in words, and the marks of a key among them.

ghost use Rattle.std.specs.Prelude.{◌≡◌, ◌↔◌, ◌<◌, ℕ, true, length, IfOk};
ghost use Rattle.example_bloom.specs.Filter.{Adds, Finds, HasSameShape, HasWords, IsEmpty, Unites};
ghost use Rattle.example_bloom.specs.Filter.{HasBit, HasShape, Marks, Sets, step_of};

use crate::shape::Shape;
use rapidhash::rng::rapidrng_fast;
use rapidhash::v3::{DEFAULT_RAPID_SECRETS, rapidhash_v3};
use std::alloc::{AllocError, Global};

// The step of the generator's states.
const STEP: u64 = DEFAULT_RAPID_SECRETS.secrets[0];

/// A set of keys that finds every inserted key, and perhaps others.
///
/// A key has a fixed number of marks. Each is a bit of the words, at a place that the key's hash
/// determines. To insert a key sets its marks. A key is found if all of its marks are set.
#[derive(Drop)]
pub struct Filter {
    words: Vec<u64>,
    marks: u32,
}

// The place of a key's mark number `i`: the next word of a generator `i` steps from the hash. With
// two halves of the hash as start and distance of the places, marks would fall together.
#[tactic(auto, unfolding(crate::specs::Filter::step_of))]
fn step(hash: u64, i: u32) -> u64
    ensures { result ≡ step_of hash i }
{
    let mut state = hash.wrapping_add((i as u64).wrapping_mul(STEP));
    rapidrng_fast(&mut state)
}

// Sets a bit.
fn set(words: &mut [u64], step: u64)
    requires { 0 < length words.old }
    ensures { Sets words.old words.new step }
{
    let len = words.len() as u64;
    words[(step % len) as usize] |= 1 << (step / len % 64);
}

// Sets all marks of a hash.
#[tactic(auto, using(crate::proofs::Bits::marked_one))]
fn mark(words: &mut [u64], marks: u32, hash: u64)
    requires { 0 < length words.old }
    ensures { Marks words.old words.new marks hash }
{
    for i in 0..marks {
        set(words, step(hash, i));
    }
}

// Returns whether a bit is set.
fn is_set(words: &[u64], step: u64) -> bool
    requires { 0 < length words.now }
    ensures { result ≡ true ↔ HasBit words.now step }
{
    let len = words.len() as u64;
    (words[(step % len) as usize] >> (step / len % 64)) & 1 == 1
}

impl Filter {
    /// Returns a filter with no mark set. It allocates once.
    #[tactic(auto, using(crate::proofs::Bits::zeros_have_none))]
    pub fn new(alloc: Global, shape: Shape) -> Result<Filter, AllocError>
        ensures empty { IfOk result IsEmpty }
        ensures shape { IfOk result (HasShape shape) }
    {
        let words = vec![in alloc; 0u64; shape.words()]?;
        Ok(Filter {
            words,
            marks: shape.marks(),
        })
    }

    /// Returns a filter of the same shape, with no mark set. It allocates once.
    #[tactic(auto, using(crate::proofs::Bits::zeros_have_none))]
    pub fn empty_alike(&self, alloc: Global) -> Result<Filter, AllocError>
        requires { HasWords self.now }
        ensures empty { IfOk result IsEmpty }
        ensures shape { IfOk result (HasSameShape self.now) }
    {
        let words = vec![in alloc; 0u64; self.words.len()]?;
        Ok(Filter {
            words,
            marks: self.marks,
        })
    }

    /// Inserts a key. It allocates nothing.
    pub fn insert(&mut self, key: &[u8])
        requires { HasWords self.old }
        ensures { Adds self.old self.new key.now }
    {
        mark(&mut self.words, self.marks, rapidhash_v3(key));
    }

    /// Returns whether the key may have been inserted. `false` is certain, and `true` is a guess.
    pub fn contains(&self, key: &[u8]) -> bool
        requires { HasWords self.now }
        ensures { result ≡ true ↔ Finds self.now key.now }
    {
        let hash = rapidhash_v3(key);
        for i in 0..self.marks {
            if !is_set(&self.words, step(hash, i)) {
                return false;
            }
        }
        true
    }

    /// Inserts the keys of another filter of the same shape.
    pub fn unite(&mut self, other: &Filter)
        requires words { HasWords self.old }
        requires shape { HasSameShape self.old other.now }
        ensures { Unites self.old other.now self.new }
    {
        for i in 0..self.words.len() {
            self.words[i] |= other.words[i];
        }
    }
}
