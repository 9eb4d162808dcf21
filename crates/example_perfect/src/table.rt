//! The table: a place of its own for each key of a fixed set.

ghost use Rattle.std.specs.Prelude.{◌≡◌, ◌↔◌, ◌<◌, ℕ, Some, true, length, IfOk};
ghost use Rattle.example_perfect.specs.Table.{HasRoom, IsKeyAt, IsPerfect};
ghost use Rattle.example_perfect.specs.Table.{bucket_of, place_in, place_of};

use crate::displace::displace;
use rapidhash::v3::{RapidSecrets, rapidhash_v3, rapidhash_v3_seeded};
use std::alloc::{AllocError, Global};

/// An error of a table's construction.
#[derive(Debug, thiserror::Error, Drop)]
pub enum BuildError {
    /// There are more than 2^32 - 2 keys.
    #[error("too many keys: more than 4294967294")]
    TooManyKeys,
    /// A key occurs twice.
    #[error("duplicate keys: {first} and {second}")]
    Twice {
        /// The index of the key.
        first: u32,
        /// The index of the same key further on.
        second: u32,
    },
    /// No seed was found that moves each key of a bucket to a free place.
    #[error("no seed found for a bucket")]
    GaveUp,
    /// An allocation failed.
    #[error("out of memory")]
    Memory(#[from] AllocError),
}

/// A table of the keys of a fixed set, with no more places than keys.
///
/// A key's hash selects its bucket. Each bucket has a seed, and the key's hash with that seed is
/// its place, where the key's index is stored.
#[derive(Drop)]
pub struct Table<'k> {
    keys: &'k [&'k [u8]],
    seeds: Vec<u32>,
    places: Vec<u32>,
}

/// Returns the bucket of a key.
#[tactic(auto, unfolding(crate::specs::Table::bucket_of))]
pub(crate) fn bucket(key: &[u8], buckets: usize) -> usize
    requires { 0 < buckets }
    ensures value { result ≡ bucket_of key.now buckets }
    ensures inside { result < buckets }
{
    (rapidhash_v3(key) % buckets as u64) as usize
}

/// Returns the place of a key with a seed.
#[tactic(auto, unfolding(crate::specs::Table::place_of))]
pub(crate) fn place(key: &[u8], seed: u32, places: usize) -> usize
    requires { 0 < places }
    ensures value { result ≡ place_of key.now seed places }
    ensures inside { result < places }
{
    let secrets = RapidSecrets::seed_cpp(seed as u64);
    (rapidhash_v3_seeded(key, &secrets) % places as u64) as usize
}

impl<'k> Table<'k> {
    /// Builds a table, and checks it before it is returned. It fails if no seed works.
    pub fn build(alloc: Global, keys: &'k [&'k [u8]]) -> Result<Table<'k>, BuildError>
        ensures { IfOk result (λ table. IsPerfect table × (table.keys ≡ keys.entry)) }
    {
        let displaced = displace(alloc, keys)?;
        let table = Table {
            keys,
            seeds: displaced.seeds,
            places: displaced.places,
        };
        if table.is_perfect() {
            Ok(table)
        } else {
            Err(BuildError::GaveUp)
        }
    }

    // Returns whether each key's place holds its index.
    fn is_perfect(&self) -> bool
        requires { HasRoom self.now }
        ensures { result ≡ true ↔ IsPerfect self.now }
    {
        for i in 0..self.keys.len() {
            let key = self.keys[i];
            if self.places[self.place(key)] as usize != i {
                return false;
            }
        }
        true
    }

    /// Returns the place of a key or of any other text. It is below the number of places.
    pub fn place(&self, key: &[u8]) -> usize
        requires { HasRoom self.now }
        ensures value { result ≡ place_in self.now key.now }
        ensures inside { result < length self.now.places.items }
    {
        let seed = self.seeds[bucket(key, self.seeds.len())];
        place(key, seed, self.places.len())
    }

    /// Returns the index of a key, or `None` for any other string.
    pub fn find(&self, key: &[u8]) -> Option<usize>
        requires { IsPerfect self.now }
        ensures { (i : ℕ) → (result ≡ Some i ↔ IsKeyAt self.now i key.now) }
    {
        let index = self.places[self.place(key)] as usize;
        if self.is_key_at(index, key) {
            Some(index)
        } else {
            None
        }
    }

    // Returns whether a key has this index.
    fn is_key_at(&self, index: usize, key: &[u8]) -> bool
        ensures { result ≡ true ↔ IsKeyAt self.now index key.now }
    {
        match self.keys.get(index) {
            Some(found) => *found == key,
            None => false,
        }
    }
}
