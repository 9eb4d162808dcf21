//! The hasher and the states of [`crate::RapidHashMap`], without the avalanche: integers are packed
//! (`SPONGE`), and neither a write of bytes nor the hash is mixed once more. How evenly the bits of
//! a hash are distributed is neither proved nor measured here; `quality` mixes once more.
//!
//! ```
//! let mut hasher = fast::RapidHasher::default();
//! hasher.write(b"user:4711");
//! let hash = hasher.finish();
//! ```
//!
//! A state hashes one value at once:
//!
//! ```
//! let state = fast::SeedableState::fixed();
//! let hash = state.hash_one("user:4711");
//! ```

use crate::inner;

/// The hasher of [`crate::RapidHashMap`], without the avalanche.
pub type RapidHasher<'s> = inner::RapidHasher<'s, false, true, false, false>;

/// Makes hashers of the next seed of a [`crate::inner::SeedSource`].
pub type RandomState<'s> = inner::RandomState<'s, false, true, false, false>;

/// Makes hashers of the caller's seed.
pub type SeedableState<'s> = inner::SeedableState<'s, false, true, false, false>;

/// Makes hashers of the seed that a program made once.
pub type GlobalState<'s> = inner::GlobalState<'s, false, true, false, false>;
