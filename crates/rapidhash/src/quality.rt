//! The hasher and the states with the avalanche: as `fast`, and each write of bytes and each hash
//! is mixed once more.
//!
//! ```
//! let mut hasher = quality::RapidHasher::default();
//! hasher.write(b"user:4711");
//! let hash = hasher.finish();
//! ```
//!
//! A number that a program stores makes the same state in each of its runs, so a user stays in one
//! shard:
//!
//! ```
//! let secrets = RapidSecrets::seed(kept);
//! let state = quality::SeedableState::custom(secrets.seed, &secrets.secrets);
//! let shard = shard(state.hash_one(user), 64);
//! ```

use crate::inner;

/// The hasher with the avalanche.
pub type RapidHasher<'s> = inner::RapidHasher<'s, true, true, false, false>;

/// Makes hashers of the next seed of a [`crate::inner::SeedSource`].
pub type RandomState<'s> = inner::RandomState<'s, true, true, false, false>;

/// Makes hashers of the caller's seed.
pub type SeedableState<'s> = inner::SeedableState<'s, true, true, false, false>;

/// Makes hashers of the seed that a program made once.
pub type GlobalState<'s> = inner::GlobalState<'s, true, true, false, false>;
