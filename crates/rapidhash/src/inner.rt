//! The hasher of maps, with every option, and the states that make it.
//!
//! - [`RapidHasher`] absorbs bytes and integers, and returns a hash of what it absorbed.
//! - [`GlobalState`], [`RandomState`] and [`SeedableState`] make hashers of a seed and secrets.
//! - [`GlobalSecrets`] and [`SeedSource`] are made once from two random words; states borrow them.
//!
//! Its four options are const parameters, the same for the hasher and for the states:
//!
//! - `AVALANCHE` mixes each write of bytes and the hash once more.
//! - `SPONGE` collects integers and mixes 128 bits at once, instead of one multiply for each.
//! - `COMPACT` folds one row per iteration instead of two: less code, the same values.
//! - With `PROTECTED`, a key cannot cancel earlier input by containing a secret.
//!
//! The values are those of the definition in `specs/Hasher.antt`. The Rust crate may change its own
//! in-memory values between versions: for hashes that programs of both share over time, use the
//! portable ones.

mod hasher;
mod sponge;
mod state;

pub use hasher::RapidHasher;
pub use rapidhash_portable::seeding::{GlobalSecrets, SeedSource};
pub use state::{GlobalState, RandomState, SeedableState, State};
