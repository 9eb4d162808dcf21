//! The library rapidhash under the names of the Rust crate.
//!
//! - [`v1`], [`v2`], [`v3`]: the portable hashes, whose values never change.
//! - [`form`]: the seven hashes as values, with their names.
//! - [`reader`]: the reader with an error flag that the hashes of a reader need.
//! - [`RapidHashMap`] and [`RapidHashSet`]: maps and sets over the fast hasher.
//! - [`ByteKey`]: a key of bytes, which they hash in one write.
//! - [`decimal`]: the shortest text of a decimal number, as a field of a key.
//! - [`key`]: one hash for a key of several fields, the same in every language.
//! - [`fast`], [`quality`]: the hasher and the states of maps, without and with an avalanche.
//! - [`shards`]: the shard or the bucket of a hash, the same in every language.
//! - [`fingerprints`]: a number for the rows of a table, in any order.
//! - [`inner`]: the hasher of maps, with every option.
//! - [`rng`]: a small generator.
//! - [`laws`]: laws of the hashes, each as a call.
//! - [`util`]: the reads and the multiply that the hashes use.
//!
//! ```
//! use rapidhash::shards::shard;
//! use rapidhash::v3::rapidhash_v3;
//!
//! let shard = shard(rapidhash_v3(b"user:4711"), 64);
//! ```
#![tactic(auto)]

mod collections;
pub mod decimal;
pub mod fast;
pub mod fingerprints;
pub mod inner;
pub mod key;
mod keys;
pub mod laws;
pub mod quality;
pub mod rng;
pub mod shards;

pub use collections::{HashMapExt, HashSetExt, RapidHashMap, RapidHashSet};
pub use keys::ByteKey;
pub use rapidhash_portable::{form, reader, util, v1, v2, v3};
