//! The portable hashes of rapidhash, each proved equal to one definition in which every lane folds
//! its own 16-byte pairs alone (`specs/Hash.antt`).
//!
//! - [`v1`] and [`v2`] hold the hashes of a slice and of a reader, [`v3`] those of pieces too.
//! - [`reader`] holds the reader with an error flag that the hashes of a reader need.
//! - [`seeding`] makes secrets and seeds from random words.
//! - [`util`] holds the reads and the multiply that all of it uses.
//! - [`form`] holds the types that the definition uses.
//! - [`kernel`] holds the hashes of a slice as the definition has them, with a seed and secrets.
//! - [`in_memory`] holds the hash that `RapidHasher::write` of the crate `rapidhash` absorbs.
//!
//! The rows (`lanes`), what follows the rows (`tail`), the words that a message ends in (`words`),
//! the reads of a known length (`known_length`) and the arithmetic of secrets (`secrets`) are
//! private.
#![tactic(auto)]

mod crc;
pub mod form;
pub mod in_memory;
pub mod kernel;
mod known_length;
mod lanes;
pub mod reader;
mod secrets;
pub mod seeding;
mod tail;
pub mod util;
pub mod v1;
pub mod v2;
pub mod v3;
mod words;
