//! Tests of the portable hashes of slices, pieces and readers.
//!
//! The counts of chunk steps are contracts ([`counts`]), and so is the product without wider words
//! ([`product`]); the rest is in no contract, with numbers worked out by hand or those of the Rust
//! crate.
#![tactic(auto)]

pub mod counts;
pub mod fakes;
pub mod product;
#[cfg(test)]
mod readers;
#[cfg(test)]
mod secrets;
#[cfg(test)]
mod stream;
#[cfg(test)]
mod values;
