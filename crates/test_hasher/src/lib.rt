//! The tests of the in-memory hasher, its states, maps and sets, of the generator and of the laws:
//! properties without a contract. The numbers are worked out by hand, or are those of the Rust
//! crate.
#![tactic(auto)]

#[cfg(test)]
mod aliases;
#[cfg(test)]
mod blocks;
#[cfg(test)]
mod collections;
#[cfg(test)]
mod decimals;
#[cfg(test)]
mod generator;
#[cfg(test)]
mod keys;
#[cfg(test)]
mod laws;
#[cfg(test)]
mod states;
