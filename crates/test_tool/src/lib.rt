//! Tests of the command line: its arguments, output, errors, reads and writes.
//!
//! The hashes are those of the Rust crate; the numbers and texts of the errors are written out.
#![tactic(auto)]

#[cfg(test)]
mod asked;
#[cfg(test)]
mod cli;
#[cfg(test)]
mod ends;
#[cfg(test)]
mod failures;
#[cfg(test)]
mod faults;
#[cfg(test)]
mod lines;
#[cfg(test)]
mod plans;
pub mod writers;
