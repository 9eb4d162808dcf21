//! Checks of the files in a list against their hashes.

ghost use Rattle.std.specs.Prelude.{◌≡◌, IfOk};
ghost use Rattle.std.specs.List.{list_all};
ghost use Rattle.rapidsum.specs.Check.{EachIsRight, Follows, IsRightOf, passes, shown_error};

use crate::algorithm::Algorithm;
use crate::entry::Entry;
use crate::problem::Problem;
use crate::store::{Store, hash_named};
use std::alloc::Allocator;
use std::io;
use std::io::ErrorKind;

/// The result for one line of a list.
#[derive(Clone, Copy, PartialEq, Eq)]
pub enum Verdict {
    /// The file has the hash of the line.
    Same,
    /// It has another hash.
    Different,
    /// There is no such file, and such lines are left out.
    Missing,
    /// The file could not be opened or read.
    Unreadable,
}

impl Verdict {
    /// Returns whether a check with this verdict passes.
    pub fn passes(self) -> bool
        ensures { result ≡ passes self }
    {
        matches!(self, Verdict::Same | Verdict::Missing)
    }
}

/// The results for all lines.
#[derive(Drop)]
pub struct Checked<A: Allocator> {
    /// A verdict for each line, in their order.
    pub verdicts: Vec<Verdict, A>,
    /// Whether no line has the verdict `Different` or `Unreadable`.
    pub passed: bool,
}

impl<A: Allocator> Checked<A> {
    /// Returns the number of lines with a verdict.
    pub fn count(&self, verdict: Verdict) -> usize {
        self.verdicts
            .iter()
            .filter(|other| **other == verdict)
            .count()
    }
}

/// A receiver of the result for each line.
pub trait Report {
    /// Reports a checked file. The error is that of a file that could not be opened or read.
    fn tell(
        &mut self,
        name: &[u8],
        verdict: Verdict,
        error: Option<io::Error>,
    ) -> Result<(), Problem>;
}

// The verdict of a line with this hash, from what was found, and the error to show.
fn verdict_of(
    found: io::Result<u64>,
    hash: u64,
    ignore_missing: bool,
) -> (Verdict, Option<io::Error>)
    ensures verdict { Follows result.0 ignore_missing hash found }
    ensures error { result.1 ≡ shown_error result.0 found }
{
    match found {
        Ok(found) if found == hash => (Verdict::Same, None),
        Ok(_) => (Verdict::Different, None),
        Err(error) if ignore_missing && error.kind() == ErrorKind::NotFound => {
            (Verdict::Missing, None)
        }
        Err(error) => (Verdict::Unreadable, Some(error)),
    }
}

// The verdict of a line, and the error of a file that could not be opened or read.
fn judge<S: Store, A: Allocator, B: Allocator + Copy>(
    alloc: B,
    store: &S,
    entry: &Entry<A>,
    given: Algorithm,
    ignore_missing: bool,
) -> (Verdict, Option<io::Error>)
    ensures { IsRightOf ignore_missing given (S.told store.now) entry.now result.0 }
{
    let algorithm = match entry.algorithm {
        Some(own) => own,
        None => given,
    };
    let found = hash_named(alloc, store, entry.name.as_slice(), algorithm);
    verdict_of(found, entry.hash, ignore_missing)
}

/// Hashes the file of each line and returns the verdicts. A line that names no version has that of
/// `given`.
///
/// If the bytes of a file are known, its line has the verdict `Same` only if their hash is the
/// line's, and `Different` only if it is not. All pass exactly when each line has the
/// verdict `Same`, or, with `ignore_missing`, `Missing`.
///
/// # Errors
///
/// If an allocation fails, or the report returns an error.
pub fn check_entries<S: Store, P: Report, A: Allocator, B: Allocator + Copy>(
    alloc: B,
    entries: &[Entry<A>],
    store: &S,
    given: Algorithm,
    ignore_missing: bool,
    report: &mut P,
) -> Result<Checked<B>, Problem>
    ensures right { IfOk result (λ checked.
        EachIsRight ignore_missing given (S.told store.now) entries.now checked.verdicts.items) }
    ensures passed { IfOk result (λ checked.
        checked.passed ≡ list_all passes checked.verdicts.items) }
{
    let mut verdicts = Vec::new(alloc);
    let mut passed = true;
    for entry in entries {
        let (verdict, error) = judge(alloc, store, entry, given, ignore_missing);
        report.tell(entry.name.as_slice(), verdict, error)?;
        passed &= verdict.passes();
        verdicts.push(verdict)?;
    }
    Ok(Checked { verdicts, passed })
}
