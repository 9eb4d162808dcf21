//! The line of a file, printed.

ghost use Rattle.std.specs.Prelude.{IfSome, OnOk};
ghost use Rattle.std.specs.Io.KnownBytes.{Appends};
ghost use Rattle.rapidsum.specs.Algorithm.{hash_of};
ghost use Rattle.rapidsum.specs.Line.{sum_of};

use crate::algorithm::Algorithm;
use crate::line::{Style, sum_of};
use crate::problem::Problem;
use crate::store::{Store, hash_named};
use std::alloc::Allocator;
use std::io::Write;

/// Writes the line of a file.
///
/// # Errors
///
/// If the file cannot be read, an allocation fails, or a write fails. After a failed write part of
/// the line may have been written, after another error nothing.
pub fn write_sum<S: Store, A: Allocator + Copy, W: Write>(
    alloc: A,
    store: &S,
    name: &[u8],
    algorithm: Algorithm,
    style: Style,
    out: &mut W,
) -> Result<(), Problem>
    ensures { OnOk result (IfSome (S.told store.now name.now) (λ bytes.
        Appends (W.contents out.old) (W.contents out.new)
        (sum_of style.layout style.zero algorithm (hash_of algorithm bytes) name.now))) }
{
    let hash = hash_named(alloc, store, name, algorithm).map_err(Problem::Read)?;
    let sum = sum_of(alloc, style, algorithm, hash, name)?;
    out.write_all(sum.as_slice()).map_err(Problem::Write)
}
