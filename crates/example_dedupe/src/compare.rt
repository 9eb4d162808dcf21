//! The comparison of two readers.

ghost use Rattle.std.specs.Prelude.{◌≡◌, ◌≢◌, ◌↔◌, ◌<◌, ◌≤◌, true, IsTrue, IfOk, IfNone, IfSome, length, take};
ghost use Rattle.std.specs.Io.KnownBytes.{Consumes, IsAtEnd};
ghost use Rattle.example_dedupe.specs.Bytes.{SameBytes, SharesFront};

use std::io;
use std::io::{ErrorKind, Read};

// The number of bytes of each reader that are compared at once.
const PIECE: usize = 16384;

// Reads until the buffer is full or the reader ends, then returns the number of bytes.
fn fill<R: Read>(reader: &mut R, buf: &mut [u8]) -> io::Result<usize>
    ensures within { IfOk result (λ count. count ≤ length buf.new) }
    ensures taken { IfOk result (λ count.
        Consumes (R.remaining reader.old) (R.remaining reader.new) (take count buf.new)) }
    ensures end { IfOk result (λ count.
        count < length buf.new → IsAtEnd (R.remaining reader.new)) }
{
    let mut at = 0;
    'reads: while at < buf.len() {
        match reader.read(&mut buf[at..]) {
            Ok(0) => return Ok(at),
            Ok(n) => at += n,
            Err(error) => return Err(error),
        }
    }
    Ok(at)
}

// Compares the next piece of each reader. If that does not decide, both pieces were equal, and
// there may be more.
fn compare_piece<A: Read, B: Read>(
    first: &mut A,
    second: &mut B,
    left: &mut [u8],
    right: &mut [u8],
) -> io::Result<Option<bool>>
    requires { length left.old ≡ length right.old }
    ensures decided { IfOk result (λ answer. IfSome answer (λ same.
        SameBytes same (A.remaining first.old) (B.remaining second.old))) }
    ensures more { IfOk result (λ answer. IfNone answer (SharesFront
        (A.remaining first.old) (A.remaining first.new)
        (B.remaining second.old) (B.remaining second.new))) }
{
    let left_count = fill(first, left)?;
    let right_count = fill(second, right)?;
    if left[..left_count] != right[..right_count] {
        return Ok(Some(false));
    }
    if left_count < left.len() {
        return Ok(Some(true));
    }
    Ok(None)
}

/// Returns whether two readers have the same bytes left. It reads no further than the piece in
/// which they differ, holds two pieces of them, and allocates nothing.
///
/// A failed read of either is the error. So is a reader that has no end.
#[inline(never)]
pub fn same_bytes<A: Read, B: Read>(first: &mut A, second: &mut B) -> io::Result<bool>
    ensures { IfOk result (λ same. IfSome (A.remaining first.old) (λ xs.
        IfSome (B.remaining second.old) (λ ys. IsTrue same ↔ (xs ≡ ys)))) }
{
    let mut left = [0u8; PIECE];
    let mut right = [0u8; PIECE];
    for _ in 0..u64::MAX {
        if let Some(same) = compare_piece(first, second, &mut left, &mut right)? {
            return Ok(same);
        }
    }
    Err(io::Error::from(ErrorKind::FileTooLarge))
}
