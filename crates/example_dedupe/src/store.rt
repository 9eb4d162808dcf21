//! A source of files, and their fingerprints.

ghost use Rattle.std.specs.Prelude.{◌≡◌, ℕ, List, Option, IfOk, IfSome, length};

use std::io;
use std::io::Read;

/// Files by their numbers.
pub trait Store {
    /// The reader of a file.
    type Reader: Read + Drop;

    // The bytes of a file, if they are known. All readers of a file have the same bytes.
    ghost bytes: { Self → ℕ → Option (List ℕ) };

    /// Returns the number of bytes of a file.
    fn size(&self, file: usize) -> u64
        ensures { IfSome (bytes self.now file) (λ xs. result ≡ length xs) };

    /// Returns a reader at the start of a file.
    fn open(&self, file: usize) -> io::Result<Self::Reader>
        ensures { IfOk result (λ reader.
            Self.Reader.remaining reader ≡ bytes self.now file) };
}

/// A number computed from a file's bytes. The only requirement is that equal bytes have equal
/// numbers.
pub trait Fingerprint {
    // The fingerprint of some bytes.
    ghost number: { Self → List ℕ → ℕ };

    /// Returns the fingerprint of all bytes that a reader has left.
    fn of<R: Read + Drop>(&self, reader: R) -> io::Result<u64>
        ensures { IfOk result (λ found. IfSome (R.remaining reader) (λ xs.
            found ≡ number self.now xs)) };
}
