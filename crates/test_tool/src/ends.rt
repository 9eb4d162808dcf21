//! A run of the tool between a reader and a writer that may fail.

use crate::writers::OneByteWriter;
use rapidhash_tool::{CliFault, Minor, RapidhashVersion, run_file, run_stdin};
use std::alloc::Allocator;
use std::io::ErrorKind;
use test_portable::fakes::CountingReader;

/// V1 as `--v1` selects it.
pub const V1: RapidhashVersion = RapidhashVersion::V1 { protected: false };

/// V3 as it is without arguments.
pub const V3: RapidhashVersion = RapidhashVersion::V3 { protected: false };

/// The bytes that most tests hash.
pub const SOMETHING: &[u8] = b"something\n";

/// V1's line for them.
pub const SOMETHING_LINE: &[u8] = b"15965596575264898037\n";

/// V2's line for them.
pub const V2_LINE: &[u8] = b"9564150447897697404\n";

/// The line of V3 and its relatives for them.
pub const V3_LINE: &[u8] = b"11612086640089003834\n";

/// Returns the bytes 0 to 199.
pub fn counted() -> [u8; 200] {
    let mut bytes = [0u8; 200];
    for i in 0..200u8 {
        bytes[i as usize] = i;
    }
    bytes
}

/// Returns all versions.
pub fn versions(protected: bool) -> [RapidhashVersion; 7] {
    [
        RapidhashVersion::V1 { protected },
        RapidhashVersion::V2 {
            protected,
            version: Minor::M0,
        },
        RapidhashVersion::V2 {
            protected,
            version: Minor::M1,
        },
        RapidhashVersion::V2 {
            protected,
            version: Minor::M2,
        },
        RapidhashVersion::V3 { protected },
        RapidhashVersion::V3Micro { protected },
        RapidhashVersion::V3Nano { protected },
    ]
}

/// Returns a reader of the bytes that never fails.
pub fn whole(bytes: &[u8]) -> CountingReader<'_> {
    failing(bytes, 0, ErrorKind::Other)
}

/// Returns a reader of the bytes that fails at a read.
pub fn failing(bytes: &[u8], fails_at: u64, kind: ErrorKind) -> CountingReader<'_> {
    CountingReader::failing(bytes, 1, fails_at, kind)
}

/// Returns a writer that holds nothing yet and fails at a write.
pub fn writer(held: Vec<u8>, fails_at: u64) -> OneByteWriter {
    OneByteWriter {
        held,
        writes: 0,
        fails_at,
        flushes: 0,
    }
}

/// The result of a run, and its output.
#[derive(Drop)]
pub struct Ended {
    /// The run's result.
    pub result: Result<(), CliFault>,
    /// The bytes that its writer accepted.
    pub written: Vec<u8>,
}

/// Hashes standard input to a writer.
pub fn of_stdin<A: Allocator>(
    alloc: A,
    version: RapidhashVersion,
    input: CountingReader<'_>,
    out: OneByteWriter,
) -> Ended {
    let mut out = out;
    let result = run_stdin(alloc, &version, input, &mut out);
    Ended {
        result,
        written: out.held,
    }
}

/// Hashes a file of `len` bytes to a writer.
pub fn of_file(
    version: RapidhashVersion,
    reader: CountingReader<'_>,
    len: u64,
    out: OneByteWriter,
) -> Ended {
    let mut out = out;
    let result = run_file(&version, reader, len, &mut out);
    Ended {
        result,
        written: out.held,
    }
}
