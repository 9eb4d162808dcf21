//! The result of a hash over a fake reader, and its requests.

use crate::fakes::CountingReader;
use std::io;
use std::io::{Error, ErrorKind};

/// The result of a call of a source. It is the error `Other` if the source's error flag, after the
/// call, does not show whether a read failed.
pub(crate) fn with_flag(returned: io::Result<u64>, flag: bool) -> io::Result<u64> {
    let kind = returned.map_err(|error| error.kind());
    let failed = kind.is_err() && kind != Err(ErrorKind::UnexpectedEof);
    if flag == failed {
        kind.map_err(Error::from)
    } else {
        Err(Error::from(ErrorKind::Other))
    }
}

/// The result of a call, the number of its reads, the largest request, and the number of bytes
/// left.
#[derive(Clone, Copy, PartialEq, Eq)]
pub(crate) struct Outcome {
    pub(crate) returned: Result<u64, ErrorKind>,
    pub(crate) reads: u64,
    pub(crate) longest: usize,
    pub(crate) left: usize,
}

impl Outcome {
    /// The outcome of a call, from its result and the reader after the call.
    pub(crate) fn new(returned: io::Result<u64>, reader: &CountingReader<'_>) -> Self {
        Outcome {
            returned: returned.map_err(|error| error.kind()),
            reads: reader.reads,
            longest: reader.longest,
            left: reader.left.len(),
        }
    }
}
