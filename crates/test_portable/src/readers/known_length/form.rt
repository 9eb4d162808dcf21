//! The calls that hash a number of bytes of a reader.

use crate::fakes::CountingReader;
use crate::readers::outcome::{Outcome, with_flag};
use rapidhash_portable::reader::Source;
use rapidhash_portable::{v1, v2};
use std::io;

/// A call that hashes a number of bytes of a reader. The named calls have default secrets, and the
/// others those of the seed 3.
#[derive(Debug, Clone, Copy, PartialEq, Eq)]
pub(crate) enum Form {
    V1File,
    V1FileSeeded,
    V1FileInline,
    V1Source,
    V2File,
    V2FileSeeded,
    V20FileInline,
    V21FileInline,
    V22FileInline,
    V20Source,
    V21Source,
    V22Source,
}

/// All of them.
pub(crate) const FORMS: [Form; 12] = [
    Form::V1File,
    Form::V1FileSeeded,
    Form::V1FileInline,
    Form::V1Source,
    Form::V2File,
    Form::V2FileSeeded,
    Form::V20FileInline,
    Form::V21FileInline,
    Form::V22FileInline,
    Form::V20Source,
    Form::V21Source,
    Form::V22Source,
];

impl Form {
    /// The call itself.
    fn hash(self, reader: &mut CountingReader<'_>, len: u64) -> io::Result<u64> {
        let (one, two) = (&v1::RapidSecrets::seed(3), &v2::RapidSecrets::seed(3));
        match self {
            Form::V1File => v1::rapidhash_v1_file(reader, len),
            Form::V1FileSeeded => v1::rapidhash_v1_file_seeded(reader, len, one),
            Form::V1FileInline => v1::rapidhash_v1_file_inline::<_, true>(reader, len, one),
            Form::V2File => v2::rapidhash_v2_2_file(reader, len),
            Form::V2FileSeeded => v2::rapidhash_v2_2_file_seeded(reader, len, two),
            Form::V20FileInline => v2::rapidhash_v2_file_inline::<_, 0, true>(reader, len, two),
            Form::V21FileInline => v2::rapidhash_v2_file_inline::<_, 1, false>(reader, len, two),
            Form::V22FileInline => v2::rapidhash_v2_file_inline::<_, 2, true>(reader, len, two),
            _ => self.hash_source(Source::new(reader), len),
        }
    }

    /// The call of a source.
    fn hash_source(self, mut source: Source<&mut CountingReader<'_>>, len: u64) -> io::Result<u64> {
        let at = &mut source;
        let (one, two) = (&v1::RapidSecrets::seed(3), &v2::RapidSecrets::seed(3));
        let returned = match self {
            Form::V1Source => v1::rapidhash_v1_source::<_, true>(at, len, one),
            Form::V20Source => v2::rapidhash_v2_source::<_, 0, false>(at, len, two),
            Form::V21Source => v2::rapidhash_v2_source::<_, 1, true>(at, len, two),
            _ => v2::rapidhash_v2_source::<_, 2, false>(at, len, two),
        };
        with_flag(returned, source.failed())
    }

    /// The same hash of bytes in memory.
    pub(crate) fn of_bytes(self, bytes: &[u8]) -> u64 {
        let one = &v1::RapidSecrets::seed(3);
        let two = &v2::RapidSecrets::seed(3);
        match self {
            Form::V1File => v1::rapidhash_v1(bytes),
            Form::V1FileSeeded => v1::rapidhash_v1_seeded(bytes, one),
            Form::V1FileInline | Form::V1Source => {
                v1::rapidhash_v1_inline::<true, false, true, false>(bytes, one)
            }
            Form::V2File => v2::rapidhash_v2_2(bytes),
            Form::V2FileSeeded => v2::rapidhash_v2_2_seeded(bytes, two),
            Form::V20FileInline => v2::rapidhash_v2_inline::<0, true, false, true>(bytes, two),
            Form::V21FileInline => v2::rapidhash_v2_inline::<1, true, false, false>(bytes, two),
            Form::V22FileInline => v2::rapidhash_v2_inline::<2, true, false, true>(bytes, two),
            Form::V20Source => v2::rapidhash_v2_inline::<0, true, false, false>(bytes, two),
            Form::V21Source => v2::rapidhash_v2_inline::<1, true, false, true>(bytes, two),
            Form::V22Source => v2::rapidhash_v2_inline::<2, true, false, false>(bytes, two),
        }
    }

    /// The result of a call, and its requests.
    pub(crate) fn outcome(self, reader: CountingReader<'_>, len: u64) -> Outcome {
        let mut reader = reader;
        let returned = self.hash(&mut reader, len);
        Outcome::new(returned, &reader)
    }
}
