//! The calls that hash all that a reader has.

ghost use Rattle.std.specs.Prelude.{◌<◌};

use crate::fakes::CountingReader;
use crate::readers::outcome::{Outcome, with_flag};
use rapidhash_portable::reader::Source;
use rapidhash_portable::v3;
use rapidhash_portable::v3::RapidSecrets;
use std::io;

/// A call that hashes all that a reader has. The named call without a seed has default secrets, and
/// the others those of the seed 3.
#[derive(Debug, Clone, Copy, PartialEq, Eq)]
pub(crate) enum Form {
    File,
    FileSeeded,
    FileInline,
    FileSizedOne,
    FileSizedLarge,
    FileMicro,
    FileNano,
    Source,
    SourceSized,
    SourceMicro,
    SourceNano,
}

/// All of them.
pub(crate) const FORMS: [Form; 11] = [
    Form::File,
    Form::FileSeeded,
    Form::FileInline,
    Form::FileSizedOne,
    Form::FileSizedLarge,
    Form::FileMicro,
    Form::FileNano,
    Form::Source,
    Form::SourceSized,
    Form::SourceMicro,
    Form::SourceNano,
];

impl Form {
    /// The call itself.
    fn hash(self, reader: &mut CountingReader<'_>) -> io::Result<u64> {
        let secrets = &RapidSecrets::seed(3);
        match self {
            Form::File => v3::rapidhash_v3_file(reader),
            Form::FileSeeded => v3::rapidhash_v3_file_seeded(reader, secrets),
            Form::FileInline => v3::rapidhash_v3_file_inline::<_, true>(reader, secrets),
            Form::FileSizedOne => v3::rapidhash_v3_file_sized::<_, 1, false>(reader, secrets),
            Form::FileSizedLarge => v3::rapidhash_v3_file_sized::<_, 10000, true>(reader, secrets),
            Form::FileMicro => v3::rapidhash_v3_file_lanes::<_, 5, 100, true>(reader, secrets),
            Form::FileNano => v3::rapidhash_v3_file_lanes::<_, 3, 9000, false>(reader, secrets),
            _ => self.hash_source(Source::new(reader)),
        }
    }

    /// The call of a source.
    fn hash_source(self, mut source: Source<&mut CountingReader<'_>>) -> io::Result<u64> {
        let (at, secrets) = (&mut source, &RapidSecrets::seed(3));
        let returned = match self {
            Form::SourceSized => v3::rapidhash_v3_source_sized::<_, 113, true>(at, secrets),
            Form::SourceMicro => v3::rapidhash_v3_source_lanes::<_, 5, 7, false>(at, secrets),
            Form::SourceNano => v3::rapidhash_v3_source_lanes::<_, 3, 9000, true>(at, secrets),
            _ => v3::rapidhash_v3_source::<_, false>(at, secrets),
        };
        with_flag(returned, source.failed())
    }

    /// The same hash of bytes in memory.
    pub(crate) fn of_bytes(self, bytes: &[u8]) -> u64 {
        let secrets = &RapidSecrets::seed(3);
        match self {
            Form::File => v3::rapidhash_v3(bytes),
            Form::FileSeeded | Form::FileSizedOne | Form::Source => {
                v3::rapidhash_v3_seeded(bytes, secrets)
            }
            Form::FileInline | Form::FileSizedLarge | Form::SourceSized => {
                v3::rapidhash_v3_inline::<true, false, true>(bytes, secrets)
            }
            Form::FileMicro => v3::rapidhash_v3_micro_inline::<true, true>(bytes, secrets),
            Form::SourceMicro => v3::rapidhash_v3_micro_inline::<true, false>(bytes, secrets),
            Form::FileNano => v3::rapidhash_v3_nano_inline::<true, false>(bytes, secrets),
            Form::SourceNano => v3::rapidhash_v3_nano_inline::<true, true>(bytes, secrets),
        }
    }

    /// The number of bytes that a read requests: 8192 if the call names no size.
    pub(crate) fn size(self) -> usize
        ensures { 0 < result }
    {
        match self {
            Form::File | Form::FileSeeded | Form::FileInline | Form::Source => 8192,
            Form::FileSizedOne => 1,
            Form::FileSizedLarge => 10000,
            Form::FileMicro => 100,
            Form::FileNano | Form::SourceNano => 9000,
            Form::SourceSized => 113,
            Form::SourceMicro => 7,
        }
    }

    /// The result of a call, and its requests.
    pub(crate) fn outcome(self, reader: CountingReader<'_>) -> Outcome {
        let mut reader = reader;
        let returned = self.hash(&mut reader);
        Outcome::new(returned, &reader)
    }
}
