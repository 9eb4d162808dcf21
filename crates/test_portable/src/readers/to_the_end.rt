//! The hashes of all that a reader has, by V3 and its relatives: the bytes that each requests, and
//! the result if a read fails.

mod form;

use crate::fakes::CountingReader;
use crate::readers::outcome::Outcome;
use form::{FORMS, Form};
use rapidhash::rng::RapidRng;
use rapidhash_portable::reader::Source;
use rapidhash_portable::v3;
use std::io::ErrorKind;
use std::process::Abort;
use std::test::Fail;

/// Hashes ten bytes, one per read; an eleventh read finds the end. Each read in turn fails: its own
/// error is returned, the bytes before it are gone, and no read follows.
fn each_read_fails(rt: &impl Abort, form: Form, kind: ErrorKind) {
    for fails_at in 1..12u64 {
        let reader = CountingReader::failing(b"something\n", 1, fails_at, kind);
        let want = Outcome {
            returned: Err(kind),
            reads: fails_at,
            longest: form.size(),
            left: 11usize.saturating_sub(fails_at as usize),
        };
        assert!(rt; form.outcome(reader) == want, "{form:?}");
    }
}

/// A failed read is not retried, even if it was only interrupted.
#[test]
fn a_failed_read_is_returned_at_once(rt: HostRuntime) {
    for form in FORMS {
        each_read_fails(&rt, form, ErrorKind::BrokenPipe);
        each_read_fails(&rt, form, ErrorKind::Interrupted);
    }
}

/// Over a reader that returns all requested bytes, a call makes one read per buffer, the last one
/// partly filled, and one for the end. Each requests the call's own number of bytes.
fn reads_of_buffers(rt: &impl Abort, form: Form, bytes: &[u8]) {
    let size = form.size();
    for n in [0usize, 1, 112, 113, 8191, 8192, 8193, 25000] {
        let message = &bytes[..n.min(bytes.len())];
        let want = Outcome {
            returned: Ok(form.of_bytes(message)),
            reads: n.div_ceil(size) as u64 + 1,
            longest: size,
            left: 0,
        };
        let reader = CountingReader::new(message, usize::MAX);
        assert!(rt; form.outcome(reader) == want, "{form:?} {n}");
    }
}

/// No read requests more or less than the size, and none follows the one that returned 0.
#[test]
fn each_read_asks_for_the_size(rt: HostRuntime) {
    let bytes = [3; 25000];
    for form in FORMS {
        reads_of_buffers(&rt, form, &bytes);
    }
}

/// Over a reader of one byte per read, each byte is a read, and the end another.
fn reads_of_single_bytes(rt: &impl Abort, form: Form, bytes: &[u8]) {
    for n in [0usize, 1, 16, 17, 113, 9000] {
        let message = &bytes[..n.min(bytes.len())];
        let want = Outcome {
            returned: Ok(form.of_bytes(message)),
            reads: n as u64 + 1,
            longest: form.size(),
            left: 0,
        };
        let reader = CountingReader::new(message, 1);
        assert!(rt; form.outcome(reader) == want, "{form:?} {n}");
    }
}

#[test]
fn no_read_after_the_end(rt: HostRuntime) {
    let bytes = [3; 9000];
    for form in FORMS {
        reads_of_single_bytes(&rt, form, &bytes);
    }
}

/// The first length at which a call over a reader returns another hash than that of the bytes.
fn first_difference(form: Form, bytes: &[u8]) -> Option<usize> {
    for n in 0..bytes.len() + 1 {
        let message = &bytes[..n];
        let reader = CountingReader::new(message, usize::MAX);
        if form.outcome(reader).returned != Ok(form.of_bytes(message)) {
            return Some(n);
        }
    }
    None
}

/// Each call over a reader returns the hash of its bytes, at every length up to 1024.
#[test]
fn compare_rapidhash_file(rt: HostRuntime) -> Result<(), Fail> {
    let mut rng = RapidRng::new(0);
    let bytes: Vec<u8> = (0..1024u32)
        .map(|_| (rng.next() % 256) as u8)
        .collect(rt.alloc())?;
    for form in FORMS {
        assert!(rt; first_difference(form, &bytes).is_none(), "{form:?}");
    }
    Ok(())
}

/// Short reads gather in the buffer, and no read requests less than half of it: 300 bytes, three
/// per read, into 8.
#[test]
fn gathered_reads_are_not_cut_short(rt: HostRuntime) -> Result<(), Fail> {
    let bytes = [7; 300];
    let secrets = v3::RapidSecrets::seed(3);
    let mut reader = CountingReader::new(&bytes, 3);
    let hash = v3::rapidhash_v3_file_sized::<&mut CountingReader, 8, false>(&mut reader, &secrets)?;
    assert!(rt; hash == v3::rapidhash_v3_seeded(&bytes, &secrets));
    assert!(rt; (reader.reads, reader.longest, reader.left.len()) == (101, 8, 0));
    Ok(())
}

/// With a seed and secrets of 0 the hash of zeros depends on the length alone: the two halves of
/// the length times 0xaaaa_aaaa_aaaa_aaaa, by `^`.
#[test]
fn lengths_make_the_difference(rt: HostRuntime) -> Result<(), Fail> {
    let secrets = v3::RapidSecrets {
        seed: 0,
        secrets: [0; 7],
    };
    for (bytes, want) in [
        (&[0u8; 0][..], 0),
        (&[0; 1][..], 12297829382473034410),
        (&[0; 2][..], 6148914691236517205u64),
    ] {
        let mut source = Source::new(bytes);
        assert!(rt; v3::rapidhash_v3_source::<&[u8], false>(&mut source, &secrets)? == want);
        assert!(rt; v3::rapidhash_v3_file_seeded::<&[u8]>(bytes, &secrets)? == want);
    }
    Ok(())
}
