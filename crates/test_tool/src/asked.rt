//! The requests of a run to its reader and its writer: no read past the hashed bytes or past the
//! end, and no flush.

use crate::ends::{SOMETHING, counted, versions, whole, writer};
use rapidhash_tool::{run_file, run_help, run_stdin};

// V1 and V2 read a file's first `len` bytes, and make no read after the one that completes them.
#[test]
fn reads_up_to_a_length(rt: HostRuntime) {
    let bytes = counted();
    for version in versions(false) {
        if !version.needs_length() {
            continue;
        }
        for len in [0u8, 1, 3, 10, 16, 17, 48, 49, 64, 81, 112, 113, 199, 200] {
            let (of_len, behind) = bytes.split_at(usize::from(len));
            let mut reader = whole(&bytes);
            let hash = version.hash_file(&mut reader, u64::from(len));
            assert!(rt; reader.reads == u64::from(len), "{version:?} at {len}");
            assert!(rt; reader.left == behind, "{version:?} at {len}");
            let mut slice: &[u8] = &bytes;
            assert!(rt; version.hash_file(&mut slice, u64::from(len)) == hash);
            assert!(rt; slice == behind, "{version:?} at {len}");
            assert!(rt; version.hash_stdin(rt.alloc(), of_len) == hash);
        }
    }
}

// The bytes that a read requests: the capacity of a Linux pipe.
const PIECE: usize = 65536;

// If the input is read to its end, a read per byte is followed by one that finds the end.
#[test]
fn reads_up_to_the_end(rt: HostRuntime) {
    let bytes = counted();
    for version in versions(false) {
        for count in [0u8, 1, 10, 112, 113, 200] {
            let (all, _) = bytes.split_at(usize::from(count));
            let mut input = whole(all);
            let of_stdin = version.hash_stdin(rt.alloc(), &mut input);
            assert!(rt; of_stdin.is_ok());
            assert!(rt;
                input.reads == u64::from(count) + 1,
                "{version:?} at {count}"
            );
            assert!(rt; input.longest == PIECE, "{version:?} at {count}");
            if version.needs_length() {
                continue;
            }
            let mut reader = whole(all);
            assert!(rt; version.hash_file(&mut reader, u64::from(count)) == of_stdin);
            assert!(rt;
                reader.reads == u64::from(count) + 1,
                "{version:?} at {count}"
            );
            assert!(rt; reader.longest == PIECE, "{version:?} at {count}");
        }
    }
}

// Nothing is flushed, after a whole line or after a write that failed.
#[test]
fn no_flush(rt: HostRuntime) {
    for fails_at in [0, 1, 5] {
        for version in versions(false) {
            let mut out = writer(Vec::new(rt.alloc()), fails_at);
            let of_stdin = run_stdin(rt.alloc(), &version, whole(SOMETHING), &mut out);
            assert!(rt; out.flushes == 0, "{version:?} from standard input");
            let mut out = writer(Vec::new(rt.alloc()), fails_at);
            assert!(rt; run_file(&version, whole(SOMETHING), 10, &mut out) == of_stdin);
            assert!(rt; out.flushes == 0, "{version:?} from a file");
            assert!(rt; of_stdin.is_ok() == (fails_at == 0));
        }
        let mut out = writer(Vec::new(rt.alloc()), fails_at);
        assert!(rt; run_help(&mut out).is_ok() == (fails_at == 0));
        assert!(rt; out.flushes == 0, "the help");
    }
}
