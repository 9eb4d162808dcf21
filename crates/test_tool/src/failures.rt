//! Reads, writes and allocations that fail, each in turn.

ghost use Rattle.std.specs.Prelude.{◌<◌};

use crate::ends::{
    Ended, SOMETHING, SOMETHING_LINE, V2_LINE, V3, V3_LINE, failing, of_file, of_stdin, versions,
    whole, writer,
};
use linked_list_allocator::LocalHeap;
use rapidhash_tool::{CliFault, RapidhashVersion, run_help, run_stdin};
use std::io::ErrorKind;
use std::process::Abort;
use test_portable::fakes::CountingReader;

// Forty bytes: a vector that accepts them one by one grows four times.
const FORTY: &[u8] = b"a line of forty bytes, not one byte more";

// Each byte of the line is a separate write, and each of them fails in turn.
fn each_write_fails(rt: &(impl Abort + AllocGlobal), version: RapidhashVersion, line: &[u8]) {
    let mut fails_at = 1u64;
    for kept in 0..line.len() {
        let out = writer(Vec::new(rt.alloc()), fails_at);
        let of_stdin = of_stdin(rt.alloc(), version, whole(SOMETHING), out);
        let out = writer(Vec::new(rt.alloc()), fails_at);
        let of_file = of_file(version, whole(SOMETHING), 10, out);
        assert!(rt; of_stdin.result == Err(CliFault::Write), "at {version:?}");
        assert!(rt; of_file.result == Err(CliFault::Write), "at {version:?}");
        assert!(rt; of_stdin.written.as_slice() == &line[..kept]);
        assert!(rt; of_file.written.as_slice() == &line[..kept]);
        fails_at = fails_at.saturating_add(1);
    }
    let out = writer(Vec::new(rt.alloc()), fails_at);
    let ended = of_stdin(rt.alloc(), version, whole(SOMETHING), out);
    assert!(rt; ended.result == Ok(()), "at {version:?}");
    assert!(rt; ended.written.as_slice() == line);
}

#[test]
fn writes_that_fail(rt: HostRuntime) {
    for version in versions(false) {
        let line = match version {
            RapidhashVersion::V1 { .. } => SOMETHING_LINE,
            RapidhashVersion::V2 { .. } => V2_LINE,
            _ => V3_LINE,
        };
        each_write_fails(&rt, version, line);
    }
}

#[test]
fn writes_of_the_help_that_fail(rt: HostRuntime) {
    for fails_at in [1, 2, 100] {
        let mut out = writer(Vec::new(rt.alloc()), fails_at);
        assert!(rt; run_help(&mut out) == Err(CliFault::Write));
        assert!(rt; out.held.len() as u64 == fails_at - 1);
    }
    let mut out = writer(Vec::new(rt.alloc()), 0);
    assert!(rt; run_help(&mut out) == Ok(()));
    assert!(rt; out.held.as_slice().starts_with(b"Usage: rapidhash "));
}

// Ten reads return a byte each, and the eleventh finds the end. No read follows one that failed.
#[test]
fn reads_that_fail(rt: HostRuntime) {
    for version in versions(true) {
        for fails_at in 1..12u64 {
            for kind in [ErrorKind::Other, ErrorKind::Interrupted] {
                let mut input = failing(SOMETHING, fails_at, kind);
                let mut out = writer(Vec::new(rt.alloc()), 0);
                let result = run_stdin(rt.alloc(), &version, &mut input, &mut out);
                assert!(rt; result == Err(CliFault::Stdin), "at {version:?}");
                assert!(rt; input.reads == fails_at, "at {version:?}");
                assert!(rt; out.held.is_empty());
            }
        }
        let input = failing(SOMETHING, 12, ErrorKind::Other);
        let out = writer(Vec::new(rt.alloc()), 0);
        let ended = of_stdin(rt.alloc(), version, input, out);
        assert!(rt; ended.result == Ok(()), "at {version:?}");
    }
}

// A file of a known length is read no further than that.
#[test]
fn reads_of_a_file_that_fail(rt: HostRuntime) {
    for version in versions(false) {
        let last = if version.needs_length() { 10 } else { 11 };
        for fails_at in 1..last + 1 {
            let out = writer(Vec::new(rt.alloc()), 0);
            let reader = failing(SOMETHING, fails_at, ErrorKind::Interrupted);
            let ended = of_file(version, reader, 10, out);
            assert!(rt; ended.result == Err(CliFault::File), "at {version:?}");
            assert!(rt; ended.written.is_empty());
        }
        let out = writer(Vec::new(rt.alloc()), 0);
        let reader = failing(SOMETHING, last + 1, ErrorKind::Other);
        let ended = of_file(version, reader, 10, out);
        assert!(rt; ended.result == Ok(()), "at {version:?}");
    }
}

// A run over a heap with room for a number of blocks of 16 bytes, and the number of its reads. It
// frees what it allocated.
fn in_a_heap(
    rt: &(impl Abort + AllocGlobal),
    version: RapidhashVersion,
    blocks: usize,
    input: CountingReader<'_>,
) -> (Ended, u64)
    requires { blocks < 16 }
{
    let heap = LocalHeap::new(rt.alloc(), 16 * (blocks + 1)).expect(rt, "no memory for a heap");
    // A heap has one block at least, so a byte needs one.
    let _taken = Box::new(&heap, 0u8).expect(rt, "no room for a byte");
    assert!(rt; heap.free() == 16 * blocks);
    let mut input = input;
    let mut out = writer(Vec::new(rt.alloc()), 0);
    let result = run_stdin(&heap, &version, &mut input, &mut out);
    assert!(rt; heap.free() == 16 * blocks, "{version:?} keeps memory");
    let written = out.held;
    (Ended { result, written }, input.reads)
}

// The numbers of reads of the runs that returned `Memory`, in heaps with more and more room. They
// write nothing, and all other runs, in the larger heaps, print the line.
fn reads_at_failures(
    rt: &(impl Abort + AllocGlobal),
    version: RapidhashVersion,
    line: &[u8],
) -> Vec<u64> {
    let mut too_small = 0usize;
    let mut all_reads = Vec::new(rt.alloc());
    for blocks in 0..16usize {
        let (ended, reads) = in_a_heap(rt, version, blocks, whole(FORTY));
        let written = ended.written.as_slice();
        if ended.result == Ok(()) {
            assert!(rt; written == line, "{version:?} with {blocks} blocks");
            continue;
        }
        assert!(rt; ended.result == Err(CliFault::Memory), "at {version:?}");
        assert!(rt; written.is_empty());
        assert!(rt; too_small == blocks, "{version:?} prints with fewer blocks");
        too_small = blocks + 1;
        if all_reads.last() != Some(&reads) {
            all_reads.push(reads).expect(rt, "no memory for a number");
        }
    }
    assert!(rt; too_small < 16, "{version:?} never prints");
    all_reads
}

// The vector that V1 and V2 read into has room for 8 bytes at first, and for twice as many at each
// growth: each of its four allocations fails once.
#[test]
fn memory_that_is_refused(rt: HostRuntime) {
    let growths: &[u64] = &[1, 9, 17, 33];
    for version in versions(false) {
        let (line, reads): (&[u8], &[u64]) = match version {
            RapidhashVersion::V1 { .. } => (b"15996196282664043312\n", growths),
            RapidhashVersion::V2 { .. } => (b"7987881167509358080\n", growths),
            _ => (b"14936812745944957561\n", &[]),
        };
        let all_reads = reads_at_failures(&rt, version, line);
        assert!(rt; all_reads.as_slice() == reads, "at {version:?}");
    }
}

// In a heap of 7 blocks the 32 bytes that were read cannot move into twice the room, since the free
// blocks lie apart. Room for one byte more fits, so the message is hashed all the same.
#[test]
fn less_than_twice_the_room(rt: HostRuntime) {
    for version in versions(false) {
        let (ended, reads) = in_a_heap(&rt, version, 7, whole(FORTY));
        assert!(rt; ended.result == Ok(()), "at {version:?}");
        assert!(rt; reads == 41, "at {version:?}");
    }
}

// A piece is read before memory for it is allocated. So without any memory an empty input has its
// hash, and if the first read fails, that is the error and not the memory.
#[test]
fn reads_before_memory(rt: HostRuntime) {
    for version in versions(false) {
        let line: &[u8] = match version {
            RapidhashVersion::V1 { .. } => b"6516417773221693515\n",
            _ => b"232177599295442350\n",
        };
        let (ended, reads) = in_a_heap(&rt, version, 0, whole(b""));
        assert!(rt; ended.result == Ok(()), "at {version:?}");
        assert!(rt; ended.written.as_slice() == line, "at {version:?}");
        assert!(rt; reads == 1, "at {version:?}");
        for kind in [ErrorKind::Other, ErrorKind::Interrupted] {
            let (ended, reads) = in_a_heap(&rt, version, 0, failing(FORTY, 1, kind));
            assert!(rt; ended.result == Err(CliFault::Stdin), "at {version:?}");
            assert!(rt; ended.written.is_empty());
            assert!(rt; reads == 1, "at {version:?}");
        }
    }
}

// If nothing can be written, the input is still read first.
#[test]
fn a_read_that_fails_before_a_write(rt: HostRuntime) {
    let input = failing(SOMETHING, 3, ErrorKind::Other);
    let out = writer(Vec::new(rt.alloc()), 1);
    let ended = of_stdin(rt.alloc(), V3, input, out);
    assert!(rt; ended.result == Err(CliFault::Stdin));
}
