//! Replays: a list of steps by both calls, and allocations that fail.

use linked_list_allocator::LocalHeap;
use rapidhash::laws::{StreamOp, replay, replay_lanes};
use rapidhash_portable::v3::RapidSecrets;
use std::alloc::{AllocError, Allocator};
use std::process::Abort;
use std::test::Fail;

/// Seed 0 and secrets 0.
const ZEROS: RapidSecrets = RapidSecrets {
    seed: 0,
    secrets: [0; 7],
};

/// The hash of one byte 0 with these and an avalanche. That of no byte is 0.
const OF_ONE: u64 = 12297829382473034410;

/// The number of allocations of the vector of the hashes here: it has room for four of them, then
/// for eight, and so on.
const ALLOCATIONS: u32 = 18;

/// A replay with seven lanes or with five, which agree up to 80 bytes.
fn replayed<A: Allocator>(
    alloc: A,
    five_lanes: bool,
    ops: &[StreamOp<'_>],
) -> Result<Vec<u64, A>, AllocError> {
    if five_lanes {
        replay_lanes::<A, 5, true, false>(alloc, &ZEROS, ops)
    } else {
        replay::<A, true, false>(alloc, &ZEROS, ops)
    }
}

/// A number of times: the hash of no byte, and the hash of one byte.
fn pairs(rt: &impl AllocGlobal, count: usize) -> Result<Vec<StreamOp<'static>>, AllocError> {
    let mut ops = Vec::new(rt.alloc());
    for _ in 0..count {
        ops.push(StreamOp::Finish)?;
        ops.push(StreamOp::Write(&[0]))?;
        ops.push(StreamOp::Finish)?;
        ops.push(StreamOp::Reset)?;
    }
    Ok(ops)
}

/// Whether these are this many hashes, of no byte and of one byte by turns.
fn alternate(answers: &[u64], count: usize) -> bool {
    for i in 0..answers.len() {
        if answers[i] != i as u64 % 2 * OF_ONE {
            return false;
        }
    }
    answers.len() == count
}

/// Replays the steps in a heap with this many free bytes, a multiple of 16. Returns whether there
/// was room for the hashes, which are then the right ones. Either way each block is free again.
fn has_room(
    rt: &(impl Abort + AllocGlobal),
    bytes: usize,
    five_lanes: bool,
    ops: &[StreamOp<'_>],
) -> Result<bool, AllocError> {
    let heap = LocalHeap::new(rt.alloc(), bytes.saturating_add(16))?;
    // A heap has 16 bytes at least, so a byte needs these.
    let _taken = Box::new(&heap, 0u8)?;
    assert!(rt; heap.free() == bytes);
    let has_room = match replayed(&heap, five_lanes, ops) {
        Ok(answers) => {
            assert!(rt; alternate(&answers, ops.len() / 2));
            true
        }
        Err(_) => false,
    };
    assert!(rt; heap.free() == bytes);
    Ok(has_room)
}

/// Each allocation in turn fails, in a heap that has room only for the ones before it: the replay
/// returns the error, while one with no more hashes than these allocations hold succeeds in the
/// same heap. The first heap with room for all of them is enough for the whole list.
fn each_allocation_fails(
    rt: &(impl Abort + AllocGlobal),
    five_lanes: bool,
) -> Result<(), AllocError> {
    let ops = pairs(rt, 1 << ALLOCATIONS)?;
    assert!(rt; !has_room(rt, 0, five_lanes, &ops)?);
    for made in 1..ALLOCATIONS {
        let answers = 2usize.wrapping_shl(made);
        let few = &ops[..answers.saturating_mul(2).min(ops.len())];
        let bytes = held_by(answers);
        assert!(rt; !has_room(rt, bytes, five_lanes, &ops)?, "{made}");
        assert!(rt; has_room(rt, bytes, five_lanes, few)?, "{made}");
    }
    assert!(rt; has_room(rt, held_by(2 << ALLOCATIONS), five_lanes, &ops)?);
    Ok(())
}

/// The number of bytes of the vector's blocks until it has room for this many hashes. A block is
/// freed only once the next one is there, and all freed blocks together are too small for the one
/// after.
fn held_by(answers: usize) -> usize {
    answers.saturating_sub(2).saturating_mul(16)
}

/// Eighteen allocations of each call, for half a million hashes.
#[test]
fn replay_reports_allocation_failure(rt: HostRuntime) -> Result<(), Fail> {
    each_allocation_fails(&rt, false)?;
    each_allocation_fails(&rt, true)?;
    Ok(())
}

/// The hashes of both calls are worked out by hand, with seed 1, secrets 0 and no avalanche.
#[test]
fn a_run_of_writes_and_resets(rt: HostRuntime) -> Result<(), Fail> {
    let secrets = RapidSecrets {
        seed: 1,
        secrets: [0; 7],
    };
    let ops = [
        StreamOp::Write(&[1, 2]),
        StreamOp::Finish,
        StreamOp::Write(&[3]),
        StreamOp::Finish,
        StreamOp::Reset,
        StreamOp::Finish,
    ];
    let answers = replay::<_, false, false>(rt.alloc(), &secrets, &ops)?;
    assert!(rt; answers.as_slice() == [105553116266502, 105553116266505, 0].as_slice());
    let answers = replay_lanes::<_, 7, false, false>(rt.alloc(), &secrets, &ops)?;
    assert!(rt; answers.as_slice() == [105553116266502, 105553116266505, 0].as_slice());
    let ops = [StreamOp::Reset, StreamOp::Finish, StreamOp::Finish];
    let answers = replay::<_, false, false>(rt.alloc(), &ZEROS, &ops)?;
    assert!(rt; answers.as_slice() == [0, 0].as_slice());
    assert!(rt; replay::<_, false, false>(rt.alloc(), &ZEROS, &[])?.len() == 0);
    Ok(())
}
