//! Each law once, on values for which it returns true and on values for which it does not.

mod forms;
mod keys;
mod replay;
mod words;

use rapidhash::fast::RapidHasher;
use rapidhash::laws::Num::{self, N8, N16, N64};
use rapidhash::laws::{
    join_u8, join_u16, join_u32, lane_after_its_secret, refuses_damage, same_blocks, turn_bytes,
    turn_u128,
};
use rapidhash_portable::v3::{DEFAULT_RAPID_SECRETS, RapidStreamHasherV3};
use std::hash::Hasher;

#[test]
fn a_lane_after_its_secret(rt: HostRuntime) {
    for lane in [0u64, 9, u64::MAX] {
        assert!(rt; lane_after_its_secret::<false>(5, 7, lane) == 0);
        assert!(rt; lane_after_its_secret::<true>(5, 7, lane) == 7 ^ lane);
    }
}

#[test]
fn integers_of_one_block(rt: HostRuntime) {
    assert!(rt; same_blocks(&[], &[]));
    assert!(rt; !same_blocks(&[N8(1), N16(2)], &[N8(1), N16(3)]));
    assert!(rt; !same_blocks(&[N64(1), N64(2)], &[N64(1), N64(3)]));
}

#[test]
fn integers_that_open_a_block(rt: HostRuntime) {
    let mut x = [N8(0); 16];
    x[15] = N16(9);
    let mut y = [N8(0); 16];
    y[15] = N16(8);
    assert!(rt; !same_blocks(&x, &y));
    let three = [N64(1), N64(2), N8(0)];
    assert!(rt; same_blocks(&three, &three));
}

#[test]
fn two_integers_of_one_block_are_the_joined_one(rt: HostRuntime) {
    let mut joined = RapidHasher::default();
    join_u8(&mut joined, 2, 1);
    join_u16(&mut joined, 4, 3);
    join_u32(&mut joined, 6, 5);
    let mut written = RapidHasher::default();
    written.write_u16(0x0102);
    written.write_u32(0x0003_0004);
    written.write_u64(0x0000_0005_0000_0006);
    assert!(rt; joined.finish() == written.finish());
}

// Four bytes of the block are left: the first integer fills it and the second opens the next one.
#[test]
fn two_integers_of_two_blocks_are_not_joined(rt: HostRuntime) {
    let mut joined = RapidHasher::default();
    let mut written = RapidHasher::default();
    joined.write_u64(1);
    joined.write_u32(2);
    written.write_u64(1);
    written.write_u32(2);
    join_u32(&mut joined, 3, 4);
    written.write_u64(0x0000_0004_0000_0003);
    assert!(rt; joined.finish() != written.finish());
}

#[test]
fn an_item_and_an_integer_change_places(rt: HostRuntime) {
    let mut turned = RapidHasher::default();
    turn_bytes(&mut turned, b"user", Num::N32(4711));
    turn_u128(&mut turned, 7, Num::N8(1));
    let mut written = RapidHasher::default();
    written.write_u32(4711);
    written.write(b"user");
    written.write_u8(1);
    written.write_u128(7);
    assert!(rt; turned.finish() == written.finish());
}

/// Flipped bits are refused, and the stream itself is not.
#[test]
fn damage_is_refused(rt: HostRuntime) {
    let secrets = &DEFAULT_RAPID_SECRETS;
    let mut hasher = RapidStreamHasherV3::new(secrets);
    hasher.write(&[7; 230]);
    let saved = hasher.save();
    for bit in 0..1664usize {
        let mut damaged = saved;
        damaged[bit / 8] ^= 1u8 << (bit % 8);
        assert!(rt;
            refuses_damage::<7, true, false>(&saved, &damaged, secrets),
            "{bit}"
        );
    }
    assert!(rt; !refuses_damage::<7, true, false>(&saved, &saved, secrets));
}
