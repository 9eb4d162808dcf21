//! Words and states of the generator.

use rand_core::{Rng, SeedableRng};
use rapidhash::fast;
use rapidhash::rng::{RapidRng, rapidrng_fast, rapidrng_fast_not_portable, rapidrng_time};
use std::hash::BuildHasher;

/// The step.
const S0: u64 = 0x2d35_8dcc_aa6c_78a5;

/// The mask of words.
const S1: u64 = 0x8bb8_4b93_962e_acc9;

/// A state that a step leads to 1.
const BEFORE_ONE: u64 = 0xd2ca_7233_5593_875c;

#[test]
fn words_of_the_state_one(rt: HostRuntime) {
    let mut state = BEFORE_ONE;
    assert!(rt; rapidrng_fast(&mut state) == 0x8bb8_4b93_962e_acc8);
    assert!(rt; state == 1);
    let mut state = BEFORE_ONE;
    assert!(rt; rapidrng_fast_not_portable(&mut state) == S1);
    assert!(rt; state == 1);
}

#[test]
fn first_words_and_state(rt: HostRuntime) {
    let mut rng = RapidRng::new(0);
    assert!(rt; rng.next() == 11116517241604665558);
    assert!(rt; rng.state() == [0xa5, 0x78, 0x6c, 0xaa, 0xcc, 0x8d, 0x35, 0x2d]);
    assert!(rt; rng.next() == 91298403691422709);
    assert!(rt;
        RapidRng::from_seed([0, 0, 0, 0, 0, 0, 0, 1]).steps_to(&RapidRng::new(1 << 56)) == 0
    );
    assert!(rt; RapidRng::seed_from_u64(5) == RapidRng::new(5));
}

#[test]
fn steps_between_states(rt: HostRuntime) {
    for (first, second, steps) in [
        (0u64, S0, 1u64),
        (5, 5, 0),
        (S0, 0, 18446744073709551615),
        (0, 12378382606336257077, 2854726183061733457),
        (1, 11233534814198372660, 2716141091330149111),
    ] {
        assert!(rt; RapidRng::new(first).steps_to(&RapidRng::new(second)) == steps);
    }
}

#[test]
fn steps_over_three_words(rt: HostRuntime) {
    for seed in [0u64, 42, u64::MAX] {
        let start = RapidRng::new(seed);
        let mut later = start;
        let _ = later.next();
        let _ = later.next();
        let _ = later.next();
        assert!(rt; start.steps_to(&later) == 3);
        assert!(rt; later.steps_to(&start) == 18446744073709551613);
    }
}

#[test]
fn bytes_of_words(rt: HostRuntime) {
    let mut rng = RapidRng::new(BEFORE_ONE);
    let mut three = [0u8; 3];
    rng.fill_bytes(&mut three);
    assert!(rt; three == [0xc8, 0xac, 0x2e]);
    assert!(rt; rng == RapidRng::new(1));
    let mut rng = RapidRng::new(0);
    rng.fill_bytes(&mut []);
    assert!(rt; rng == RapidRng::new(0));
    let mut nine = [0u8; 9];
    rng.fill_bytes(&mut nine);
    assert!(rt; nine == [0xd6, 0xf0, 0x59, 0x8d, 0x88, 0xcd, 0x45, 0x9a, 0xf5]);
    assert!(rt; RapidRng::new(0).steps_to(&rng) == 2);
}

/// The word for a time, and the seed that it leaves.
fn at_moment(seed: u64, secs: u64, nanos: u32) -> (u64, u64) {
    let mut seed = seed;
    let answer = rapidrng_time(&mut seed, secs, nanos % 1_000_000_000);
    (answer, seed)
}

#[test]
fn moments(rt: HostRuntime) {
    assert!(rt; at_moment(0, 1795332324, 474401288) == (7933760468208766339, 10894244195399012039));
    // For this seed the time has no effect.
    assert!(rt; at_moment(S1, 0, 0) == at_moment(S1, 1, 999_999_999));
    for seed in [0u64, 42, S0] {
        assert!(rt; at_moment(seed, 0, 5) == at_moment(seed, 4_294_967_296, 5));
    }
    assert!(rt; RapidRng::from_moment(0, 0) == RapidRng::new(0x3141_aa84_fb08_82bd));
}

/// A draw through rand_core's bound alone.
fn draw<R: Rng>(rng: &mut R) -> (u32, u64) {
    let low = rng.next_u32();
    (low, rng.next_u64())
}

#[test]
fn generic_users_draw_the_same_words(rt: HostRuntime) {
    let mut rng = RapidRng::new(0);
    assert!(rt; draw(&mut rng) == (0x8d59_f0d6, 91298403691422709));
    assert!(rt; RapidRng::new(0).steps_to(&rng) == 2);
}

/// The state 0 comes after one that is the step's negative; its word is 0.
#[test]
fn rapidrng_fast_of_known_states(rt: HostRuntime) {
    let mut state = 0xd2ca_7233_5593_875c;
    assert!(rt; rapidrng_fast(&mut state) == 0x8bb8_4b93_962e_acc8);
    assert!(rt; state == 1);
    let mut before_zero = 0xd2ca_7233_5593_875b;
    assert!(rt; (rapidrng_fast(&mut before_zero), before_zero) == (0, 0));
    let mut rng = RapidRng::new(0xd2ca_7233_5593_875c);
    assert!(rt; rng.next() == 0x8bb8_4b93_962e_acc8);
}

/// Generators are ordered by their states as numbers.
#[test]
fn generators_are_ordered_by_state(rt: HostRuntime) {
    let low = RapidRng::new(2);
    let high = RapidRng::new(256);
    assert!(rt; low == RapidRng::new(2) && low != high);
    assert!(rt; low < high && high > low && low <= low);
    assert!(rt; low.max(high) == high);
}

/// As the key of a map a generator is its state, the lowest byte first. The number is the Rust
/// crate's, of these eight bytes.
#[test]
fn a_generator_is_a_key(rt: HostRuntime) {
    let state = fast::SeedableState::fixed();
    assert!(rt; state.hash_one(RapidRng::new(513)) == 1737953164354400270);
}
