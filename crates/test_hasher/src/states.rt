//! The texts of the states, their equality, and the hashers that they build.

use rapidhash::inner::{GlobalSecrets, GlobalState, RandomState, SeedSource, SeedableState};
use rapidhash::{fast, quality};
use std::hash::{BuildHasher, Hasher};
use std::test::Fail;

/// The hash of a hasher that a state builds, after one integer.
fn answer<S: BuildHasher>(state: &S) -> u64 {
    let mut hasher = state.build_hasher();
    hasher.write_u64(4711);
    hasher.finish()
}

#[test]
fn test_debug(rt: HostRuntime) -> Result<(), Fail> {
    let secrets = GlobalSecrets::new(1);
    let mut source = SeedSource::new(&secrets, 2);
    let global = fast::GlobalState::new(&secrets);
    let random = fast::RandomState::new(&secrets, &mut source);
    let seedable = fast::SeedableState::fixed();
    let text = format!(in rt.alloc(); "{global:?} {random:?} {seedable:?}")?;
    let known = "GlobalState { .. } RandomState { .. } SeedableState { .. }";
    assert!(rt; text.as_str() == known);
    Ok(())
}

#[test]
fn states_are_equal_by_seed_and_secrets(rt: HostRuntime) {
    let state = fast::SeedableState::custom(1, &[2; 7]);
    assert!(rt; state == fast::SeedableState::with_seed(1, &[2; 7]));
    assert!(rt; state != fast::SeedableState::custom(2, &[2; 7]));
    assert!(rt; state != fast::SeedableState::custom(1, &[2, 2, 2, 2, 2, 2, 3]));
    let one = GlobalSecrets::new(1);
    let two = GlobalSecrets::new(2);
    assert!(rt; fast::GlobalState::new(&one) == fast::GlobalState::new(&GlobalSecrets::new(1)));
    assert!(rt; fast::GlobalState::new(&one) != fast::GlobalState::new(&two));
    let mut source = SeedSource::new(&one, 2);
    let first = quality::RandomState::new(&one, &mut source);
    let second = quality::RandomState::new(&one, &mut source);
    let copy = first;
    assert!(rt; first == copy);
    assert!(rt; first != second);
}

#[test]
fn states_take_their_seeds(rt: HostRuntime) {
    let secrets = GlobalSecrets::new(1);
    let seed = secrets.get_global_seed();
    let mut source = SeedSource::new(&secrets, 2);
    let next = source.next();
    let global: GlobalState<true, true, false, true> = GlobalState::new(&secrets);
    let alike: SeedableState<true, true, false, true> = SeedableState::custom(seed, secrets.get());
    assert!(rt; answer(&global) == answer(&alike));
    let mut again = SeedSource::new(&secrets, 2);
    let random: RandomState<true, true, false, true> = RandomState::new(&secrets, &mut again);
    let alike: SeedableState<true, true, false, true> = SeedableState::custom(next, secrets.get());
    assert!(rt; answer(&random) == answer(&alike));
    let mut third = SeedSource::new(&secrets, 2);
    let drawn: SeedableState<true, true, false, true> = SeedableState::random(&secrets, &mut third);
    assert!(rt; drawn == alike);
    let fixed = quality::SeedableState::fixed();
    let mut hasher = quality::RapidHasher::default();
    Hasher::write_u64(&mut hasher, 4711);
    assert!(rt; answer(&fixed) == hasher.finish());
    assert!(rt; answer(&quality::SeedableState::new(0, &secrets)) != hasher.finish());
}

/// The hashes of hashers that a state builds, twice each: after five bytes, and of a text as a key.
fn of_hello<S: BuildHasher>(state: &S) -> [u64; 4] {
    let mut one = state.build_hasher();
    let mut other = state.build_hasher();
    one.write(b"hello");
    other.write(b"hello");
    [
        one.finish(),
        other.finish(),
        state.hash_one("hello"),
        state.hash_one("hello"),
    ]
}

/// Whether two states build hashers that agree, each with itself and with the other.
fn agree<S: BuildHasher>(one: &S, other: &S) -> bool {
    let [bytes, again, text, text_again] = of_hello(one);
    bytes == again && text == text_again && of_hello(one) == of_hello(other)
}

/// Whether two states build hashers that return different hashes.
fn differ<S: BuildHasher>(one: &S, other: &S) -> bool {
    let [bytes, _, text, _] = of_hello(one);
    let [other_bytes, _, other_text, _] = of_hello(other);
    bytes != other_bytes && text != other_text
}

#[test]
fn test_global_state(rt: HostRuntime) {
    let secrets = GlobalSecrets::new(1);
    let alike = GlobalSecrets::new(1);
    let others = GlobalSecrets::new(2);
    let fast = fast::GlobalState::new(&secrets);
    assert!(rt; agree(&fast, &fast::GlobalState::new(&alike)));
    assert!(rt; differ(&fast, &fast::GlobalState::new(&others)));
    let quality = quality::GlobalState::new(&secrets);
    assert!(rt; agree(&quality, &quality::GlobalState::new(&alike)));
    assert!(rt; differ(&quality, &quality::GlobalState::new(&others)));
}

#[test]
fn test_random_state(rt: HostRuntime) {
    let secrets = GlobalSecrets::new(1);
    let mut source = SeedSource::new(&secrets, 2);
    let mut alike = SeedSource::new(&secrets, 2);
    let mut other = SeedSource::new(&secrets, 3);
    for _ in 0..3u8 {
        let fast = fast::RandomState::new(&secrets, &mut source);
        assert!(rt; agree(&fast, &fast::RandomState::new(&secrets, &mut alike)));
        assert!(rt; differ(&fast, &fast::RandomState::new(&secrets, &mut other)));
        let quality = quality::RandomState::new(&secrets, &mut source);
        assert!(rt; agree(&quality, &quality::RandomState::new(&secrets, &mut alike)));
        assert!(rt; differ(&quality, &quality::RandomState::new(&secrets, &mut other)));
    }
    let first = fast::RandomState::new(&secrets, &mut source);
    assert!(rt; differ(&first, &fast::RandomState::new(&secrets, &mut source)));
}

#[test]
fn test_fixed_init(rt: HostRuntime) {
    let fixed = fast::SeedableState::fixed();
    assert!(rt; agree(&fixed, &fast::SeedableState::fixed()));
    let quality = quality::SeedableState::fixed();
    assert!(rt; agree(&quality, &quality::SeedableState::fixed()));
    let secrets = GlobalSecrets::new(1);
    let seeded = fast::SeedableState::new(5, &secrets);
    assert!(rt; agree(&seeded, &fast::SeedableState::new(5, &secrets)));
    assert!(rt; differ(&seeded, &fast::SeedableState::new(6, &secrets)));
    assert!(rt; differ(&seeded, &fixed));
    let custom = quality::SeedableState::custom(5, &[3; 7]);
    assert!(rt; agree(&custom, &quality::SeedableState::with_seed(5, &[3; 7])));
    assert!(rt; differ(&custom, &quality::SeedableState::custom(6, &[3; 7])));
    assert!(rt; differ(&custom, &quality::SeedableState::custom(5, &[4; 7])));
}

#[test]
fn test_random_init(rt: HostRuntime) {
    let secrets = GlobalSecrets::new(1);
    let mut source = SeedSource::new(&secrets, 2);
    let mut alike = SeedSource::new(&secrets, 2);
    let random = fast::SeedableState::random(&secrets, &mut source);
    assert!(rt; agree(&random, &fast::SeedableState::random(&secrets, &mut alike)));
    assert!(rt; differ(&random, &fast::SeedableState::random(&secrets, &mut alike)));
}

/// A key that is hashed by a state: a text is its bytes and then 255, and an integer its bytes. The
/// numbers are the Rust crate's, of these writes.
#[test]
fn keys_come_as_bytes(rt: HostRuntime) {
    let state = fast::SeedableState::fixed();
    let mut text = state.build_hasher();
    text.write(b"hello");
    text.write(&[0xFF]);
    assert!(rt; text.finish() == 17433840213327634283);
    assert!(rt; state.hash_one("hello") == 17433840213327634283);
    let mut integer = state.build_hasher();
    integer.write(&[1, 2, 0, 0]);
    assert!(rt; integer.finish() == 6157752090543924893);
    assert!(rt; state.hash_one(513u32) == 6157752090543924893);
}
