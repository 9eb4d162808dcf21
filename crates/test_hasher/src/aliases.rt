//! The options of the short names in `fast` and `quality`.

use rapidhash::inner::{GlobalSecrets, SeedSource};
use rapidhash::{fast, inner, quality};
use rapidhash_portable::v3::RapidSecrets;
use std::hash::{BuildHasher, Hasher};

/// The hasher with a sponge, and with no other option but an avalanche. Only such a hasher has an
/// answer, so the short names name no other.
type Sponge<'s, const AVALANCHE: bool> = inner::RapidHasher<'s, AVALANCHE, true, false, false>;

/// The hash of an integer, which waits in the sponge, and four bytes.
fn answer<const AVALANCHE: bool>(hasher: Sponge<'_, AVALANCHE>) -> u64 {
    let mut hasher = hasher;
    hasher.write_u64(4711);
    hasher.write(b"user");
    hasher.finish()
}

/// The hashes are the Rust crate's, of hashers with these seeds and secrets, and so are the secrets
/// that the random word makes. Its global seed and its source of seeds can't be set, so these two
/// seeds come from an independent program.
#[test]
fn fast_states_of_known_seeds(rt: HostRuntime) {
    let secrets = GlobalSecrets::new(1);
    let mut source = SeedSource::new(&secrets, 11233534814198372660);
    let hasher = fast::RapidHasher::default();
    assert!(rt; answer::<false>(hasher) == 6021588442437052047);
    let global = fast::GlobalState::new(&secrets);
    assert!(rt; answer::<false>(global.build_hasher()) == 1604029122039678008);
    let random = fast::RandomState::new(&secrets, &mut source);
    assert!(rt; answer::<false>(random.build_hasher()) == 16952220623277801737);
    let own = RapidSecrets::seed(0x1234_5678);
    let seedable = fast::SeedableState::custom(own.seed, &own.secrets);
    assert!(rt; answer::<false>(seedable.build_hasher()) == 10106110107239218242);
}

/// The same with an avalanche.
#[test]
fn quality_states_of_known_seeds(rt: HostRuntime) {
    let secrets = GlobalSecrets::new(1);
    let mut source = SeedSource::new(&secrets, 11233534814198372660);
    let hasher = quality::RapidHasher::default();
    assert!(rt; answer::<true>(hasher) == 829435165229610713);
    let global = quality::GlobalState::new(&secrets);
    assert!(rt; answer::<true>(global.build_hasher()) == 9139235253658562816);
    let random = quality::RandomState::new(&secrets, &mut source);
    assert!(rt; answer::<true>(random.build_hasher()) == 6209511124463679340);
    let own = RapidSecrets::seed(0x1234_5678);
    let seedable = quality::SeedableState::custom(own.seed, &own.secrets);
    assert!(rt; answer::<true>(seedable.build_hasher()) == 10622765197646220428);
}
