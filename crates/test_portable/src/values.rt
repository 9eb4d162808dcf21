//! Known values that no data file has: reads, products, secrets, hashes with default secrets.

use crate::counts::{after_one_piece, after_single_bytes, after_two_pieces};
use rapidhash_portable::seeding::{GlobalSecrets, SeedSource};
use rapidhash_portable::util::{rapid_mix, rapid_mum, read_u32, read_u32_combined, read_u64};
use rapidhash_portable::{v1, v2, v3};

/// The first default secret.
const S0: u64 = 0x2d35_8dcc_aa6c_78a5;

/// The second.
const S1: u64 = 0x8bb8_4b93_962e_acc9;

/// The third.
const S2: u64 = 0x4b33_a62e_d433_d4a3;

/// The fourth.
const S3: u64 = 0x4d5a_2da5_1de1_aa47;

/// The fifth.
const S4: u64 = 0xa076_1d64_78bd_642f;

#[test]
fn test_rapid_mum(rt: HostRuntime) {
    assert!(rt; rapid_mum::<false>(0, 0) == (0, 0));
    assert!(rt; rapid_mum::<false>(100, 100) == (10000, 0));
    assert!(rt; rapid_mum::<false>(u64::MAX, 2) == (u64::MAX - 1, 1));
    assert!(rt; rapid_mum::<true>(u64::MAX, 2) == (1, 3));
    assert!(rt; rapid_mix::<false>(u64::MAX, 2) == u64::MAX);
}

#[test]
fn test_read_u32(rt: HostRuntime) {
    assert!(rt; read_u32(&[23, 145, 3, 34], 0) == 570659095);
    assert!(rt; read_u32(&[24, 54, 3, 23, 145, 3, 34], 3) == 570659095);
    assert!(rt; read_u32(&[0, 10, 0, 0], 0) == 2560);
    assert!(rt; read_u32_combined(&[1, 0, 0, 0, 2, 0, 0, 0], 4, 0) == 0x2_0000_0001);
}

#[test]
fn test_read_u64(rt: HostRuntime) {
    let bytes = [1, 2, 3, 23, 145, 3, 34, 0, 0, 0, 0, 0, 0, 0];
    assert!(rt; read_u64(&bytes, 3) == 570659095);
    assert!(rt; read_u64(&bytes[3..], 0) == 570659095);
}

/// The offset of the second word of 4 to 16 bytes in V1: 0 up to 7 bytes, 4 from 8 on.
#[test]
fn test_u32_to_u128_delta(rt: HostRuntime) {
    for n in 4..17u32 {
        let delta = if n < 8 { 0 } else { 4 };
        assert!(rt; (n & 24) >> (n >> 3) == delta, "{n}");
    }
}

#[test]
fn default_secrets_are_those_of_the_cpp_seed(rt: HostRuntime) {
    let first = v1::RapidSecrets::seed_cpp(0xbdd8_9aa9_8270_4029);
    assert!(rt; v1::DEFAULT_RAPID_SECRETS == first);
    assert!(rt; *v1::RapidSecrets::default_ref() == first);
    assert!(rt; v2::DEFAULT_RAPID_SECRETS == v2::RapidSecrets::seed_cpp(0));
    assert!(rt; v3::DEFAULT_RAPID_SECRETS == v3::RapidSecrets::seed_cpp(0));
    assert!(rt; *v3::RapidSecrets::default_ref() == v3::RapidSecrets::seed_cpp(0));
}

/// The third default secret premixes to itself, with every other.
#[test]
fn a_seed_that_stays(rt: HostRuntime) {
    let three = v1::RapidSecrets::seed(S2);
    assert!(rt; (three.seed, three.secrets) == (S2, [S2; 3]));
    assert!(rt; three.reseed() == three);
    let seven = v2::RapidSecrets::seed(S2);
    assert!(rt; (seven.seed, seven.secrets) == (S2, [S2; 7]));
    assert!(rt; seven.reseed() == seven);
    assert!(rt; v3::RapidSecrets::seed_cpp(S2).seed == S2);
    assert!(rt; v1::RapidSecrets::seed_cpp(S0).seed == S0);
}

#[test]
fn made_secrets_repair_each_part(rt: HostRuntime) {
    let first = GlobalSecrets::new(S0);
    assert!(rt; first.get_global_seed() == 0);
    assert!(rt; first.get()[0] == 0x8000_0000_8000_0001);
    assert!(rt; GlobalSecrets::new(S2).get()[2] == 0x8000_0000_8000_0001);
}

#[test]
fn a_seed_source_counts_on(rt: HostRuntime) {
    let mut source = SeedSource::new(&GlobalSecrets::new(S0), S1);
    let first = rapid_mix::<false>(S1.wrapping_add(1) ^ S3, S4).wrapping_add(S0);
    assert!(rt; source.next() == first);
    assert!(rt; source.next() == first.wrapping_add(S0));
}

#[test]
fn hashes_with_default_secrets(rt: HostRuntime) {
    assert!(rt; v1::rapidhash_v1(b"something\n") == 15965596575264898037);
    assert!(rt; v1::rapidhash_v1_seeded(b"\n", &v1::DEFAULT_RAPID_SECRETS) == 5006746792674864303);
    assert!(rt; v2::rapidhash_v2_2(&[]) == 232177599295442350);
    assert!(rt; v2::rapidhash_v2_2_seeded(&[], &v2::DEFAULT_RAPID_SECRETS) == 232177599295442350);
    assert!(rt; v3::rapidhash_v3(&[]) == 232177599295442350);
    assert!(rt; v3::rapidhash_v3_seeded(&[], &v3::DEFAULT_RAPID_SECRETS) == 232177599295442350);
}

/// The functions whose contracts are the counts of chunk steps return hashers that hash.
#[test]
fn counted_hashers_hash(rt: HostRuntime) {
    let secrets = v3::DEFAULT_RAPID_SECRETS;
    let bytes = [7; 241];
    let seven = v3::rapidhash_v3(&bytes);
    assert!(rt; after_one_piece::<7>(&secrets, &bytes).finish() == seven);
    assert!(rt; after_single_bytes::<7>(&secrets, &bytes).finish() == seven);
    let by_two = after_two_pieces::<7>(&secrets, &bytes[..112], &bytes[112..]);
    assert!(rt; by_two.finish() == seven);
}
