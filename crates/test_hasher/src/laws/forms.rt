//! Two forms agree on messages of the lengths that the laws name.

use rapidhash::laws::{micro_is_v3, nano_is_v3, v1_is_v1_with_its_bug, v2_0_is_v2_1, v2_1_is_v2_2};
use rapidhash::{v1, v2, v3};

/// The results of the laws for a message.
fn answers(x: &[u8]) -> [bool; 5] {
    [
        micro_is_v3(x),
        nano_is_v3(x),
        v1_is_v1_with_its_bug(x),
        v2_0_is_v2_1(x),
        v2_1_is_v2_2(x),
    ]
}

/// Whether the hashes of each pair of forms are equal.
fn agreements(x: &[u8]) -> [bool; 5] {
    let secrets = v3::RapidSecrets::default_ref();
    let hash = v3::rapidhash_v3(x);
    let of_v1 = v1::RapidSecrets::default_ref();
    let minors = [
        v2::rapidhash_v2_inline::<0, true, false, false>(x, secrets),
        v2::rapidhash_v2_inline::<1, true, false, false>(x, secrets),
        v2::rapidhash_v2_inline::<2, true, false, false>(x, secrets),
    ];
    let fault = v1::rapidhash_v1_inline::<true, false, false, true>(x, of_v1);
    [
        v3::rapidhash_v3_micro_inline::<true, false>(x, secrets) == hash,
        v3::rapidhash_v3_nano_inline::<true, false>(x, secrets) == hash,
        v1::rapidhash_v1(x) == fault,
        minors[0] == minors[1],
        minors[1] == minors[2],
    ]
}

// By the law the hashes agree if it returns true. On this message they also differ whenever it
// returns false, so no law leaves out a length at which the forms do agree.
#[test]
fn forms_agree_at_the_lengths_of_the_laws(rt: HostRuntime) {
    let bytes = [0x5au8; 130];
    for n in 0..=130usize {
        let x = &bytes[..n];
        assert!(rt; answers(x) == agreements(x), "{n}");
    }
}
