//! Each form distinguishes messages that differ.

use rapidhash::laws::{
    same_words_micro, same_words_nano, same_words_v1, same_words_v2, same_words_v3,
};

/// The results of the calls, one of each form.
fn answers(x: &[u8], y: &[u8]) -> [bool; 5] {
    [
        same_words_v1::<false>(x, y),
        same_words_v2::<1>(x, y),
        same_words_v3(x, y),
        same_words_micro(x, y),
        same_words_nano(x, y),
    ]
}

#[test]
fn short_messages(rt: HostRuntime) {
    assert!(rt; !same_words_v3(&[0], &[0, 0]));
    assert!(rt; same_words_v3(&[], &[]));
    assert!(rt; !same_words_v2::<2>(&[1, 2, 3], &[1, 3, 3]));
    assert!(rt; !same_words_v3(&[1, 2, 3], &[1, 3, 3]));
}

#[test]
fn a_byte_of_seventeen(rt: HostRuntime) {
    let x = [7u8; 17];
    for i in [0usize, 8, 16] {
        let mut y = x;
        y[i] = 8;
        assert!(rt; answers(&x, &y) == [false; 5]);
    }
    assert!(rt; answers(&x, &[7u8; 17]) == [true; 5]);
}

// With the V1 bug 48 bytes are a row of three lanes, without it they are a tail.
#[test]
fn a_byte_of_forty_eight(rt: HostRuntime) {
    let x = [7u8; 48];
    let mut y = x;
    y[33] = 8;
    assert!(rt; !same_words_v1::<false>(&x, &y));
    assert!(rt; !same_words_v1::<true>(&x, &y));
    assert!(rt; same_words_v1::<true>(&x, &x));
}
