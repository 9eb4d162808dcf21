//! Keys of several fields are told apart, and hashed by field as they are as a whole.

use rapidhash::key::{
    Field, rapidhash_v3_key, rapidhash_v3_key_seeded, write_bytes, write_field, write_integer,
    write_nothing,
};
use rapidhash::laws::same_keys;
use rapidhash::v3::{RapidSecrets, RapidStreamHasherV3};

#[test]
fn bytes_do_not_move_between_fields(rt: HostRuntime) {
    let key = [Field::Bytes(b"ab"), Field::Bytes(b"c")];
    let moved = [Field::Bytes(b"a"), Field::Bytes(b"bc")];
    assert!(rt; !same_keys(&key, &moved));
    assert!(rt; same_keys(&key, &key));
    assert!(rt; rapidhash_v3_key(&key) != rapidhash_v3_key(&moved));
}

#[test]
fn nothing_is_no_empty_text(rt: HostRuntime) {
    let kinds = [
        Field::Nothing,
        Field::Bytes(b""),
        Field::Integer(0),
        Field::Bytes(&[0]),
    ];
    for i in 0..kinds.len() {
        for j in 0..kinds.len() {
            assert!(rt; same_keys(&[kinds[i]], &[kinds[j]]) == (i == j));
        }
    }
    assert!(rt; !same_keys(&[], &[Field::Nothing]));
    assert!(rt; !same_keys(&[Field::Integer(1)], &[Field::Integer(1), Field::Nothing]));
}

#[test]
fn fields_one_by_one(rt: HostRuntime) {
    let secrets = RapidSecrets::seed(42);
    let key = [
        Field::Integer(7),
        Field::Nothing,
        Field::Bytes(b"text"),
        Field::Bytes(b""),
    ];
    let mut hasher = RapidStreamHasherV3::new(&secrets);
    write_integer(&mut hasher, 7);
    write_nothing(&mut hasher);
    write_bytes(&mut hasher, b"text");
    write_field(&mut hasher, Field::Bytes(b""));
    assert_eq!(rt; hasher.finish(), rapidhash_v3_key_seeded(&key, &secrets));
}
