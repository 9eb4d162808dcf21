//! Keys of bytes in maps and sets.

use bytes::Bytes;
use rapidhash::inner::{GlobalSecrets, SeedSource, SeedableState};
use rapidhash::{ByteKey, HashMapExt, HashSetExt, RapidHashMap, RapidHashSet, fast};
use std::borrow::CowSlice;
use std::convert::AsSlice;
use std::hash::{BuildHasher, Hasher};
use std::test::Fail;

/// A text of 50 bytes, all alike.
const ALIKE: &[u8] = b"xxxxxxxxxxxxxxxxxxxxxxxxxxxxxxxxxxxxxxxxxxxxxxxxxx";

/// Owned keys, searched by slices of another text.
#[test]
fn owned_keys_are_found_by_borrowed_bytes(rt: HostRuntime) -> Result<(), Fail> {
    let secrets = GlobalSecrets::new(1);
    let mut source = SeedSource::new(&secrets, 2);
    let state = fast::RandomState::new(&secrets, &mut source);
    let mut sizes: RapidHashMap<ByteKey<CowSlice<u8>>, u64> = HashMapExt::new(rt.alloc(), state);
    for length in 0..40usize {
        let mut name = Vec::new(rt.alloc());
        name.resize(length, b'x')?;
        let _ = sizes.insert(ByteKey(CowSlice::Owned(name)), length as u64)?;
    }
    for length in 0..ALIKE.len() {
        let size = sizes.get(&ByteKey(CowSlice::Borrowed(&ALIKE[..length])));
        let known = if length < 40 {
            Some(length as u64)
        } else {
            None
        };
        assert!(rt; size.copied() == known);
    }
    assert!(rt; sizes.get(&ByteKey(CowSlice::Borrowed(b"xy"))).is_none());
    Ok(())
}

/// A key of each kind of bytes, once in a set.
#[test]
fn keys_of_each_kind(rt: HostRuntime) -> Result<(), Fail> {
    let secrets = GlobalSecrets::new(1);
    let mut source = SeedSource::new(&secrets, 2);
    let state = fast::RandomState::new(&secrets, &mut source);
    let mut slices: RapidHashSet<ByteKey<&[u8]>> = HashSetExt::new(rt.alloc(), state);
    assert!(rt; slices.insert(ByteKey(b"a"))?);
    assert!(rt; !slices.insert(ByteKey(b"a"))?);
    assert!(rt; slices.insert(ByteKey(b"b"))?);
    let mut shared: RapidHashSet<ByteKey<Bytes>> = HashSetExt::new(rt.alloc(), state);
    assert!(rt; shared.insert(ByteKey(Bytes::from_static(b"a")))?);
    assert!(rt; !shared.insert(ByteKey(Bytes::from_static(b"a")))?);
    assert!(rt; shared.insert(ByteKey(Bytes::from_static(b"b")))?);
    assert!(rt; shared.contains(&ByteKey(Bytes::from_static(b"a"))));
    Ok(())
}

/// The hash of a key is that of one write of its bytes, whatever holds them, and it lends them all.
#[test]
fn a_key_is_one_write(rt: HostRuntime) -> Result<(), Fail> {
    let secrets = [1u64, 2, 3, 4, 5, 6, 7];
    let state: SeedableState<'_, false, true, false, false> = SeedableState::custom(8, &secrets);
    let text = b"the bytes of a key, of which there are more than sixteen";
    for length in 0..text.len() {
        let bytes = &text[..length];
        let mut hasher = state.build_hasher();
        hasher.write(bytes);
        assert!(rt; ByteKey(bytes).as_slice() == bytes);
        assert!(rt; state.hash_one(ByteKey(bytes)) == hasher.finish());
        let owned = Vec::from_clones(rt.alloc(), bytes)?;
        assert!(rt; state.hash_one(ByteKey(owned)) == hasher.finish());
    }
    Ok(())
}
