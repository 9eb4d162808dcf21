//! Maps and sets, with memory and without.

use linked_list_allocator::LocalHeap;
use rapidhash::inner::{GlobalSecrets, SeedSource};
use rapidhash::{HashMapExt, HashSetExt, RapidHashMap, RapidHashSet, fast};
use std::collections::{HashMap, HashSet};
use std::test::Fail;

#[test]
fn test_hashmap_new(rt: HostRuntime) -> Result<(), Fail> {
    let secrets = GlobalSecrets::new(1);
    let mut source = SeedSource::new(&secrets, 2);
    let state = fast::RandomState::new(&secrets, &mut source);
    let mut map: RapidHashMap<&str, &str, _> = HashMapExt::new(rt.alloc(), state);
    assert!(rt; map.is_empty());
    let _ = map.insert("key", "value")?;
    assert!(rt; map.get("key") == Some(&"value"));
    assert!(rt; map.get("na").is_none());
    Ok(())
}

#[test]
fn test_hashset_new(rt: HostRuntime) -> Result<(), Fail> {
    let secrets = GlobalSecrets::new(1);
    let mut source = SeedSource::new(&secrets, 2);
    let state = fast::RandomState::new(&secrets, &mut source);
    let mut set: RapidHashSet<&str, _> = HashSetExt::new(rt.alloc(), state);
    assert!(rt; set.is_empty());
    let _ = set.insert("value")?;
    assert!(rt; set.contains("value"));
    assert!(rt; !set.contains("na"));
    Ok(())
}

/// The same over a map and a set with room for texts.
#[test]
fn test_hashmap_with_capacity(rt: HostRuntime) -> Result<(), Fail> {
    let secrets = GlobalSecrets::new(1);
    let mut source = SeedSource::new(&secrets, 2);
    let state = fast::RandomState::new(&secrets, &mut source);
    let mut map: RapidHashMap<&str, &str, _> = HashMapExt::with_capacity(rt.alloc(), 10, state)?;
    assert!(rt; map.is_empty() && map.capacity() >= 10);
    let _ = map.insert("key", "value")?;
    assert!(rt; map.get("key") == Some(&"value"));
    assert!(rt; map.get("na").is_none());
    Ok(())
}

#[test]
fn test_hashset_with_capacity(rt: HostRuntime) -> Result<(), Fail> {
    let secrets = GlobalSecrets::new(1);
    let mut source = SeedSource::new(&secrets, 2);
    let state = fast::RandomState::new(&secrets, &mut source);
    let mut set: RapidHashSet<&str, _> = HashSetExt::with_capacity(rt.alloc(), 10, state)?;
    assert!(rt; set.is_empty() && set.capacity() >= 10);
    let _ = set.insert("value")?;
    assert!(rt; set.contains("value"));
    assert!(rt; !set.contains("na"));
    Ok(())
}

/// `with_capacity` reserves no more and no less than std's own map and set do.
#[test]
fn room_is_that_of_std(rt: HostRuntime) -> Result<(), Fail> {
    let secrets = GlobalSecrets::new(1);
    let mut source = SeedSource::new(&secrets, 2);
    let state = fast::RandomState::new(&secrets, &mut source);
    for count in (0..30usize).chain([100_000]) {
        let map: RapidHashMap<u32, u32, _> = HashMapExt::with_capacity(rt.alloc(), count, state)?;
        let plain: HashMap<u32, u32> = HashMap::with_capacity(rt.alloc(), count)?;
        assert!(rt; map.capacity() == plain.capacity());
        let set: RapidHashSet<u32, _> = HashSetExt::with_capacity(rt.alloc(), count, state)?;
        let plain: HashSet<u32> = HashSet::with_capacity(rt.alloc(), count)?;
        assert!(rt; set.capacity() == plain.capacity());
    }
    Ok(())
}

/// In heaps with room for 0, 1, 2 blocks of 16 bytes and so on each allocation fails in turn:
/// `with_capacity` returns the error in every heap that is smaller than what the map or the set
/// holds, and frees what it allocated.
#[test]
fn room_that_is_refused(rt: HostRuntime) -> Result<(), Fail> {
    let secrets = GlobalSecrets::new(1);
    let mut source = SeedSource::new(&secrets, 2);
    let state = fast::RandomState::new(&secrets, &mut source);
    let mut maps = 0usize;
    let mut sets = 0usize;
    for blocks in 0..64usize {
        let heap = LocalHeap::new(rt.alloc(), 16 * (blocks + 1))?;
        // A heap has one block at least, so a byte needs one.
        let _taken = Box::new(&heap, 0u8)?;
        let map: Result<RapidHashMap<u32, u32, _>, _> = HashMapExt::with_capacity(&heap, 10, state);
        match map {
            Ok(map) => {
                assert!(rt; map.is_empty() && map.capacity() >= 10);
                assert!(rt; heap.used() / 16 == maps.saturating_add(1));
            }
            Err(_) => {
                assert!(rt; maps == blocks);
                maps = blocks + 1;
            }
        }
        assert!(rt; heap.used() == 16);
        let set: Result<RapidHashSet<u32, _>, _> = HashSetExt::with_capacity(&heap, 10, state);
        match set {
            Ok(set) => {
                assert!(rt; set.is_empty() && set.capacity() >= 10);
                assert!(rt; heap.used() / 16 == sets.saturating_add(1));
            }
            Err(_) => {
                assert!(rt; sets == blocks);
                sets = blocks + 1;
            }
        }
        assert!(rt; heap.used() == 16);
    }
    assert!(rt; 0 < maps && maps < 64);
    assert!(rt; 0 < sets && sets < 64);
    Ok(())
}

/// If every allocation fails, empty maps and sets are made and read, and only the first insert
/// returns the error.
#[test]
fn new_asks_for_no_memory(rt: HostRuntime) -> Result<(), Fail> {
    let secrets = GlobalSecrets::new(1);
    let mut source = SeedSource::new(&secrets, 2);
    let state = fast::RandomState::new(&secrets, &mut source);
    let heap = LocalHeap::new(rt.alloc(), 16)?;
    let _taken = Box::new(&heap, 0u8)?;
    assert!(rt; heap.free() == 0);
    let mut map: RapidHashMap<u32, u32, _> = HashMapExt::new(&heap, state);
    assert!(rt; map.get(&4711).is_none());
    assert!(rt; map.insert(4711, 1).is_err());
    assert!(rt; map.is_empty());
    let mut set: RapidHashSet<u32, _> = HashSetExt::new(&heap, state);
    assert!(rt; !set.contains(&4711));
    assert!(rt; set.insert(4711).is_err());
    assert!(rt; set.is_empty());
    Ok(())
}
