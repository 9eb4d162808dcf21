//! Maps and sets over the fast hasher.

ghost use Rattle.std.specs.Prelude.{◌≡◌, ◌≤◌, IfOk};

use crate::fast::RandomState;
use std::alloc::{AllocError, Allocator, Global};
use std::collections::{HashMap, HashSet};
use std::hash::Hash;

/// The map of std over [`RandomState`].
///
/// A key's bytes reach the hasher as std writes them: a text by one write and a further byte, an
/// integer as its bytes, but `[u8]` and `Vec<u8>` by one write for each byte, which is slow for
/// long keys: put those into a [`ByteKey`](crate::ByteKey).
///
/// How often each word occurs in a text. The program draws the two random words once:
///
/// ```
/// let secrets = GlobalSecrets::new(random_word);
/// let mut source = SeedSource::new(&secrets, second_random_word);
/// let state = fast::RandomState::new(&secrets, &mut source);
/// let mut counts: RapidHashMap<&str, u64> = HashMapExt::new(alloc, state);
/// for word in text.split_whitespace() {
///     let count = counts.entry(word)?.or_insert(0);
///     *count = count.saturating_add(1);
/// }
/// ```
pub type RapidHashMap<'s, K, V, A = Global> = HashMap<K, V, RandomState<'s>, A>;

/// The set of std over [`RandomState`].
///
/// Removes the duplicates of names, and keeps the first of each:
///
/// ```
/// let mut seen: RapidHashSet<&str> = HashSetExt::new(alloc, state);
/// let mut firsts = Vec::new(alloc);
/// for name in names {
///     if seen.insert(*name)? {
///         firsts.push(*name)?;
///     }
/// }
/// ```
pub type RapidHashSet<'s, K, A = Global> = HashSet<K, RandomState<'s>, A>;

/// Makes maps of an allocator and a state.
pub trait HashMapExt<A>: Sized {
    /// What makes the hashers of the map.
    type State;

    // Whether the map has no entry.
    ghost is_empty: { Self → Type 0 };

    /// Returns an empty map, without an allocation.
    fn new(alloc: A, state: Self::State) -> Self
        ensures { is_empty result };

    /// Returns an empty map with room for `capacity` entries. It fails only if the allocation does,
    /// and then nothing is allocated.
    fn with_capacity(alloc: A, capacity: usize, state: Self::State) -> Result<Self, AllocError>
        ensures { IfOk result is_empty };
}

/// Makes sets of an allocator and a state.
pub trait HashSetExt<A>: Sized {
    /// What makes the hashers of the set.
    type State;

    // Whether the set has no key.
    ghost is_empty: { Self → Type 0 };

    /// Returns an empty set, without an allocation.
    fn new(alloc: A, state: Self::State) -> Self
        ensures { is_empty result };

    /// Returns an empty set with room for `capacity` keys. It fails only if the allocation does,
    /// and then nothing is allocated.
    fn with_capacity(alloc: A, capacity: usize, state: Self::State) -> Result<Self, AllocError>
        ensures { IfOk result is_empty };
}

impl<'s, K: Eq + Hash, V, A: Allocator + Clone> HashMapExt<A> for RapidHashMap<'s, K, V, A> {
    ghost use Rattle.std.specs.HashMap.{IsEmpty, hasher_of, spare};

    type State = RandomState<'s>;

    ghost is_empty = { IsEmpty };

    #[inline]
    fn new(alloc: A, state: RandomState<'s>) -> Self
        ensures empty { IsEmpty result }
        ensures state { hasher_of result ≡ state.entry }
    {
        HashMap::with_hasher(alloc, state)
    }

    #[inline]
    fn with_capacity(alloc: A, capacity: usize, state: RandomState<'s>) -> Result<Self, AllocError>
        ensures empty { IfOk result IsEmpty }
        ensures room { IfOk result (λ map. capacity ≤ spare map) }
        ensures state { IfOk result (λ map. hasher_of map ≡ state.entry) }
    {
        HashMap::with_capacity_and_hasher(alloc, capacity, state)
    }
}

impl<'s, K: Eq + Hash, A: Allocator + Clone> HashSetExt<A> for RapidHashSet<'s, K, A> {
    ghost use Rattle.std.specs.HashSet.{IsEmpty, hasher_of, spare};

    type State = RandomState<'s>;

    ghost is_empty = { IsEmpty };

    #[inline]
    fn new(alloc: A, state: RandomState<'s>) -> Self
        ensures empty { IsEmpty result }
        ensures state { hasher_of result ≡ state.entry }
    {
        HashSet::with_hasher(alloc, state)
    }

    #[inline]
    fn with_capacity(alloc: A, capacity: usize, state: RandomState<'s>) -> Result<Self, AllocError>
        ensures empty { IfOk result IsEmpty }
        ensures room { IfOk result (λ set. capacity ≤ spare set) }
        ensures state { IfOk result (λ set. hasher_of set ≡ state.entry) }
    {
        HashSet::with_capacity_and_hasher(alloc, capacity, state)
    }
}
