//! Groups of equal files.

ghost use Rattle.std.specs.Prelude.{◌≡◌, ◌≢◌, ◌↔◌, ◌<◌, ◌++◌, ◌∷◌, [], ℕ, List, All, Contains, IsTrue, IfOk, IfSome, MatchOption, OnOk, Result, length};
ghost use Rattle.std.specs.declared.io.Error.{Error};
ghost use Rattle.example_dedupe.specs.Groups.{ArePlaced, GroupsByBytes, key_of, leaders_after, leaders_of, shared, Tells};

use crate::compare::same_bytes;
use crate::store::{Fingerprint, Store};
use rapidhash::fast::RandomState;
use rapidhash::{HashMapExt, RapidHashMap};
use std::alloc::{AllocError, Global};
use std::io;

// Returns whether more than one file has this size.
fn is_shared(sizes: &RapidHashMap<'_, u64, u64>, size: u64) -> bool
    ensures { result ≡ shared sizes.now size }
{
    sizes.get(&size).copied().unwrap_or(0) > 1
}

// Returns the key by which a file is looked up: the fingerprint of its bytes, or if no other file
// has its size, the size. Files of equal bytes have the same key.
fn key<S: Store, F: Fingerprint>(
    store: &S,
    fingerprint: &F,
    sizes: &RapidHashMap<'_, u64, u64>,
    file: usize,
) -> io::Result<u64>
    ensures { IfSome (S.bytes store.now file) (λ bytes. IfOk result (λ key.
        key ≡ key_of (F.number fingerprint.now) sizes.now bytes)) }
{
    let size = store.size(file);
    if !is_shared(sizes, size) {
        return Ok(size);
    }
    fingerprint.of(store.open(file)?)
}

// Returns whether two files have the same bytes.
fn same_files<S: Store>(store: &S, first: usize, second: usize) -> io::Result<bool>
    ensures { IfOk result (λ same. IfSome (S.bytes store.now first) (λ xs.
        IfSome (S.bytes store.now second) (λ ys. IsTrue same ↔ (xs ≡ ys)))) }
{
    let mut left = store.open(first)?;
    let mut right = store.open(second)?;
    same_bytes(&mut left, &mut right)
}

// The first of some files that has the same bytes as a file.
fn find_equal<S: Store>(store: &S, leaders: &[usize], file: usize) -> io::Result<Option<usize>>
    ensures among { IfOk result (λ found. IfSome found (λ leader. Contains leaders.now leader)) }
    ensures same { (bytes : ℕ → List ℕ) (count : ℕ) → Tells (S.bytes store.now) count bytes →
        file < count → All (λ leader. leader < count) leaders.now → IfOk result (λ found.
        MatchOption found (All (λ leader. bytes leader ≢ bytes file) leaders.now)
        (λ leader. bytes leader ≡ bytes file)) }
{
    for at in 0..leaders.len() {
        if same_files(store, leaders[at], file)? {
            return Ok(Some(leaders[at]));
        }
    }
    Ok(None)
}

// Looks the file up among the leaders of its key, and adds it there if none has its bytes.
fn look_up<S: Store>(
    store: &S,
    by_key: &mut RapidHashMap<'_, u64, Vec<usize>>,
    alloc: Global,
    key: u64,
    file: usize,
) -> Result<io::Result<Option<usize>>, AllocError>
    ensures others { OnOk result ((k : ℕ) → k ≢ key →
        leaders_of by_key.new k ≡ leaders_of by_key.old k) }
    ensures leaders { IfOk result (λ found.
        leaders_of by_key.new key ≡ leaders_after found file (leaders_of by_key.old key)) }
    ensures among { IfOk result (λ found. IfOk found (λ place. IfSome place (λ leader.
        Contains (leaders_of by_key.old key) leader))) }
    ensures same { (bytes : ℕ → List ℕ) (count : ℕ) → Tells (S.bytes store.now) count bytes →
        file < count → All (λ leader. leader < count) (leaders_of by_key.old key) →
        IfOk result (λ found. IfOk found (λ place. MatchOption place
        (All (λ leader. bytes leader ≢ bytes file) (leaders_of by_key.old key))
        (λ leader. bytes leader ≡ bytes file))) }
{
    let mut leaders = match by_key.remove(&key) {
        Some(leaders) => leaders,
        None => Vec::new(alloc),
    };
    let found = find_equal(store, leaders.as_slice(), file);
    if let Ok(None) = &found {
        leaders.push(file)?;
    }
    by_key.insert(key, leaders)?;
    Ok(found)
}

// The leader of a file, itself if no file before it has its bytes, or the error of its reads.
fn place<S: Store, F: Fingerprint>(
    store: &S,
    fingerprint: &F,
    sizes: &RapidHashMap<'_, u64, u64>,
    by_key: &mut RapidHashMap<'_, u64, Vec<usize>>,
    alloc: Global,
    file: usize,
) -> Result<io::Result<usize>, AllocError>
    ensures { (bytes : ℕ → List ℕ) (count : ℕ) → Tells (S.bytes store.now) count bytes →
        file < count → (places : List (Result ℕ Error)) → length places ≡ file →
        ArePlaced (key_of (F.number fingerprint.now) sizes.now) bytes
        (leaders_of by_key.old) places →
        IfOk result (λ place. ArePlaced (key_of (F.number fingerprint.now) sizes.now) bytes
        (leaders_of by_key.new) (places ++ place ∷ [])) }
{
    let key = match key(store, fingerprint, sizes, file) {
        Ok(key) => key,
        Err(error) => return Ok(Err(error)),
    };
    match look_up(store, by_key, alloc, key, file)? {
        Ok(Some(leader)) => Ok(Ok(leader)),
        Ok(None) => Ok(Ok(file)),
        Err(error) => Ok(Err(error)),
    }
}

/// Finds equal files: each file's place is its leader, the first file of equal bytes, or the error
/// that kept the file from being read or compared.
///
/// Two files have the same leader exactly when their bytes are equal, whatever the fingerprint. The
/// theorem is about the bytes that the store's readers return. For files of the operating system,
/// whose bytes no contract knows, it applies if each open of a name returns the same bytes, as many
/// as its size.
pub fn groups<S: Store, F: Fingerprint>(
    store: &S,
    fingerprint: &F,
    count: usize,
    alloc: Global,
    state: RandomState<'_>,
) -> Result<Vec<io::Result<usize>>, AllocError>
    ensures count { IfOk result (λ places. length places.items ≡ count) }
    ensures groups { (bytes : ℕ → List ℕ) → Tells (S.bytes store.now) count bytes →
        IfOk result (λ places. GroupsByBytes bytes places.items) }
{
    let sizes = count_sizes(store, count, alloc, state)?;
    let mut by_key: RapidHashMap<u64, Vec<usize>> = HashMapExt::new(alloc, state);
    let mut places = Vec::new(alloc);
    for file in 0..count {
        let place = place(store, fingerprint, &sizes, &mut by_key, alloc, file)?;
        places.push(place)?;
    }
    Ok(places)
}

// Counts the files of each size.
fn count_sizes<'s, S: Store>(
    store: &S,
    count: usize,
    alloc: Global,
    state: RandomState<'s>,
) -> Result<RapidHashMap<'s, u64, u64>, AllocError> {
    let mut sizes: RapidHashMap<u64, u64> = HashMapExt::new(alloc, state);
    for file in 0..count {
        let size = store.size(file);
        let before = sizes.get(&size).copied().unwrap_or(0);
        sizes.insert(size, before.saturating_add(1))?;
    }
    Ok(sizes)
}
