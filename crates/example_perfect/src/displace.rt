//! Builds a table: the keys of a bucket go to free places by one seed, the largest bucket first. It
//! is only proved that this is safe, ends and makes as many places as keys: the content of the
//! places is checked afterwards.

ghost use Rattle.std.specs.Prelude.{◌≡◌, ◌<◌, ◌≤◌, length, IfOk};
ghost use Rattle.example_perfect.specs.Table.{HasPlaces};

use crate::table::{BuildError, bucket, place};
use std::alloc::{AllocError, Global};

/// The seeds of the buckets, and the places with the indices of their keys.
#[derive(Drop)]
pub(crate) struct Displaced {
    pub(crate) seeds: Vec<u32>,
    pub(crate) places: Vec<u32>,
}

// The content of a place that has no key.
const FREE: u32 = u32::MAX;

// A key with its bucket. The order is by bucket, then by key, then by index.
#[derive(Clone, Copy, PartialEq, Eq, PartialOrd, Ord)]
struct Member<'k> {
    bucket: usize,
    key: &'k [u8],
    index: u32,
}

// The keys in the order of their buckets.
fn members<'k>(
    alloc: Global,
    keys: &'k [&'k [u8]],
    count: u32,
    buckets: usize,
) -> Result<Vec<Member<'k>>, AllocError>
    requires { 0 < buckets }
{
    let mut members = Vec::with_capacity(alloc, keys.len())?;
    for (index, key) in (0..count).zip(keys) {
        members.push(Member {
            bucket: bucket(key, buckets),
            key,
            index,
        })?;
    }
    members.sort()?;
    Ok(members)
}

// Fails if two neighbours are the same key, and so, since the members are sorted, if any two are.
fn refuse_twins(members: &[Member<'_>]) -> Result<(), BuildError> {
    for pair in members.windows(2) {
        if let [first, second] = pair
            && first.key == second.key
        {
            return Err(BuildError::Twice {
                first: first.index,
                second: second.index,
            });
        }
    }
    Ok(())
}

// Counts the members at the front that have the same bucket.
fn front(members: &[Member<'_>]) -> usize
    requires { 0 < length members.now }
    ensures at_least_1 { 0 < result }
    ensures inside { result ≤ length members.now }
{
    let bucket = members[0].bucket;
    for i in 1..members.len() {
        if members[i].bucket != bucket {
            return i;
        }
    }
    members.len()
}

// The members of each bucket that has any, the largest bucket first.
fn groups<'m, 'k>(
    alloc: Global,
    members: &'m [Member<'k>],
) -> Result<Vec<&'m [Member<'k>]>, AllocError> {
    let mut groups = Vec::new(alloc);
    let mut start = 0usize;
    while start < members.len() {
        let end = start + front(&members[start..]);
        groups.push(&members[start..end])?;
        start = end;
    }
    groups.sort_by(|group, other| other.len().cmp(&group.len()))?;
    Ok(groups)
}

// Makes the places of a group free again.
fn leave(places: &mut [u32], group: &[Member<'_>], seed: u32)
    requires { 0 < length places.old }
    ensures { length places.new ≡ length places.old }
{
    for member in group {
        let at = place(member.key, seed, places.len());
        places[at] = FREE;
    }
}

// Puts each member of a group at its place by the seed, or none if a place is not free.
fn settle(places: &mut [u32], group: &[Member<'_>], seed: u32) -> bool
    requires { 0 < length places.old }
    ensures { length places.new ≡ length places.old }
{
    for i in 0..group.len() {
        let at = place(group[i].key, seed, places.len());
        if places[at] != FREE {
            leave(places, &group[..i], seed);
            return false;
        }
        places[at] = group[i].index;
    }
    true
}

// The first of this many seeds that places the whole group.
fn seed_of(places: &mut [u32], group: &[Member<'_>], tries: u32) -> Option<u32>
    requires { 0 < length places.old }
    ensures { length places.new ≡ length places.old }
{
    for seed in 0..tries {
        if settle(places, group, seed) {
            return Some(seed);
        }
    }
    None
}

// Places each group, and stores its seed for its bucket.
fn settle_groups(
    seeds: &mut [u32],
    places: &mut [u32],
    groups: &[&[Member<'_>]],
    tries: u32,
) -> Result<(), BuildError>
    requires { (0 < length seeds.old) × (0 < length places.old) }
    ensures seeds { length seeds.new ≡ length seeds.old }
    ensures places { length places.new ≡ length places.old }
{
    for group in groups {
        let Some(first) = group.first() else {
            continue;
        };
        let at = bucket(first.key, seeds.len());
        match seed_of(places, group, tries) {
            Some(seed) => seeds[at] = seed,
            None => return Err(BuildError::GaveUp),
        }
    }
    Ok(())
}

/// Finds seeds and places for all keys.
pub(crate) fn displace(alloc: Global, keys: &[&[u8]]) -> Result<Displaced, BuildError>
    ensures { IfOk result (HasPlaces (length keys.now)) }
{
    let count = match u32::try_from(keys.len()) {
        Ok(count) if count < FREE => count,
        _ => return Err(BuildError::TooManyKeys),
    };
    let buckets = keys.len() / 4 + 1;
    let members = members(alloc, keys, count, buckets)?;
    refuse_twins(members.as_slice())?;
    let groups = groups(alloc, members.as_slice())?;
    let mut seeds = vec![in alloc; 0u32; buckets]?;
    let mut places = vec![in alloc; FREE; keys.len().max(1)]?;
    let tries = count.saturating_mul(1024).saturating_add(16384);
    settle_groups(&mut seeds, &mut places, groups.as_slice(), tries)?;
    Ok(Displaced { seeds, places })
}
