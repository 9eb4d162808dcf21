//! The shard and the bucket of a hash, before and after their number changes.

ghost use Rattle.std.specs.Prelude.{◌≡◌, ◌<◌, ◌*◌, ◌/◌, ℕ};
ghost use Rattle.rapidhash.specs.Shards.{shard_of};
ghost use Rattle.example_shards.specs.Moves.{BucketMoves};

use rapidhash::shards::{bucket, shard};

/// The numbers of a hash before and after a change. If they are equal, it stays.
#[derive(Clone, Copy)]
pub struct Move {
    pub from: u32,
    pub to: u32,
}

/// Returns the shards of a hash among `count` and among `new`. A multiplied count splits each
/// shard.
pub fn shard_move(hash: u64, count: u32, new: u32) -> Move
    requires old { 0 < count }
    requires new { 0 < new }
    ensures from { result.from ≡ shard_of hash count }
    ensures to { result.to ≡ shard_of hash new }
    ensures splits { (m : ℕ) → 0 < m → new ≡ m * count → result.to / m ≡ result.from }
{
    Move {
        from: shard(hash, count as u64) as u32,
        to: shard(hash, new as u64) as u32,
    }
}

/// Returns the buckets of a hash among `count` and among `new`. A hash that moves goes to a new
/// bucket, or leaves one that no longer exists.
pub fn bucket_move(hash: u64, count: u32, new: u32) -> Move
    requires old { 0 < count }
    requires new { 0 < new }
    ensures { BucketMoves hash count new result.from result.to }
{
    Move {
        from: bucket(hash, count),
        to: bucket(hash, new),
    }
}
