//! The chunk steps that a stream hasher makes for a message in one piece, in two, and in single
//! bytes: for any length, and as numbers at the lengths around each chunk.

ghost use Rattle.std.specs.Prelude.{◌≡◌, ◌+◌, ◌++◌, ◌∷◌, [], false, length, map};
ghost use Rattle.rapidhash_portable.specs.Lanes.{IsLaneCount};
ghost use Rattle.rapidhash_portable.specs.Stream.{StreamRepresents, chunk_count, steps_of};

use rapidhash_portable::v3::{RapidSecrets, RapidStreamHasherLanes};

/// Returns a hasher after one piece.
pub fn after_one_piece<'a, const LANES: usize>(
    secrets: &'a RapidSecrets,
    bytes: &[u8],
) -> RapidStreamHasherLanes<'a, LANES, true, false>
    requires { IsLaneCount LANES }
    ensures represents { StreamRepresents false result bytes.now }
    ensures steps { steps_of result ≡ chunk_count LANES (length bytes.now) }
{
    let mut hasher = RapidStreamHasherLanes::new(secrets);
    hasher.write(bytes);
    hasher
}

/// Returns a hasher after pieces of one byte.
pub fn after_single_bytes<'a, const LANES: usize>(
    secrets: &'a RapidSecrets,
    bytes: &[u8],
) -> RapidStreamHasherLanes<'a, LANES, true, false>
    requires { IsLaneCount LANES }
    ensures represents { StreamRepresents false result bytes.now }
    ensures steps { steps_of result ≡ chunk_count LANES (length bytes.now) }
{
    let mut hasher = RapidStreamHasherLanes::new(secrets);
    for at in 0..bytes.len() {
        hasher.write(&bytes[at..at + 1]);
    }
    hasher
}

/// Returns a hasher after two pieces.
pub fn after_two_pieces<'a, const LANES: usize>(
    secrets: &'a RapidSecrets,
    first: &[u8],
    second: &[u8],
) -> RapidStreamHasherLanes<'a, LANES, true, false>
    requires { IsLaneCount LANES }
    ensures represents { StreamRepresents false result (first.now ++ second.now) }
    ensures steps { steps_of result
        ≡ chunk_count LANES (length first.now + length second.now) }
{
    let mut hasher = RapidStreamHasherLanes::new(secrets);
    hasher.write(first);
    hasher.write(second);
    hasher
}

/// Compares the numbers of steps around each chunk with known ones. A chunk is folded when a
/// further byte comes: of seven lanes it has 112 bytes, of five 80, of three 48.
#[tactic(auto, unfolding(rapidhash_portable::specs::Stream::chunk_count))]
pub fn known_counts()
    ensures seven { map (chunk_count 7)
        (0 ∷ 1 ∷ 48 ∷ 49 ∷ 80 ∷ 81 ∷ 112 ∷ 113 ∷ 224 ∷ 225 ∷ 241 ∷ 338 ∷ [])
        ≡ 0 ∷ 0 ∷ 0 ∷ 0 ∷ 0 ∷ 0 ∷ 0 ∷ 1 ∷ 1 ∷ 2 ∷ 2 ∷ 3 ∷ [] }
    ensures five { map (chunk_count 5)
        (0 ∷ 48 ∷ 49 ∷ 80 ∷ 81 ∷ 112 ∷ 113 ∷ 241 ∷ [])
        ≡ 0 ∷ 0 ∷ 0 ∷ 0 ∷ 1 ∷ 1 ∷ 1 ∷ 3 ∷ [] }
    ensures three { map (chunk_count 3)
        (0 ∷ 48 ∷ 49 ∷ 80 ∷ 81 ∷ 112 ∷ 113 ∷ 241 ∷ [])
        ≡ 0 ∷ 0 ∷ 1 ∷ 1 ∷ 1 ∷ 2 ∷ 2 ∷ 5 ∷ [] }
{}
