//! Damage to a saved stream is refused.

ghost use Rattle.std.specs.Prelude.{◌≡◌, ℕ, Bool, List, IsTrue};
ghost use Rattle.rapidhash_portable.specs.Damage.{IsDamaged};
ghost use Rattle.rapidhash_portable.specs.Lanes.{IsLaneCount};
ghost use Rattle.rapidhash_portable.specs.Saved.{IsSaved};

use rapidhash_portable::v3::{RapidSecrets, RapidStreamHasherLanes};

/// Returns whether no stream of this type is restored from the bytes `damaged`. That is so if they
/// are a saved stream of any type with the same secrets, of which bits are flipped: some within 64
/// neighbouring ones, the lowest of each byte first, or any two. The bits of its check count too.
///
/// ```
/// let mut damaged = hasher.save();
/// let saved = damaged;
/// damaged[207] ^= 0x80;
/// assert!(refuses_damage::<7, true, false>(&saved, &damaged, &secrets));
/// ```
pub fn refuses_damage<const LANES: usize, const AVALANCHE: bool, const PROTECTED: bool>(
    saved: &[u8],
    damaged: &[u8],
    secrets: &RapidSecrets,
) -> bool
    requires lanes { IsLaneCount LANES }
    ensures { (lanes : ℕ) (avalanche protected : Bool) (x : List ℕ) →
        IsSaved avalanche protected lanes secrets.now x saved.now →
        IsDamaged saved.now damaged.now →
        IsTrue result }
{
    RapidStreamHasherLanes::<LANES, AVALANCHE, PROTECTED>::restore(damaged, secrets).is_none()
}
