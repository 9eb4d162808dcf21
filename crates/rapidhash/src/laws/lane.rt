//! What a lane keeps if a message contains the lane's secret.

ghost use Rattle.std.specs.Prelude.{◌≡◌, if◌then◌else◌, bit_xor};
ghost use Rattle.rapidhash_portable.specs.Lanes.{step};

use rapidhash_portable::util::rapid_mix;

/// Returns a lane after a pair whose first word is the lane's own secret. Without `PROTECTED` the
/// result is 0 for every lane: all folded pairs are lost. With it the lane becomes the XOR of its
/// old value and the pair's second word, so two lanes that differ still differ.
///
/// ```
/// assert_eq!(lane_after_its_secret::<false>(5, 7, 9), 0);
/// assert_eq!(lane_after_its_secret::<true>(5, 7, 9), 14);
/// ```
pub fn lane_after_its_secret<const PROTECTED: bool>(secret: u64, second: u64, lane: u64) -> u64
    ensures pair { result ≡ step PROTECTED secret lane (secret, second) }
    ensures value { result ≡ (if PROTECTED then bit_xor second lane else 0) }
{
    rapid_mix::<PROTECTED>(secret ^ secret, second ^ lane)
}
