//! Writes of a hasher with a sponge that may be joined or swapped.

ghost use Rattle.std.specs.Prelude.{◌≡◌};
ghost use Rattle.rapidhash.specs.Laws.{JoinsWrites, TurnsWrites, item_of};
ghost use Rattle.rapidhash.specs.RapidHasher.{Absorbs};
ghost use Rattle.rapidhash.specs.Sponge.{Bytes, IsItem, Wide};

use super::Num;
use crate::inner::RapidHasher;
use std::hash::Hasher;

/// Absorbs two integers of 8 bits. If the last block of the hasher has room for both, this is the
/// same as absorbing one integer of 16 bits, with `low` in its lower half.
///
/// ```
/// let mut hasher = fast::RapidHasher::default();
/// join_u8(&mut hasher, 2, 1);
/// ```
pub fn join_u8<const AVALANCHE: bool, const COMPACT: bool, const PROTECTED: bool>(
    hasher: &mut RapidHasher<'_, AVALANCHE, true, COMPACT, PROTECTED>,
    low: u8,
    high: u8,
)
    ensures { JoinsWrites hasher.old hasher.new 8 low high }
{
    hasher.write_u8(low);
    hasher.write_u8(high);
}

/// Writes two integers of 16 bits. The law is that of [`join_u8`], for one of 32 bits.
pub fn join_u16<const AVALANCHE: bool, const COMPACT: bool, const PROTECTED: bool>(
    hasher: &mut RapidHasher<'_, AVALANCHE, true, COMPACT, PROTECTED>,
    low: u16,
    high: u16,
)
    ensures { JoinsWrites hasher.old hasher.new 16 low high }
{
    hasher.write_u16(low);
    hasher.write_u16(high);
}

/// Writes two integers of 32 bits. The law is that of [`join_u8`], for one of 64 bits.
pub fn join_u32<const AVALANCHE: bool, const COMPACT: bool, const PROTECTED: bool>(
    hasher: &mut RapidHasher<'_, AVALANCHE, true, COMPACT, PROTECTED>,
    low: u32,
    high: u32,
)
    ensures { JoinsWrites hasher.old hasher.new 32 low high }
{
    hasher.write_u32(low);
    hasher.write_u32(high);
}

/// Absorbs bytes and then an integer. If the last block of the hasher has room for the integer,
/// this is the same as absorbing the integer first.
///
/// ```
/// let mut hasher = fast::RapidHasher::default();
/// turn_bytes(&mut hasher, b"user", Num::N32(4711));
/// ```
pub fn turn_bytes<const AVALANCHE: bool, const COMPACT: bool, const PROTECTED: bool>(
    hasher: &mut RapidHasher<'_, AVALANCHE, true, COMPACT, PROTECTED>,
    bytes: &[u8],
    number: Num,
)
    ensures { TurnsWrites hasher.old hasher.new (Bytes bytes.now) number }
{
    hasher.write(bytes);
    write_num(hasher, number);
}

/// Writes a number of 128 bits, and then an integer. The law is that of [`turn_bytes`].
pub fn turn_u128<const AVALANCHE: bool, const COMPACT: bool, const PROTECTED: bool>(
    hasher: &mut RapidHasher<'_, AVALANCHE, true, COMPACT, PROTECTED>,
    wide: u128,
    number: Num,
)
    ensures { TurnsWrites hasher.old hasher.new (Wide wide) number }
{
    hasher.write_u128(wide);
    write_num(hasher, number);
}

/// Absorbs an integer by its width.
fn write_num<const AVALANCHE: bool, const COMPACT: bool, const PROTECTED: bool>(
    hasher: &mut RapidHasher<'_, AVALANCHE, true, COMPACT, PROTECTED>,
    number: Num,
)
    ensures absorbs { Absorbs hasher.old hasher.new (item_of number) }
    ensures fits { IsItem (item_of number) }
{
    match number {
        Num::N8(value) => hasher.write_u8(value),
        Num::N16(value) => hasher.write_u16(value),
        Num::N32(value) => hasher.write_u32(value),
        Num::N64(value) => hasher.write_u64(value),
    }
}
