//! The integers that wait to be mixed in.

ghost use Rattle.std.specs.Prelude.{◌≡◌, ◌≤◌, ◌<◌, ◌^◌, ◌+◌, ◌*◌};

/// Up to 128 bits that wait to be mixed in.
#[derive(Clone, Copy)]
pub(crate) struct Sponge {
    pub(crate) bits: u128,
    pub(crate) width: u8,
    ghost small: { width ≤ 128 },
    ghost fits: { bits < 2 ^ width },
}

impl Sponge {
    ghost use Rattle.rapidhash.specs.Sponge.{empty_sponge};

    /// Returns a sponge without bits.
    #[inline(always)]
    pub(crate) const fn empty() -> Sponge
        ensures { result ≡ empty_sponge }
    {
        Sponge { bits: 0, width: 0 }
    }

    /// Returns a sponge with a single integer.
    #[inline(always)]
    pub(crate) fn of(value: u64, width: u8) -> Sponge
        requires at_most_64_bits { width ≤ 64 }
        requires fits { value < 2 ^ width }
        ensures bits { result.bits ≡ value }
        ensures width { result.width ≡ width }
    {
        Sponge {
            bits: value as u128,
            width,
        }
    }

    /// Adds an integer after the pending ones.
    #[inline(always)]
    pub(crate) fn with(self, value: u64, width: u8) -> Sponge
        requires room { self.width + width ≤ 128 }
        requires open { self.width < 128 }
        requires fits { value < 2 ^ width }
        ensures bits { result.bits ≡ self.bits + value * 2 ^ self.width }
        ensures width { result.width ≡ self.width + width }
    {
        Sponge {
            bits: self.bits | ((value as u128) << self.width),
            width: self.width + width,
        }
    }
}
