//! The content of every state: a seed and secrets.

ghost use Rattle.std.specs.Prelude.{◌≡◌, ◌==◌, ◌&&◌, [], nat_eq};
ghost use Rattle.std.specs.Cmp.Lexicographic.{pointwise};
ghost use Rattle.std.specs.Cmp.Rules.{comparing};
ghost use Rattle.std.proofs.Common.{rules};
ghost use Rattle.rapidhash.specs.RapidHasher.{Represents, fresh};

use crate::inner::hasher::RapidHasher;

/// A seed and the secrets that go with it.
#[derive(Clone, Copy)]
pub(crate) struct Seeded<'s> {
    pub(crate) seed: u64,
    pub(crate) secrets: &'s [u64; 7],
}

impl<'s> Seeded<'s> {
    /// Returns a hasher with the seed and the secrets that has absorbed nothing.
    #[inline(always)]
    pub(crate) fn hasher<
        const AVALANCHE: bool,
        const SPONGE: bool,
        const COMPACT: bool,
        const PROTECTED: bool,
    >(&self) -> RapidHasher<'s, AVALANCHE, SPONGE, COMPACT, PROTECTED>
        ensures value { result ≡ fresh self.now.seed self.now.secrets }
        ensures represents { Represents result self.now.seed [] }
    {
        RapidHasher::from_parts(self.seed, self.secrets)
    }
}

impl<'s> PartialEq for Seeded<'s> {
    ghost eq = { λ x y. x.seed == y.seed && pointwise nat_eq x.secrets.now y.secrets.now };

    ghost laws = { Prim.search (comparing, rules) };

    #[inline]
    fn eq(&self, other: &Self) -> bool {
        self.seed == other.seed && *self.secrets == *other.secrets
    }
}

impl<'s> Eq for Seeded<'s> {
    ghost laws = { Prim.search (comparing, rules) };
}
