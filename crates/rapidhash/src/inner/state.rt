//! The states, which make hashers for a map. A state keeps a seed and secrets, and nothing else.
//! Its kind determines where the seed comes from, and which calls make the state.

ghost use Rattle.std.specs.Prelude.{◌≡◌, ◌↔◌, [], IsTrue};
ghost use Rattle.std.specs.Cmp.Rules.{comparing};
ghost use Rattle.std.proofs.Common.{rules};

mod global;
mod random;
mod seedable;
mod seeded;

use crate::inner::hasher::RapidHasher;
pub use global::{Global, GlobalState};
pub use random::{Random, RandomState};
pub use seedable::{Seedable, SeedableState};
use seeded::Seeded;
use std::fmt::{Debug, Formatter, Write};
use std::hash::BuildHasher;
use std::marker::PhantomData;

/// The name of a kind of states, which `Debug` prints.
pub trait Kind {
    /// Returns the name and two dots.
    fn shown() -> &'static str;
}

/// Makes hashers of a seed and secrets: [`GlobalState`], [`RandomState`] or [`SeedableState`].
#[derive(Clone, Copy)]
pub struct State<
    's,
    K,
    const AVALANCHE: bool,
    const SPONGE: bool,
    const COMPACT: bool,
    const PROTECTED: bool,
> {
    seeded: Seeded<'s>,
    kind: PhantomData<K>,
}

impl<
    's,
    K,
    const AVALANCHE: bool,
    const SPONGE: bool,
    const COMPACT: bool,
    const PROTECTED: bool,
> State<'s, K, AVALANCHE, SPONGE, COMPACT, PROTECTED> {
    ghost use Rattle.rapidhash.specs.States.{secrets_of_state, seed_of_state};

    /// Returns a state with the given seed and secrets.
    #[inline(always)]
    pub(crate) const fn of(seed: u64, secrets: &'s [u64; 7]) -> Self
        ensures seed { seed_of_state result ≡ seed }
        ensures secrets { secrets_of_state result ≡ secrets.now }
    {
        State {
            seeded: Seeded { seed, secrets },
            kind: PhantomData,
        }
    }
}

impl<
    's,
    K,
    const AVALANCHE: bool,
    const SPONGE: bool,
    const COMPACT: bool,
    const PROTECTED: bool,
> PartialEq for State<'s, K, AVALANCHE, SPONGE, COMPACT, PROTECTED> {
    ghost use Rattle.rapidhash.specs.States.{secrets_of_state, seed_of_state, state_eq};

    ghost eq = { state_eq };

    ghost laws = { Prim.search (comparing, rules) };

    #[inline]
    fn eq(&self, other: &Self) -> bool
        ensures eq { result ≡ state_eq self.now other.now }
        ensures same { IsTrue result
            ↔ (seed_of_state self.now ≡ seed_of_state other.now)
            × (secrets_of_state self.now ≡ secrets_of_state other.now) }
    {
        self.seeded == other.seeded
    }
}

impl<
    's,
    K,
    const AVALANCHE: bool,
    const SPONGE: bool,
    const COMPACT: bool,
    const PROTECTED: bool,
> Eq for State<'s, K, AVALANCHE, SPONGE, COMPACT, PROTECTED> {
    ghost laws = { Prim.search (comparing, rules) };
}

impl<
    's,
    K,
    const AVALANCHE: bool,
    const SPONGE: bool,
    const COMPACT: bool,
    const PROTECTED: bool,
> BuildHasher for State<'s, K, AVALANCHE, SPONGE, COMPACT, PROTECTED> {
    ghost use Rattle.rapidhash.specs.RapidHasher.{Represents, secrets_of_hasher};
    ghost use Rattle.rapidhash.specs.States.{built_by, secrets_of_state, seed_of_state};

    type Hasher = RapidHasher<'s, AVALANCHE, SPONGE, COMPACT, PROTECTED>;

    ghost build_hasher = { built_by };

    /// Returns a hasher with the state's seed and secrets that has absorbed nothing.
    #[inline(always)]
    fn build_hasher(&self) -> RapidHasher<'s, AVALANCHE, SPONGE, COMPACT, PROTECTED>
        ensures value { result ≡ built_by self.now }
        ensures secrets { secrets_of_hasher result ≡ secrets_of_state self.now }
        ensures represents { Represents result (seed_of_state self.now) [] }
    {
        self.seeded.hasher()
    }
}

impl<
    's,
    K: Kind,
    const AVALANCHE: bool,
    const SPONGE: bool,
    const COMPACT: bool,
    const PROTECTED: bool,
> Debug for State<'s, K, AVALANCHE, SPONGE, COMPACT, PROTECTED> {
    fn fmt<W: Write>(&self, f: &mut Formatter<W>) -> std::fmt::Result {
        f.write_str(K::shown())
    }
}
