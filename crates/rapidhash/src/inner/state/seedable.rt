//! A state of the caller's seed.

ghost use Rattle.std.specs.Prelude.{◌≡◌};
ghost use Rattle.rapidhash_portable.specs.Secrets.{cpp_seeded, default_secrets, default_seed};

use super::{Kind, State};
use rapidhash_portable::seeding::{GlobalSecrets, SeedSource};
use rapidhash_portable::v3::RapidSecrets;

/// The kind of a [`SeedableState`].
#[derive(Debug, Clone, Copy)]
pub struct Seedable;

impl Kind for Seedable {
    fn shown() -> &'static str {
        "SeedableState { .. }"
    }
}

/// Makes hashers of the caller's seed.
///
/// A seed and secrets that stay the same between runs are made from one stored number. Do not
/// choose secrets by hand: with small numbers, most keys agree in the bits that a map looks at
/// first.
///
/// ```
/// let secrets = RapidSecrets::seed(kept);
/// let state = SeedableState::<true, true, false, false>::custom(secrets.seed, &secrets.secrets);
/// let hash = state.hash_one("user:4711");
/// ```
pub type SeedableState<
    's,
    const AVALANCHE: bool,
    const SPONGE: bool,
    const COMPACT: bool,
    const PROTECTED: bool,
> = State<'s, Seedable, AVALANCHE, SPONGE, COMPACT, PROTECTED>;

impl<
    's,
    const AVALANCHE: bool,
    const SPONGE: bool,
    const COMPACT: bool,
    const PROTECTED: bool,
> State<'s, Seedable, AVALANCHE, SPONGE, COMPACT, PROTECTED> {
    ghost use Rattle.rapidhash.specs.States.{secrets_of_state, seed_of_state};
    ghost use Rattle.rapidhash_portable.specs.GlobalSecrets.{secrets_of_global};
    ghost use Rattle.rapidhash_portable.specs.SeedSource.{Draws};

    /// Returns a state with the secrets of `secrets`, and with the seed that
    /// `v3::RapidSecrets::seed_cpp` derives from `seed`.
    #[inline(always)]
    pub fn new(seed: u64, secrets: &'s GlobalSecrets) -> Self
        ensures seed { seed_of_state result ≡ cpp_seeded seed 2 }
        ensures secrets { secrets_of_state result ≡ secrets_of_global secrets.now }
    {
        State::custom(RapidSecrets::seed_of_word(seed), secrets.get())
    }

    /// Returns a state with the next seed of `source` and the secrets of `secrets`.
    #[inline(always)]
    pub fn random(secrets: &'s GlobalSecrets, source: &mut SeedSource) -> Self
        ensures seed { Draws source.old source.new (seed_of_state result) }
        ensures secrets { secrets_of_state result ≡ secrets_of_global secrets.now }
    {
        State::custom(source.next(), secrets.get())
    }

    /// Returns a state with the default seed and the default secrets, the same in every run of
    /// every program. Anyone who knows them can find keys that all have the same hash.
    #[inline(always)]
    pub const fn fixed() -> Self
        ensures seed { seed_of_state result ≡ default_seed }
        ensures secrets { secrets_of_state result ≡ default_secrets }
    {
        let default = RapidSecrets::default_ref();
        State::custom(default.seed, &default.secrets)
    }

    /// Returns a state with the given seed and secrets.
    #[inline(always)]
    pub const fn custom(seed: u64, secrets: &'s [u64; 7]) -> Self
        ensures seed { seed_of_state result ≡ seed }
        ensures secrets { secrets_of_state result ≡ secrets.now }
    {
        State::of(seed, secrets)
    }

    /// Returns the same state as [`SeedableState::custom`].
    #[inline(always)]
    pub const fn with_seed(seed: u64, secrets: &'s [u64; 7]) -> Self
        ensures seed { seed_of_state result ≡ seed }
        ensures secrets { secrets_of_state result ≡ secrets.now }
    {
        State::custom(seed, secrets)
    }
}
