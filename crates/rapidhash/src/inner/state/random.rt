//! A state of the next seed of a source.

ghost use Rattle.std.specs.Prelude.{◌≡◌};

use super::{Kind, State};
use rapidhash_portable::seeding::{GlobalSecrets, SeedSource};

/// The kind of a [`RandomState`].
#[derive(Debug, Clone, Copy)]
pub struct Random;

impl Kind for Random {
    fn shown() -> &'static str {
        "RandomState { .. }"
    }
}

/// Makes hashers of the next seed of a [`crate::inner::SeedSource`], and of the secrets that a
/// program made once. Two seeds of a source may be equal.
///
/// ```
/// let secrets = GlobalSecrets::new(random_word);
/// let mut source = SeedSource::new(&secrets, second_random_word);
/// let state = RandomState::<false, true, false, false>::new(&secrets, &mut source);
/// ```
pub type RandomState<
    's,
    const AVALANCHE: bool,
    const SPONGE: bool,
    const COMPACT: bool,
    const PROTECTED: bool,
> = State<'s, Random, AVALANCHE, SPONGE, COMPACT, PROTECTED>;

impl<
    's,
    const AVALANCHE: bool,
    const SPONGE: bool,
    const COMPACT: bool,
    const PROTECTED: bool,
> State<'s, Random, AVALANCHE, SPONGE, COMPACT, PROTECTED> {
    ghost use Rattle.rapidhash.specs.States.{secrets_of_state, seed_of_state};
    ghost use Rattle.rapidhash_portable.specs.GlobalSecrets.{secrets_of_global};
    ghost use Rattle.rapidhash_portable.specs.SeedSource.{Draws};

    /// Returns a state with the next seed of `source` and the secrets of `secrets`.
    #[inline(always)]
    pub fn new(secrets: &'s GlobalSecrets, source: &mut SeedSource) -> Self
        ensures seed { Draws source.old source.new (seed_of_state result) }
        ensures secrets { secrets_of_state result ≡ secrets_of_global secrets.now }
    {
        State::of(source.next(), secrets.get())
    }
}
