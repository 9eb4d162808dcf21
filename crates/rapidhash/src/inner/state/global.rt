//! A state of the seed that a program made once.

ghost use Rattle.std.specs.Prelude.{◌≡◌};

use super::{Kind, State};
use rapidhash_portable::seeding::GlobalSecrets;

/// The kind of a [`GlobalState`].
#[derive(Debug, Clone, Copy)]
pub struct Global;

impl Kind for Global {
    fn shown() -> &'static str {
        "GlobalState { .. }"
    }
}

/// Makes hashers of the seed and the secrets that a program made once: all its maps hash in the
/// same way.
///
/// ```
/// let state = GlobalState::<false, true, false, false>::new(&secrets);
/// let mut hasher = state.build_hasher();
/// ```
pub type GlobalState<
    's,
    const AVALANCHE: bool,
    const SPONGE: bool,
    const COMPACT: bool,
    const PROTECTED: bool,
> = State<'s, Global, AVALANCHE, SPONGE, COMPACT, PROTECTED>;

impl<
    's,
    const AVALANCHE: bool,
    const SPONGE: bool,
    const COMPACT: bool,
    const PROTECTED: bool,
> State<'s, Global, AVALANCHE, SPONGE, COMPACT, PROTECTED> {
    ghost use Rattle.rapidhash.specs.States.{secrets_of_state, seed_of_state};
    ghost use Rattle.rapidhash_portable.specs.GlobalSecrets.{secrets_of_global, seed_of};

    /// Returns a state with the seed and the secrets of `secrets`.
    #[inline(always)]
    pub fn new(secrets: &'s GlobalSecrets) -> Self
        ensures seed { seed_of_state result ≡ seed_of secrets.now }
        ensures secrets { secrets_of_state result ≡ secrets_of_global secrets.now }
    {
        State::of(secrets.get_global_seed(), secrets.get())
    }
}
