//! The seed and the secrets of V1.

ghost use Rattle.std.specs.Prelude.{◌≡◌, ◌∷◌, All};
ghost use Rattle.rapidhash_portable.specs.Secrets.{IsGood, cpp_seeded, default_secrets_v1, default_seed_v1, reseeded, seeded, seeded_secrets};

use super::{DEFAULT_SECRETS, chain, cpp_seed_of, reseed_of, seed_of};

/// A seed and the three secrets of V1. Derive it once and keep it: deriving costs four multiplies
/// or more. It is laid out as in C.
#[repr(C)]
#[derive(Debug, Clone, Copy, PartialEq, Eq, Hash)]
pub struct RapidSecrets {
    /// The start value of every lane.
    pub seed: u64,
    /// The words that a message's words are mixed with.
    pub secrets: [u64; 3],
}

/// The secrets of [`rapidhash_v1`]: `RapidSecrets::seed_cpp(0xbdd89aa982704029)`, as numbers.
pub const DEFAULT_RAPID_SECRETS: RapidSecrets = RapidSecrets {
    seed: 0x7633_05bb_e7be_a536,
    secrets: [
        0x2d35_8dcc_aa6c_78a5,
        0x8bb8_4b93_962e_acc9,
        0x4b33_a62e_d433_d4a3,
    ],
};

impl RapidSecrets {
    /// Returns the default seed and secrets, [`DEFAULT_RAPID_SECRETS`], by reference.
    #[inline(always)]
    #[tactic(auto, using(crate::proofs::SecretsLemmas::default_number_v1))]
    pub const fn default_ref() -> &'static Self
        ensures seed { result.now.seed ≡ default_seed_v1 }
        ensures secrets { result.now.secrets ≡ default_secrets_v1 }
    {
        &DEFAULT_RAPID_SECRETS
    }

    /// Returns a seed and secrets made from a number. Each has a set bit in its upper, its middle
    /// and its lower part, so none is 0.
    ///
    /// ```
    /// use rapidhash::v1::{RapidSecrets, rapidhash_v1_seeded};
    ///
    /// let secrets = RapidSecrets::seed(0x1234_5678);
    /// let hash = rapidhash_v1_seeded(b"hello", &secrets);
    /// ```
    pub const fn seed(seed: u64) -> Self
        ensures seed { result.seed ≡ seeded seed }
        ensures secrets { result.secrets ≡ seeded_secrets 3 seed }
        ensures good { All IsGood (result.seed ∷ result.secrets) }
    {
        let seed = seed_of(seed);
        RapidSecrets {
            seed,
            secrets: chain::<3>(seed),
        }
    }

    /// Returns the same secrets with a new seed, made from the old one with V1's last default
    /// secret.
    ///
    /// ```
    /// use rapidhash::v1::RapidSecrets;
    ///
    /// let secrets = RapidSecrets::seed(7);
    /// assert_ne!(secrets.reseed().seed, secrets.seed);
    /// assert_eq!(secrets.reseed().secrets, secrets.secrets);
    /// ```
    pub const fn reseed(&self) -> Self
        ensures seed { result.seed ≡ reseeded self.now.seed 2 }
        ensures secrets { result.secrets ≡ self.now.secrets }
        ensures good { IsGood result.seed }
    {
        RapidSecrets {
            seed: reseed_of(self.seed, 2),
            secrets: self.secrets,
        }
    }

    /// Returns the seed of [`RapidSecrets::seed_cpp`], without the secrets.
    #[inline(always)]
    pub const fn seed_of_word(word: u64) -> u64
        ensures { result ≡ cpp_seeded word 0 }
    {
        cpp_seed_of(word, 0)
    }

    /// Returns the default secrets with a seed derived from a number. According to the Rust crate
    /// rapidhash, the C++ library derives it in the same way.
    /// Anyone who knows the default secrets can find messages with the same hash for every seed: if
    /// that matters, see [`RapidSecrets::seed`].
    ///
    /// ```
    /// use rapidhash::v1::{DEFAULT_RAPID_SECRETS, RapidSecrets};
    ///
    /// assert_eq!(RapidSecrets::seed_cpp(7).secrets, DEFAULT_RAPID_SECRETS.secrets);
    /// ```
    pub const fn seed_cpp(seed: u64) -> Self
        ensures seed { result.seed ≡ cpp_seeded seed 0 }
        ensures secrets { result.secrets ≡ default_secrets_v1 }
    {
        RapidSecrets {
            seed: Self::seed_of_word(seed),
            secrets: [DEFAULT_SECRETS[0], DEFAULT_SECRETS[1], DEFAULT_SECRETS[2]],
        }
    }
}
