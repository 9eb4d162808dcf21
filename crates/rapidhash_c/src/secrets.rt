//! Secrets derived from a number, and the default secrets with a seed derived from one seed word.
//! According to the Rust crate rapidhash, the C++ library derives it in the same way.

ghost use Rattle.std.specs.Prelude.{◌≡◌, ◌∷◌, All};
ghost use Rattle.rapidhash_portable.specs.Secrets.{IsGood, cpp_seeded, default_secrets, default_secrets_v1, seeded, seeded_secrets};

use rapidhash_portable::{v1, v3};

/// Writes a seed and secrets derived from a number, for V1.
#[unsafe(no_mangle)]
pub extern "C" fn rapidhash_v1_make_secrets(number: u64, secrets: &mut v1::RapidSecrets)
    ensures seed { secrets.new.seed ≡ seeded number }
    ensures secrets { secrets.new.secrets ≡ seeded_secrets 3 number }
    ensures good { All IsGood (secrets.new.seed ∷ secrets.new.secrets) }
{
    *secrets = v1::RapidSecrets::seed(number);
}

/// Writes a seed and secrets derived from a number, for V2 and V3.
#[unsafe(no_mangle)]
pub extern "C" fn rapidhash_make_secrets(number: u64, secrets: &mut v3::RapidSecrets)
    ensures seed { secrets.new.seed ≡ seeded number }
    ensures secrets { secrets.new.secrets ≡ seeded_secrets 7 number }
    ensures good { All IsGood (secrets.new.seed ∷ secrets.new.secrets) }
{
    *secrets = v3::RapidSecrets::seed(number);
}

/// Writes the default secrets and a seed derived from one seed word, for V1.
#[unsafe(no_mangle)]
pub extern "C" fn rapidhash_v1_seed_secrets(seed: u64, secrets: &mut v1::RapidSecrets)
    ensures seed { secrets.new.seed ≡ cpp_seeded seed 0 }
    ensures secrets { secrets.new.secrets ≡ default_secrets_v1 }
{
    *secrets = v1::RapidSecrets::seed_cpp(seed);
}

/// Writes the default secrets and a seed derived from one seed word, for V2 and V3.
#[unsafe(no_mangle)]
pub extern "C" fn rapidhash_seed_secrets(seed: u64, secrets: &mut v3::RapidSecrets)
    ensures seed { secrets.new.seed ≡ cpp_seeded seed 2 }
    ensures secrets { secrets.new.secrets ≡ default_secrets }
{
    *secrets = v3::RapidSecrets::seed_cpp(seed);
}
