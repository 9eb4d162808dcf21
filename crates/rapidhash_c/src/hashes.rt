//! The hashes of a slice by each form: with the default seed and secrets, with the caller's, and
//! with one seed word.

ghost use Rattle.std.specs.Prelude.{◌≡◌, ◌<◌, ◌≤◌, ◌%◌, false, true};
ghost use Rattle.rapidhash_portable.specs.Form.{guarded, micro, nano, standard, v1, v2, v3};
ghost use Rattle.rapidhash_portable.specs.Hash.{default_hash, portable_hash, seeded_hash, seeded_hash_v1};
ghost use Rattle.rapidhash_portable.specs.Secrets.{cpp_seeded, default_secrets, default_secrets_v1};
ghost use Rattle.rapidhash_portable.specs.declared.form.Form.TheVariants.{V3};

use rapidhash_portable::kernel::{GUARDED, MIXED, NOT_COMPACT, PLAIN, v1, v2, v3};
use rapidhash_portable::v1::RapidSecrets as RapidSecretsV1;
use rapidhash_portable::v3::{RapidSecrets, rapidhash_v3_inline};

/// Returns the V1 hash of `bytes` with the default seed and secrets.
#[unsafe(no_mangle)]
pub extern "C" fn rapidhash_v1(bytes: &[u8]) -> u64
    ensures { result ≡ default_hash v1 standard bytes.now }
{
    let defaults = RapidSecretsV1::default_ref();
    v1::hash::<MIXED, NOT_COMPACT, PLAIN, false>(bytes, defaults.seed, &defaults.secrets)
}

/// Returns the V1 hash of `bytes` with the caller's seed and secrets.
#[unsafe(no_mangle)]
pub extern "C" fn rapidhash_v1_with_secrets(bytes: &[u8], secrets: &RapidSecretsV1) -> u64
    ensures { result ≡ seeded_hash_v1 false standard secrets.now bytes.now }
{
    v1::hash::<MIXED, NOT_COMPACT, PLAIN, false>(bytes, secrets.seed, &secrets.secrets)
}

/// Returns the V1 hash of `bytes` with one seed word.
#[unsafe(no_mangle)]
pub extern "C" fn rapidhash_v1_with_seed(bytes: &[u8], seed: u64) -> u64
    ensures { result ≡ portable_hash v1 standard (cpp_seeded seed 0) default_secrets_v1 bytes.now }
{
    let seed = RapidSecretsV1::seed_of_word(seed);
    v1::hash::<MIXED, NOT_COMPACT, PLAIN, false>(
        bytes,
        seed,
        &RapidSecretsV1::default_ref().secrets,
    )
}

/// Returns the V2.0, V2.1 or V2.2 hash.
#[inline(always)]
fn v2_of<const MINOR: u8>(bytes: &[u8], seed: u64, secrets: &[u64; 7]) -> u64
    requires { MINOR ≤ 2 }
    ensures { result ≡ portable_hash (v2 MINOR) standard seed secrets.now bytes.now }
{
    v2::hash::<MINOR, MIXED, NOT_COMPACT, PLAIN>(bytes, seed, secrets)
}

/// Returns the V2.0 hash of `bytes` with the default seed and secrets.
#[unsafe(no_mangle)]
pub extern "C" fn rapidhash_v2_0(bytes: &[u8]) -> u64
    ensures { result ≡ default_hash (v2 0) standard bytes.now }
{
    let defaults = RapidSecrets::default_ref();
    v2_of::<0>(bytes, defaults.seed, &defaults.secrets)
}

/// Returns the V2.0 hash of `bytes` with the caller's seed and secrets.
#[unsafe(no_mangle)]
pub extern "C" fn rapidhash_v2_0_with_secrets(bytes: &[u8], secrets: &RapidSecrets) -> u64
    ensures { result ≡ seeded_hash (v2 0) standard secrets.now bytes.now }
{
    v2_of::<0>(bytes, secrets.seed, &secrets.secrets)
}

/// Returns the V2.0 hash of `bytes` with one seed word.
#[unsafe(no_mangle)]
pub extern "C" fn rapidhash_v2_0_with_seed(bytes: &[u8], seed: u64) -> u64
    ensures { result ≡ portable_hash (v2 0) standard (cpp_seeded seed 2) default_secrets bytes.now }
{
    let seed = RapidSecrets::seed_of_word(seed);
    v2_of::<0>(bytes, seed, &RapidSecrets::default_ref().secrets)
}

/// Returns the V2.1 hash of `bytes` with the default seed and secrets.
#[unsafe(no_mangle)]
pub extern "C" fn rapidhash_v2_1(bytes: &[u8]) -> u64
    ensures { result ≡ default_hash (v2 1) standard bytes.now }
{
    let defaults = RapidSecrets::default_ref();
    v2_of::<1>(bytes, defaults.seed, &defaults.secrets)
}

/// Returns the V2.1 hash of `bytes` with the caller's seed and secrets.
#[unsafe(no_mangle)]
pub extern "C" fn rapidhash_v2_1_with_secrets(bytes: &[u8], secrets: &RapidSecrets) -> u64
    ensures { result ≡ seeded_hash (v2 1) standard secrets.now bytes.now }
{
    v2_of::<1>(bytes, secrets.seed, &secrets.secrets)
}

/// Returns the V2.1 hash of `bytes` with one seed word.
#[unsafe(no_mangle)]
pub extern "C" fn rapidhash_v2_1_with_seed(bytes: &[u8], seed: u64) -> u64
    ensures { result ≡ portable_hash (v2 1) standard (cpp_seeded seed 2) default_secrets bytes.now }
{
    let seed = RapidSecrets::seed_of_word(seed);
    v2_of::<1>(bytes, seed, &RapidSecrets::default_ref().secrets)
}

/// Returns the V2.2 hash of `bytes` with the default seed and secrets.
#[unsafe(no_mangle)]
pub extern "C" fn rapidhash_v2_2(bytes: &[u8]) -> u64
    ensures { result ≡ default_hash (v2 2) standard bytes.now }
{
    let defaults = RapidSecrets::default_ref();
    v2_of::<2>(bytes, defaults.seed, &defaults.secrets)
}

/// Returns the V2.2 hash of `bytes` with the caller's seed and secrets.
#[unsafe(no_mangle)]
pub extern "C" fn rapidhash_v2_2_with_secrets(bytes: &[u8], secrets: &RapidSecrets) -> u64
    ensures { result ≡ seeded_hash (v2 2) standard secrets.now bytes.now }
{
    v2_of::<2>(bytes, secrets.seed, &secrets.secrets)
}

/// Returns the V2.2 hash of `bytes` with one seed word.
#[unsafe(no_mangle)]
pub extern "C" fn rapidhash_v2_2_with_seed(bytes: &[u8], seed: u64) -> u64
    ensures { result ≡ portable_hash (v2 2) standard (cpp_seeded seed 2) default_secrets bytes.now }
{
    let seed = RapidSecrets::seed_of_word(seed);
    v2_of::<2>(bytes, seed, &RapidSecrets::default_ref().secrets)
}

/// Returns the V3, micro or nano hash.
#[inline(always)]
fn v3_of<const LANES: usize>(bytes: &[u8], seed: u64, secrets: &[u64; 7]) -> u64
    requires at_most_7 { LANES ≤ 7 }
    requires odd { LANES % 2 ≡ 1 }
    ensures { result ≡ portable_hash (V3 LANES) standard seed secrets.now bytes.now }
{
    v3::hash::<LANES, MIXED, NOT_COMPACT, PLAIN>(bytes, seed, secrets)
}

/// Returns the V3 hash of `bytes` with the default seed and secrets.
#[unsafe(no_mangle)]
pub extern "C" fn rapidhash_v3(bytes: &[u8]) -> u64
    ensures { result ≡ default_hash v3 standard bytes.now }
{
    let defaults = RapidSecrets::default_ref();
    v3_of::<7>(bytes, defaults.seed, &defaults.secrets)
}

/// Returns the V3 hash of `bytes` with the caller's seed and secrets.
#[unsafe(no_mangle)]
pub extern "C" fn rapidhash_v3_with_secrets(bytes: &[u8], secrets: &RapidSecrets) -> u64
    ensures { result ≡ seeded_hash v3 standard secrets.now bytes.now }
{
    v3_of::<7>(bytes, secrets.seed, &secrets.secrets)
}

/// Returns the V3 hash of `bytes` with one seed word.
#[unsafe(no_mangle)]
pub extern "C" fn rapidhash_v3_with_seed(bytes: &[u8], seed: u64) -> u64
    ensures { result ≡ portable_hash v3 standard (cpp_seeded seed 2) default_secrets bytes.now }
{
    let seed = RapidSecrets::seed_of_word(seed);
    v3_of::<7>(bytes, seed, &RapidSecrets::default_ref().secrets)
}

/// Returns the V3 micro hash of `bytes` with the default seed and secrets.
#[unsafe(no_mangle)]
pub extern "C" fn rapidhash_v3_micro(bytes: &[u8]) -> u64
    ensures { result ≡ default_hash micro standard bytes.now }
{
    let defaults = RapidSecrets::default_ref();
    v3_of::<5>(bytes, defaults.seed, &defaults.secrets)
}

/// Returns the V3 micro hash of `bytes` with the caller's seed and secrets.
#[unsafe(no_mangle)]
pub extern "C" fn rapidhash_v3_micro_with_secrets(bytes: &[u8], secrets: &RapidSecrets) -> u64
    ensures { result ≡ seeded_hash micro standard secrets.now bytes.now }
{
    v3_of::<5>(bytes, secrets.seed, &secrets.secrets)
}

/// Returns the V3 micro hash of `bytes` with one seed word.
#[unsafe(no_mangle)]
pub extern "C" fn rapidhash_v3_micro_with_seed(bytes: &[u8], seed: u64) -> u64
    ensures { result ≡ portable_hash micro standard (cpp_seeded seed 2) default_secrets bytes.now }
{
    let seed = RapidSecrets::seed_of_word(seed);
    v3_of::<5>(bytes, seed, &RapidSecrets::default_ref().secrets)
}

/// Returns the V3 nano hash of `bytes` with the default seed and secrets.
#[unsafe(no_mangle)]
pub extern "C" fn rapidhash_v3_nano(bytes: &[u8]) -> u64
    ensures { result ≡ default_hash nano standard bytes.now }
{
    let defaults = RapidSecrets::default_ref();
    v3_of::<3>(bytes, defaults.seed, &defaults.secrets)
}

/// Returns the V3 nano hash of `bytes` with the caller's seed and secrets.
#[unsafe(no_mangle)]
pub extern "C" fn rapidhash_v3_nano_with_secrets(bytes: &[u8], secrets: &RapidSecrets) -> u64
    ensures { result ≡ seeded_hash nano standard secrets.now bytes.now }
{
    v3_of::<3>(bytes, secrets.seed, &secrets.secrets)
}

/// Returns the V3 nano hash of `bytes` with one seed word.
#[unsafe(no_mangle)]
pub extern "C" fn rapidhash_v3_nano_with_seed(bytes: &[u8], seed: u64) -> u64
    ensures { result ≡ portable_hash nano standard (cpp_seeded seed 2) default_secrets bytes.now }
{
    let seed = RapidSecrets::seed_of_word(seed);
    v3_of::<3>(bytes, seed, &RapidSecrets::default_ref().secrets)
}

/// Returns the V3 hash of `bytes` with PROTECTED and the default seed and secrets.
#[unsafe(no_mangle)]
pub extern "C" fn rapidhash_v3_protected(bytes: &[u8]) -> u64
    ensures { result ≡ default_hash v3 guarded bytes.now }
{
    rapidhash_v3_inline::<MIXED, NOT_COMPACT, GUARDED>(bytes, RapidSecrets::default_ref())
}

/// Returns the V3 hash of `bytes` with PROTECTED and the caller's seed and secrets.
#[unsafe(no_mangle)]
pub extern "C" fn rapidhash_v3_protected_with_secrets(bytes: &[u8], secrets: &RapidSecrets) -> u64
    ensures { result ≡ seeded_hash v3 guarded secrets.now bytes.now }
{
    rapidhash_v3_inline::<MIXED, NOT_COMPACT, GUARDED>(bytes, secrets)
}

/// Returns the V3 hash of `bytes` with PROTECTED and one seed word.
#[unsafe(no_mangle)]
pub extern "C" fn rapidhash_v3_protected_with_seed(bytes: &[u8], seed: u64) -> u64
    ensures { result ≡ portable_hash v3 guarded (cpp_seeded seed 2) default_secrets bytes.now }
{
    rapidhash_v3_inline::<MIXED, NOT_COMPACT, GUARDED>(bytes, &RapidSecrets::seed_cpp(seed))
}
