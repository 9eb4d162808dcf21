//! Where two forms have one hash of a message.

ghost use Rattle.std.specs.Prelude.{◌≡◌, ◌≢◌, ◌≤◌, ◌<◌, ◌⊎◌, ◌↔◌, IsTrue, false, length, true};
ghost use Rattle.rapidhash_portable.specs.declared.form.Form.TheVariants.{V1};
ghost use Rattle.rapidhash_portable.specs.Form.{micro, nano, v2, v3};
ghost use Rattle.rapidhash.specs.Laws.{SameHash};

/// Returns whether a message has at most 80 bytes, so that V3 micro and V3 have the same hash of it
/// with any options, seed and secrets.
///
/// ```
/// assert!(micro_is_v3(b"user:4711"));
/// ```
#[tactic(auto, using(crate::proofs::AgreementLemmas::same_micro))]
pub fn micro_is_v3(bytes: &[u8]) -> bool
    ensures lengths { IsTrue result ↔ length bytes.now ≤ 80 }
    ensures hashes { IsTrue result → SameHash micro v3 bytes.now }
{
    bytes.len() <= 80
}

/// Returns the same as [`micro_is_v3`] for V3 nano and V3: at most 48 bytes.
#[tactic(auto, using(crate::proofs::AgreementLemmas::same_nano))]
pub fn nano_is_v3(bytes: &[u8]) -> bool
    ensures lengths { IsTrue result ↔ length bytes.now ≤ 48 }
    ensures hashes { IsTrue result → SameHash nano v3 bytes.now }
{
    bytes.len() <= 48
}

/// Returns the same as [`micro_is_v3`] for V1 with and without the V1 bug: any length
/// except 48 bytes.
#[tactic(auto, using(crate::proofs::AgreementLemmas::same_v1))]
pub fn v1_is_v1_with_its_bug(bytes: &[u8]) -> bool
    ensures lengths { IsTrue result ↔ length bytes.now ≢ 48 }
    ensures hashes { IsTrue result → SameHash (V1 false) (V1 true) bytes.now }
{
    bytes.len() != 48
}

/// Returns the same as [`micro_is_v3`] for V2.0 and V2.1: any length except 57 to 64 bytes.
#[tactic(auto, using(crate::proofs::AgreementLemmas::same_v2_0))]
pub fn v2_0_is_v2_1(bytes: &[u8]) -> bool
    ensures lengths { IsTrue result ↔ ((length bytes.now ≤ 56) ⊎ (64 < length bytes.now)) }
    ensures hashes { IsTrue result → SameHash (v2 0) (v2 1) bytes.now }
{
    bytes.len() <= 56 || bytes.len() > 64
}

/// Returns the same as [`micro_is_v3`] for V2.1 and V2.2: any length except 1 to 3 and 49 to 64
/// bytes.
#[tactic(auto, using(crate::proofs::AgreementLemmas::same_v2_1))]
pub fn v2_1_is_v2_2(bytes: &[u8]) -> bool
    ensures lengths { IsTrue result ↔ ((length bytes.now ≡ 0)
        ⊎ ((4 ≤ length bytes.now) × (length bytes.now ≤ 48))
        ⊎ (64 < length bytes.now)) }
    ensures hashes { IsTrue result → SameHash (v2 1) (v2 2) bytes.now }
{
    bytes.is_empty() || (4..=48).contains(&bytes.len()) || bytes.len() > 64
}
