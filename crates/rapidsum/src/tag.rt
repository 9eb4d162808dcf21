//! The tag of a line: its version and its seed.

ghost use Rattle.std.specs.Prelude.{◌≡◌, ◌++◌, ◌∷◌, ◌<◌, ◌^◌, ℕ, List, Option, bytes_eq, map, IfSome, IsSomeAnd};
ghost use Rattle.std.specs.Char.{to_ascii_uppercase};
ghost use Rattle.rapidsum.specs.declared.algorithm.Algorithm.{Algorithm};
ghost use Rattle.rapidsum.specs.Line.{seed_text, tag_of, version_tagged};

use crate::algorithm::Algorithm;
use crate::list::split_before;
use crate::parts::number_of;
use rapidhash_portable::form::Version;

// Returns whether a text is the upper case of a name.
fn is_upper_case(text: &[u8], name: &[u8]) -> bool
    ensures { result ≡ bytes_eq (map to_ascii_uppercase name.now) text.now }
{
    let mut rest = text;
    for byte in name {
        match rest {
            [first, more @ ..] if *first == byte.to_ascii_uppercase() => rest = more,
            _ => return false,
        }
    }
    rest.is_empty()
}

// Returns the version with a text in a tag.
#[tactic(auto, unfolding(crate::specs::Line::version_tagged))]
fn version_tagged(text: &[u8]) -> Option<Version>
    ensures { result ≡ version_tagged text.now }
{
    for version in Version::all() {
        if is_upper_case(text, version.name().as_bytes()) {
            return Some(version);
        }
    }
    None
}

// Returns the seed word that a text after a version represents, if there is one.
#[tactic(auto, unfolding(crate::specs::Line::seed_text))]
fn read_seed(text: &[u8]) -> Option<Option<u64>>
    ensures { (seed : Option ℕ) → text.now ≡ seed_text seed →
        IfSome seed (λ word. word < 2 ^ 64) → IsSomeAnd result (λ read. read ≡ seed) }
{
    match text {
        [] => Some(None),
        [_, digits @ ..] => Some(Some(number_of(digits)?)),
    }
}

// Returns the version and the seed at the start of a line, and the text after them.
pub fn split_tag(line: &[u8]) -> Option<(Algorithm, &[u8])>
    ensures { (algorithm : Algorithm) (rest : List ℕ) → line.now ≡ tag_of algorithm ++ 32 ∷ rest →
        IfSome algorithm.seed (λ word. word < 2 ^ 64) →
        IsSomeAnd result (λ parts. (parts.0 ≡ algorithm) × (parts.1.now ≡ 32 ∷ rest)) }
{
    let behind = line.strip_prefix(b"RAPIDHASH-")?;
    let (tag, rest) = split_before(behind, b' ');
    let (name, seed) = split_before(tag, b':');
    let version = version_tagged(name)?;
    let seed = read_seed(seed)?;
    Some((Algorithm { version, seed }, rest))
}
