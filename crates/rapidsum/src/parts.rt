//! The parts of a line: the version, the hash and the text of the name.

ghost use Rattle.std.specs.Prelude.{◌≡◌, ◌==◌, ◌++◌, ◌∷◌, [], ◌<◌, ◌^◌, ℕ, List, None, Some, length, slice_index, true, IsSomeAnd};
ghost use Rattle.rapidsum.specs.declared.algorithm.Algorithm.{Algorithm};
ghost use Rattle.rapidsum.specs.declared.line.Layout.{Layout};
ghost use Rattle.rapidsum.specs.Entry.{AreParts, Fits};
ghost use Rattle.rapidsum.specs.Line.{body_of, carried, digits_of, escaped, tag_of, value_of};

use crate::algorithm::Algorithm;
use crate::tag::split_tag;
use hex::FromHex;

/// The parts of a line, whose name is still escaped.
#[derive(Clone, Copy)]
pub struct Parts<'a> {
    /// The version and seed, if the line names them.
    pub algorithm: Option<Algorithm>,
    pub hash: u64,
    /// The name as printed.
    pub text: &'a [u8],
}

/// Returns the number of 16 digits, in either case.
#[tactic(auto, using(crate::proofs::Lines::digits_decode, crate::proofs::Lines::hash_of_bytes))]
pub fn number_of(digits: &[u8]) -> Option<u64>
    ensures { (number : ℕ) → number < 2 ^ 64 → digits.now ≡ digits_of number →
        result ≡ Some number }
{
    match <[u8; 8] as FromHex>::from_hex(digits) {
        Ok(bytes) => Some(u64::from_be_bytes(bytes)),
        Err(_) => None,
    }
}

// Returns the text without the carriage return at its end, if it has one.
#[tactic(auto, using(crate::proofs::Lines::no_return_at, crate::proofs::Lines::no_return_behind))]
fn without_return(text: &[u8]) -> &[u8]
    ensures name { (name : List ℕ) → text.now ≡ escaped name → result.now ≡ text.now }
    ensures digits { (front : List ℕ) (hash : ℕ) → text.now ≡ front ++ digits_of hash →
        result.now ≡ text.now }
{
    let len = text.len();
    if len > 0 && text[len - 1] == b'\r' {
        &text[..len - 1]
    } else {
        text
    }
}

// Returns the text of the name after the digits and two spaces, or a space and an asterisk.
fn name_behind(rest: &[u8]) -> Option<&[u8]>
    ensures text { (name : List ℕ) → rest.now ≡ 32 ∷ 32 ∷ escaped name →
        IsSomeAnd result (λ text. text.now ≡ escaped name) }
    ensures binary { (name : List ℕ) → rest.now ≡ 32 ∷ 42 ∷ escaped name →
        IsSomeAnd result (λ text. text.now ≡ escaped name) }
{
    let [b' ', b' ' | b'*', text @ ..] = rest else {
        return None;
    };
    Some(without_return(text))
}

// Returns the number at the start of a text, and the text after it.
#[tactic(auto, using(crate::proofs::Lines::digits_part, crate::proofs::Lines::rest_part))]
fn split_digits(text: &[u8]) -> Option<(u64, &[u8])>
    ensures { (number : ℕ) (rest : List ℕ) → number < 2 ^ 64 →
        text.now ≡ digits_of number ++ rest →
        IsSomeAnd result (λ parts. (parts.0 ≡ number) × (parts.1.now ≡ rest)) }
{
    let (digits, rest) = text.split_at_checked(16)?;
    Some((number_of(digits)?, rest))
}

// Returns the text before its last bytes, and these bytes.
#[tactic(auto, using(crate::proofs::Lines::front_part, crate::proofs::Lines::back_part))]
fn split_end(text: &[u8], count: usize) -> Option<(&[u8], &[u8])>
    ensures { (front back : List ℕ) → text.now ≡ front ++ back → length back ≡ count →
        IsSomeAnd result (λ parts. (parts.0.now ≡ front) × (parts.1.now ≡ back)) }
{
    text.split_at_checked(text.len().checked_sub(count)?)
}

// Returns the text after a space and an opening parenthesis.
fn behind_parenthesis(text: &[u8]) -> Option<&[u8]>
    ensures { (rest : List ℕ) → text.now ≡ 32 ∷ 40 ∷ rest →
        IsSomeAnd result (λ behind. behind.now ≡ rest) }
{
    match text {
        [b' ', b'(', rest @ ..] => Some(rest),
        _ => None,
    }
}

// Returns whether a text is the closing parenthesis and the equals sign.
fn is_equals_sign(text: &[u8]) -> bool
    ensures { text.now ≡ 41 ∷ 32 ∷ 61 ∷ 32 ∷ [] → result ≡ true }
{
    matches!(text, [b')', b' ', b'=', b' '])
}

// Returns the text of a name in parentheses, before an equals sign.
fn within_parentheses(text: &[u8]) -> Option<&[u8]>
    ensures { (name : List ℕ) → text.now ≡ (32 ∷ 40 ∷ name) ++ 41 ∷ 32 ∷ 61 ∷ 32 ∷ [] →
        IsSomeAnd result (λ within. within.now ≡ name) }
{
    let (start, end) = split_end(text, 4)?;
    if !is_equals_sign(end) {
        return None;
    }
    let name = behind_parenthesis(start)?;
    Some(name)
}

// Returns the text of a name in parentheses, and the number after it.
fn split_value(rest: &[u8]) -> Option<(&[u8], u64)>
    ensures { (hash : ℕ) (text : List ℕ) → hash < 2 ^ 64 → rest.now ≡ value_of hash text →
        IsSomeAnd result (λ parts. (parts.0.now ≡ text) × (parts.1 ≡ hash)) }
{
    let (front, digits) = split_end(without_return(rest), 16)?;
    let text = within_parentheses(front)?;
    let hash = number_of(digits)?;
    Some((text, hash))
}

// Returns the parts of a line that begins with the digits.
fn split_plain(line: &[u8]) -> Option<Parts<'_>>
    ensures text { (hash : ℕ) (name : List ℕ) → hash < 2 ^ 64 →
        line.now ≡ digits_of hash ++ 32 ∷ 32 ∷ escaped name →
        IsSomeAnd result (λ parts. AreParts parts None hash (escaped name)) }
    ensures binary { (hash : ℕ) (name : List ℕ) → hash < 2 ^ 64 →
        line.now ≡ digits_of hash ++ 32 ∷ 42 ∷ escaped name →
        IsSomeAnd result (λ parts. AreParts parts None hash (escaped name)) }
{
    let (hash, rest) = split_digits(line)?;
    Some(Parts {
        algorithm: None,
        hash,
        text: name_behind(rest)?,
    })
}

// Returns the parts of a line that begins with a tag.
fn split_tagged(line: &[u8]) -> Option<Parts<'_>>
    ensures { (algorithm : Algorithm) (hash : ℕ) (text : List ℕ) → Fits algorithm hash →
        line.now ≡ tag_of algorithm ++ value_of hash text →
        IsSomeAnd result (λ parts. AreParts parts (Some algorithm) hash text) }
{
    let (algorithm, rest) = split_tag(line)?;
    let (text, hash) = split_value(rest)?;
    Some(Parts {
        algorithm: Some(algorithm),
        hash,
        text,
    })
}

// Returns whether a line begins as a tag does: no hexadecimal digit is an R.
fn begins_as_tag(line: &[u8]) -> bool
    ensures { result ≡ (slice_index line.now 0 == 82) }
{
    !line.is_empty() && line[0] == b'R'
}

/// Returns the parts of a line in any layout.
pub fn split_line(line: &[u8]) -> Option<Parts<'_>>
    ensures { (layout : Layout) (algorithm : Algorithm) (hash : ℕ) (name : List ℕ) →
        Fits algorithm hash → line.now ≡ body_of layout algorithm hash (escaped name) →
        IsSomeAnd result (λ parts. AreParts parts (carried layout algorithm) hash (escaped name)) }
{
    if begins_as_tag(line) {
        split_tagged(line)
    } else {
        split_plain(line)
    }
}
