//! What the arguments begin with, by the conventions of GNU's programs.

ghost use Rattle.std.specs.Prelude.{◌≡◌, ◌≢◌, ◌<◌, ◌∷◌, [], length, map, option_map, slice_index_or, vec_items, IfOk, MatchOption};
ghost use Rattle.rapidsum.specs.Command.{Begins, IsText, first_of, is_within, long};

use crate::list::line_length;
use crate::options::{Table, place_lettered, place_named, takes_value};
use std::alloc::Allocator;

/// Why the arguments make no call.
#[derive(Clone, Copy)]
pub enum Reason {
    /// The help is requested.
    Help,
    /// The version is requested.
    Version,
    UnknownVersion,
    InvalidSeed,
    GivenTwice,
    UnknownName,
    UnwantedValue,
    MissingValue,
    UnknownLetter,
    MissingValueOfLetter,
    TagWithText,
    CheckWithZero,
    CheckWithTag,
    CheckWithMode,
    OnlyInCheck,
    ExtraFile,
}

/// Why the arguments make no call, and the text at fault.
pub type Stop<'a> = (Reason, &'a [u8]);

/// What the arguments begin with, and the arguments behind it.
#[derive(Drop)]
pub enum Part<'a, A: Allocator> {
    /// An option at this place, its value, and the letters behind it in the same argument.
    Option(usize, &'a [u8], &'a [u8], &'a [Vec<u8, A>]),
    File(&'a [u8], &'a [Vec<u8, A>]),
    /// All arguments are files.
    Files(&'a [Vec<u8, A>]),
}

/// Returns what is behind a byte that a text begins with, if it does.
pub fn behind(text: &[u8], byte: u8) -> Option<&[u8]>
    requires { 0 < byte }
    ensures { MatchOption result (slice_index_or text.now 0 0 ≢ byte)
        (λ behind. text.now ≡ byte ∷ behind.now) }
{
    match text.split_first() {
        Some((first, behind)) if *first == byte => Some(behind),
        _ => None,
    }
}

// Returns the name, and the value behind an equals sign, if there is one.
fn name_and_value(text: &[u8]) -> (&[u8], Option<&[u8]>)
    requires { 0 < length text.now }
    ensures { IsText text.now result.0.now (option_map (λ value. value.now) result.1) }
{
    let (name, rest) = text.split_at(line_length(text, b'='));
    match rest {
        [_, value @ ..] => (name, Some(value)),
        [] => (name, None),
    }
}

// Returns what a word of two hyphens and a text begins with.
fn named<'a, A: Allocator>(
    rows: &Table,
    word: &'a [u8],
    text: &'a [u8],
    words: &'a [Vec<u8, A>],
) -> Result<Part<'a, A>, Stop<'a>>
    requires is { word.now ≡ long text.now }
    requires some { 0 < length text.now }
    ensures begins { Begins rows.now [] (word.now ∷ map vec_items words.now) (first_of result) }
    ensures within { IfOk result (is_within 15) }
{
    let (name, value) = name_and_value(text);
    let Some(place) = place_named(rows, name) else {
        return Err((Reason::UnknownName, word));
    };
    match (takes_value(rows, place), value) {
        (false, None) => Ok(Part::Option(place, b"", b"", words)),
        (true, Some(value)) => Ok(Part::Option(place, value, b"", words)),
        (false, Some(_)) => Err((Reason::UnwantedValue, name)),
        (true, None) => match words.split_first() {
            Some((value, words)) => Ok(Part::Option(place, value.as_slice(), b"", words)),
            None => Err((Reason::MissingValue, name)),
        },
    }
}

// Returns what a letter and those behind it begin with.
fn lettered<'a, A: Allocator>(
    rows: &Table,
    letters: &'a [u8],
    words: &'a [Vec<u8, A>],
) -> Result<Part<'a, A>, Stop<'a>>
    requires { 0 < length letters.now }
    ensures begins { Begins rows.now letters.now (map vec_items words.now) (first_of result) }
    ensures within { IfOk result (is_within 15) }
{
    let Some((letter, behind)) = letters.split_first() else {
        unreachable!()
    };
    let Some(place) = place_lettered(rows, *letter) else {
        return Err((Reason::UnknownLetter, letters));
    };
    if !takes_value(rows, place) {
        return Ok(Part::Option(place, b"", behind, words));
    }
    if !behind.is_empty() {
        return Ok(Part::Option(place, behind, b"", words));
    }
    match words.split_first() {
        Some((value, others)) => Ok(Part::Option(place, value.as_slice(), b"", others)),
        None => Err((Reason::MissingValueOfLetter, letters)),
    }
}

/// Returns what the letters that are left of an argument and the arguments behind it begin with.
pub fn next<'a, A: Allocator>(
    rows: &Table,
    letters: &'a [u8],
    words: &'a [Vec<u8, A>],
) -> Result<Part<'a, A>, Stop<'a>>
    ensures begins { Begins rows.now letters.now (map vec_items words.now) (first_of result) }
    ensures within { IfOk result (is_within 15) }
{
    if !letters.is_empty() {
        return lettered(rows, letters, words);
    }
    let Some((word, others)) = words.split_first() else {
        return Ok(Part::Files(words));
    };
    let word = word.as_slice();
    let Some(text) = behind(word, b'-') else {
        return Ok(Part::File(word, others));
    };
    if text.is_empty() {
        return Ok(Part::File(word, others));
    }
    let Some(name) = behind(text, b'-') else {
        return lettered(rows, text, others);
    };
    if name.is_empty() {
        return Ok(Part::Files(others));
    }
    named(rows, word, name, others)
}
