//! The lines of a list.

ghost use Rattle.std.specs.Prelude.{◌≡◌, ◌≢◌, ◌++◌, ◌∷◌, [], ◌≤◌, ◌<◌, ◌==◌, false, length, slice_index, take, IsOkUnless};
ghost use Rattle.std.specs.Prelude.{ℕ, List as TheList};
ghost use Rattle.std.specs.List.{All, list_any};
ghost use Rattle.rapidsum.specs.List.{ReadsBack};

use crate::entry::{Entry, Line, read_line};
use crate::problem::Problem;
use std::alloc::Global;

/// The lines of a list.
#[derive(Drop)]
pub struct List {
    /// Those that have a hash and a name.
    pub entries: Vec<Entry<Global>>,
    /// The numbers of those that have none, from 1 on, without empty lines and comments.
    pub malformed: Vec<u64>,
}

impl List {
    /// Returns whether a line names its version.
    pub fn names_a_version(&self) -> bool {
        self.entries.iter().any(|entry| entry.algorithm.is_some())
    }

    /// Returns whether a line has a hash and no name behind it.
    pub fn has_no_name(&self) -> bool {
        self.entries.iter().any(|entry| entry.name.is_empty())
    }
}

/// Returns the number of bytes before the first byte that ends a line, or of all bytes if there is
/// none.
pub fn line_length(text: &[u8], end: u8) -> usize
    ensures within { result ≤ length text.now }
    ensures before { All (λ byte. byte ≢ end) (take result text.now) }
    ensures found { result < length text.now → slice_index text.now result ≡ end }
{
    text.iter()
        .position(|byte| *byte == end)
        .unwrap_or(text.len())
}

/// Returns the text before the first of a byte, or all if it has none, and the text from there on.
pub fn split_before(text: &[u8], end: u8) -> (&[u8], &[u8])
    ensures found { (front rest : TheList ℕ) → list_any (λ byte. byte == end) front ≡ false →
        text.now ≡ front ++ end ∷ rest → (result.0.now ≡ front) × (result.1.now ≡ end ∷ rest) }
    ensures whole { list_any (λ byte. byte == end) text.now ≡ false →
        (result.0.now ≡ text.now) × (result.1.now ≡ []) }
    ensures shorter { 0 < length result.1.now → length result.1.now ≤ length text.now }
{
    text.split_at(line_length(text, end))
}

/// Returns the first line of a text, without the byte that ends it, and the text after it.
pub fn next_line(text: &[u8], end: u8) -> (&[u8], &[u8])
    ensures parts { (line rest : TheList ℕ) → list_any (λ byte. byte == end) line ≡ false →
        text.now ≡ line ++ end ∷ rest → (result.0.now ≡ line) × (result.1.now ≡ rest) }
    ensures last { list_any (λ byte. byte == end) text.now ≡ false →
        (result.0.now ≡ text.now) × (result.1.now ≡ []) }
    ensures shorter { 0 < length text.now → length result.1.now < length text.now }
{
    let (line, rest) = split_before(text, end);
    match rest {
        [_, rest @ ..] => (line, rest),
        [] => (line, rest),
    }
}

/// Reads the lines of a list.
///
/// # Errors
///
/// If an allocation fails.
pub fn read_list(alloc: Global, text: &[u8]) -> Result<List, Problem>
    ensures reads_back { ReadsBack text.now result }
    ensures memory { IsOkUnless result Problem.Memory }
{
    let mut list = List {
        entries: Vec::new(alloc),
        malformed: Vec::new(alloc),
    };
    let (mut rest, mut number) = (text, 0u64);
    while !rest.is_empty() {
        let (line, more) = next_line(rest, b'\n');
        rest = more;
        number = number.saturating_add(1);
        match read_line(alloc, line)? {
            Line::Entry(entry) => list.entries.push(entry)?,
            Line::Malformed => list.malformed.push(number)?,
            Line::Comment => {}
        }
    }
    Ok(list)
}
