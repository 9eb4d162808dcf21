//! The lines of a list, read back.

ghost use Rattle.std.specs.Prelude.{◌≡◌, ℕ, List, IfOk, IsSomeAnd};
ghost use Rattle.rapidsum.specs.declared.algorithm.Algorithm.{Algorithm};
ghost use Rattle.rapidsum.specs.declared.line.Layout.{Layout};
ghost use Rattle.rapidsum.specs.Entry.{Fits, IsEntry, Names};
ghost use Rattle.rapidsum.specs.Line.{body_of, carried, escaped, line_of};

use crate::algorithm::Algorithm;
use crate::names::unescape;
use crate::parts::split_line;
use crate::reading::behind;
use std::alloc::{AllocError, Allocator};

/// The hash and the name of a line.
#[derive(Drop)]
pub struct Entry<A: Allocator> {
    /// The version and seed, if the line names them.
    pub algorithm: Option<Algorithm>,
    pub hash: u64,
    /// The bytes of the name, without escapes.
    pub name: Vec<u8, A>,
}

/// A line of a list.
#[derive(Drop)]
pub enum Line<A: Allocator> {
    /// A line with a hash and a name.
    Entry(Entry<A>),
    /// A line that begins with `#`, or an empty line.
    Comment,
    /// Any other line.
    Malformed,
}

// Returns a copy of a name, with its escapes.
fn copy<A: Allocator>(alloc: A, name: &[u8]) -> Result<Vec<u8, A>, AllocError>
    ensures { IfOk result (λ copy. copy.items ≡ name.now) }
{
    let mut copy = Vec::new(alloc);
    copy.extend_from_slice(name)?;
    Ok(copy)
}

// Returns the entry of a line without its first backslash, if the name is escaped.
#[tactic(auto, using(crate::proofs::Lines::unescape_from_escaped))]
fn escaped_entry<A: Allocator>(alloc: A, line: &[u8]) -> Result<Option<Entry<A>>, AllocError>
    ensures { (layout : Layout) (algorithm : Algorithm) (hash : ℕ) (name : List ℕ) →
        Fits algorithm hash →
        line.now ≡ body_of layout algorithm hash (escaped name) →
        IfOk result (λ entry. IsSomeAnd entry (λ e. Names e (carried layout algorithm) hash name)) }
{
    let Some(parts) = split_line(line) else {
        return Ok(None);
    };
    let Some(name) = unescape(alloc, parts.text)? else {
        return Ok(None);
    };
    Ok(Some(Entry {
        algorithm: parts.algorithm,
        hash: parts.hash,
        name,
    }))
}

// Returns the entry of a line, if the name is not escaped.
fn plain_entry<A: Allocator>(alloc: A, line: &[u8]) -> Result<Option<Entry<A>>, AllocError>
    ensures { (layout : Layout) (algorithm : Algorithm) (hash : ℕ) (name : List ℕ) →
        Fits algorithm hash →
        line.now ≡ body_of layout algorithm hash (escaped name) → escaped name ≡ name →
        IfOk result (λ entry. IsSomeAnd entry (λ e. Names e (carried layout algorithm) hash name)) }
{
    let Some(parts) = split_line(line) else {
        return Ok(None);
    };
    Ok(Some(Entry {
        algorithm: parts.algorithm,
        hash: parts.hash,
        name: copy(alloc, parts.text)?,
    }))
}

// Returns the entry of a line, if it has one.
#[tactic(auto, using(crate::proofs::Lines::no_backslash))]
fn entry_of<A: Allocator>(alloc: A, line: &[u8]) -> Result<Option<Entry<A>>, AllocError>
    ensures { (layout : Layout) (algorithm : Algorithm) (hash : ℕ) (name : List ℕ) →
        Fits algorithm hash →
        line.now ≡ line_of layout algorithm hash name →
        IfOk result (λ entry. IsSomeAnd entry (λ e. Names e (carried layout algorithm) hash name)) }
{
    match behind(line, b'\\') {
        Some(body) => escaped_entry(alloc, body),
        None => plain_entry(alloc, line),
    }
}

// Returns the line without the spaces and tabs at its start.
fn without_indent(line: &[u8]) -> &[u8] {
    let indent = line
        .iter()
        .take_while(|byte| matches!(**byte, b' ' | b'\t'))
        .count();
    line.get(indent..).unwrap_or(&[])
}

/// Parses a line without its newline. Ignores spaces and tabs at its start and a carriage return at
/// its end.
///
/// # Errors
///
/// If an allocation fails.
pub fn read_line<A: Allocator + Copy>(alloc: A, line: &[u8]) -> Result<Line<A>, AllocError>
    ensures reads_back { (layout : Layout) (algorithm : Algorithm) (hash : ℕ) (name : List ℕ) →
        Fits algorithm hash → line.now ≡ line_of layout algorithm hash name →
        IfOk result (λ read. IsEntry read layout algorithm hash name) }
{
    if let Some(entry) = entry_of(alloc, line)? {
        return Ok(Line::Entry(entry));
    }
    if matches!(line, [] | [b'\r'] | [b'#', ..]) {
        return Ok(Line::Comment);
    }
    Ok(match entry_of(alloc, without_indent(line))? {
        Some(entry) => Line::Entry(entry),
        None => Line::Malformed,
    })
}
