//! The lines that the program prints.

ghost use Rattle.std.specs.Prelude.{◌≡◌, ◌++◌, IfOk, OnOk};
ghost use Rattle.rapidsum.specs.Line.{
  body_of,
  digits_of,
  line_of,
  seed_text,
  sum_of,
  tag_of,
  value_of,
  version_text,
};

use crate::algorithm::Algorithm;
use crate::names::{needs_escape, push_escaped};
use hex::encode_to_slice;
use rapidhash_portable::form::Version;
use std::alloc::{AllocError, Allocator};

/// The layout of a line.
#[derive(Clone, Copy, PartialEq, Eq)]
pub enum Layout {
    /// The digits, two spaces and the name.
    Text,
    /// The digits, a space, an asterisk and the name.
    Binary,
    /// The version, the name in parentheses, an equals sign and the digits.
    Tagged,
}

/// The layout and the end of each line.
#[derive(Clone, Copy)]
pub struct Style {
    pub layout: Layout,
    /// A zero byte ends the line instead of a newline, and nothing is escaped.
    pub zero: bool,
}

// Adds a number as 16 hexadecimal digits.
fn push_digits<A: Allocator>(text: &mut Vec<u8, A>, number: u64) -> Result<(), AllocError>
    ensures { OnOk result (text.new.items ≡ text.old.items ++ digits_of number) }
{
    let mut digits = [0u8; 16];
    let _ = encode_to_slice(number.to_be_bytes(), &mut digits);
    text.extend_from_slice(&digits)
}

// Adds the text of a version in a tag.
fn push_version<A: Allocator>(text: &mut Vec<u8, A>, version: Version) -> Result<(), AllocError>
    ensures { OnOk result (text.new.items ≡ text.old.items ++ version_text version) }
{
    for byte in version.name().as_bytes() {
        text.push(byte.to_ascii_uppercase())?;
    }
    Ok(())
}

// Adds the text of a seed word in a tag.
#[tactic(auto, unfolding(crate::specs::Line::seed_text))]
fn push_seed<A: Allocator>(text: &mut Vec<u8, A>, seed: Option<u64>) -> Result<(), AllocError>
    ensures { OnOk result (text.new.items ≡ text.old.items ++ seed_text seed) }
{
    match seed {
        None => Ok(()),
        Some(word) => {
            text.push(b':')?;
            push_digits(text, word)
        }
    }
}

// Adds the tag of a line.
fn push_tag<A: Allocator>(text: &mut Vec<u8, A>, algorithm: Algorithm) -> Result<(), AllocError>
    ensures { OnOk result (text.new.items ≡ text.old.items ++ tag_of algorithm) }
{
    text.extend_from_slice(b"RAPIDHASH-")?;
    push_version(text, algorithm.version)?;
    push_seed(text, algorithm.seed)?;
    Ok(())
}

// Adds the text after a tag.
fn push_value<A: Allocator>(line: &mut Vec<u8, A>, hash: u64, text: &[u8]) -> Result<(), AllocError>
    ensures { OnOk result (line.new.items ≡ line.old.items ++ value_of hash text.now) }
{
    line.extend_from_slice(b" (")?;
    line.extend_from_slice(text)?;
    line.extend_from_slice(b") = ")?;
    push_digits(line, hash)
}

// Adds a hash and the text of a name.
#[tactic(auto, unfolding(crate::specs::Line::body_of))]
fn push_body<A: Allocator>(
    line: &mut Vec<u8, A>,
    layout: Layout,
    algorithm: Algorithm,
    hash: u64,
    text: &[u8],
) -> Result<(), AllocError>
    ensures { OnOk result
        (line.new.items ≡ line.old.items ++ body_of layout algorithm hash text.now) }
{
    if layout == Layout::Tagged {
        push_tag(line, algorithm)?;
        return push_value(line, hash, text);
    }
    push_digits(line, hash)?;
    line.extend_from_slice(if layout == Layout::Binary {
        b" *"
    } else {
        b"  "
    })?;
    line.extend_from_slice(text)
}

/// Returns the line of a hash and a name, without its newline. A line whose name has an escape
/// begins with a backslash.
///
/// # Errors
///
/// If an allocation fails.
pub fn line_of<A: Allocator + Copy>(
    alloc: A,
    layout: Layout,
    algorithm: Algorithm,
    hash: u64,
    name: &[u8],
) -> Result<Vec<u8, A>, AllocError>
    ensures { IfOk result (λ line. line.items ≡ line_of layout algorithm hash name.now) }
{
    let mut text = Vec::new(alloc);
    push_escaped(&mut text, name)?;
    let mut line = Vec::new(alloc);
    if needs_escape(name) {
        line.push(b'\\')?;
    }
    push_body(&mut line, layout, algorithm, hash, text.as_slice())?;
    Ok(line)
}

/// Returns the printed text for a hash and a name.
///
/// # Errors
///
/// If an allocation fails.
pub fn sum_of<A: Allocator + Copy>(
    alloc: A,
    style: Style,
    algorithm: Algorithm,
    hash: u64,
    name: &[u8],
) -> Result<Vec<u8, A>, AllocError>
    ensures { IfOk result (λ sum.
        sum.items ≡ sum_of style.layout style.zero algorithm hash name.now) }
{
    if style.zero {
        let mut sum = Vec::new(alloc);
        push_body(&mut sum, style.layout, algorithm, hash, name)?;
        sum.push(0)?;
        return Ok(sum);
    }
    let mut sum = line_of(alloc, style.layout, algorithm, hash, name)?;
    sum.push(b'\n')?;
    Ok(sum)
}
