//! The names of the files in a list of `--files0-from`.

ghost use Rattle.std.specs.Prelude.{IfOk};
ghost use Rattle.rapidsum.specs.Sources.{NamesAll};

use crate::list::next_line;
use std::alloc::{AllocError, Global};

/// Returns the names in a text, each up to a zero byte or the end of the text.
///
/// # Errors
///
/// If an allocation fails.
pub fn names_in(alloc: Global, text: &[u8]) -> Result<Vec<&[u8]>, AllocError>
    ensures { IfOk result (λ names. NamesAll text.now names.items) }
{
    let mut names = Vec::new(alloc);
    let mut rest = text;
    while !rest.is_empty() {
        let (name, more) = next_line(rest, 0);
        names.push(name)?;
        rest = more;
    }
    Ok(names)
}
