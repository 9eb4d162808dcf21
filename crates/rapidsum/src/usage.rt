//! The texts of the help, the version and the mistakes.

use crate::console::with_name;
use crate::options::{Row, rows};
use crate::problem::Problem;
use crate::reading::{Reason, Stop};
use rapidhash_portable::form::Version;
use std::alloc::Global;
use std::io::Write;

const HEAD: &str = "Print or check rapidhash checksums

Usage: rapidsum [OPTION]... [FILE]...

Arguments:
  [FILE]...  Files to read (- for standard input)

Options:
";

const WHEN_CHECKING: &str = " when verifying checksums";

const BESIDE_A_LIST: &str = "'\nfile operands cannot be combined with --files0-from";

// Adds the names of the versions.
fn push_versions(text: &mut Vec<u8>) -> Result<(), Problem> {
    let mut separator = "";
    for version in Version::all() {
        text.extend_from_slice(separator.as_bytes())?;
        text.extend_from_slice(version.name().as_bytes())?;
        separator = ", ";
    }
    Ok(())
}

// Adds the line of an option.
fn push_row(alloc: Global, text: &mut Vec<u8>, row: &Row) -> Result<(), Problem> {
    match row.letter {
        Some(letter) => text.extend_from_slice(&[b' ', b' ', b'-', letter, b',', b' '])?,
        None => text.extend_from_slice(b"      ")?,
    }
    let sign = if row.value.is_empty() { "" } else { "=" };
    let name = format!(in alloc; "{}{sign}{}", row.name, row.value)?;
    let line = format!(in alloc; "--{name:<17}  {}", row.help)?;
    text.extend_from_slice(line.as_bytes())?;
    if row.value == "VERSION" {
        text.extend_from_slice(b" [possible values: ")?;
        push_versions(text)?;
        text.push(b']')?;
    }
    text.push(b'\n')?;
    Ok(())
}

// Returns the help.
fn help(alloc: Global) -> Result<Vec<u8>, Problem> {
    let mut text = Vec::new(alloc);
    text.extend_from_slice(HEAD.as_bytes())?;
    for row in rows() {
        push_row(alloc, &mut text, row)?;
    }
    Ok(text)
}

// Prints a text that is requested.
fn print(rt: &HostRuntime, text: &[u8]) -> Result<bool, Problem> {
    rt.stdout().write_all(text).map_err(Problem::Write)?;
    Ok(true)
}

// Returns the first character of a text, or all of it if it is not UTF-8.
fn first_character(text: &[u8]) -> &[u8] {
    let is_within = |byte: &&u8| matches!(**byte, 0x80..=0xbf);
    let count = text.iter().skip(1).take_while(is_within).count();
    text.get(..count.saturating_add(1)).unwrap_or(text)
}

// Returns what is before and after the text at fault.
fn around(reason: Reason) -> (&'static str, &'static str) {
    match reason {
        Reason::Help | Reason::Version => ("", ""),
        Reason::UnknownVersion => (
            "invalid argument '",
            "' for '--algorithm'\nValid arguments are: ",
        ),
        Reason::InvalidSeed => ("invalid seed: '", "'"),
        Reason::GivenTwice => ("the --", " option may be given only once"),
        Reason::UnknownName => ("unrecognized option '", "'"),
        Reason::UnwantedValue => ("option '--", "' doesn't allow an argument"),
        Reason::MissingValue => ("option '--", "' requires an argument"),
        Reason::UnknownLetter => ("invalid option -- '", "'"),
        Reason::MissingValueOfLetter => ("option requires an argument -- '", "'"),
        Reason::TagWithText => ("--tag does not support --text mode", ""),
        Reason::CheckWithZero => ("the --zero option is not supported", WHEN_CHECKING),
        Reason::CheckWithTag => ("the --tag option is meaningless", WHEN_CHECKING),
        Reason::CheckWithMode => (
            "the --binary and --text options are meaningless",
            WHEN_CHECKING,
        ),
        Reason::OnlyInCheck => (
            "the --",
            " option is meaningful only when verifying checksums",
        ),
        Reason::ExtraFile => ("extra operand '", BESIDE_A_LIST),
    }
}

/// Prints the help, the version, or the message for a mistake. Returns whether it is no mistake.
pub fn report(rt: &HostRuntime, (reason, fault): Stop<'_>) -> Result<bool, Problem> {
    let alloc = rt.alloc();
    let text = match reason {
        Reason::Help => return print(rt, help(alloc)?.as_slice()),
        Reason::Version => return print(rt, b"rapidsum 1.0\n"),
        Reason::UnknownLetter => first_character(fault),
        _ => fault,
    };
    let (before, after) = around(reason);
    let before = format!(in alloc; "rapidsum: {before}")?;
    let mut message = with_name(alloc, before.as_str(), text, after)?;
    if matches!(reason, Reason::UnknownVersion) {
        push_versions(&mut message)?;
    }
    message.extend_from_slice(b"\nTry 'rapidsum --help' for more information.\n")?;
    rt.stderr()
        .write_all(message.as_slice())
        .map_err(Problem::Write)?;
    Ok(false)
}
