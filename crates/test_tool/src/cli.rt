//! The Rust crate's own tests of its command line, by their names: the arguments, and the output
//! for a text. The numbers are those of the Rust crate.

use crate::ends::{of_file, of_stdin, whole, writer};
use crate::plans::gathered;
use rapidhash_tool::{Plan, plan};
use std::process::Abort;
use std::test::Fail;

const TEXT: &[u8] = b"test input\n";

// V3's line for it.
const LINE: &[u8] = b"10591916791569766038\n";

// Arguments that name no file print this line for the text on standard input.
fn prints(rt: &(impl Abort + AllocGlobal), args: &[&str], line: &[u8]) -> Result<(), Fail> {
    let args = gathered(rt, args)?;
    let Plan::Run {
        version,
        file: None,
    } = plan(args.as_slice())
    else {
        panic!(rt; "{args:?} does not hash standard input");
    };
    let out = writer(Vec::new(rt.alloc()), 0);
    let ended = of_stdin(rt.alloc(), version, whole(TEXT), out);
    assert!(rt; ended.result == Ok(()));
    assert!(rt; ended.written.as_slice() == line, "at {args:?}");
    Ok(())
}

#[test]
fn cli_stdin(rt: HostRuntime) -> Result<(), Fail> {
    prints(&rt, &["rapidhash", "--v3"], LINE)
}

#[test]
fn cli_versions(rt: HostRuntime) -> Result<(), Fail> {
    let lines: [(&str, &[u8]); 7] = [
        ("--v1", b"5992571829774481638\n"),
        ("--v2.0", b"13749574946495435624\n"),
        ("--v2.1", b"13749574946495435624\n"),
        ("--v2.2", b"13749574946495435624\n"),
        ("--v3", b"10591916791569766038\n"),
        ("--v3-micro", b"10591916791569766038\n"),
        ("--v3-nano", b"10591916791569766038\n"),
    ];
    for (arg, line) in lines {
        prints(&rt, &["rapidhash", arg], line)?;
    }
    Ok(())
}

#[test]
fn cli_file(rt: HostRuntime) -> Result<(), Fail> {
    let args = gathered(&rt, &["rapidhash", "--v3", "test.txt"])?;
    let Plan::Run {
        version,
        file: Some(2),
    } = plan(args.as_slice())
    else {
        panic!(rt; "{args:?} does not hash the file test.txt");
    };
    let out = writer(Vec::new(rt.alloc()), 0);
    let ended = of_file(version, whole(TEXT), TEXT.len() as u64, out);
    assert!(rt; ended.result == Ok(()));
    assert!(rt; ended.written.as_slice() == LINE);
    Ok(())
}
