//! The plans that the arguments select.

use rapidhash_tool::{Minor, Plan, RapidhashVersion, plan};
use std::alloc::AllocError;
use std::test::Fail;

/// Returns the arguments as strings.
pub fn gathered(rt: &impl AllocGlobal, line: &[&str]) -> Result<Vec<String>, AllocError> {
    let mut args = Vec::new(rt.alloc());
    for arg in line {
        args.push(String::from_str(rt.alloc(), *arg)?)?;
    }
    Ok(args)
}

// The plan to hash standard input.
fn stdin_by(version: RapidhashVersion) -> Plan {
    Plan::Run {
        version,
        file: None,
    }
}

// The plan to hash the file at a place.
fn file_by(version: RapidhashVersion, place: usize) -> Plan {
    Plan::Run {
        version,
        file: Some(place),
    }
}

fn v2(version: Minor, protected: bool) -> RapidhashVersion {
    RapidhashVersion::V2 { protected, version }
}

const V1: RapidhashVersion = RapidhashVersion::V1 { protected: false };

const V3: RapidhashVersion = RapidhashVersion::V3 { protected: false };

const NANO: RapidhashVersion = RapidhashVersion::V3Nano { protected: true };

#[test]
fn plans_of_lines(rt: HostRuntime) -> Result<(), Fail> {
    let lines: [(&[&str], Plan); 24] = [
        (&[], Plan::Help),
        (&["-h"], Plan::Help),
        (&["--help"], Plan::Help),
        (&["rapidhash", "x", "--v1", "-h"], Plan::Help),
        (&["rapidhash", "--v1", "--v3", "-h"], Plan::Help),
        (&["rapidhash", "--help", "--v1"], Plan::Help),
        (&["rapidhash", "--v1", "--v3"], Plan::Refused),
        (&["rapidhash", "--v2.0", "x", "--v2.1"], Plan::Refused),
        (&["rapidhash", "--v3", "--v3-micro"], Plan::Refused),
        (&["rapidhash", "--v3-nano", "--v3-micro"], Plan::Refused),
        (&["rapidhash"], stdin_by(V3)),
        (&["--v1"], stdin_by(V3)),
        (&["rapidhash", "--v1"], stdin_by(V1)),
        (
            &["rapidhash", "--v1", "--v1", "--strange", "-"],
            stdin_by(V1),
        ),
        (&["rapidhash", "--v2.0"], stdin_by(v2(Minor::M0, false))),
        (
            &["rapidhash", "--v2.2", "--help-me"],
            stdin_by(v2(Minor::M2, false)),
        ),
        (&["rapidhash", "--v3-mini"], stdin_by(V3)),
        (&["rapidhash", "--v10", "--V1", "-v1"], stdin_by(V3)),
        (
            &["rapidhash", "--protected", "--protected", "--v3-nano"],
            stdin_by(NANO),
        ),
        (&["rapidhash", "a", "b"], file_by(V3, 1)),
        (&["rapidhash", ""], file_by(V3, 1)),
        (&["rapidhash", "v1", "--v1"], file_by(V1, 1)),
        (
            &["rapidhash", "--v2.1", "--protected", "x", "--", "y"],
            file_by(v2(Minor::M1, true), 3),
        ),
        (
            &["rapidhash", "--v3-nano", "--v3-nano", "--protected", "x"],
            file_by(NANO, 4),
        ),
    ];
    for (line, wanted) in lines {
        let args = gathered(&rt, line)?;
        assert!(rt; plan(args.as_slice()) == wanted, "at {line:?}");
    }
    Ok(())
}

// The arguments after the program's name; a help option is ignored.
#[test]
fn versions_of_words(rt: HostRuntime) -> Result<(), Fail> {
    let micro = RapidhashVersion::V3Micro { protected: false };
    let lines: [(&[&str], Option<RapidhashVersion>); 6] = [
        (&[], Some(V3)),
        (&["--v1", "--v3", "-h"], None),
        (&["--protected", "-h", "--v2.0"], Some(v2(Minor::M0, true))),
        (&["--v3-micro", "--help"], Some(micro)),
        (&["x", "--v2.1", "--v2.1"], Some(v2(Minor::M1, false))),
        (&["--v2.2", "--v2.1", "--v2.2"], None),
    ];
    for (line, wanted) in lines {
        let args = gathered(&rt, line)?;
        assert!(rt;
            RapidhashVersion::new(args.as_slice()) == wanted,
            "at {line:?}"
        );
    }
    Ok(())
}
