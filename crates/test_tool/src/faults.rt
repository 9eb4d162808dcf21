//! The errors' numbers and texts.

use rapidhash_tool::CliFault;

#[test]
fn numbers_and_texts(rt: HostRuntime) {
    let faults = [
        (
            CliFault::Versions,
            1,
            "You must specify a single rapidhash version to use. See --help for more.",
        ),
        (CliFault::Open, 2, "Could not open file."),
        (CliFault::Stdin, 3, "Could not read from stdin."),
        (CliFault::Memory, 4, "Out of memory."),
        (CliFault::File, 5, "Failed to hash file."),
        (CliFault::Write, 6, "Could not write to stdout."),
    ];
    for (fault, number, text) in faults {
        assert!(rt; fault.number() == number, "at {fault:?}");
        assert!(rt; fault.text() == text, "at {fault:?}");
    }
}
