//! The printed lines.

use crate::ends::{
    SOMETHING, SOMETHING_LINE, V1, V3, V3_LINE, of_file, of_stdin, versions, whole, writer,
};
use crate::writers::FullWriter;
use rapidhash_tool::{CliFault, help, run_file, run_help, run_stdin};
use std::process::Abort;
use std::test::Fail;

macro_rules! seven {
    ($($hash:literal)*) => { [$($hash),*] };
}

// The hashes of the Rust crate, for V1, V2.0, V2.1, V2.2, V3, micro and nano.
const OF_SOMETHING: [u64; 7] = seven! {
    15965596575264898037 9564150447897697404 9564150447897697404 9564150447897697404
    11612086640089003834 11612086640089003834 11612086640089003834
};

const OF_SOMETHING_PROTECTED: [u64; 7] = seven! {
    14951285551641890068 17893560372563139203 17893560372563139203 17893560372563139203
    9190969184432848932 9190969184432848932 9190969184432848932
};

// Every version prints these hashes, from standard input and from a file.
fn all_print(
    rt: &(impl Abort + AllocGlobal),
    bytes: &[u8],
    protected: bool,
    hashes: [u64; 7],
) -> Result<(), Fail> {
    let all = versions(protected);
    for i in 0..7usize {
        let version = all[i];
        let hash = hashes[i];
        let line = format!(in rt.alloc(); "{hash}\n")?;
        let out = writer(Vec::new(rt.alloc()), 0);
        let ended = of_stdin(rt.alloc(), version, whole(bytes), out);
        assert!(rt; ended.result == Ok(()), "at {version:?}");
        assert!(rt;
            ended.written.as_slice() == line.as_bytes(),
            "at {version:?}"
        );
        let out = writer(Vec::new(rt.alloc()), 0);
        let ended = of_file(version, whole(bytes), bytes.len() as u64, out);
        assert!(rt; ended.result == Ok(()), "at {version:?}");
        assert!(rt;
            ended.written.as_slice() == line.as_bytes(),
            "at {version:?}"
        );
    }
    Ok(())
}

#[test]
fn all_versions(rt: HostRuntime) -> Result<(), Fail> {
    all_print(&rt, SOMETHING, false, OF_SOMETHING)?;
    all_print(&rt, SOMETHING, true, OF_SOMETHING_PROTECTED)
}

// V1 and V2 hash as many bytes as the length, and the others all.
#[test]
fn lengths_of_files(rt: HostRuntime) {
    for version in versions(false) {
        let out = writer(Vec::new(rt.alloc()), 0);
        let longer = of_file(version, whole(SOMETHING), 11, out);
        if version.needs_length() {
            assert!(rt; longer.result == Err(CliFault::File), "at {version:?}");
            assert!(rt; longer.written.is_empty());
            continue;
        }
        let out = writer(Vec::new(rt.alloc()), 0);
        let of_none = of_file(version, whole(SOMETHING), 0, out);
        assert!(rt; longer.result == Ok(()), "at {version:?}");
        assert!(rt; longer.written.as_slice() == V3_LINE);
        assert!(rt; of_none.result == Ok(()), "at {version:?}");
        assert!(rt; of_none.written.as_slice() == V3_LINE);
    }
    let out = writer(Vec::new(rt.alloc()), 0);
    let first = of_file(V1, whole(b"something\nmore"), 10, out);
    assert!(rt; first.written.as_slice() == SOMETHING_LINE);
}

#[test]
fn a_writer_that_takes_nothing(rt: HostRuntime) {
    let of_stdin = run_stdin(rt.alloc(), &V1, whole(SOMETHING), &mut FullWriter);
    let of_file = run_file(&V3, whole(SOMETHING), 10, &mut FullWriter);
    assert!(rt; of_stdin == Err(CliFault::Write));
    assert!(rt; of_file == Err(CliFault::Write));
    assert!(rt; run_help(&mut FullWriter) == Err(CliFault::Write));
    assert!(rt; help().ends_with("#cli\n"));
}
