//! Which bytes a stream keeps: no contract and no hash shows those that it no longer needs.

ghost use Rattle.std.specs.Prelude.{◌≤◌};

use super::Parts;
use crate::secrets::DEFAULT_RAPID_SECRETS;
use crate::v3::stream::folded::Folded;

/// What a stream of seven lanes keeps after one write of the bytes `i mod 251`, from 0 to `end`.
fn kept_after(end: usize) -> [u8; 128]
    requires { end ≤ 338 }
{
    let mut bytes = [0; 338];
    for i in 0..338 {
        bytes[i] = (i % 251) as u8;
    }
    let mut parts = Parts {
        secrets: &DEFAULT_RAPID_SECRETS,
        folded: Folded::new(DEFAULT_RAPID_SECRETS.seed),
        any: false,
        kept: [0; 128],
        len: 0,
    };
    parts.write::<7, false>(&bytes[..end]);
    parts.kept
}

/// After the bytes 0 to 127 the last 16 folded ones, and then the new ones.
#[test]
fn test_chunk_writing(rt: HostRuntime) {
    let kept = kept_after(128);
    for i in 0..32 {
        assert!(rt; kept[i] as usize == 96 + i);
    }
}

/// After 338 bytes, of which the first chunk filled the buffer: the others are folded in place.
#[test]
fn large_pieces_are_not_copied(rt: HostRuntime) {
    assert!(rt; kept_after(338)[18] == 2);
}
