//! The stream hashers: known values, refused bytes, and sizes in memory.

use rapidhash_portable::v3::{
    DEFAULT_RAPID_SECRETS, RapidSecrets, RapidStream, RapidStreamHasherInlineMicro,
    RapidStreamHasherInlineNano, RapidStreamHasherInlineV3, RapidStreamHasherLanes,
    RapidStreamHasherV3,
};

/// Eight bytes in one piece, and after a reset in four. The number is the Rust crate's.
#[test]
fn test_rapid_stream_hasher(rt: HostRuntime) {
    let bytes = [0, 1, 2, 3, 4, 5, 6, 7];
    let mut hasher = RapidStreamHasherV3::new(&DEFAULT_RAPID_SECRETS);
    hasher.write(&bytes);
    assert!(rt; hasher.finish() == 15732834091190890302);
    hasher.reset();
    hasher.write(&bytes[..1]);
    hasher.write(&bytes[1..3]);
    hasher.write(&bytes[3..6]);
    hasher.write(&bytes[6..]);
    assert!(rt; hasher.finish() == 15732834091190890302);
}

/// A message in pieces of 50 and 70 bytes, after a reset of a stream that had other bytes.
fn in_pieces(stream: &mut RapidStream<'_>, bytes: &[u8; 120]) -> u64 {
    stream.write(b"other bytes");
    stream.reset();
    stream.write(&bytes[..50]);
    stream.write(&bytes[50..]);
    stream.finish()
}

/// A stream whose number of lanes is a value. The numbers are the Rust crate's.
#[test]
fn streams_of_any_lanes(rt: HostRuntime) {
    let mut bytes = [0u8; 120];
    for i in 0..120u8 {
        bytes[i as usize] = i;
    }
    let secrets = RapidSecrets {
        seed: 1,
        secrets: [2, 3, 5, 7, 11, 13, 17],
    };
    let mut stream = RapidStream::new(7, &secrets);
    assert!(rt; in_pieces(&mut stream, &bytes) == 13105958653737073913);
    let mut micro = RapidStream::new(5, &secrets);
    assert!(rt; in_pieces(&mut micro, &bytes) == 5648300410578423183);
    let mut nano = RapidStream::new(3, &secrets);
    assert!(rt; in_pieces(&mut nano, &bytes) == 4961128163384780230);
}

const SECRETS: RapidSecrets = RapidSecrets {
    seed: 5,
    secrets: [1, 2, 3, 4, 5, 6, 7],
};

/// Bytes of another length or of another type are refused.
#[test]
fn refused_streams(rt: HostRuntime) {
    let mut hasher: RapidStreamHasherInlineV3<true, false> = RapidStreamHasherLanes::new(&SECRETS);
    hasher.write(&[7; 230]);
    let saved = hasher.save();
    assert!(rt; RapidStreamHasherV3::restore(&saved, &SECRETS).is_some());
    assert!(rt; RapidStreamHasherV3::restore(&saved[1..], &SECRETS).is_none());
    assert!(rt; RapidStreamHasherV3::restore(b"", &SECRETS).is_none());
    assert!(rt; RapidStreamHasherInlineV3::<false, false>::restore(&saved, &SECRETS).is_none());
    assert!(rt; RapidStreamHasherInlineV3::<true, true>::restore(&saved, &SECRETS).is_none());
    assert!(rt; RapidStreamHasherInlineMicro::<true, false>::restore(&saved, &SECRETS).is_none());
}

/// A stream hasher is a reference, seven lanes whatever their number, 128 bytes, a length and a
/// flag: its count of chunk steps needs no memory.
#[test]
fn sizes_in_memory(rt: HostRuntime) {
    let size = 8 + 56 + 128 + 8 + 8;
    assert!(rt; std::mem::size_of::<RapidStreamHasherInlineV3<'static, true, false>>() == size);
    assert!(rt; std::mem::size_of::<RapidStreamHasherInlineMicro<'static, true, false>>() == size);
    assert!(rt; std::mem::size_of::<RapidStreamHasherInlineNano<'static, true, false>>() == size);
}
