//! A message in pieces, by a version with streams. The header's inline functions start one.

ghost use Rattle.std.specs.Prelude.{◌≡◌, ◌++◌, ℕ, List, true, false};
ghost use Rattle.rapidhash_portable.specs.Form.{standard};
ghost use Rattle.rapidhash_portable.specs.Hash.{seeded_hash};
ghost use Rattle.rapidhash_portable.specs.Stream.{RepresentsByLanes, StartsByLanes, lanes_of, secrets_by_lanes};
ghost use Rattle.rapidhash_portable.specs.declared.form.Form.TheVariants.{V3};

use rapidhash_portable::v3::RapidStream;

/// Forgets the message, and keeps the secrets and the number of lanes.
#[unsafe(no_mangle)]
pub extern "C" fn rapidhash_stream_reset(stream: &mut RapidStream<'_>)
    ensures { StartsByLanes stream.new (lanes_of stream.old) (secrets_by_lanes stream.old) }
{
    stream.reset();
}

/// Adds a piece to the message.
#[unsafe(no_mangle)]
pub extern "C" fn rapidhash_stream_write(stream: &mut RapidStream<'_>, bytes: &[u8])
    ensures adds { (earlier : ℕ) (x : List ℕ) → RepresentsByLanes earlier stream.old x →
        RepresentsByLanes earlier stream.new (x ++ bytes.now) }
    ensures secrets { secrets_by_lanes stream.new ≡ secrets_by_lanes stream.old }
    ensures lanes { lanes_of stream.new ≡ lanes_of stream.old }
{
    stream.write(bytes);
}

/// Returns the hash of the message so far. It changes nothing: further pieces may follow.
#[unsafe(no_mangle)]
pub extern "C" fn rapidhash_stream_finish(stream: &RapidStream<'_>) -> u64
    ensures { (earlier : ℕ) (x : List ℕ) → RepresentsByLanes earlier stream.now x → result
        ≡ seeded_hash (V3 (lanes_of stream.now)) standard
        (secrets_by_lanes stream.now) x }
{
    stream.finish()
}
