//! Laws of the hashes, each as a call whose contract is the law.
//!
//! - [`same_words_v3`] and its like: nothing of a message is lost before it is mixed, and the hash
//!   depends on nothing else.
//! - [`micro_is_v3`] and its like: two forms agree at some lengths, such as micro and V3 up to 80.
//! - [`lane_after_its_secret`]: what `PROTECTED` keeps.
//! - [`same_blocks`]: integers of equal widths are packed one to one.
//! - [`join_u8`], [`turn_bytes`] and their like: writes that may be joined or swapped.
//! - [`same_keys`]: keys of several fields are encoded one to one.
//! - [`refuses_damage`]: which damage to a saved stream is refused for certain.
//! - [`replay`]: a stream hasher returns the hash of what was written since the last reset.

ghost use Rattle.std.specs.Prelude.{◌≡◌, IfOk};
ghost use Rattle.rapidhash_portable.specs.Lanes.{IsLaneCount};
ghost use Rattle.rapidhash_portable.specs.Form.{options};
ghost use Rattle.rapidhash.specs.Replay.{finishes};

mod blocks;
mod damage;
mod forms;
mod keys;
mod lane;
mod words;
mod writes;

pub use blocks::{Num, same_blocks};
pub use damage::refuses_damage;
pub use forms::{micro_is_v3, nano_is_v3, v1_is_v1_with_its_bug, v2_0_is_v2_1, v2_1_is_v2_2};
pub use keys::same_keys;
pub use lane::lane_after_its_secret;
use rapidhash_portable::v3::{RapidSecrets, RapidStreamHasherLanes};
use std::alloc::{AllocError, Allocator};
pub use words::{same_words_micro, same_words_nano, same_words_v1, same_words_v2, same_words_v3};
pub use writes::{join_u8, join_u16, join_u32, turn_bytes, turn_u128};

/// One operation of a run over a stream hasher.
#[derive(Clone, Copy)]
pub enum StreamOp<'d> {
    /// Adds a piece to the message.
    Write(&'d [u8]),
    /// Asks for the hash of the message so far.
    Finish,
    /// Forgets the message.
    Reset,
}

/// Returns the hash that V3's stream hasher returns for each `Finish` of a run, in order. It fails
/// only if an allocation for the list of hashes does, and then it frees the list.
///
/// ```
/// let ops = [StreamOp::Write(b"hello"), StreamOp::Finish];
/// let answers = replay::<_, true, false>(alloc, &secrets, &ops)?;
/// ```
pub fn replay<A: Allocator, const AVALANCHE: bool, const PROTECTED: bool>(
    alloc: A,
    secrets: &RapidSecrets,
    ops: &[StreamOp<'_>],
) -> Result<Vec<u64, A>, AllocError>
    ensures { IfOk result (λ answers. answers.items
        ≡ finishes 7 (options AVALANCHE PROTECTED) secrets.now ops.now) }
{
    replay_lanes::<A, 7, AVALANCHE, PROTECTED>(alloc, secrets, ops)
}

/// Returns the hashes of [`replay`] by V3 or the relative of it that has `LANES` lanes.
#[tactic(auto, unfolding(crate::specs::Replay::finishes_from))]
pub fn replay_lanes<A: Allocator, const LANES: usize, const AVALANCHE: bool, const PROTECTED: bool>(
    alloc: A,
    secrets: &RapidSecrets,
    ops: &[StreamOp<'_>],
) -> Result<Vec<u64, A>, AllocError>
    requires { IsLaneCount LANES }
    ensures { IfOk result (λ answers. answers.items
        ≡ finishes LANES (options AVALANCHE PROTECTED) secrets.now ops.now) }
{
    let mut answers = Vec::new(alloc);
    let mut hasher = RapidStreamHasherLanes::<LANES, AVALANCHE, PROTECTED>::new(secrets);
    for op in ops {
        match *op {
            StreamOp::Write(piece) => hasher.write(piece),
            StreamOp::Finish => answers.push(hasher.finish())?,
            StreamOp::Reset => hasher.reset(),
        }
    }
    Ok(answers)
}
