//! The data of a stream hasher, and their invariant. The checker accepts no ghost field beside code
//! that lends an array, so each method here is one line, and all code is in `parts`.

ghost use Rattle.std.specs.Prelude.{◌≡◌, ◌*◌, ◌^◌, ◌<◌, ◌≤◌, ◌++◌, ℕ, All, List, []};
ghost use Rattle.rapidhash_portable.specs.declared.form.Form.TheVariants.{V3};
ghost use Rattle.rapidhash_portable.specs.Lanes.{IsLaneCount};
ghost use Rattle.rapidhash_portable.specs.Form.{options};
ghost use Rattle.rapidhash_portable.specs.Hash.{seeded_hash};

use super::parts::Parts;
use super::saved::SAVED_SIZE;

/// The data of a stream hasher, of which at most one chunk is buffered.
#[derive(Drop)]
pub(crate) struct State<'a, const LANES: usize> {
    pub(super) parts: Parts<'a>,
    ghost lanes: { IsLaneCount LANES },
    ghost fits: { parts.len ≤ 16 * LANES },
}

impl<'a, const LANES: usize> State<'a, LANES> {
    ghost use Rattle.rapidhash_portable.specs.Saved.{saved_parts};
    ghost use Rattle.rapidhash_portable.specs.Stream.{PartsRepresent};

    #[inline(always)]
    pub(crate) fn write<const PROTECTED: bool>(&mut self, piece: &[u8])
        ensures adds { (earlier : ℕ) (x : List ℕ) →
            PartsRepresent PROTECTED LANES earlier self.old.parts x →
            PartsRepresent PROTECTED LANES earlier self.new.parts (x ++ piece.now) }
        ensures secrets { self.new.parts.secrets.now ≡ self.old.parts.secrets.now }
    {
        self.parts.write::<LANES, PROTECTED>(piece);
    }

    #[inline(always)]
    pub(crate) fn finish<const AVALANCHE: bool, const PROTECTED: bool>(&self) -> u64
        ensures { (earlier : ℕ) (x : List ℕ) →
            PartsRepresent PROTECTED LANES earlier self.now.parts x →
            result
            ≡ seeded_hash (V3 LANES) (options AVALANCHE PROTECTED) self.now.parts.secrets.now x }
    {
        self.parts.finish::<LANES, AVALANCHE, PROTECTED>()
    }

    #[inline(always)]
    pub(crate) fn reset<const PROTECTED: bool>(&mut self)
        ensures empty { PartsRepresent PROTECTED LANES 0 self.new.parts [] }
        ensures count { self.new.parts.folded.count.steps ≡ 0 }
        ensures secrets { self.new.parts.secrets.now ≡ self.old.parts.secrets.now }
    {
        self.parts.reset::<LANES, PROTECTED>();
    }

    #[inline]
    pub(crate) fn save(&self, options: u8) -> [u8; SAVED_SIZE]
        ensures bytes { result ≡ saved_parts LANES options self.now.parts }
        ensures words { All (λ lane. lane < 2 ^ 64) self.now.parts.folded.lanes }
    {
        self.parts.save::<LANES>(options)
    }
}
