//! Keys of bytes, for maps and sets.

ghost use Rattle.std.specs.Prelude.{◌≡◌, nat_eq};
ghost use Rattle.std.specs.Cmp.{on_equiv, on_per, partial_equiv_from_equiv};
ghost use Rattle.std.specs.Cmp.Lexicographic.{pointwise, nat_list_eq_equiv};
ghost use Rattle.std.specs.Hash.{on_Alike};
ghost use Rattle.rapidhash.specs.Keys.{one_write, one_write-Alike};

use std::convert::AsSlice;
use std::hash::{Hash, Hasher};

/// A key of bytes, which it passes to the hasher in one write.
///
/// By the contract of Rattle's std a `&[u8]` or a `Vec<u8>` writes its length and then each byte in
/// a call of its own, which costs a hash step. This key writes all its bytes at once. It holds
/// anything that lends bytes: `&[u8]`, `Vec<u8>`, `bytes::Bytes`, `[u8; N]` or `&str`. Two keys are
/// equal if their bytes are.
///
/// For a map of owned keys that is searched by borrowed slices use `ByteKey<CowSlice<u8>>`. The
/// slices have the one lifetime that the map's type names, so they outlive the map:
///
/// ```
/// let mut sizes: RapidHashMap<ByteKey<CowSlice<u8>>, u64> = HashMapExt::new(alloc, state);
/// sizes.insert(ByteKey(CowSlice::Owned(name)), 4096)?;
/// let size = sizes.get(&ByteKey(CowSlice::Borrowed(b"notes.txt")));
/// ```
#[derive(Clone, Copy, Debug, Drop)]
pub struct ByteKey<T>(pub T);

impl<T: AsSlice<u8>> AsSlice<u8> for ByteKey<T> {
    ghost items = { λ key. T.items key.0 };

    #[inline]
    fn as_slice(&self) -> &[u8] {
        self.0.as_slice()
    }
}

impl<T: AsSlice<u8>> PartialEq for ByteKey<T> {
    ghost eq = { λ x y. pointwise nat_eq (T.items x.0) (T.items y.0) };

    ghost laws = { on_per (λ key. T.items key.0) (partial_equiv_from_equiv nat_list_eq_equiv) };

    #[inline]
    fn eq(&self, other: &Self) -> bool {
        self.0.as_slice() == other.0.as_slice()
    }
}

impl<T: AsSlice<u8>> Eq for ByteKey<T> {
    ghost laws = { on_equiv (λ key. T.items key.0) nat_list_eq_equiv };
}

impl<T: AsSlice<u8>> Hash for ByteKey<T> {
    ghost hash_input = { λ key. one_write (T.items key.0) };

    ghost respects_eq = { (on_Alike (λ key. T.items key.0) one_write-Alike).fed };

    #[inline]
    fn hash<H: Hasher>(&self, state: &mut H) {
        state.write(self.0.as_slice());
    }
}
