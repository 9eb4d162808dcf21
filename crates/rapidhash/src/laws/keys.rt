//! Keys of several fields are encoded one to one.

ghost use Rattle.std.specs.Prelude.{◌≡◌, ◌++◌, ◌↔◌, IsTrue, List, [], length, map, ℕ};
ghost use Rattle.rapidhash.specs.Key.{IsContent, content_of, key_bytes};

use crate::key::Field;

/// Returns whether two keys have the same encoding. They have exactly if they are equal, field by
/// field. No key's encoding begins the encoding of another key of as many fields.
///
/// ```
/// let left = [Field::Bytes(b"ab"), Field::Bytes(b"c")];
/// assert!(!same_keys(&left, &[Field::Bytes(b"a"), Field::Bytes(b"bc")]));
/// ```
pub fn same_keys(x: &[Field<'_>], y: &[Field<'_>]) -> bool
    ensures encodings { IsTrue result ↔ (key_bytes x.now ≡ key_bytes y.now) }
    ensures fields { IsTrue result ↔ (map content_of x.now ≡ map content_of y.now) }
    ensures ends { (rest : List ℕ) → length x.now ≡ length y.now →
        key_bytes x.now ++ rest ≡ key_bytes y.now → rest ≡ [] }
{
    let shared = x.len().min(y.len());
    for i in 0..shared {
        if !is_same(x[i], y[i]) {
            return false;
        }
    }
    x.len() == y.len()
}

// Returns whether two fields are equal.
fn is_same(x: Field<'_>, y: Field<'_>) -> bool
    ensures same { IsTrue result ↔ (content_of x.entry ≡ content_of y.entry) }
    ensures left { IsContent (content_of x.entry) }
    ensures right { IsContent (content_of y.entry) }
{
    match (x, y) {
        (Field::Nothing, Field::Nothing) => true,
        (Field::Integer(x), Field::Integer(y)) => x == y,
        (Field::Bytes(x), Field::Bytes(y)) => x == y,
        _ => false,
    }
}
