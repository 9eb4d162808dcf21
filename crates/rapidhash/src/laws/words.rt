//! Nothing of a message is lost in the words that a hash reads from it, and the hash depends on
//! nothing but these words and the length.

ghost use Rattle.std.specs.Prelude.{◌≡◌, ◌≤◌, ◌↔◌, IsTrue};
ghost use Rattle.rapidhash_portable.specs.declared.form.Form.{Form};
ghost use Rattle.rapidhash_portable.specs.declared.form.Form.TheVariants.{V1};
ghost use Rattle.rapidhash_portable.specs.Form.{micro, nano, v2, v3};
ghost use Rattle.rapidhash.specs.Laws.{HashIsOfWords, HashesAreOfWords, SameWords};

/// Returns whether two messages are equal. They are exactly if their lengths and the words that a
/// form reads are.
fn same_words(x: &[u8], y: &[u8]) -> bool
    ensures words { (form : Form) → (IsTrue result ↔ SameWords form x.now y.now) }
    ensures bytes { IsTrue result ↔ (x.now ≡ y.now) }
    ensures first { (form : Form) → HashIsOfWords form x.now }
    ensures second { (form : Form) → HashIsOfWords form y.now }
{
    x == y
}

/// Returns whether two messages have the same length and the same words, as V1 reads them: they do
/// exactly if they are equal. With any options, seed and secrets, V1 of either is a formula over
/// its length and these words.
///
/// ```
/// assert!(!same_words_v1::<false>(b"left", b"lift"));
/// ```
pub fn same_words_v1<const V1_BUG: bool>(x: &[u8], y: &[u8]) -> bool
    ensures words { IsTrue result ↔ SameWords (V1 V1_BUG) x.now y.now }
    ensures bytes { IsTrue result ↔ (x.now ≡ y.now) }
    ensures hashes { HashesAreOfWords (V1 V1_BUG) x.now y.now }
{
    same_words(x, y)
}

/// Returns the same as [`same_words_v1`] for V2 with its minor number: 0, 1 or 2.
///
/// ```
/// assert!(!same_words_v2::<2>(b"left", b"lift"));
/// ```
pub fn same_words_v2<const MINOR: u8>(x: &[u8], y: &[u8]) -> bool
    requires { MINOR ≤ 2 }
    ensures words { IsTrue result ↔ SameWords (v2 MINOR) x.now y.now }
    ensures bytes { IsTrue result ↔ (x.now ≡ y.now) }
    ensures hashes { HashesAreOfWords (v2 MINOR) x.now y.now }
{
    same_words(x, y)
}

/// Returns the same as [`same_words_v1`] for V3.
///
/// ```
/// assert!(same_words_v3(b"left", b"left"));
/// ```
pub fn same_words_v3(x: &[u8], y: &[u8]) -> bool
    ensures words { IsTrue result ↔ SameWords v3 x.now y.now }
    ensures bytes { IsTrue result ↔ (x.now ≡ y.now) }
    ensures hashes { HashesAreOfWords v3 x.now y.now }
{
    same_words(x, y)
}

/// Returns the same as [`same_words_v1`] for V3 micro.
///
/// ```
/// assert!(!same_words_micro(b"left", b"lift"));
/// ```
pub fn same_words_micro(x: &[u8], y: &[u8]) -> bool
    ensures words { IsTrue result ↔ SameWords micro x.now y.now }
    ensures bytes { IsTrue result ↔ (x.now ≡ y.now) }
    ensures hashes { HashesAreOfWords micro x.now y.now }
{
    same_words(x, y)
}

/// Returns the same as [`same_words_v1`] for V3 nano.
///
/// ```
/// assert!(!same_words_nano(b"left", b"lift"));
/// ```
pub fn same_words_nano(x: &[u8], y: &[u8]) -> bool
    ensures words { IsTrue result ↔ SameWords nano x.now y.now }
    ensures bytes { IsTrue result ↔ (x.now ≡ y.now) }
    ensures hashes { HashesAreOfWords nano x.now y.now }
{
    same_words(x, y)
}
