//! The size of a filter, from the number of its keys and the share of other keys that it may find.

ghost use Rattle.std.specs.Prelude.{◌≡◌, ◌+◌, IfErr, IfOk};
ghost use Rattle.example_bloom.specs.Shape.{Refuses, Serves};

/// The most bits of a filter, 512 MiB: places come from the 32-bit halves of a hash.
pub const MOST_BITS: u64 = 4294967296;

/// An error of [`Shape::new`]: no filter fits the numbers.
#[derive(Debug, Clone, Copy, thiserror::Error, Drop)]
pub enum ShapeError {
    /// A filter that finds one in one other key finds them all.
    #[error("--one-in must be at least 2")]
    Rate,
    /// The filter would have more bits than [`MOST_BITS`].
    #[error("too many keys: the filter would need more than 512 MiB")]
    TooManyKeys,
}

/// The size of a filter: its words of 64 bits, and the marks of a key.
#[derive(Clone, Copy)]
pub struct Shape {
    last_word: u32,
    marks: u32,
}

impl Shape {
    /// Returns the shape for `keys` keys that should find at most one in `one_in` other keys.
    ///
    /// A key has k marks, with the smallest k such that 2^k is at least `one_in`. The number of
    /// bits is 1.4427 times that of all marks, at which about half of them are set in the end.
    /// Fractions of a bit per key, and of a word, are rounded up.
    pub fn new(keys: u64, one_in: u32) -> Result<Shape, ShapeError>
        ensures shape { IfOk result (Serves keys one_in) }
        ensures error { IfErr result (Refuses keys one_in) }
    {
        if one_in < 2 {
            return Err(ShapeError::Rate);
        }
        let marks = (one_in - 1).ilog2() + 1;
        let bits_per_key = (marks as u64 * 14427).div_ceil(10000);
        let bits = match keys.checked_mul(bits_per_key) {
            Some(bits) if bits <= MOST_BITS => bits.max(1),
            _ => return Err(ShapeError::TooManyKeys),
        };
        Ok(Shape {
            last_word: ((bits - 1) / 64) as u32,
            marks,
        })
    }

    /// Returns the number of words, at least one.
    pub fn words(&self) -> usize
        ensures { result ≡ self.now.last_word + 1 }
    {
        self.last_word as usize + 1
    }

    /// Returns the number of marks of a key.
    pub fn marks(&self) -> u32
        ensures { result ≡ self.now.marks }
    {
        self.marks
    }
}
