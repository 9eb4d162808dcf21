//! Decimal numbers: one text for each number, as the field of a key.
//!
//! In every language the field of a decimal number is its shortest text: `1.50` and `01.5` are
//! `1.5`, and `-0.00` is `0`. Numbers are equal exactly if these texts are ([`same_decimals`]).

ghost use Rattle.std.specs.Prelude.{◌≡◌, ◌↔◌, IsTrue, reverse};
ghost use Rattle.rapidhash.specs.Decimal.{HasDigits, IsShortest, SameNumber, SameShape, decimal_text, skip_zeros};

/// A decimal number without an exponent. Its digits are the bytes of `0` to `9`.
#[derive(Clone, Copy)]
pub struct Decimal<'d> {
    /// Whether it has a minus.
    pub negative: bool,
    /// The digits before the point.
    pub whole: &'d [u8],
    /// The digits behind the point.
    pub part: &'d [u8],
}

fn without_leading_zeros(mut digits: &[u8]) -> &[u8]
    ensures { result.now ≡ skip_zeros digits.now }
{
    while let [first, rest @ ..] = digits
        && *first == b'0'
    {
        digits = rest;
    }
    digits
}

fn without_trailing_zeros(mut digits: &[u8]) -> &[u8]
    ensures { result.now ≡ reverse (skip_zeros (reverse digits.now)) }
{
    while let [rest @ .., last] = digits
        && *last == b'0'
    {
        digits = rest;
    }
    digits
}

/// Returns the same number with the fewest digits. 0 has none, and no minus.
///
/// ```
/// use rapidhash::decimal::{Decimal, shortest};
///
/// let price = shortest(Decimal { negative: false, whole: b"01", part: b"50" });
/// assert_eq!((price.whole, price.part), (&b"1"[..], &b"5"[..]));
/// ```
#[tactic(auto, using(crate::proofs::DecimalLemmas::signs))]
pub fn shortest<'d>(number: Decimal<'d>) -> Decimal<'d>
    requires { HasDigits number }
    ensures { IsShortest number.entry result }
{
    let whole = without_leading_zeros(number.whole);
    let part = without_trailing_zeros(number.part);
    let negative = match (whole, part) {
        ([], []) => false,
        _ => number.negative,
    };
    Decimal {
        negative,
        whole,
        part,
    }
}

// Returns whether two numbers are written in the same way.
fn same_shape(x: Decimal<'_>, y: Decimal<'_>) -> bool
    ensures { IsTrue result ↔ SameShape x.entry y.entry }
{
    x.negative == y.negative && x.whole == y.whole && x.part == y.part
}

/// Returns whether two numbers are equal. They are exactly if their shortest texts are.
pub fn same_decimals(x: Decimal<'_>, y: Decimal<'_>) -> bool
    requires left { HasDigits x }
    requires right { HasDigits y }
    ensures numbers { IsTrue result ↔ SameNumber x.entry y.entry }
    ensures texts { IsTrue result ↔ (decimal_text x.entry ≡ decimal_text y.entry) }
{
    same_shape(shortest(x), shortest(y))
}
