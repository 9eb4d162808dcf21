//! Decimal numbers: equal ones have the same shortest text.

ghost use Rattle.std.specs.Str.Parse.{AllDigits};
ghost use Rattle.rapidhash.specs.Decimal.{HasDigits};

use rapidhash::decimal::{Decimal, same_decimals, shortest};
use std::test::Fail;

fn of(negative: bool, whole: &'static [u8], part: &'static [u8]) -> Decimal<'static>
    requires whole { AllDigits 10 whole.now }
    requires part { AllDigits 10 part.now }
    ensures { HasDigits result }
{
    Decimal {
        negative,
        whole,
        part,
    }
}

/// Zeros at either end and the sign of 0 do not matter, and all else does.
#[test]
fn equal_numbers_have_one_text(rt: HostRuntime) -> Result<(), Fail> {
    assert!(rt; same_decimals(of(false, b"01", b"50"), of(false, b"1", b"5")));
    assert!(rt; same_decimals(of(true, b"", b"00"), of(false, b"0", b"")));
    assert!(rt; !same_decimals(of(true, b"1", b""), of(false, b"1", b"")));
    assert!(rt; !same_decimals(of(false, b"1", b"5"), of(false, b"15", b"")));
    let price = shortest(of(true, b"0100", b"0500"));
    assert!(rt;
        price.negative && price.whole == b"100".as_slice() && price.part == b"05".as_slice()
    );
    let zero = shortest(of(true, b"00", b"000"));
    assert!(rt; !zero.negative && zero.whole.is_empty() && zero.part.is_empty());
    Ok(())
}
