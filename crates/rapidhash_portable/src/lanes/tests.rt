//! Two rows at once leave the same lanes as one after another.

ghost use Rattle.std.specs.Prelude.{◌≤◌};

use super::{fold_row, fold_two_rows, fold_two_rows_by_lane};
use crate::secrets::DEFAULT_RAPID_SECRETS;
use std::process::Abort;

/// Compares the lanes after two rows of `WIDTH` pairs, of the bytes `i mod 251`.
fn two_rows<const WIDTH: usize, const PROTECTED: bool>(rt: &impl Abort)
    requires { WIDTH ≤ 7 }
{
    let (mut start, mut rows) = ([0; WIDTH], [0; 224]);
    for i in 0..WIDTH {
        start[i] = i as u64 + 1;
    }
    for i in 0..224 {
        rows[i] = (i % 251) as u8;
    }
    let secrets = &DEFAULT_RAPID_SECRETS.secrets;
    let (mut one, mut two, mut by_lane) = (start, start, start);
    fold_row::<WIDTH, WIDTH, PROTECTED>(&mut one, &rows, secrets);
    fold_row::<WIDTH, WIDTH, PROTECTED>(&mut one, &rows[16 * WIDTH..], secrets);
    fold_two_rows::<WIDTH, WIDTH, PROTECTED>(&mut two, &rows, secrets);
    fold_two_rows_by_lane::<WIDTH, WIDTH, PROTECTED>(&mut by_lane, &rows, secrets);
    assert!(rt; one != start);
    assert!(rt; two == one);
    assert!(rt; by_lane == one);
}

/// The iteration that V2 and V3 unroll.
#[test]
fn two_rows_of_seven(rt: HostRuntime) {
    two_rows::<7, false>(&rt);
}

/// The iteration that V1 unrolls.
#[test]
fn two_rows_of_three(rt: HostRuntime) {
    two_rows::<3, true>(&rt);
}
