ghost use Rattle.std.specs.Prelude.{◌≡◌, ℤ, pos, ◌*ℤ◌, ◌^◌, ◌<◌, ◌≤◌, unsigned_abs, MatchOption};
ghost use Rattle.std.specs.Option.{IfSome};
ghost use Rattle.cgl_num.specs.Decimal.{IsDecimal, places, scaled};
ghost use Rattle.cgl_num.specs.Fraction.{IsLowest};
ghost use Rattle.cgl_model.specs.IntegerForm.{bound_of as bound, row_places};

use crate::Row;
use cgl_num::{Dec, Frac};

/// The magnitude from which a number is too large for an integer form.
pub const WIDE: u128 = 1 << 100;

/// The decimal places of a number.
fn places_of(number: Dec) -> u32
    ensures value { result ≡ places number }
    ensures valid { IsDecimal number }
{
    let e = number.e();
    if e < 0 { e.unsigned_abs() as u32 } else { 0 }
}

/// The most decimal places of a row's numbers.
pub fn places_of_row(entries: &[(u32, Dec)], row: &Row) -> u32
    ensures value { result ≡ row_places entries.now row.now }
    ensures within { result ≤ 30 }
{
    let mut most = places_of(row.rhs);
    if let Some(range) = row.range {
        most = most.max(places_of(range));
    }
    for entry in entries {
        most = most.max(places_of(entry.1));
    }
    most
}

/// The power of ten that the mantissa is multiplied by.
fn power_of_ten(k: u32, number: Dec) -> u32
    requires whole { places number ≤ k }
    requires within { k ≤ 30 }
    ensures power { scaled k number ≡ number.m *ℤ pos (10 ^ result) }
    ensures none { number.m ≡ pos 0 → result ≤ 30 }
{
    let e = number.e();
    if e < 0 {
        k - e.unsigned_abs() as u32
    } else {
        k + e as u32
    }
}

/// 10^k times a number, which is whole; none where its magnitude reaches 2^100.
pub fn scale(k: u32, number: Dec) -> Option<i128>
    requires whole { places number ≤ k }
    requires within { k ≤ 30 }
    ensures value { MatchOption result (2 ^ 100 ≤ unsigned_abs (scaled k number)) (λ z. z ≡ scaled k number) }
    ensures narrow { IfSome result (λ z. unsigned_abs z < 2 ^ 100) }
{
    let power = power_of_ten(k, number);
    let Some(factor) = 10u128.checked_pow(power) else {
        return None;
    };
    let Some(magnitude) = number.m().unsigned_abs().checked_mul(factor) else {
        return None;
    };
    if magnitude >= WIDE {
        return None;
    }
    let magnitude = magnitude as i128;
    Some(if number.m() < 0 {
        -magnitude
    } else {
        magnitude
    })
}

/// A bound as a fraction in lowest terms.
pub fn bound_of(number: Dec) -> Frac
    ensures value { result ≡ bound number }
    ensures lowest { IsLowest result }
{
    let k = places_of(number);
    let power = power_of_ten(k, number);
    let num = number.m() * 10i128.pow(power);
    Frac::new(num, 10i128.pow(k))
}
