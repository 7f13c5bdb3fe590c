//! Values over their least common denominator.

ghost use Rattle.std.specs.Prelude.{◌≡◌, ◌<◌, ◌≤◌, ◌^◌, false, unsigned_abs, IfOk, IfSome};
ghost use Rattle.std.specs.List.{list_any};
ghost use Rattle.cgl_where.specs.PointFile.{common_denominator, is_too_fine, lcm, numerator_over, point_in};
ghost use Rattle.cgl_where.specs.Carried.{grown_denominator, is_wide};
ghost use Rattle.cgl_where.specs.Limits.{ArePositive, fitting_denominator, fitting_numerator};

use cgl_model::{Point, Seq};
use cgl_num::{Frac, Memory, gcd};
use std::alloc::Global;

const MOST_DENOMINATOR: u128 = 4_611_686_018_427_387_904;

const NUMERATOR_END: u128 = 1_267_650_600_228_229_401_496_703_205_376;

/// The least common multiple, unless it is above 2^62.
fn lcm(a: u128, b: u128) -> Option<u128>
    requires a { a < 2 ^ 127 }
    requires b { b < 2 ^ 127 }
    requires positive { 0 < b }
    ensures { result ≡ fitting_denominator (lcm a b) }
{
    match a.checked_mul(b / gcd(a as i128, b as i128).unsigned_abs()) {
        Some(multiple) => {
            if multiple > MOST_DENOMINATOR {
                return None;
            }
            Some(multiple)
        }
        None => None,
    }
}

/// The denominator without its sign.
fn den(f: Frac) -> u128
    ensures value { result ≡ unsigned_abs f.den }
    ensures positive { 0 < result }
    ensures within { result < 2 ^ 127 }
{
    f.den().unsigned_abs()
}

/// The least common denominator, unless it is above 2^62.
fn common_denominator(values: &[Frac]) -> Option<u128>
    requires { ArePositive values.now }
    ensures value { result ≡ fitting_denominator (common_denominator values.now) }
    ensures positive { IfSome result (λ d. 0 < d) }
{
    let mut d: u128 = 1;
    let mut i = values.len();
    'values: while i > 0 {
        i -= 1;
        let Some(next) = lcm(den(values[i]), d) else {
            return None;
        };
        d = next;
    }
    Some(d)
}

/// The numerator over the denominator d, unless it reaches 2^100.
fn numerator_over(d: u128, f: Frac) -> Option<i128>
    requires { d ≤ 2 ^ 62 }
    ensures { result ≡ fitting_numerator (numerator_over d f) }
{
    let factor = (d / den(f)) as i128;
    let Some(number) = f.num().checked_mul(factor) else {
        return None;
    };
    if number.unsigned_abs() >= NUMERATOR_END {
        return None;
    }
    Some(number)
}

fn is_wide(d: u128, f: Frac) -> bool
    requires { d ≤ 2 ^ 62 }
    ensures { result ≡ is_wide d f }
{
    numerator_over(d, f).is_none()
}

/// The common denominator of values and of one value more, unless it is above 2^62 or a numerator over it
/// reaches 2^100. The earlier numerators are looked at again only where the denominator grows.
pub(crate) fn grown_denominator(values: &[Frac], d: u128, f: Frac) -> Option<u128>
    requires positive { 0 < d }
    requires within { d ≤ 2 ^ 62 }
    requires fine { list_any (is_wide d) values.now ≡ false }
    ensures { result ≡ grown_denominator values.now d f }
{
    let Some(next) = lcm(den(f), d) else {
        return None;
    };
    if is_wide(next, f) {
        return None;
    }
    if next != d && values.iter().any(|earlier| is_wide(next, *earlier)) {
        return None;
    }
    Some(next)
}

/// The values over their least common denominator.
pub(crate) fn point_in(alloc: Global, values: &[Frac]) -> Result<Point, Memory>
    requires positive { ArePositive values.now }
    requires within { is_too_fine values.now ≡ false }
    ensures { IfOk result (λ x. x ≡ point_in values.now) }
{
    let Some(d) = common_denominator(values) else {
        unreachable!()
    };
    let mut numerators = Vec::new(alloc);
    for f in values {
        let Some(number) = numerator_over(d, *f) else {
            unreachable!()
        };
        let Ok(()) = numerators.push(number) else {
            return Err(Memory);
        };
    }
    Ok(Point::new(Seq::from_vec(numerators), d as i128))
}
