//! The values in a point file.

ghost use Rattle.std.specs.Prelude.{◌≡◌, ◌<◌, ◌^◌, length, unsigned_abs};
ghost use Rattle.std.specs.List.{position_or_len};
ghost use Rattle.cgl_num.specs.NumberText.{signed, unsigned};
ghost use Rattle.cgl_where.specs.Limits.{fitting_natural};
ghost use Rattle.cgl_where.specs.PointValue.{fraction_of, is_slash, quotient, value};

use cgl_num::{Dec, Frac};

const NATURAL_END: u128 = 1_000_000_000_000_000_000_000_000_000_000_000_000;

/// The number of one digit or more, where it is below 10^36.
fn natural(text: &[u8]) -> Option<u128>
    ensures { result ≡ fitting_natural text.now }
{
    if text.is_empty() {
        return None;
    }
    let mut number = 0u128;
    'digits: for b in text {
        if !b.is_ascii_digit() {
            return None;
        }
        number = 10 * number + (*b - b'0') as u128;
        if number >= NATURAL_END {
            return None;
        }
    }
    Some(number)
}

/// What follows an optional sign.
fn unsigned(text: &[u8]) -> &[u8]
    ensures { result.now ≡ unsigned text.now }
{
    match text {
        [b'+' | b'-', rest @ ..] => rest,
        _ => text,
    }
}

/// The magnitude with the sign that the text begins with.
fn signed(text: &[u8], magnitude: u128) -> i128
    requires { magnitude < 10 ^ 36 }
    ensures value { result ≡ signed text.now magnitude }
    ensures within { unsigned_abs result < 10 ^ 36 }
{
    let number = magnitude as i128;
    if matches!(text, [b'-', ..]) {
        -number
    } else {
        number
    }
}

/// A sign, digits, a slash at this place and digits.
fn quotient(text: &[u8], slash: usize) -> Option<Frac>
    requires place { slash ≡ position_or_len is_slash text.now }
    requires within { slash < length text.now }
    ensures { result ≡ quotient text.now }
{
    let numerator = &text[..slash];
    let Some(num) = natural(unsigned(numerator)) else {
        return None;
    };
    let Some(den) = natural(&text[slash + 1..]) else {
        return None;
    };
    if den == 0 {
        return None;
    }
    Some(Frac::new(signed(numerator, num), den as i128))
}

/// A decimal as a fraction in lowest terms.
fn fraction_of(d: Dec) -> Frac
    ensures { result ≡ fraction_of d }
{
    let e = d.e();
    if e < 0 {
        Frac::new(d.m(), 10i128.pow(e.unsigned_abs() as u32))
    } else {
        Frac::new(d.m() * 10i128.pow(e as u32), 1)
    }
}

/// The value that the text means: a number within the limits, or `p/q`.
pub(crate) fn value(text: &[u8]) -> Option<Frac>
    ensures { result ≡ value text.now }
{
    if let Some(slash) = text.iter().position(|b| *b == b'/') {
        return quotient(text, slash);
    }
    match Dec::read(text) {
        Ok(d) => Some(fraction_of(d)),
        Err(_) => None,
    }
}
