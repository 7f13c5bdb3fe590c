ghost use Rattle.std.specs.Prelude.{◌≡◌, pos, ◌+◌, ◌<ℤ◌, ◌<◌, ◌≤◌, ◌^◌, unsigned_abs, ◌++◌, length, take};
ghost use Rattle.std.specs.Fmt.{signed_decimal};
ghost use Rattle.cgl_num.specs.Fraction.{IsLowest, lowest, fraction_text};

use crate::gcd;
use itoa::Buffer;
use std::marker::Model;

/// A fraction in lowest terms, with a denominator above 0; both numbers fit 127 bits.
#[derive(Clone, Copy, Debug, PartialEq, Eq)]
pub struct Frac {
    num: i128,
    den: i128,
}

impl Model for Frac {
    ghost use Rattle.cgl_num.specs.Fraction.{Fraction, IsLowest};

    ghost Value = { Fraction };

    ghost view = { λ f. record { num = f.num; den = f.den } };

    ghost invariant = { λ f. IsLowest (record { num = f.num; den = f.den }) };

    ghost inverse = { λ f. record { num = f.num; den = f.den } };
}

impl Frac {
    /// `num/den` in lowest terms. The denominator is above 0, and the numerator is not the least number.
    pub fn new(num: i128, den: i128) -> Frac
        requires narrow_num { unsigned_abs num < 2 ^ 127 }
        requires positive { pos 0 <ℤ den }
        ensures value { result ≡ lowest num den }
        ensures lowest { IsLowest result }
    {
        let divisor = gcd(num, den);
        Frac {
            num: num / divisor,
            den: den / divisor,
        }
    }

    /// The fraction of two numbers that are in lowest terms.
    pub(crate) fn of_lowest(num: i128, den: i128) -> Frac
        requires lowest { IsLowest (record { num = num; den = den }) }
        ensures value { result ≡ record { num = num; den = den } }
        ensures lowest { IsLowest result }
    {
        Frac { num, den }
    }

    /// The numerator, with the sign of the fraction.
    pub fn num(self) -> i128
        ensures num { result ≡ self.num }
        ensures lowest { IsLowest self }
    {
        self.num
    }

    /// The denominator, above 0.
    pub fn den(self) -> i128
        ensures den { result ≡ self.den }
        ensures lowest { IsLowest self }
    {
        self.den
    }

    /// Writes `num/den`, or `num` alone where the denominator is 1, and returns the length of the text in bytes, at
    /// most 80.
    pub fn digits(self, out: &mut [u8; 80]) -> usize
        ensures within { result ≤ 80 }
        ensures text { take result out.new ≡ fraction_text self }
    {
        let end = put_number(out, 0, self.num);
        if self.den == 1 {
            return end;
        }
        out[end] = b'/';
        put_number(out, end + 1, self.den)
    }
}

/// Writes the digits of n from `start` on, and returns where they end.
fn put_number(out: &mut [u8], start: usize, n: i128) -> usize
    requires room { start + length (signed_decimal n) ≤ length out.old }
    ensures text { take result out.new ≡ take start out.old ++ signed_decimal n }
    ensures end { result ≡ start + length (signed_decimal n) }
    ensures length { length out.new ≡ length out.old }
{
    let mut buffer = Buffer::new();
    let text = buffer.format(n).as_bytes();
    let end = start + text.len();
    out[start..end].copy_from_slice(text);
    end
}
