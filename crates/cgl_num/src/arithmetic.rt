ghost use Rattle.std.specs.Prelude.{◌≡◌, ◌⊎◌, ℤ, pos, neg_ℤ, ◌+ℤ◌, ◌*ℤ◌, ◌<ℤ◌, ◌<◌, ◌^◌, ◌↔◌, unsigned_abs, int_div, MatchOption, IfOk, IfErr, IsErr};
ghost use Rattle.cgl_num.specs.Gcd.{gcd as greatest};
ghost use Rattle.cgl_num.specs.Fraction.{IsLowest, lowest};
ghost use Rattle.cgl_num.specs.FractionArithmetic.{IsWide, IsWideFraction, SumOverflows, DifferenceOverflows, IsSum, plus, minus, times, over, reciprocal};

use crate::{Frac, gcd};

/// An operation on two fractions: their sum, difference, product or quotient.
#[derive(Clone, Copy, Debug, PartialEq, Eq)]
pub enum Op {
    Add,
    Sub,
    Mul,
    Div,
}

/// A result that does not fit, with the operation and both operands.
#[derive(Clone, Copy, Debug, PartialEq, Eq)]
pub struct Overflow {
    pub op: Op,
    pub a: Frac,
    pub b: Frac,
}

impl Frac {
    /// The exact sum, in lowest terms.
    ///
    /// # Errors
    ///
    /// `Overflow` exactly where a numerator over the least common denominator, their sum or the reduced denominator
    /// reaches 2^127 in magnitude.
    pub fn add(self, o: Frac) -> Result<Frac, Overflow>
        ensures value { IfOk result (λ s. (s ≡ plus self o) × IsLowest s) }
        ensures error { IfErr result (λ e. e ≡ record { op = Op.Add; a = self; b = o }) }
        ensures overflow { IsErr result ↔ SumOverflows self o }
    {
        let Some(sum) = sum(self.num(), self.den(), o.num(), o.den()) else {
            return Err(Overflow {
                op: Op::Add,
                a: self,
                b: o,
            });
        };
        Ok(sum)
    }

    /// The exact difference, in lowest terms.
    ///
    /// # Errors
    ///
    /// `Overflow` exactly where a numerator over the least common denominator, their difference or the reduced
    /// denominator reaches 2^127 in magnitude.
    pub fn sub(self, o: Frac) -> Result<Frac, Overflow>
        ensures value { IfOk result (λ s. (s ≡ minus self o) × IsLowest s) }
        ensures error { IfErr result (λ e. e ≡ record { op = Op.Sub; a = self; b = o }) }
        ensures overflow { IsErr result ↔ DifferenceOverflows self o }
    {
        let opposite = o.opposite();
        let Some(difference) = sum(self.num(), self.den(), opposite.num(), opposite.den()) else {
            return Err(Overflow {
                op: Op::Sub,
                a: self,
                b: o,
            });
        };
        Ok(difference)
    }

    /// The exact product, in lowest terms.
    ///
    /// # Errors
    ///
    /// `Overflow` exactly where its numerator or its denominator reaches 2^127 in magnitude, in lowest terms.
    pub fn mul(self, o: Frac) -> Result<Frac, Overflow>
        ensures value { IfOk result (λ p. (p ≡ times self o) × IsLowest p) }
        ensures error { IfErr result (λ e. e ≡ record { op = Op.Mul; a = self; b = o }) }
        ensures overflow { IsErr result ↔ IsWideFraction (times self o) }
    {
        let Some(product) = product_of(self.num(), self.den(), o.num(), o.den()) else {
            return Err(Overflow {
                op: Op::Mul,
                a: self,
                b: o,
            });
        };
        Ok(product)
    }

    /// The exact quotient by a fraction that is not 0, in lowest terms.
    ///
    /// # Errors
    ///
    /// `Overflow` exactly where its numerator or its denominator reaches 2^127 in magnitude, in lowest terms.
    pub fn div(self, o: Frac) -> Result<Frac, Overflow>
        requires divisor { o.num ≡ pos 0 → ⊥ }
        ensures value { IfOk result (λ q. (q ≡ over self o) × IsLowest q) }
        ensures error { IfErr result (λ e. e ≡ record { op = Op.Div; a = self; b = o }) }
        ensures overflow { IsErr result ↔ IsWideFraction (over self o) }
    {
        let inverse = o.reciprocal();
        let Some(quotient) = product_of(self.num(), self.den(), inverse.num(), inverse.den()) else {
            return Err(Overflow {
                op: Op::Div,
                a: self,
                b: o,
            });
        };
        Ok(quotient)
    }

    /// The fraction with the other sign.
    fn opposite(self) -> Frac
        ensures value { result ≡ record { num = neg_ℤ self.num; den = self.den } }
    {
        Frac::of_lowest(-self.num(), self.den())
    }

    /// 1 by a fraction that is not 0.
    fn reciprocal(self) -> Frac
        requires divisor { self.num ≡ pos 0 → ⊥ }
        ensures value { result ≡ reciprocal self }
    {
        if self.num() > 0 {
            Frac::of_lowest(self.den(), self.num())
        } else {
            Frac::of_lowest(-self.den(), -self.num())
        }
    }
}

/// A quotient without remainder.
fn quotient(a: i128, g: i128) -> i128
    requires above { pos 0 <ℤ g }
    ensures quotient { result ≡ int_div a g }
{
    a / g
}

/// What no numerator and no denominator reaches in magnitude.
const MAGNITUDE_END: u128 = 1 << 127;

/// The number, where its magnitude is below 2^127.
fn narrow(number: i128) -> Option<i128>
    ensures { MatchOption result (IsWide number) (λ z. (z ≡ number) × (unsigned_abs z < 2 ^ 127)) }
{
    if number.unsigned_abs() < MAGNITUDE_END {
        Some(number)
    } else {
        None
    }
}

/// The product, where its magnitude is below 2^127.
fn product(a: i128, b: i128) -> Option<i128>
    ensures { MatchOption result (IsWide (a *ℤ b)) (λ z. (z ≡ a *ℤ b) × (unsigned_abs z < 2 ^ 127)) }
{
    narrow(a.checked_mul(b)?)
}

/// The sum, where its magnitude is below 2^127.
fn total(a: i128, b: i128) -> Option<i128>
    ensures { MatchOption result (IsWide (a +ℤ b)) (λ z. (z ≡ a +ℤ b) × (unsigned_abs z < 2 ^ 127)) }
{
    narrow(a.checked_add(b)?)
}

/// `num/(rest * den)` in lowest terms, where it fits; `rest` shares nothing with `num`.
fn reduced(num: i128, rest: i128, den: i128) -> Option<Frac>
    requires narrow { unsigned_abs num < 2 ^ 127 }
    requires rest { pos 0 <ℤ rest }
    requires den { pos 0 <ℤ den }
    requires apart { greatest (unsigned_abs num) (unsigned_abs rest) ≡ 1 }
    ensures { MatchOption result (IsWide (lowest num (rest *ℤ den)).den) (λ f. (f ≡ lowest num (rest *ℤ den)) × IsLowest f) }
{
    let common = gcd(num, den);
    let Some(den) = product(rest, quotient(den, common)) else {
        return None;
    };
    Some(Frac::of_lowest(quotient(num, common), den))
}

/// The numerator of a sum over the least common denominator: `a*y + c*x`.
fn numerator(a: i128, y: i128, c: i128, x: i128) -> Option<i128>
    ensures { MatchOption result
        (IsWide (a *ℤ y) ⊎ IsWide (c *ℤ x) ⊎ IsWide (a *ℤ y +ℤ c *ℤ x))
        (λ z. (z ≡ a *ℤ y +ℤ c *ℤ x) × (unsigned_abs z < 2 ^ 127) × (unsigned_abs (a *ℤ y) < 2 ^ 127) × (unsigned_abs (c *ℤ x) < 2 ^ 127)) }
{
    let Some(left) = product(a, y) else {
        return None;
    };
    let Some(right) = product(c, x) else {
        return None;
    };
    total(left, right)
}

/// a/b + c/d in lowest terms.
fn sum(a: i128, b: i128, c: i128, d: i128) -> Option<Frac>
    requires left { IsLowest (record { num = a; den = b }) }
    requires right { IsLowest (record { num = c; den = d }) }
    ensures { MatchOption result (SumOverflows (record { num = a; den = b }) (record { num = c; den = d }))
        (IsSum (record { num = a; den = b }) (record { num = c; den = d })) }
{
    let divisor = gcd(b, d);
    let rest = quotient(b, divisor);
    let Some(num) = numerator(a, quotient(d, divisor), c, rest) else {
        return None;
    };
    reduced(num, rest, d)
}

/// (a*c)/(b*d) in lowest terms, each factor by what it shares with the other fraction.
fn product_of(a: i128, b: i128, c: i128, d: i128) -> Option<Frac>
    requires left { IsLowest (record { num = a; den = b }) }
    requires right { IsLowest (record { num = c; den = d }) }
    ensures { MatchOption result (IsWideFraction (lowest (a *ℤ c) (b *ℤ d))) (λ p. (p ≡ lowest (a *ℤ c) (b *ℤ d)) × IsLowest p) }
{
    let left = gcd(a, d);
    let right = gcd(c, b);
    let Some(num) = product(quotient(a, left), quotient(c, right)) else {
        return None;
    };
    let Some(den) = product(quotient(b, right), quotient(d, left)) else {
        return None;
    };
    Some(Frac::of_lowest(num, den))
}
