ghost use Rattle.std.specs.Prelude.{◌≡◌, ℤ, pos, ◌*◌, ◌<◌, ◌≤ℤ◌, ◌<ℤ◌};
ghost use Rattle.std.specs.Ordering.{nat_cmp};
ghost use Rattle.cgl_num.specs.Fraction.{IsLowest};
ghost use Rattle.cgl_num.specs.FractionArithmetic.{IsFloor, less_whole, fraction_cmp};

use crate::Frac;
use std::cmp::Ordering;

impl Frac {
    /// The order of the rational numbers, as `cmp`, stated by the cross products.
    pub fn compare(self, o: Frac) -> Ordering
        ensures order { result ≡ fraction_cmp self o }
        ensures left { IsLowest self }
        ensures right { IsLowest o }
    {
        let left = self.num();
        let right = o.num();
        let left_den = self.den().unsigned_abs();
        let right_den = o.den().unsigned_abs();
        match (left < 0, right < 0) {
            (false, false) => compare_ratios(
                left.unsigned_abs(),
                left_den,
                right.unsigned_abs(),
                right_den,
            ),
            (true, true) => compare_ratios(
                right.unsigned_abs(),
                right_den,
                left.unsigned_abs(),
                left_den,
            ),
            (true, false) => Ordering::Less,
            (false, true) => Ordering::Greater,
        }
    }

    /// The greatest whole number that is not above the fraction.
    pub fn floor(self) -> i128
        ensures { IsFloor self result }
    {
        self.num().div_euclid(self.den())
    }

    /// What is above the floor: at least 0 and below 1.
    pub fn fract(self) -> Frac
        ensures value { (n : ℤ) → IsFloor self n → result ≡ less_whole self n }
        ensures lowest { IsLowest result }
        ensures below { result.num <ℤ result.den }
        ensures above { pos 0 ≤ℤ result.num }
    {
        Frac::of_lowest(self.num().rem_euclid(self.den()), self.den())
    }
}

impl Ord for Frac {
    ghost use Rattle.std.specs.Prelude.{refl};
    ghost use Rattle.cgl_num.specs.FractionArithmetic.{fraction_order};
    ghost use Rattle.cgl_num.specs.FractionOrder.{order_total, order_eq};

    ghost cmp = { fraction_order };

    ghost total = { order_total };

    ghost matches_partial_cmp = { λ x y. refl };

    ghost matches_eq = { order_eq };

    fn cmp(&self, other: &Frac) -> Ordering {
        self.compare(*other)
    }
}

impl PartialOrd for Frac {
    ghost use Rattle.std.specs.Prelude.{refl};
    ghost use Rattle.std.specs.Cmp.{partial_order_from_agreeing_total};
    ghost use Rattle.std.specs.Ordering.{as_partial_cmp};
    ghost use Rattle.cgl_num.specs.FractionArithmetic.{fraction_order};
    ghost use Rattle.cgl_num.specs.FractionOrder.{order_total, order_eq};

    ghost partial_cmp = { as_partial_cmp fraction_order };

    ghost laws = { partial_order_from_agreeing_total fraction_order order_total (λ x y. refl) order_eq };

    fn partial_cmp(&self, other: &Frac) -> Option<Ordering> {
        Some(self.cmp(other))
    }
}

/// Compares a/b with c/d by Euclid's steps, so that no product is made.
fn compare_ratios(a: u128, b: u128, c: u128, d: u128) -> Ordering
    requires left { 0 < b }
    requires right { 0 < d }
    ensures { result ≡ nat_cmp (a * d) (c * b) }
{
    let left = a / b;
    let right = c / d;
    if left != right {
        return left.cmp(&right);
    }
    let left_rest = a % b;
    let right_rest = c % d;
    if left_rest == 0 || right_rest == 0 {
        return left_rest.cmp(&right_rest);
    }
    compare_ratios(d, right_rest, b, left_rest)
}
