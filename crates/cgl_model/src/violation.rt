ghost use Rattle.std.specs.Prelude.{◌≡◌, ℤ, ◌+ℤ◌, ◌*ℤ◌, ◌+◌, ◌*◌, ◌<◌, ◌≤◌, ◌^◌, unsigned_abs, length, IfOk, OnOk, OnErr};
ghost use Rattle.cgl_model.specs.Inequality.{AreColumnsBelow, magnitudes_at, sum_at, violation, violation_magnitude};

use crate::{Ineq, Point, Wide};
use cgl_num::Frac;

/// A sum of products, and a number that the magnitudes of its products are added to.
#[derive(Clone, Copy)]
struct Products {
    sum: i128,
    magnitude: u128,
}

impl Products {
    /// With one product more; `Wide` where the magnitude reaches 2^127.
    fn add(self, a: i128, b: i128) -> Result<Products, Wide>
        requires within { unsigned_abs self.sum ≤ self.magnitude }
        ensures sum { IfOk result (λ r. r.sum ≡ self.sum +ℤ (a *ℤ b)) }
        ensures magnitude { IfOk result (λ r. r.magnitude ≡ self.magnitude + unsigned_abs a * unsigned_abs b) }
        ensures narrow { IfOk result (λ r. r.magnitude < 2 ^ 127) }
        ensures wide { OnErr result (2 ^ 127 ≤ self.magnitude + unsigned_abs a * unsigned_abs b) }
    {
        let product = a.unsigned_abs().checked_mul(b.unsigned_abs());
        let Some(product) = product else {
            return Err(Wide);
        };
        let Some(magnitude) = self.magnitude.checked_add(product) else {
            return Err(Wide);
        };
        if magnitude > i128::MAX as u128 {
            return Err(Wide);
        }
        Ok(Products {
            sum: self.sum + a * b,
            magnitude,
        })
    }
}

/// The sum of the terms at these numbers, with their magnitudes added to `magnitude`.
fn sum_of(terms: &[(u32, i128)], numbers: &[i128], magnitude: u128) -> Result<Products, Wide>
    requires columns { AreColumnsBelow (length numbers.now) terms.now }
    requires narrow { magnitude < 2 ^ 127 }
    ensures sum { IfOk result (λ r. r.sum ≡ sum_at numbers.now terms.now) }
    ensures magnitude { IfOk result (λ r. r.magnitude ≡ magnitude + magnitudes_at numbers.now terms.now) }
    ensures narrow { IfOk result (λ r. r.magnitude < 2 ^ 127) }
    ensures within { IfOk result (λ r. unsigned_abs r.sum + magnitude ≤ r.magnitude) }
    ensures wide { OnErr result (2 ^ 127 ≤ magnitude + magnitudes_at numbers.now terms.now) }
{
    let mut products = Products { sum: 0, magnitude };
    for term in terms {
        products = products.add(term.1, numbers[term.0 as usize])?;
    }
    Ok(products)
}

impl Ineq {
    /// By how much the point, which has a number for each column of the inequality, violates it: its right side less
    /// its sum at the point, in lowest terms. It is above 0 exactly where the point does not meet the inequality.
    ///
    /// # Errors
    ///
    /// `Wide` exactly where the magnitude of the right side times the denominator, and those of the products of the
    /// coefficients with the numerators, reach 2^127 together.
    pub fn violation(&self, x: &Point) -> Result<Frac, Wide>
        requires columns { AreColumnsBelow (length x.now.p) self.now.terms }
        ensures ok { IfOk result (λ v. v ≡ violation self.now x.now) }
        ensures narrow { OnOk result (violation_magnitude self.now x.now < 2 ^ 127) }
        ensures wide { OnErr result (2 ^ 127 ≤ violation_magnitude self.now x.now) }
    {
        let none = Products {
            sum: 0,
            magnitude: 0,
        };
        let bound = none.add(self.rhs, x.denominator())?;
        let sum = sum_of(self.terms.as_slice(), x.numerators(), bound.magnitude)?;
        Ok(Frac::new(bound.sum - sum.sum, x.denominator()))
    }
}
