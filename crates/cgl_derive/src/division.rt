ghost use Rattle.std.specs.Prelude.{◌≡◌, IsTrue, pos, ◌<ℤ◌, IfOk};
ghost use Rattle.cgl_derive.specs.Rounding.{ceiling, divides, divides_all, divisor_of, rounded};

use cgl_model::{Ineq, Terms};
use cgl_num::{Memory, gcd};
use std::alloc::Global;

/// The gcd of the coefficients, which is at least 0; 0 where there are no terms.
pub fn divisor_of(ineq: &Ineq) -> i128
    ensures { result ≡ pos (divisor_of ineq.now.terms) }
{
    let terms = ineq.terms.as_slice();
    let mut divisor = 0;
    for i in (0..terms.len()).rev() {
        divisor = gcd(terms[i].1, divisor);
    }
    divisor
}

/// Whether a divisor above 0 divides the number.
pub fn divides(divisor: i128, number: i128) -> bool
    requires { pos 0 <ℤ divisor }
    ensures { result ≡ divides divisor number }
{
    number % divisor == 0
}

/// Whether a divisor above 0 divides each coefficient.
pub fn divides_all(divisor: i128, terms: &[(u32, i128)]) -> bool
    requires { pos 0 <ℤ divisor }
    ensures { result ≡ divides_all divisor terms.now }
{
    terms.iter().all(|term| divides(divisor, term.1))
}

/// The number over a divisor above 0, rounded up.
pub fn ceiling(number: i128, divisor: i128) -> i128
    requires { pos 0 <ℤ divisor }
    ensures { result ≡ ceiling number divisor }
{
    let quotient = number / divisor;
    if number % divisor > 0 {
        quotient + 1
    } else {
        quotient
    }
}

/// The inequality divided by a number above 0 that divides each coefficient, its right side rounded up.
///
/// # Errors
///
/// `Memory` where memory is refused, and for no other cause.
pub fn rounded(alloc: Global, ineq: &Ineq, divisor: i128) -> Result<Ineq, Memory>
    requires positive { pos 0 <ℤ divisor }
    requires divides { IsTrue (divides_all divisor ineq.now.terms) }
    ensures { IfOk result (λ cut. cut ≡ rounded divisor ineq.now) }
{
    let mut terms = Terms::new(alloc);
    for term in ineq.terms.as_slice() {
        terms.push((term.0, term.1 / divisor))?;
    }
    Ok(Ineq {
        terms,
        rhs: ceiling(ineq.rhs, divisor),
    })
}
