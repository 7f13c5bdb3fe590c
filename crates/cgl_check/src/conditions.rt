ghost use Rattle.std.specs.Prelude.{◌≡◌, ◌↔◌, IsTrue, pos, ◌+ℤ◌};
ghost use Rattle.cgl_check.specs.Tests.{ends_in, is_absurd, is_wide_number};

use crate::walk::claim;
use cgl_derive::Step;
use cgl_model::Ineq;

pub fn is_wide_number(number: i128) -> bool
    ensures { result ≡ is_wide_number number }
{
    number.unsigned_abs() > i128::MAX as u128
}

pub fn is_wide_next(number: i128) -> bool
    ensures { result ≡ is_wide_number (number +ℤ pos 1) }
{
    match number.checked_add(1) {
        Some(next) => is_wide_number(next),
        None => true,
    }
}

fn same_terms(left: &[(u32, i128)], right: &[(u32, i128)]) -> bool
    ensures { IsTrue result ↔ (left.now ≡ right.now) }
{
    left == right
}

fn same(left: &Ineq, right: &Ineq) -> bool
    ensures { IsTrue result ↔ (left.now ≡ right.now) }
{
    left.rhs == right.rhs && same_terms(left.terms.as_slice(), right.terms.as_slice())
}

fn is_absurd(ineq: &Ineq) -> bool
    ensures { result ≡ is_absurd ineq.now }
{
    ineq.terms.as_slice().is_empty() && ineq.rhs > 0
}

/// Whether the last claim is the goal, or absurd.
pub fn ends_in(steps: &[Step], goal: &Ineq) -> bool
    ensures { result ≡ ends_in steps.now goal.now }
{
    match steps.last() {
        Some(last) => {
            let last = claim(last);
            if same(last, goal) {
                return true;
            }
            is_absurd(last)
        }
        None => false,
    }
}
