ghost use lib.IntN.{neg_ℤ};
ghost use Rattle.std.specs.Prelude.{◌≡◌, ◌^◌, ◌<◌, unsigned_abs, if◌then◌else◌};
ghost use Rattle.cgl_model.specs.Rising.{IsRising};
ghost use Rattle.cgl_check.specs.LinearIneq.{ineq_of, signed};
ghost use Rattle.cgl_check.specs.Walk.{HasNarrowGivens, given_in};

use crate::path::Branch;
use cgl_derive::Split;
use cgl_model::Ineq;

/// An inequality by its terms, negated where `negative` says so, and its right side.
#[derive(Clone, Copy)]
pub struct Linear<'a> {
    pub terms: &'a [(u32, i128)],
    pub negative: bool,
    pub rhs: i128,
}

pub fn linear_of(ineq: &Ineq) -> Linear<'_>
    ensures value { ineq_of result ≡ ineq.now }
    ensures rising { IsRising result.terms.now }
{
    Linear {
        terms: ineq.terms.as_slice(),
        negative: false,
        rhs: ineq.rhs,
    }
}

/// What is assumed in a branch of a split.
pub fn given(split: &Split, branch: Branch) -> Linear<'_>
    requires { HasNarrowGivens split.now }
    ensures value { ineq_of result ≡ given_in branch split.now }
    ensures rising { IsRising result.terms.now }
{
    match branch {
        Branch::Left => Linear {
            terms: split.p.as_slice(),
            negative: true,
            rhs: -split.p0,
        },
        Branch::Right => Linear {
            terms: split.p.as_slice(),
            negative: false,
            rhs: split.p0 + 1,
        },
    }
}

/// The number with the sign of an inequality's terms.
pub fn signed(negative: bool, number: i128) -> i128
    requires { unsigned_abs number < 2 ^ 127 }
    ensures { result ≡ signed negative number }
{
    if negative { -number } else { number }
}
