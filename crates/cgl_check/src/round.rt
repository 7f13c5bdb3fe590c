ghost use lib.IntN.{neg_ℤ};
ghost use Rattle.std.specs.Prelude.{◌≡◌, ◌↔◌, IsTrue, pos, ◌<ℤ◌, unsigned_abs, ◌<◌, ◌^◌, int_div, Some, if◌then◌else◌};
ghost use Rattle.std.specs.List.{list_all};
ghost use Rattle.cgl_model.specs.Rising.{IsRising};
ghost use Rattle.cgl_derive.specs.Rounding.{divides, divides_all, quotients};
ghost use Rattle.cgl_check.specs.FirstFailure.{quotient_failure, round_failure};
ghost use Rattle.cgl_check.specs.LinearIneq.{ineq_of, signed};
ghost use Rattle.cgl_check.specs.Walk.{AreEntered, meant_at};

use crate::form::{Linear, signed};
use crate::frames::Frame;
use crate::reasons::{BAD_DIVISOR, BAD_REF, NOT_INTEGER, OTHER_CLAIM};
use crate::scope::Scope;
use crate::walk::meant;
use cgl_derive::{Round, are_columns, are_integers, ceiling, divides};
use cgl_model::Model;

fn is_divided(negative: bool, number: i128, g: i128) -> bool
    requires narrow { unsigned_abs number < 2 ^ 127 }
    requires positive { pos 0 <ℤ g }
    ensures { result ≡ divides g (signed negative number) }
{
    divides(g, signed(negative, number))
}

fn are_divided(from: Linear, g: i128) -> bool
    requires positive { pos 0 <ℤ g }
    requires rising { IsRising from.terms.now }
    ensures { result ≡ divides_all g (ineq_of from.entry).terms }
{
    for term in from.terms {
        if !is_divided(from.negative, term.1, g) {
            return false;
        }
    }
    true
}

fn is_quotient(negative: bool, part: (u32, i128), g: i128, term: (u32, i128)) -> bool
    requires narrow { unsigned_abs part.1 < 2 ^ 127 }
    requires positive { pos 0 <ℤ g }
    ensures { IsTrue result ↔ ((term.0 ≡ part.0) × (term.1 ≡ int_div (signed negative part.1) g)) }
{
    term.0 == part.0 && signed(negative, part.1) / g == term.1
}

fn are_quotients(from: Linear, g: i128, terms: &[(u32, i128)]) -> bool
    requires positive { pos 0 <ℤ g }
    requires rising { IsRising from.terms.now }
    ensures { IsTrue result ↔ (terms.now ≡ quotients g (ineq_of from.entry).terms) }
{
    if terms.len() != from.terms.len() {
        return false;
    }
    for (i, term) in terms.iter().enumerate() {
        if !is_quotient(from.negative, from.terms[i], g, *term) {
            return false;
        }
    }
    true
}

fn quotient_failure(m: &Model, from: Linear, round: &Round) -> Option<u8>
    requires { IsRising from.terms.now }
    ensures { result ≡ quotient_failure m.now round.now (Some (ineq_of from.entry)) }
{
    if round.g < 1 {
        return Some(BAD_DIVISOR);
    }
    if !are_divided(from, round.g) {
        return Some(BAD_DIVISOR);
    }
    if !are_integers(m, from.terms) {
        return Some(NOT_INTEGER);
    }
    if !are_quotients(from, round.g, round.claim.terms.as_slice()) {
        return Some(OTHER_CLAIM);
    }
    if round.claim.rhs != ceiling(from.rhs, round.g) {
        return Some(OTHER_CLAIM);
    }
    None
}

/// What a rounding step fails by.
pub fn round_failure(scope: &Scope<'_>, frames: &[Frame], own: usize, round: &Round) -> Option<u8>
    requires { AreEntered scope.now.steps.now frames.now }
    ensures { result ≡ round_failure scope.now.model.now (meant_at scope.now frames.now own) round.now }
{
    if !are_columns(scope.model, round.claim.terms.as_slice()) {
        return Some(BAD_REF);
    }
    let Some(from) = meant(scope, frames, own, round.from) else {
        return Some(BAD_REF);
    };
    quotient_failure(scope.model, from, round)
}
