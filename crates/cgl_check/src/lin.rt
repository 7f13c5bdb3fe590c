ghost use lib.IntN.{neg_ℤ};
ghost use Rattle.std.specs.Prelude.{◌≡◌, ◌≤ℤ◌, length, pos, int_lt, is_none, OnOk, OnErr, true, false};
ghost use Rattle.std.specs.List.{list_any};
ghost use Rattle.cgl_model.specs.Inequality.{AreColumnsBelow};
ghost use Rattle.cgl_model.specs.Rising.{IsRising};
ghost use Rattle.cgl_derive.specs.Totals.{IsSumOf, is_wide_side, plus_side};
ghost use Rattle.cgl_check.specs.FirstFailure.{lin_failure};
ghost use Rattle.cgl_check.specs.LinearIneq.{ineq_of};
ghost use Rattle.cgl_check.specs.Tests.{are_narrow_sums};
ghost use Rattle.cgl_check.specs.Walk.{AreEntered, IsAt, IsScope, meant_at, parts_in};

use crate::form::Linear;
use crate::frames::Frame;
use crate::reasons::{BAD_REF, BAD_SUM, WIDE};
use crate::scope::Scope;
use crate::walk::meant;
use cgl_derive::{Lin, Ref, Sum, are_columns, coefficient_laws, weighted_sums};
use cgl_model::Wide;

/// The multiplier of terms that are told negated.
fn negative_of(by: i128) -> i128
    requires { pos 0 ≤ℤ by }
    ensures { result ≡ neg_ℤ by }
{
    -by
}

/// Adds a multiple of an inequality.
fn add(sum: &mut Sum, from: Linear, by: i128) -> Result<(), Wide>
    requires by { pos 0 ≤ℤ by }
    requires columns { AreColumnsBelow (length sum.old.columns) from.terms.now }
    requires rising { IsRising from.terms.now }
    ensures ok { OnOk result (sum.new ≡ plus_side by (ineq_of from.entry) sum.old) }
    ensures err { OnErr result (sum.new ≡ sum.old) }
    ensures narrow { OnOk result (is_wide_side by (ineq_of from.entry) sum.old ≡ false) }
    ensures wide { OnErr result (is_wide_side by (ineq_of from.entry) sum.old ≡ true) }
{
    coefficient_laws();
    if from.negative {
        let Ok(()) = sum.add_form(from.terms, negative_of(by), from.rhs, by) else {
            return Err(Wide);
        };
        return Ok(());
    }
    sum.add_form(from.terms, by, from.rhs, by)
}

/// Whether a multiplier is below 0.
fn has_negative(refs: &[(Ref, i128)]) -> bool
    ensures { result ≡ list_any (λ r. int_lt r.1 (pos 0)) refs.now }
{
    refs.iter().any(|part| part.1 < 0)
}

/// Whether a reference means nothing.
fn has_missing(scope: &Scope<'_>, frames: &[Frame], own: usize, refs: &[(Ref, i128)]) -> bool
    requires { AreEntered scope.now.steps.now frames.now }
    ensures { result ≡ list_any (λ r. is_none (meant_at scope.now frames.now own r.0)) refs.now }
{
    for part in refs {
        let Some(_) = meant(scope, frames, own, part.0) else {
            return true;
        };
    }
    false
}

/// The weighted sum of what the references mean. `Wide` where one means nothing, or else the sum is too wide.
fn add_all(
    scope: &Scope<'_>,
    frames: &[Frame],
    own: usize,
    sum: &mut Sum,
    refs: &[(Ref, i128)],
) -> Result<(), Wide>
    requires scope { IsScope scope.now }
    requires at { IsAt scope.now frames.now own }
    requires size { length sum.old.columns ≡ length scope.now.model.now.cols }
    requires none { list_any (λ r. int_lt r.1 (pos 0)) refs.now ≡ false }
    ensures some { OnOk result (list_any (λ r. is_none (meant_at scope.now frames.now own r.0)) refs.now ≡ false) }
    ensures size { length sum.new.columns ≡ length scope.now.model.now.cols }
    ensures sum { OnOk result (IsSumOf (parts_in (meant_at scope.now frames.now own) refs.now) sum.new) }
    ensures narrow { OnOk result (are_narrow_sums scope.now.model.now (parts_in (meant_at scope.now frames.now own) refs.now) ≡ true) }
    ensures wide { OnErr result (list_any (λ r. is_none (meant_at scope.now frames.now own r.0)) refs.now ≡ false
        → are_narrow_sums scope.now.model.now (parts_in (meant_at scope.now frames.now own) refs.now) ≡ false) }
{
    weighted_sums();
    coefficient_laws();
    sum.clear();
    for part in refs {
        let Some(from) = meant(scope, frames, own, part.0) else {
            return Err(Wide);
        };
        let Ok(()) = add(sum, from, part.1) else {
            return Err(Wide);
        };
    }
    Ok(())
}

/// What a weighted sum fails by.
pub fn lin_failure(
    scope: &Scope<'_>,
    frames: &[Frame],
    own: usize,
    sum: &mut Sum,
    lin: &Lin,
) -> Option<u8>
    requires scope { IsScope scope.now }
    requires at { IsAt scope.now frames.now own }
    requires size { length sum.old.columns ≡ length scope.now.model.now.cols }
    ensures failure { result ≡ lin_failure scope.now.model.now (meant_at scope.now frames.now own) lin.now }
    ensures size { length sum.new.columns ≡ length scope.now.model.now.cols }
{
    if !are_columns(scope.model, lin.claim.terms.as_slice()) {
        return Some(BAD_REF);
    }
    let refs = lin.refs.as_slice();
    if has_negative(refs) {
        return Some(BAD_SUM);
    }
    if lin.q < 1 {
        return Some(BAD_SUM);
    }
    coefficient_laws();
    let Ok(()) = add_all(scope, frames, own, sum, refs) else {
        // a reference to nothing comes before any sum, and most sums have none
        if has_missing(scope, frames, own, refs) {
            return Some(BAD_REF);
        }
        return Some(WIDE);
    };
    match sum.proves(lin.q, &lin.claim) {
        Err(_) => Some(WIDE),
        Ok(true) => None,
        Ok(false) => Some(BAD_SUM),
    }
}
