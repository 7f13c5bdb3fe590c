ghost use Rattle.std.specs.Prelude.{◌≡◌, [], slice_get, option_map, IfSome, None, Some};
ghost use Rattle.std.specs.Option.{option_copied};
ghost use Rattle.cgl_model.specs.Rising.{IsRising};
ghost use Rattle.cgl_derive.specs.Derives.{claim_of};
ghost use Rattle.cgl_derive.specs.Meaning.{side_at};
ghost use Rattle.cgl_check.specs.LinearIneq.{ineq_of};
ghost use Rattle.cgl_check.specs.Walk.{AreEntered, branch_steps, claims_at, givens_at, meant_at, split_at};

use crate::form::{Linear, given, linear_of};
use crate::frames::Frame;
use crate::path::Branch;
use crate::scope::Scope;
use cgl_derive::{Ref, Split, Step};
use cgl_model::{Forms, Ineq, Place};
use sqlite_items::at;

pub fn claim(step: &Step) -> &Ineq
    ensures { result.now ≡ claim_of step.now }
{
    match step {
        Step::Lin(lin) => &lin.claim,
        Step::Round(round) => &round.claim,
        Step::Split(split) => &split.claim,
        Step::Knap(knap) => &knap.claim,
    }
}

/// The split that is this step.
fn split_of(steps: &[Step], step: usize) -> Option<&Split>
    ensures { option_copied result ≡ split_at steps.now step }
{
    match steps.get(step) {
        Some(Step::Split(split)) => Some(split),
        _ => None,
    }
}

/// The steps of a branch.
pub fn branch_of(split: &Split, branch: Branch) -> &[Step]
    ensures { result.now ≡ branch_steps branch split.now }
{
    match branch {
        Branch::Left => split.left.steps.as_slice(),
        Branch::Right => split.right.steps.as_slice(),
    }
}

/// The claim of a step, where the list has it and it stands before `own`.
fn own_claim(steps: &[Step], own: usize, number: usize) -> Option<&Ineq>
    ensures { option_copied result ≡ slice_get (claims_at steps.now [] own) number }
{
    if number < own {
        return Some(claim(steps.get(number)?));
    }
    None
}

/// The visible claim with this number: first those of the enclosing lists, outermost first, that stand before the
/// splits that were entered, and then those of the first `own` steps of the list itself.
fn claim_at<'a>(steps: &'a [Step], frames: &[Frame], own: usize, number: usize) -> Option<&'a Ineq>
    requires { AreEntered steps.now frames.now }
    ensures { option_copied result ≡ slice_get (claims_at steps.now frames.now own) number }
{
    match frames {
        [] => own_claim(steps, own, number),
        [frame, frames @ ..] => {
            let before = frame.step as usize;
            if number < before {
                return own_claim(steps, before, number);
            }
            let Some(split) = split_of(steps, before) else {
                return None;
            };
            claim_at(branch_of(split, frame.branch), frames, own, number - before)
        }
    }
}

/// The assumption with this number, outermost first.
fn given_at<'a>(steps: &'a [Step], frames: &[Frame], number: usize) -> Option<Linear<'a>>
    requires { AreEntered steps.now frames.now }
    ensures value { option_map ineq_of result ≡ slice_get (givens_at steps.now frames.now) number }
    ensures rising { IfSome result (λ f. IsRising f.terms.now) }
{
    match frames {
        [] => None,
        [frame, frames @ ..] => {
            let Some(split) = split_of(steps, frame.step as usize) else {
                return None;
            };
            if number == 0 {
                return Some(given(split, frame.branch));
            }
            given_at(branch_of(split, frame.branch), frames, number - 1)
        }
    }
}

fn side_form(forms: &Forms, place: Place) -> Option<Linear<'_>>
    ensures value { option_map ineq_of result ≡ side_at forms.now.sides place }
    ensures rising { IfSome result (λ f. IsRising f.terms.now) }
{
    let Some(number) = forms.find(place) else {
        return None;
    };
    let Some(side) = at(forms.sides(), number as usize) else {
        return None;
    };
    Some(linear_of(&side.ineq))
}

fn claim_form<'a>(
    steps: &'a [Step],
    frames: &[Frame],
    own: usize,
    number: usize,
) -> Option<Linear<'a>>
    requires { AreEntered steps.now frames.now }
    ensures value { option_map ineq_of result ≡ slice_get (claims_at steps.now frames.now own) number }
    ensures rising { IfSome result (λ f. IsRising f.terms.now) }
{
    let Some(claim) = claim_at(steps, frames, own, number) else {
        return None;
    };
    Some(linear_of(claim))
}

fn shared_form(shared: &[Ineq], number: usize) -> Option<Linear<'_>>
    ensures value { option_map ineq_of result ≡ slice_get shared.now number }
    ensures rising { IfSome result (λ f. IsRising f.terms.now) }
{
    let Some(ineq) = at(shared, number) else {
        return None;
    };
    Some(linear_of(ineq))
}

/// The inequality that a reference means, at a step behind `own` steps of the list that the frames lead to.
pub fn meant<'a>(
    scope: &Scope<'a>,
    frames: &[Frame],
    own: usize,
    reference: Ref,
) -> Option<Linear<'a>>
    requires { AreEntered scope.now.steps.now frames.now }
    ensures value { option_map ineq_of result ≡ meant_at scope.now frames.now own reference }
    ensures rising { IfSome result (λ f. IsRising f.terms.now) }
{
    match reference {
        Ref::Side(place) => side_form(scope.forms, place),
        Ref::Step(at) => claim_form(scope.steps, frames, own, at as usize),
        Ref::Given(at) => given_at(scope.steps, frames, at as usize),
        Ref::Shared(at) => shared_form(scope.shared, at as usize),
    }
}
