ghost use Rattle.std.specs.Prelude.{◌≡◌, [], ◌∷◌, ◌++◌, ℕ, ◌+◌, ◌<◌, ◌≤◌, length, map, option_map, slice_get, Some, None, IfErr, IfNone, IfOk, OnOk, ◌^◌, nat_lt};
ghost use Rattle.cgl_derive.specs.declared.step.Step.{out-Step};
ghost use Rattle.cgl_derive.specs.declared.step.Split.{out-Split};
ghost use Rattle.cgl_derive.specs.Derives.{AreColumns};
ghost use Rattle.cgl_check.specs.FirstFailure.{branch_failure, failure_within, head_failure, split_failure, step_failure};
ghost use Rattle.cgl_check.specs.Nested.{inner_search};
ghost use Rattle.cgl_check.specs.Places.{at_step};
ghost use Rattle.cgl_check.specs.Room.{IsRoomFor};
ghost use Rattle.cgl_check.specs.Walk.{HasNarrowGivens, IsAt, IsScope, branch_steps, claims_at, entered, given_in, givens_at, prefixed, split_at, steps_at};

use crate::conditions::{ends_in, is_wide_next, is_wide_number};
use crate::frames::{Frame, Frames};
use crate::knap::knap_failure;
use crate::lin::lin_failure;
use crate::path::{Branch, Path, Reject};
use crate::reasons::{BAD_REF, BRANCH_END, NOT_INTEGER, TOO_DEEP, WIDE};
use crate::round::round_failure;
use crate::scope::Scope;
use crate::space::Space;
use crate::walk::branch_of;
use cgl_derive::{Split, Step, are_columns, are_integers};
use cgl_model::Model;

/// A failure behind the splits that were entered.
fn reject(frames: &[Frame], step: u64, branch: Option<Branch>, why: u8) -> Reject
    requires { length frames.now ≤ 64 }
    ensures { result ≡ record { path = map entered frames.now ++ (step, branch) ∷ []; why = why } }
{
    let mut path = Path::new();
    for frame in frames {
        path.push(frame.step, Some(frame.branch));
    }
    path.push(step, branch);
    Reject { path, why }
}

/// The failure of a step itself, behind the splits that were entered.
fn reject_step(frames: &[Frame], step: u64, why: Option<u8>) -> Option<Reject>
    requires { length frames.now ≤ 64 }
    ensures { result ≡ option_map (prefixed frames.now) (at_step step why) }
{
    match why {
        Some(why) => Some(reject(frames, step, None, why)),
        None => None,
    }
}

/// What a split fails by before its branches.
fn head_failure(m: &Model, depth: usize, split: &Split) -> Option<u8>
    ensures { result ≡ head_failure m.now (nat_lt 0 depth) split.now }
{
    if !are_columns(m, split.claim.terms.as_slice()) {
        return Some(BAD_REF);
    }
    if !are_columns(m, split.p.as_slice()) {
        return Some(BAD_REF);
    }
    if depth == 0 {
        return Some(TOO_DEEP);
    }
    if !are_integers(m, split.p.as_slice()) {
        return Some(NOT_INTEGER);
    }
    if is_wide_number(split.p0) {
        return Some(WIDE);
    }
    if is_wide_next(split.p0) {
        return Some(WIDE);
    }
    None
}

/// The first failure of one step, its number and the enclosing splits in front.
#[cycle(check)]
fn step_failure(
    scope: &Scope<'_>,
    space: &mut Space,
    frames: &mut Frames,
    depth: usize,
    at: usize,
    step: &Step,
) -> Option<Reject>
    requires scope { IsScope scope.now }
    requires room { IsRoomFor scope.now.model.now scope.now.shared.now scope.now.steps.now space.old }
    requires at { IsAt scope.now frames.old at }
    requires depth { depth + length frames.old ≡ 64 }
    requires step { slice_get (steps_at scope.now.steps.now frames.old) at ≡ Some step.now }
    ensures failure { result ≡ option_map (prefixed frames.old) (step_failure scope.now.model.now scope.now.shared.now (nat_lt 0 depth) (inner_search scope.now.model.now scope.now.shared.now depth) (givens_at scope.now.steps.now frames.old) (claims_at scope.now.steps.now frames.old at) at (out-Step step.now)) }
    ensures frames { IfNone result (frames.new ≡ frames.old) }
    ensures room { space.new ≡ space.old }
{
    match step {
        Step::Lin(lin) => {
            let why = lin_failure(scope, frames.as_slice(), at, &mut space.sum, lin);
            reject_step(frames.as_slice(), at as u64, why)
        }
        Step::Round(round) => {
            let why = round_failure(scope, frames.as_slice(), at, round);
            reject_step(frames.as_slice(), at as u64, why)
        }
        Step::Split(split) => split_failure(scope, space, frames, depth, at, split),
        Step::Knap(knap) => {
            let why = knap_failure(scope, frames.as_slice(), at, &mut space.table, knap);
            reject_step(frames.as_slice(), at as u64, why)
        }
    }
}

/// The first failure of a branch of a split.
#[cycle(check)]
fn branch_failure(
    scope: &Scope<'_>,
    space: &mut Space,
    frames: &mut Frames,
    depth: usize,
    at: usize,
    split: &Split,
    branch: Branch,
) -> Option<Reject>
    requires scope { IsScope scope.now }
    requires room { IsRoomFor scope.now.model.now scope.now.shared.now scope.now.steps.now space.old }
    requires at { IsAt scope.now frames.old at }
    requires depth { depth + length frames.old ≡ 63 }
    requires split { split_at (steps_at scope.now.steps.now frames.old) at ≡ Some split.now }
    requires narrow { HasNarrowGivens split.now }
    requires given { AreColumns scope.now.model.now (given_in branch split.now).terms }
    ensures failure { result ≡ option_map (prefixed frames.old) (branch_failure (failure_within scope.now.model.now scope.now.shared.now depth) (givens_at scope.now.steps.now frames.old ++ given_in branch split.now ∷ []) (claims_at scope.now.steps.now frames.old at) at branch (branch_steps branch split.now) (out-Split split.now).claim) }
    ensures frames { IfNone result (frames.new ≡ frames.old) }
    ensures room { space.new ≡ space.old }
{
    let outer = frames.len();
    frames.push(Frame {
        step: at as u64,
        branch,
    });
    let steps = branch_of(split, branch);
    let found = list_failure(scope, space, frames, depth, steps);
    if found.is_some() {
        return found;
    }
    frames.truncate(outer);
    if !ends_in(steps, &split.claim) {
        return Some(reject(frames.as_slice(), at as u64, Some(branch), BRANCH_END));
    }
    None
}

/// The first failure of a split.
#[cycle(check)]
fn split_failure(
    scope: &Scope<'_>,
    space: &mut Space,
    frames: &mut Frames,
    depth: usize,
    at: usize,
    split: &Split,
) -> Option<Reject>
    requires scope { IsScope scope.now }
    requires room { IsRoomFor scope.now.model.now scope.now.shared.now scope.now.steps.now space.old }
    requires at { IsAt scope.now frames.old at }
    requires depth { depth + length frames.old ≡ 64 }
    requires split { split_at (steps_at scope.now.steps.now frames.old) at ≡ Some split.now }
    ensures failure { result ≡ option_map (prefixed frames.old) (split_failure scope.now.model.now (nat_lt 0 depth) (inner_search scope.now.model.now scope.now.shared.now depth) (givens_at scope.now.steps.now frames.old) (claims_at scope.now.steps.now frames.old at) at split.now) }
    ensures frames { IfNone result (frames.new ≡ frames.old) }
    ensures room { space.new ≡ space.old }
{
    if let Some(why) = head_failure(scope.model, depth, split) {
        return Some(reject(frames.as_slice(), at as u64, None, why));
    }
    let left = branch_failure(scope, space, frames, depth - 1, at, split, Branch::Left);
    if left.is_some() {
        return left;
    }
    branch_failure(scope, space, frames, depth - 1, at, split, Branch::Right)
}

/// The first failure in a list of steps, behind the splits that were entered; at most `depth` more may be.
#[cycle(check)]
pub fn list_failure(
    scope: &Scope<'_>,
    space: &mut Space,
    frames: &mut Frames,
    depth: usize,
    steps: &[Step],
) -> Option<Reject>
    requires scope { IsScope scope.now }
    requires room { IsRoomFor scope.now.model.now scope.now.shared.now scope.now.steps.now space.old }
    requires at { IsAt scope.now frames.old 0 }
    requires depth { depth + length frames.old ≡ 64 }
    requires steps { steps_at scope.now.steps.now frames.old ≡ steps.now }
    ensures failure { result ≡ option_map (prefixed frames.old) (failure_within scope.now.model.now scope.now.shared.now depth (givens_at scope.now.steps.now frames.old) (claims_at scope.now.steps.now frames.old 0) steps.now) }
    ensures frames { IfNone result (frames.new ≡ frames.old) }
    ensures room { space.new ≡ space.old }
{
    for (at, step) in steps.iter().enumerate() {
        let found = step_failure(scope, space, frames, depth, at, step);
        if found.is_some() {
            return found;
        }
    }
    None
}
