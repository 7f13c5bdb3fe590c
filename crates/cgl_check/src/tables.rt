//! How large a knapsack table the steps of a derivation need.

ghost use Rattle.std.specs.Prelude.{◌≡◌, ℕ, [], ◌∷◌, ◌++◌, ◌+◌, ◌≤◌, length, slice_get, Some};
ghost use Rattle.cgl_model.specs.IntegerForm.{forms_of};
ghost use Rattle.cgl_derive.specs.declared.step.Step.{out-Step};
ghost use Rattle.cgl_check.specs.Covered.{CoversLayer, CoversList, CoversSplit};
ghost use Rattle.cgl_check.specs.Room.{HasTable, HasTables, IsLeastTable};
ghost use Rattle.cgl_check.specs.Walk.{AreEntered, HasNarrowGivens, meant_at, split_at, steps_at};

use crate::conditions::{is_wide_next, is_wide_number};
use crate::frames::{Frame, Frames};
use crate::knap::small_capacity;
use crate::path::Branch;
use crate::scope::Scope;
use crate::walk::{branch_of, meant};
use cgl_derive::{Knap, Split, Step};

/// The places that a knapsack step takes.
fn knap_places(scope: &Scope<'_>, frames: &[Frame], at: usize, knap: &Knap) -> usize
    requires { AreEntered scope.now.steps.now frames.now }
    ensures covered { HasTable result (meant_at scope.now frames.now at knap.now.from) }
    ensures least { (places : ℕ) → HasTable places (meant_at scope.now frames.now at knap.now.from) → result ≤ places }
{
    let Some(from) = meant(scope, frames, at, knap.from) else {
        return 0;
    };
    match small_capacity(from) {
        Some(capacity) => capacity + 1,
        None => 0,
    }
}

/// The places that one step takes, with those within it.
#[cycle(tables)]
fn step_places(
    scope: &Scope<'_>,
    frames: &mut Frames,
    depth: usize,
    at: usize,
    step: &Step,
) -> usize
    requires entered { AreEntered scope.now.steps.now frames.old }
    requires depth { depth + length frames.old ≡ 64 }
    requires step { slice_get (steps_at scope.now.steps.now frames.old) at ≡ Some step.now }
    ensures covered { CoversLayer scope.now frames.old depth at result (out-Step step.now) }
    ensures least { (places : ℕ) → CoversLayer scope.now frames.old depth at places (out-Step step.now) → result ≤ places }
    ensures frames { frames.new ≡ frames.old }
{
    match step {
        Step::Lin(_) => 0,
        Step::Round(_) => 0,
        Step::Split(split) => split_places(scope, frames, depth, at, split),
        Step::Knap(knap) => knap_places(scope, frames.as_slice(), at, knap),
    }
}

/// The places that the branches of a split take, where they can be entered.
#[cycle(tables)]
fn split_places(
    scope: &Scope<'_>,
    frames: &mut Frames,
    depth: usize,
    at: usize,
    split: &Split,
) -> usize
    requires entered { AreEntered scope.now.steps.now frames.old }
    requires depth { depth + length frames.old ≡ 64 }
    requires split { split_at (steps_at scope.now.steps.now frames.old) at ≡ Some split.now }
    ensures covered { CoversSplit scope.now frames.old depth at result split.now }
    ensures least { (places : ℕ) → CoversSplit scope.now frames.old depth at places split.now → result ≤ places }
    ensures frames { frames.new ≡ frames.old }
{
    if depth == 0 {
        return 0;
    }
    if is_wide_number(split.p0) {
        return 0;
    }
    if is_wide_next(split.p0) {
        return 0;
    }
    let left = branch_places(scope, frames, depth - 1, at, split, Branch::Left);
    let right = branch_places(scope, frames, depth - 1, at, split, Branch::Right);
    left.max(right)
}

/// The places that a branch of a split takes.
#[cycle(tables)]
fn branch_places(
    scope: &Scope<'_>,
    frames: &mut Frames,
    depth: usize,
    at: usize,
    split: &Split,
    branch: Branch,
) -> usize
    requires entered { AreEntered scope.now.steps.now frames.old }
    requires depth { depth + length frames.old ≡ 63 }
    requires split { split_at (steps_at scope.now.steps.now frames.old) at ≡ Some split.now }
    requires narrow { HasNarrowGivens split.now }
    ensures covered { CoversList scope.now (frames.old ++ record { step = at; branch = branch } ∷ []) depth result }
    ensures least { (places : ℕ) → CoversList scope.now (frames.old ++ record { step = at; branch = branch } ∷ []) depth places → result ≤ places }
    ensures frames { frames.new ≡ frames.old }
{
    let outer = frames.len();
    frames.push(Frame {
        step: at as u64,
        branch,
    });
    let places = list_places(scope, frames, depth, branch_of(split, branch));
    frames.truncate(outer);
    places
}

/// The places that the steps of a list take, behind the splits that were entered; at most `depth` more may be.
#[cycle(tables)]
fn list_places(scope: &Scope<'_>, frames: &mut Frames, depth: usize, steps: &[Step]) -> usize
    requires entered { AreEntered scope.now.steps.now frames.old }
    requires depth { depth + length frames.old ≡ 64 }
    requires steps { steps_at scope.now.steps.now frames.old ≡ steps.now }
    ensures covered { CoversList scope.now frames.old depth result }
    ensures least { (places : ℕ) → CoversList scope.now frames.old depth places → result ≤ places }
    ensures frames { frames.new ≡ frames.old }
{
    let mut places = 0;
    for (at, step) in steps.iter().enumerate() {
        let more = step_places(scope, frames, depth, at, step);
        places = more.max(places);
    }
    places
}

/// The places of the least table that serves each knapsack step of a derivation.
pub fn places(scope: &Scope<'_>) -> usize
    requires { scope.now.forms.now ≡ forms_of scope.now.model.now }
    ensures covered { HasTables scope.now.model.now scope.now.shared.now scope.now.steps.now result }
    ensures least { IsLeastTable scope.now.model.now scope.now.shared.now scope.now.steps.now result }
{
    let mut frames = Frames::new();
    list_places(scope, &mut frames, 64, scope.steps)
}
