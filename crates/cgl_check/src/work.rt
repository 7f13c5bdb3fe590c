ghost use Rattle.std.specs.Prelude.{◌≡◌, ◌⊎◌, [], ◌<◌, ◌^◌, length, IfErr, IfOk, OnErr, OnOk, None, Some};
ghost use Rattle.cgl_model.specs.Feasible.{IsFeasible};
ghost use Rattle.cgl_model.specs.Inequality.{Meets};
ghost use Rattle.cgl_model.specs.IntegerForm.{forms_of};
ghost use Rattle.cgl_model.specs.Point.{Point};
ghost use Rattle.cgl_derive.specs.declared.step.Derivation.{out-Derivation};
ghost use Rattle.cgl_derive.specs.Derives.{Derives};
ghost use Rattle.cgl_derive.specs.Soundness.{AreMet};
ghost use Rattle.cgl_check.specs.FirstFailure.{first_failure};
ghost use Rattle.cgl_check.specs.Room.{IsLeastTable, IsRoomFor};
ghost use Rattle.cgl_check.specs.Tests.{AreOverColumns};

use crate::checker::list_failure;
use crate::conditions::ends_in;
use crate::frames::Frames;
use crate::laws::exactness;
use crate::path::{Path, Reject};
use crate::reasons::OTHER_CLAIM;
use crate::scope::Scope;
use crate::space::Space;
use crate::tables::places;
use cgl_derive::{Derivation, Sum};
use cgl_model::{Forms, Ineq, Model};
use cgl_num::Memory;
use std::alloc::Global;

/// What a check works with, so that it takes no memory: a running sum over the columns of a model, the largest knapsack
/// table that the derivation needs, and the splits that were entered.
#[derive(Drop)]
pub struct Work {
    space: Space,
    frames: Frames,
}

impl std::marker::Model for Work {
    ghost use Rattle.cgl_check.specs.Room.{Room};

    ghost Value = { Room };

    ghost view = { λ w. w.space };
}

/// A table of so many places.
fn table(alloc: Global, places: usize) -> Result<Vec<i128>, Memory>
    ensures { IfOk result (λ t. length t.items ≡ places) }
{
    let Ok(mut table) = Vec::with_capacity(alloc, places) else {
        return Err(Memory);
    };
    for _place in 0..places {
        let Ok(()) = table.push(0) else {
            return Err(Memory);
        };
    }
    Ok(table)
}

impl Work {
    /// What a check of derivations without knapsack steps works with.
    ///
    /// # Errors
    ///
    /// `Memory` where memory is refused, and for no other cause.
    pub fn bare(alloc: Global, m: &Model) -> Result<Work, Memory>
        requires { length m.now.cols < 2 ^ 32 }
        ensures { IfOk result (λ w. w ≡ record { columns = length m.now.cols; places = 0 }) }
    {
        let sum = Sum::new(alloc, m.cols.as_slice().len() as u32)?;
        Ok(Work {
            space: Space {
                sum,
                table: Vec::new(alloc),
            },
            frames: Frames::new(),
        })
    }

    /// What a check of this derivation from the model and the shared inequalities works with, and no more.
    ///
    /// # Errors
    ///
    /// `Memory` where memory is refused, and for no other cause.
    pub fn new(
        alloc: Global,
        m: &Model,
        forms: &Forms,
        shared: &[Ineq],
        d: &Derivation,
    ) -> Result<Work, Memory>
        requires columns { length m.now.cols < 2 ^ 32 }
        requires forms { forms.now ≡ forms_of m.now }
        ensures room { IfOk result (λ w. IsRoomFor m.now shared.now (out-Derivation d.now).steps w) }
        ensures least { IfOk result (λ w. IsLeastTable m.now shared.now (out-Derivation d.now).steps w.places) }
    {
        let mut work = Work::bare(alloc, m)?;
        work.fit(alloc, m, forms, shared, d)?;
        Ok(work)
    }

    /// Makes it serve a check of one derivation more: where that needs a larger knapsack table, it gets one of the size.
    ///
    /// # Errors
    ///
    /// `Memory` where memory is refused, and for no other cause; it is then as it was.
    pub fn fit(
        &mut self,
        alloc: Global,
        m: &Model,
        forms: &Forms,
        shared: &[Ineq],
        d: &Derivation,
    ) -> Result<(), Memory>
        requires columns { self.old.columns ≡ length m.now.cols }
        requires forms { forms.now ≡ forms_of m.now }
        ensures room { OnOk result (IsRoomFor m.now shared.now (out-Derivation d.now).steps self.new) }
        ensures least { OnOk result ((self.new.places ≡ self.old.places) ⊎ IsLeastTable m.now shared.now (out-Derivation d.now).steps self.new.places) }
        ensures err { OnErr result (self.new ≡ self.old) }
    {
        let scope = Scope {
            model: m,
            forms,
            shared,
            steps: d.steps.as_slice(),
        };
        let places = places(&scope);
        if places > self.space.table.len() {
            self.space.table = table(alloc, places)?;
        }
        Ok(())
    }
}

/// Whether the derivation proves the cut from the model and the shared inequalities. Takes no memory.
///
/// # Errors
///
/// A `Reject` exactly where it does not: the first failure, going through the steps in order, the left branch of a split
/// before the right.
pub fn check(
    m: &Model,
    forms: &Forms,
    shared: &[Ineq],
    d: &Derivation,
    cut: &Ineq,
    work: &mut Work,
) -> Result<(), Reject>
    requires forms { forms.now ≡ forms_of m.now }
    requires shared { AreOverColumns m.now shared.now }
    requires work { IsRoomFor m.now shared.now (out-Derivation d.now).steps work.old }
    ensures ok { OnOk result (Derives m.now shared.now d.now cut.now) }
    ensures err { IfErr result (λ reject. first_failure m.now shared.now d.now cut.now ≡ Some reject) }
    ensures none { OnOk result (first_failure m.now shared.now d.now cut.now ≡ None) }
    ensures refused { OnErr result (¬ Derives m.now shared.now d.now cut.now) }
    ensures sound { OnOk result ((x : Point) → IsFeasible m.now x → AreMet x shared.now → Meets x cut.now) }
    ensures work { work.new ≡ work.old }
{
    m.has_decimals();
    exactness();
    cgl_derive::soundness();
    let steps = d.steps.as_slice();
    let scope = Scope {
        model: m,
        forms,
        shared,
        steps,
    };
    work.frames.truncate(0);
    let found = list_failure(&scope, &mut work.space, &mut work.frames, 64, steps);
    if let Some(reject) = found {
        return Err(reject);
    }
    if !ends_in(steps, cut) {
        return Err(Reject {
            path: Path::new(),
            why: OTHER_CLAIM,
        });
    }
    Ok(())
}
