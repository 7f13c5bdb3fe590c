//! Laws of first failures.

ghost use Rattle.std.specs.Prelude.{◌≡◌, ◌↔◌, ℕ, ℤ, pos, ◌≤ℤ◌, None, List};
ghost use Rattle.std.specs.List.{AllByRecursion};
ghost use Rattle.cgl_knap.specs.Greatest.{IsGreatest};
ghost use Rattle.cgl_model.specs.declared.linear.Ineq.{Ineq};
ghost use Rattle.cgl_model.specs.declared.mip.Model.{Model};
ghost use Rattle.cgl_model.specs.Feasible.{IsFeasible};
ghost use Rattle.cgl_model.specs.HasDecimals.{HasDecimals};
ghost use Rattle.cgl_model.specs.Inequality.{Meets};
ghost use Rattle.cgl_model.specs.Point.{Point};
ghost use Rattle.cgl_model.specs.Rising.{IsRising};
ghost use Rattle.cgl_derive.specs.declared.book.Book.{Book};
ghost use Rattle.cgl_derive.specs.declared.step.Derivation.{Derivation};
ghost use Rattle.cgl_derive.specs.Books.{BookIsRight, inequalities};
ghost use Rattle.cgl_derive.specs.Binary.{HoldsAtBits};
ghost use Rattle.cgl_derive.specs.Derives.{AreColumns, Derives, coefficient};
ghost use Rattle.cgl_derive.specs.Knapsack.{IsSameSign, capacity};
ghost use Rattle.cgl_derive.specs.Soundness.{AreMet};
ghost use Rattle.cgl_check.specs.Accepted.{IsAccepted};
ghost use Rattle.cgl_check.specs.FirstFailure.{first_failure};
ghost use Rattle.cgl_check.specs.Knapsacks.{leftover, values_of, weights_of};
ghost use Rattle.cgl_check.specs.Tests.{AreOverColumns};

use cgl_derive::{books, coefficient_laws, knapsacks};
use cgl_knap::greatest_values;

/// A derivation has no failure exactly where it proves the cut, from shared inequalities over columns of the model. A
/// book has no refusal exactly where it is right.
pub fn exactness()
    ensures derivation { (m : Model) (shared : List Ineq) (d : Derivation) (cut : Ineq) → AreOverColumns m shared
        → (first_failure m shared d cut ≡ None) ↔ Derives m shared d cut }
    ensures book { (m : Model) (book : Book) → IsAccepted m book ↔ BookIsRight m book }
{
    coefficient_laws();
    knapsacks();
}

/// A derivation without a failure is sound: each feasible point of the model that meets the shared inequalities meets the
/// cut.
pub fn soundness()
    ensures { (m : Model) (shared : List Ineq) (d : Derivation) (cut : Ineq) (x : Point) → HasDecimals m → AreOverColumns m shared
        → first_failure m shared d cut ≡ None → IsFeasible m x → AreMet x shared → Meets x cut }
{
    exactness();
    cgl_derive::soundness();
}

/// A book without a refusal is sound: each feasible point of the model meets all that it shares, and all its cuts.
pub fn book_soundness()
    ensures { (m : Model) (book : Book) (x : Point) → HasDecimals m → IsAccepted m book → IsFeasible m x
        → AreMet x (inequalities book.shared) × AreMet x (inequalities book.cuts) }
{
    exactness();
    books();
}

/// The last condition of a knapsack step is told by the greatest value of the literals within the capacity: it is at most
/// what they may count for.
pub fn knapsack_values()
    ensures { (m : Model) (from claim : Ineq) (cap : ℕ) (best : ℤ) → IsRising from.terms → AreColumns m from.terms
        → AllByRecursion (λ t. IsSameSign (coefficient t.0 from.terms) t.1) claim.terms → capacity from ≡ pos cap
        → IsGreatest (weights_of from) (values_of from claim) cap best → HoldsAtBits m from claim ↔ (best ≤ℤ leftover from claim) }
{
    knapsacks();
    greatest_values();
}
