//! Laws of derivations.

ghost use lib.IntN.{neg_ℤ};
ghost use Rattle.std.specs.Prelude.{◌≡◌, ◌≢◌, ◌⊎◌, ◌↔◌, ◌<◌, ℕ, ℤ, List, [], ◌∷◌, ◌++◌, length, pos, ◌<ℤ◌, ◌≤ℤ◌, ◌*ℤ◌, ◌-ℤ◌, ◌+ℤ◌, ◌≤◌, IsTrue, false, slice_index_or};
ghost use Rattle.std.specs.Int.{◌∣◌};
ghost use Rattle.std.specs.List.{AllByRecursion};
ghost use Rattle.cgl_model.specs.declared.linear.Ineq.{Ineq};
ghost use Rattle.cgl_model.specs.declared.mip.Model.{Model};
ghost use Rattle.cgl_model.specs.Feasible.{IsFeasible, IsPoint};
ghost use Rattle.cgl_model.specs.HasDecimals.{HasDecimals};
ghost use Rattle.cgl_model.specs.Inequality.{AreColumnsBelow, Meets, Term};
ghost use Rattle.cgl_model.specs.IntegerForm.{negated};
ghost use Rattle.cgl_model.specs.Point.{Point};
ghost use Rattle.cgl_model.specs.Rising.{IsRising};
ghost use Rattle.cgl_derive.specs.declared.book.Book.{Book};
ghost use Rattle.cgl_derive.specs.declared.step.Derivation.{Derivation, out-Derivation};
ghost use Rattle.cgl_derive.specs.declared.step.Split.{Split, out-Split};
ghost use Rattle.cgl_derive.specs.declared.step.Step.{Step};
ghost use Rattle.cgl_derive.specs.Binary.{HoldsAtBits, holds_at_bits};
ghost use Rattle.cgl_derive.specs.Books.{BookIsRight, inequalities};
ghost use Rattle.cgl_derive.specs.Derives.{AreColumns, AreIntegers, Derives, DerivesWithin, EndsIn, KnapIsRight, LastIs, Layer, LinIsRight, Part, RoundIsRight, SplitIsRight, above, below, coefficient};
ghost use Rattle.cgl_derive.specs.Knapsack.{IsSameSign};
ghost use Rattle.cgl_derive.specs.KnapsackLists.{HoldsAtLists, HoldsAtLiterals};
ghost use Rattle.cgl_derive.specs.Layers.{AreLayersRight, LayersEndIn, ProvesInside, derivation, rolled};
ghost use Rattle.cgl_derive.specs.Rounding.{ceiling, divides, divides_all, divisor_of, rounded};
ghost use Rattle.cgl_derive.specs.Soundness.{AreMet, ArePartsMet, IsSoundAt};
ghost use Rattle.cgl_derive.specs.Totals.{AreNarrow, IsSumOf, ProvesClaim, Totals, is_wide_claim, is_wide_side, no_totals, plus_side};

use cgl_model::sides_meaning;

/// What a right step claims holds where what it starts from does; for rounding steps see `rounding`, and for knapsack
/// steps `knapsacks`. One of the two assumptions of a split holds at each feasible point, so that the claim holds where
/// the lists of the branches are sound.
pub fn steps()
    ensures lin { (m : Model) (parts : List Part) (q : ℤ) (claim : Ineq) (x : Point) → LinIsRight m parts q claim → IsPoint m x
        → ArePartsMet x parts → Meets x claim }
    ensures cases { (m : Model) (p : List Term) (p0 : ℤ) (x : Point) → AreIntegers m p → IsFeasible m x → Meets x (below p p0) ⊎ Meets x (above p p0) }
    ensures split { (m : Model) (shared givens claims : List Ineq) (n : ℕ) (s : Split) (x : Point)
        → SplitIsRight m (DerivesWithin m shared n) givens claims s → IsSoundAt x (DerivesWithin m shared n)
        → IsFeasible m x → AreMet x givens → AreMet x claims → Meets x (out-Split s).claim }
{}

/// What a list of steps proves, told by the first level of each step; that a last claim that is the goal is an end in
/// the goal; and that then it has columns of the model alone.
pub fn lists()
    ensures derivation { (m : Model) (shared : List Ineq) (layers : List Layer) (goal : Ineq) → Derives m shared (derivation layers) goal
        ↔ (AreLayersRight m shared (ProvesInside m shared 64) [] [] layers × LayersEndIn layers goal) }
    ensures within { (m : Model) (shared givens claims : List Ineq) (n : ℕ) (layers : List Layer) (goal : Ineq)
        → DerivesWithin m shared n givens claims (rolled layers) goal
        ↔ (AreLayersRight m shared (ProvesInside m shared n) givens claims layers × LayersEndIn layers goal) }
    ensures last { (steps : List Step) (goal : Ineq) → LastIs steps goal → EndsIn steps goal }
    ensures columns { (m : Model) (shared : List Ineq) (d : Derivation) (goal : Ineq) → Derives m shared d goal
        → LastIs (out-Derivation d).steps goal → AreColumns m goal.terms }
{}

/// What a derivation proves holds at each feasible point of the model that meets the shared inequalities; and what a
/// list of steps within one proves, at each that meets the givens and the visible claims too.
pub fn soundness()
    ensures within { (m : Model) (shared : List Ineq) (n : ℕ) (x : Point) → HasDecimals m → IsFeasible m x → AreMet x shared
        → IsSoundAt x (DerivesWithin m shared n) }
    ensures derivation { (m : Model) (shared : List Ineq) (d : Derivation) (goal : Ineq) (x : Point) → HasDecimals m → Derives m shared d goal
        → IsFeasible m x → AreMet x shared → Meets x goal }
{
    sides_meaning();
}

/// Each feasible point of the model meets what a right book has: each inequality that is shared, by induction over those
/// before it, and each cut.
pub fn books()
    ensures { (m : Model) (book : Book) (x : Point) → HasDecimals m → BookIsRight m book → IsFeasible m x
        → AreMet x (inequalities book.shared) × AreMet x (inequalities book.cuts) }
{
    sides_meaning();
}

/// What a rounding step makes: the inequality divided and rounded is right, and nothing else is. A feasible point that
/// meets the inequality meets what is made of it.
pub fn rounding()
    ensures sound { (m : Model) (from claim : Ineq) (g : ℤ) (x : Point) → RoundIsRight m from g claim → IsFeasible m x → Meets x from → Meets x claim }
    ensures right { (m : Model) (from : Ineq) (g : ℤ) → pos 0 <ℤ g → IsTrue (divides_all g from.terms) → AreIntegers m from.terms
        → RoundIsRight m from g (rounded g from) }
    ensures only { (m : Model) (from claim : Ineq) (g : ℤ) → RoundIsRight m from g claim → claim ≡ rounded g from }
    ensures divided { (m : Model) (from claim : Ineq) (g : ℤ) → RoundIsRight m from g claim → IsTrue (divides_all g from.terms) }
{}

/// A feasible point that meets an inequality meets what a right knapsack step claims from it. The last condition of such
/// a step is a test. It is one on lists of zeros and ones over the columns of that inequality, and so one on sets of its
/// literals, each a column or its complement: those within the capacity. So it is told by the greatest of a knapsack.
pub fn knapsacks()
    ensures sound { (m : Model) (from claim : Ineq) (x : Point) → KnapIsRight m from claim → IsFeasible m x → Meets x from → Meets x claim }
    ensures test { (m : Model) (from claim : Ineq) → IsTrue (holds_at_bits m from claim) ↔ HoldsAtBits m from claim }
    ensures lists { (m : Model) (from claim : Ineq) → IsRising from.terms → AreColumns m from.terms
        → AllByRecursion (λ t. IsSameSign (coefficient t.0 from.terms) t.1) claim.terms → HoldsAtBits m from claim ↔ HoldsAtLists from claim }
    ensures literals { (from claim : Ineq) → IsRising from.terms
        → AllByRecursion (λ t. IsSameSign (coefficient t.0 from.terms) t.1) claim.terms → HoldsAtLists from claim ↔ HoldsAtLiterals from claim }
{}

/// What divides a number, a number rounded up, and the gcd of the coefficients.
pub fn divisors()
    ensures multiple { (g z : ℤ) → pos 0 <ℤ g → IsTrue (divides g z) ↔ ((k : ℤ) × (z ≡ g *ℤ k)) }
    ensures ceiling { (g z : ℤ) → pos 0 <ℤ g → (z ≤ℤ (g *ℤ ceiling z g)) × ((g *ℤ (ceiling z g -ℤ pos 1)) <ℤ z) }
    ensures each { (terms : List Term) → IsTrue (divides_all (pos (divisor_of terms)) terms) }
    ensures greatest { (terms : List Term) (g : ℕ) → IsTrue (divides_all (pos g) terms) → g ∣ divisor_of terms }
    ensures positive { (terms : List Term) → IsRising terms → terms ≢ [] → 0 < divisor_of terms }
{
    cgl_num::divisors();
}

/// What the coefficients of a list of terms are; they tell a list whose columns rise.
pub fn coefficient_laws()
    ensures term { (terms : List Term) (i : ℕ) (d : Term) → IsRising terms → i < length terms
        → coefficient (slice_index_or terms i d).0 terms ≡ (slice_index_or terms i d).1 }
    ensures none { (terms : List Term) (j : ℕ) → AllByRecursion (λ t. j ≢ t.0) terms → coefficient j terms ≡ pos 0 }
    ensures beyond { (terms : List Term) (n j : ℕ) → AreColumnsBelow n terms → n ≤ j → coefficient j terms ≡ pos 0 }
    ensures both { (terms more : List Term) (j : ℕ) → coefficient j (terms ++ more) ≡ coefficient j terms +ℤ coefficient j more }
    ensures negated { (terms : List Term) (j : ℕ) → coefficient j (negated terms) ≡ neg_ℤ (coefficient j terms) }
    ensures one { (terms others : List Term) → IsRising terms → IsRising others → ((j : ℕ) → coefficient j terms ≡ coefficient j others)
        → terms ≡ others }
{}

/// A running sum is the weighted sum of what was added since it was zero, with the sums of the magnitudes. Adding one
/// part more is too wide exactly where a sum of magnitudes is; and a weighted sum is right exactly where it is narrow,
/// the claim's numbers times q are, and the sum proves the claim.
pub fn weighted_sums()
    ensures none { (n : ℕ) → IsSumOf [] (no_totals n) }
    ensures more { (parts : List Part) (c : Ineq) (by : ℤ) (t : Totals) → AreColumnsBelow (length t.columns) c.terms → IsSumOf parts t
        → IsSumOf (parts ++ (c, by) ∷ []) (plus_side by c t) }
    ensures narrow { (parts : List Part) (c : Ineq) (by : ℤ) (t : Totals) → IsRising c.terms → IsSumOf parts t → AreNarrow parts
        → (is_wide_side by c t ≡ false) ↔ AreNarrow (parts ++ (c, by) ∷ []) }
    ensures narrow_first { (parts more : List Part) → AreNarrow (parts ++ more) → AreNarrow parts }
    ensures narrow_none { AreNarrow [] }
    ensures right { (m : Model) (parts : List Part) (q : ℤ) (claim : Ineq) (t : Totals) → IsSumOf parts t
        → AllByRecursion (λ part. pos 0 ≤ℤ part.1) parts → pos 0 <ℤ q → AreColumns m claim.terms
        → AreNarrow parts → is_wide_claim q claim ≡ false → ProvesClaim q claim t → LinIsRight m parts q claim }
    ensures from_right { (m : Model) (parts : List Part) (q : ℤ) (claim : Ineq) (t : Totals) → IsSumOf parts t → LinIsRight m parts q claim
        → AreNarrow parts × (is_wide_claim q claim ≡ false) × ProvesClaim q claim t }
{}
