//! Known derivations.

ghost use Rattle.std.specs.Prelude.{ℤ, pos, negsuc, ◌-ℤ◌, ◌^◌, [], ◌∷◌};
ghost use Rattle.cgl_model.specs.declared.linear.Ineq.{Ineq};
ghost use Rattle.cgl_model.specs.declared.places.End.TheVariants.{Lower, Upper};
ghost use Rattle.cgl_derive.specs.declared.step.Ref.TheVariants.{Given, Shared, Step as Claim};
ghost use Rattle.cgl_derive.specs.Books.{BookIsRight};
ghost use Rattle.cgl_derive.specs.Derives.{Derives, LinIsRight};
ghost use Rattle.cgl_derive.specs.Layers.{derivation};
ghost use Rattle.cgl_derive.specs.KnownBooks.{beyond_book, circular_book, lacking_book, plain_book, shared_book, three_binaries};
ghost use Rattle.cgl_derive.specs.KnownDerivations.{at_least, at_most_one, by_cases, by_three, contradiction, end_of_row, halved, infeasible, nested, one_column, other_column, other_end, over_continuous, repeated_column, summed, too_great, too_wide, two_columns};
ghost use Rattle.cgl_derive.specs.KnownSplits.{absurd_case, after_cases, by_zero, cases_at, claim_before, continuous_cases, greatest, nothing_said, one_case_twice, opposite_ends};
ghost use Rattle.cgl_derive.specs.KnownKnapsacks.{at_most, both_signs, by_knap, complemented, end_of_first, enough, four_weights, great_multiple, lifted_cover, lifted_too_far, one_of_two, turned};

/// Over `2x <= 3` with x integer, `-x >= -1` follows by rounding and by cases; and what is not right proves nothing: no
/// steps, a divisor of another number, another claim, a case that ends in another claim, a reference to nothing, a
/// negative multiplier, a sum of magnitudes that reaches 2^127, and a column that the model does not have.
pub fn known_derivations()
    ensures rounded { Derives one_column [] halved at_most_one }
    ensures cases { Derives one_column [] by_cases at_most_one }
    ensures shared { Derives one_column (at_most_one ∷ []) (summed ((Shared 0, pos 1) ∷ []) at_most_one) at_most_one }
    ensures empty { (goal : Ineq) → ¬ Derives one_column [] (derivation []) goal }
    ensures divisor { (goal : Ineq) → ¬ Derives one_column [] by_three goal }
    ensures claim { (goal : Ineq) → ¬ Derives one_column [] too_great goal }
    ensures branch { (goal : Ineq) → ¬ Derives one_column [] other_end goal }
    ensures step { (goal : Ineq) → ¬ Derives one_column [] (summed ((Claim 0, pos 1) ∷ []) at_most_one) goal }
    ensures given { (goal : Ineq) → ¬ Derives one_column [] (summed ((Given 0, pos 1) ∷ []) at_most_one) goal }
    ensures none_shared { (goal : Ineq) → ¬ Derives one_column [] (summed ((Shared 0, pos 1) ∷ []) at_most_one) goal }
    ensures negative { (goal : Ineq) → ¬ Derives one_column [] (summed ((end_of_row Upper, negsuc 0) ∷ []) at_most_one) goal }
    ensures multiplier { (goal : Ineq) → ¬ Derives one_column [] (summed ((end_of_row Upper, pos (2 ^ 126)) ∷ []) at_most_one) goal }
    ensures wide { (goal : Ineq) → ¬ Derives one_column [] too_wide goal }
    ensures column { (goal : Ineq) → ¬ Derives one_column [] (summed [] other_column) goal }
    ensures shared_column { (goal : Ineq) → ¬ Derives one_column (other_column ∷ []) (summed ((Shared 0, pos 1) ∷ []) other_column) goal }
{}

/// Over `2x <= 3` with x integer, sums: no references say `0 >= 0`, and a claim may have a lesser right side. What is not
/// right: a sum whose q is 0, though both sides are 0 then, and a greater right side. Over `2x = 1`, both ends 2^125 times
/// are too wide, though their sum is 0.
pub fn known_sums()
    ensures none { Derives one_column [] (summed [] nothing_said) nothing_said }
    ensures weaker { Derives one_column [] (summed ((end_of_row Upper, pos 1) ∷ []) (at_least (negsuc 1) (negsuc 6))) (at_least (negsuc 1) (negsuc 6)) }
    ensures zero { (goal : Ineq) → ¬ Derives one_column [] by_zero goal }
    ensures stronger { (goal : Ineq) → ¬ Derives one_column [] (summed ((end_of_row Upper, pos 1) ∷ []) (at_least (negsuc 1) (negsuc 1))) goal }
    ensures magnitudes { (goal : Ineq) → ¬ Derives infeasible [] (opposite_ends (pos (2 ^ 125))) goal }
{}

/// Over `2x <= 3` with x integer, cases: a branch may end in `0 >= 1`, it sees the claims before the split, and p0 may be
/// 2^127 - 2. What is not right: the left given in the right branch, a claim or a given of a branch behind the split, and
/// p0 one greater. Over `2x - s <= 3` with s continuous, there are no cases of s.
pub fn known_splits()
    ensures absurd { Derives one_column [] absurd_case at_most_one }
    ensures before { Derives one_column [] claim_before at_most_one }
    ensures greatest { Derives one_column [] (cases_at (greatest -ℤ pos 1)) nothing_said }
    ensures case { (goal : Ineq) → ¬ Derives one_column [] one_case_twice goal }
    ensures claim { (goal : Ineq) → ¬ Derives one_column [] (after_cases (Claim 1)) goal }
    ensures given { (goal : Ineq) → ¬ Derives one_column [] (after_cases (Given 0)) goal }
    ensures wide { (goal : Ineq) → ¬ Derives one_column [] (cases_at greatest) goal }
    ensures continuous { (goal : Ineq) → ¬ Derives two_columns [] continuous_cases goal }
{}

/// At most 64 splits are inside each other.
pub fn known_depths()
    ensures deep { Derives one_column [] (nested 63 0) at_most_one }
    ensures too_deep { (goal : Ineq) → ¬ Derives one_column [] (nested 64 0) goal }
{}

/// Over `2x - s <= 3`, nothing is divided, not even by 1, since s is continuous.
pub fn known_continuous()
    ensures { (goal : Ineq) → ¬ Derives two_columns [] over_continuous goal }
{}

/// `2x = 1` with x integer has no point, and each inequality follows.
pub fn known_contradiction()
    ensures each { (goal : Ineq) → Derives infeasible [] contradiction goal }
    ensures great { Derives infeasible [] contradiction (at_least (pos 1) (pos 7)) }
    ensures small { Derives infeasible [] contradiction (at_least (negsuc 0) (pos 100)) }
{}

/// The coefficient of a column that a list of terms has twice is the sum of both: `x >= 1` does not give `x - 5x >= 1`.
pub fn known_coefficients()
    ensures { ¬ LinIsRight one_column ((at_least (pos 1) (pos 1), pos 1) ∷ []) (pos 1) repeated_column }
{}

/// Over `2a + 2b + 2c + 4d <= 5`, `3a + 4b - 5c <= 3` and `3a + 4b + 5c >= 4`, all binary, knapsack steps; and what is
/// not right: a coefficient one too far, a side without the claim's columns, a reference to nothing, a coefficient of the
/// other sign, a column that is not binary, and a capacity below 0.
pub fn known_knapsacks()
    ensures cover { Derives four_weights [] (by_knap (end_of_row Upper) lifted_cover) lifted_cover }
    ensures both_signs { Derives both_signs [] (by_knap (end_of_row Upper) complemented) complemented }
    ensures enough { Derives enough [] (by_knap (end_of_row Lower) one_of_two) one_of_two }
    ensures too_far { (goal : Ineq) → ¬ Derives four_weights [] (by_knap (end_of_row Upper) lifted_too_far) goal }
    ensures columns { (goal : Ineq) → ¬ Derives four_weights [] (by_knap (end_of_first Upper) lifted_cover) goal }
    ensures none { (goal : Ineq) → ¬ Derives four_weights [] (by_knap (Claim 0) lifted_cover) goal }
    ensures sign { (goal : Ineq) → ¬ Derives both_signs [] (by_knap (end_of_row Upper) turned) goal }
    ensures binary { (goal : Ineq) → ¬ Derives one_column [] (by_knap (end_of_row Upper) at_most_one) goal }
    ensures room { (goal : Ineq) → ¬ Derives four_weights (at_least (pos 1) (pos 2) ∷ []) (by_knap (Shared 0) (at_least (pos 1) (pos 1))) goal }
{}

/// The limits of knapsack steps: `1 * (b + 2)` is 50,000,000 and one above it, and sums of magnitudes reach 2^127.
pub fn known_limits()
    ensures full { Derives four_weights (at_most (negsuc 49999997) ∷ []) (by_knap (Shared 0) at_most_one) at_most_one }
    ensures too_large { (goal : Ineq) → ¬ Derives four_weights (at_most (negsuc 49999998) ∷ []) (by_knap (Shared 0) at_most_one) goal }
    ensures from { (goal : Ineq) → ¬ Derives four_weights (great_multiple (pos (2 ^ 126)) ∷ []) (by_knap (Shared 0) (at_least (pos 1) (pos 1))) goal }
    ensures claim { (goal : Ineq) → ¬ Derives four_weights (at_least (pos 1) (pos 1) ∷ []) (by_knap (Shared 0) (great_multiple (pos (2 ^ 126)))) goal }
{}

/// Over `3a + 3b + 3c <= 5`, all binary, two cuts that begin with the same division are right, and so they are where the
/// division is shared; and what is not right: cuts from a shared inequality that is not there, one that is derived from
/// itself, and one with a column that the model does not have, whatever derives it.
pub fn known_books()
    ensures plain { BookIsRight three_binaries plain_book }
    ensures shared { BookIsRight three_binaries shared_book }
    ensures lacking { ¬ BookIsRight three_binaries lacking_book }
    ensures circular { ¬ BookIsRight three_binaries circular_book }
    ensures beyond { ¬ BookIsRight infeasible beyond_book }
{}
