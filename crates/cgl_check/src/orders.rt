//! Which failure of a step is the first: steps that fail in each way at once, and then the same with one failure mended
//! after the other. So of each two failures of a step the one that stands before the other here comes first.

ghost use Rattle.std.specs.Prelude.{pos, negsuc, ◌^◌, [], ◌∷◌, ◌++◌, replicate, Some};
ghost use Rattle.cgl_derive.specs.declared.step.Ref.TheVariants.{Shared, Step as Claim};
ghost use Rattle.cgl_derive.specs.declared.step.Step.TheOpen.{Split};
ghost use Rattle.cgl_derive.specs.KnownDerivations.{at_least, at_most_one, by_three, halved, ineq, infeasible, lin, one_column, two_columns};
ghost use Rattle.cgl_derive.specs.KnownKnapsacks.{both_signs};
ghost use Rattle.cgl_derive.specs.KnownSplits.{nothing_said, opposite_ends};
ghost use Rattle.cgl_derive.specs.Layers.{derivation};
ghost use Rattle.cgl_check.specs.declared.path.Branch.TheVariants.{Left};
ghost use Rattle.cgl_check.specs.KnownFailures.{FailsAt, Passes, StepFails, StepPasses, left, right, step};
ghost use Rattle.cgl_check.specs.KnownOrders.{after_halving, by_two, by_zero, cases_beyond, cases_by, cases_inside, cases_over_beyond, cases_over_continuous, ending, failing, greater_value, halving, knapsack_beyond, knapsack_of_nothing, negative_last, of_continuous, other_quotient, other_sign, other_sum, proving, quotient_beyond, quotient_of_nothing, right_knapsack, right_quotient, right_sum, sum_beyond, sum_by_zero, sum_negative, sum_of_nothing, take_of, thirding, wide_beyond, wide_by_zero, wide_cases, wide_negative, wide_of_nothing, wide_sum, within};

/// A sum: its columns, its multipliers and q, its references, its width, and what it says.
pub fn known_sums()
    ensures column { StepFails 1 one_column [] sum_beyond }
    ensures negative { StepFails 2 one_column [] sum_negative }
    ensures zero { StepFails 2 one_column [] sum_by_zero }
    ensures none { StepFails 1 one_column [] sum_of_nothing }
    ensures column_wide { StepFails 1 one_column [] wide_beyond }
    ensures negative_wide { StepFails 2 one_column [] wide_negative }
    ensures zero_wide { StepFails 2 one_column [] wide_by_zero }
    ensures negative_last { StepFails 2 one_column [] negative_last }
    ensures wide { StepFails 3 one_column [] wide_sum }
    ensures other { StepFails 2 one_column [] other_sum }
    ensures right { StepPasses one_column [] right_sum }
{}

/// A sum is too wide by the magnitudes at a column, by those of the right sides, by a coefficient of the claim times q,
/// or by its right side times q.
pub fn known_widths()
    ensures left { FailsAt (step 0) 3 infeasible [] (opposite_ends (pos (2 ^ 125))) nothing_said }
    ensures narrow { Passes infeasible [] (opposite_ends (pos (2 ^ 124))) nothing_said }
    ensures right { StepFails 3 one_column (ineq [] (pos (2 ^ 126)) ∷ []) (lin (pos 1) ((Shared 0, pos 2) ∷ []) nothing_said) }
    ensures coefficient { StepFails 3 one_column [] (lin (pos (2 ^ 126)) [] (at_least (negsuc 1) (pos 0))) }
    ensures rhs { StepFails 3 one_column [] (lin (pos (2 ^ 126)) [] (ineq [] (negsuc 1))) }
    ensures small { StepPasses one_column [] (lin (pos (2 ^ 126)) [] (ineq [] (negsuc 0))) }
{}

/// A division: its columns and its reference, its divisor, the columns of what is divided, and the quotient.
pub fn known_divisions()
    ensures column { StepFails 1 two_columns [] quotient_beyond }
    ensures none { StepFails 1 two_columns [] quotient_of_nothing }
    ensures zero { StepFails 5 two_columns [] by_zero }
    ensures divisor { StepFails 5 two_columns [] by_two }
    ensures continuous { StepFails 4 two_columns [] of_continuous }
    ensures quotient { StepFails 10 two_columns [] other_quotient }
    ensures right { StepPasses two_columns [] right_quotient }
{}

/// Cases: the columns of the claim and of p, the depth, whether p is over integer columns, p0, the left list and its end,
/// the right list and its end. The first are told of the 65th of splits inside each other too.
pub fn known_cases()
    ensures column { FailsAt (replicate 64 (0, Some Left) ++ step 0) 1 two_columns [] (within 64 (Split cases_beyond)) nothing_said }
    ensures over_deep { FailsAt (replicate 64 (0, Some Left) ++ step 0) 1 two_columns [] (within 64 (Split cases_over_beyond)) nothing_said }
    ensures over { StepFails 1 two_columns [] (Split cases_over_beyond) }
    ensures deep { FailsAt (replicate 64 (0, Some Left) ++ step 0) 9 two_columns [] (within 64 (Split cases_over_continuous)) nothing_said }
    ensures continuous { StepFails 4 two_columns [] (Split cases_over_continuous) }
    ensures wide { StepFails 3 two_columns [] (Split wide_cases) }
    ensures left { FailsAt (left 0 (step 0)) 1 two_columns [] (derivation (cases_by failing failing ∷ [])) nothing_said }
    ensures left_end { FailsAt (left 0 []) 6 two_columns [] (derivation (cases_by ending failing ∷ [])) nothing_said }
    ensures right { FailsAt (right 0 (step 0)) 1 two_columns [] (derivation (cases_by proving failing ∷ [])) nothing_said }
    ensures right_end { FailsAt (right 0 []) 6 two_columns [] (derivation (cases_by proving ending ∷ [])) nothing_said }
    ensures both { StepPasses two_columns [] (cases_by proving proving) }
{}

/// A knapsack step: its columns and its reference, its form, and its value.
pub fn known_knapsack_steps()
    ensures column { StepFails 1 both_signs [] knapsack_beyond }
    ensures none { StepFails 1 both_signs [] knapsack_of_nothing }
    ensures none_wide { StepFails 1 both_signs [] wide_of_nothing }
    ensures form { StepFails 7 both_signs [] other_sign }
    ensures value { StepFails 8 both_signs [] greater_value }
    ensures right { StepPasses both_signs [] right_knapsack }
{}

/// A list: the first of two steps that fail, then the second; and a step before the end of the list. Inside the branches
/// of splits the path has the numbers of their own lists.
pub fn known_lists()
    ensures first { FailsAt (step 0) 5 one_column [] (derivation (thirding ∷ take_of (Claim 9) ∷ [])) at_most_one }
    ensures second { FailsAt (step 1) 1 one_column [] (derivation (halving ∷ take_of (Claim 9) ∷ [])) at_most_one }
    ensures before_end { FailsAt (step 0) 5 one_column [] by_three (at_least (pos 1) (pos 7)) }
    ensures end { FailsAt [] 10 one_column [] halved (at_least (pos 1) (pos 7)) }
    ensures third { FailsAt (left 1 (step 2)) 1 one_column [] (after_halving (take_of (Claim 0) ∷ take_of (Claim 1) ∷ take_of (Claim 9) ∷ []) []) at_most_one }
    ensures inside { FailsAt (right 1 (left 1 (step 0))) 1 one_column []
        (after_halving (take_of (Claim 0) ∷ []) (take_of (Claim 0) ∷ cases_inside (take_of (Claim 9) ∷ []) ∷ [])) at_most_one }
    ensures inside_end { FailsAt (right 1 (left 1 [])) 6 one_column []
        (after_halving (take_of (Claim 0) ∷ []) (take_of (Claim 0) ∷ cases_inside [] ∷ [])) at_most_one }
{}
