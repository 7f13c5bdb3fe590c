//! Known first failures.

ghost use Rattle.std.specs.Prelude.{pos, negsuc, ◌^◌, [], ◌∷◌, ◌++◌, replicate, Some};
ghost use Rattle.cgl_model.specs.declared.linear.Ineq.{Ineq};
ghost use Rattle.cgl_model.specs.declared.places.End.TheVariants.{Lower, Upper};
ghost use Rattle.cgl_derive.specs.declared.step.Ref.TheVariants.{Given, Shared, Step as Claim};
ghost use Rattle.cgl_derive.specs.KnownBooks.{beyond_book, circular_book, lacking_book, plain_book, shared_book, three_binaries};
ghost use Rattle.cgl_derive.specs.KnownDerivations.{at_least, at_most_one, by_cases, by_three, contradiction, end_of_row, halved, infeasible, nested, one_column, other_column, other_end, over_continuous, summed, too_great, two_columns};
ghost use Rattle.cgl_derive.specs.KnownKnapsacks.{at_most, both_signs, by_knap, complemented, end_of_first, enough, four_weights, great_multiple, lifted_cover, lifted_too_far, one_of_two, turned};
ghost use Rattle.cgl_derive.specs.Layers.{derivation};
ghost use Rattle.cgl_check.specs.Accepted.{IsAccepted};
ghost use Rattle.cgl_check.specs.declared.refusal.EntryPlace.TheVariants.{Cut, Shared as OfShared};
ghost use Rattle.cgl_check.specs.declared.path.Branch.TheVariants.{Left};
ghost use Rattle.cgl_check.specs.KnownFailures.{FailsAt, Passes, right, step};
ghost use Rattle.cgl_check.specs.KnownRefusals.{IsRefused, cut_beyond, wrong_cut, wrong_twice};

use crate::exactness;

/// Over `2x <= 3` with x integer, for the cut `-x >= -1`; over `2x - s <= 3` with s continuous; and over `2x = 1`, where
/// each cut follows.
pub fn known_failures()
    ensures empty { FailsAt [] 10 one_column [] (derivation []) at_most_one }
    ensures halved { Passes one_column [] halved at_most_one }
    ensures divisor { FailsAt (step 0) 5 one_column [] by_three at_most_one }
    ensures quotient { FailsAt (step 0) 10 one_column [] too_great at_most_one }
    ensures claim { FailsAt (step 0) 1 one_column [] (summed ((Claim 0, pos 1) ∷ []) at_most_one) at_most_one }
    ensures negative { FailsAt (step 0) 2 one_column [] (summed ((end_of_row Upper, negsuc 0) ∷ []) at_most_one) at_most_one }
    ensures wide { FailsAt (step 0) 3 one_column [] (summed ((end_of_row Upper, pos (2 ^ 126)) ∷ []) at_most_one) at_most_one }
    ensures column { FailsAt (step 0) 1 one_column [] (summed [] other_column) at_most_one }
    ensures given { FailsAt (step 0) 1 one_column [] (summed ((Given 0, pos 1) ∷ []) at_most_one) at_most_one }
    ensures cases { Passes one_column [] by_cases at_most_one }
    ensures branch { FailsAt (right 0 []) 6 one_column [] other_end at_most_one }
    ensures continuous { FailsAt (step 0) 4 two_columns [] over_continuous at_most_one }
    ensures each { (cut : Ineq) → Passes infeasible [] contradiction cut }
{}

/// 64 splits inside each other, and 65.
pub fn known_depths()
    ensures deep { Passes one_column [] (nested 63 0) at_most_one }
    ensures too_deep { FailsAt (replicate 64 (0, Some Left) ++ step 0) 9 one_column [] (nested 64 0) at_most_one }
{
    exactness();
    cgl_derive::known_depths();
}

/// Knapsack steps. Over `2a + 2b + 2c + 4d <= 5`, `3a + 4b - 5c <= 3` and `3a + 4b + 5c >= 4`, all binary, some that are
/// right, and one from a capacity at its limit. A coefficient that is one too far has another value. Not of the form are a
/// side without the claim's columns, another sign, a column that is not binary, a capacity below 0 or above the limit, and
/// sums of magnitudes that reach 2^127.
pub fn known_knapsacks()
    ensures cover { Passes four_weights [] (by_knap (end_of_row Upper) lifted_cover) lifted_cover }
    ensures both_signs { Passes both_signs [] (by_knap (end_of_row Upper) complemented) complemented }
    ensures enough { Passes enough [] (by_knap (end_of_row Lower) one_of_two) one_of_two }
    ensures full { Passes four_weights (at_most (negsuc 49999997) ∷ []) (by_knap (Shared 0) at_most_one) at_most_one }
    ensures value { FailsAt (step 0) 8 four_weights [] (by_knap (end_of_row Upper) lifted_too_far) lifted_too_far }
    ensures columns { FailsAt (step 0) 7 four_weights [] (by_knap (end_of_first Upper) lifted_cover) lifted_cover }
    ensures sign { FailsAt (step 0) 7 both_signs [] (by_knap (end_of_row Upper) turned) turned }
    ensures binary { FailsAt (step 0) 7 one_column [] (by_knap (end_of_row Upper) at_most_one) at_most_one }
    ensures room { FailsAt (step 0) 7 four_weights (at_least (pos 1) (pos 2) ∷ []) (by_knap (Shared 0) (at_least (pos 1) (pos 1))) (at_least (pos 1) (pos 1)) }
    ensures large { FailsAt (step 0) 7 four_weights (at_most (negsuc 49999998) ∷ []) (by_knap (Shared 0) at_most_one) at_most_one }
    ensures from { FailsAt (step 0) 7 four_weights (great_multiple (pos (2 ^ 126)) ∷ []) (by_knap (Shared 0) (at_least (pos 1) (pos 1))) (at_least (pos 1) (pos 1)) }
    ensures claim { FailsAt (step 0) 7 four_weights (at_least (pos 1) (pos 1) ∷ []) (by_knap (Shared 0) (great_multiple (pos (2 ^ 126)))) (great_multiple (pos (2 ^ 126))) }
    ensures none { FailsAt (step 0) 1 four_weights [] (by_knap (Claim 0) lifted_cover) lifted_cover }
{}

/// Over `3a + 3b + 3c <= 5`, all binary, books whose cuts begin with the same division, or share it; and the first refusal
/// of others: a shared inequality that is not there or is derived from itself, and a column that the model does not have,
/// whatever derives it. What is shared comes before the cuts, each in its order.
pub fn known_books()
    ensures plain { IsAccepted three_binaries plain_book }
    ensures shared { IsAccepted three_binaries shared_book }
    ensures lacking { IsRefused (Cut 0) (step 0) 1 three_binaries lacking_book }
    ensures circular { IsRefused (OfShared 0) (step 0) 1 three_binaries circular_book }
    ensures column { IsRefused (OfShared 0) [] 1 infeasible beyond_book }
    ensures cut_column { IsRefused (Cut 0) [] 1 infeasible cut_beyond }
    ensures twice { IsRefused (OfShared 1) (step 0) 1 three_binaries wrong_twice }
    ensures cut { IsRefused (Cut 1) (step 0) 1 three_binaries wrong_cut }
{}
