//! Laws of greatest values, of their tables, and of covers.

ghost use Rattle.std.specs.Prelude.{◌≡◌, ◌⊎◌, ◌↔◌, ℕ, ◌+◌, ◌≤◌, ℤ, pos, ◌+ℤ◌, ◌≤ℤ◌, ◌<ℤ◌, ◌^◌, Bool, List, [], ◌∷◌, ◌++◌, length, take};
ghost use Rattle.cgl_knap.specs.Subset.{AreValues, total_value, total_weight, value_of};
ghost use Rattle.cgl_knap.specs.Greatest.{HasRoom, IsBound, IsGreatest, IsTable, IsWithin};
ghost use Rattle.cgl_knap.specs.Cover.{IsCover, IsPick};

/// There is one greatest value of a set within a capacity. It decides which numbers are bounds: a number is one exactly
/// where the greatest value is at most it. With more capacity it is not less. Where no value is below 0, it is from 0
/// to all values together.
pub fn greatest_values()
    ensures some { (weights : List ℕ) (values : List ℤ) (cap : ℕ) → (best : ℤ) × IsGreatest weights values cap best }
    ensures one { (weights : List ℕ) (values : List ℤ) (cap : ℕ) (best other : ℤ) → IsGreatest weights values cap best
        → IsGreatest weights values cap other → best ≡ other }
    ensures decides { (weights : List ℕ) (values : List ℤ) (cap : ℕ) (best bound : ℤ)
        → IsGreatest weights values cap best → IsBound weights values cap bound ↔ (best ≤ℤ bound) }
    ensures wider { (weights : List ℕ) (values : List ℤ) (cap more : ℕ) (best other : ℤ) → cap ≤ more
        → IsGreatest weights values cap best → IsGreatest weights values more other → best ≤ℤ other }
    ensures low { (weights : List ℕ) (values : List ℤ) (cap : ℕ) (best : ℤ) → AreValues values
        → IsGreatest weights values cap best → pos 0 ≤ℤ best }
    ensures high { (weights : List ℕ) (values : List ℤ) (cap : ℕ) (best : ℤ) → AreValues values
        → IsGreatest weights values cap best → best ≤ℤ total_value values }
{}

/// A table has room for a value that is below 2^127 with all values of its items together. Its first places are a table
/// too. An item that was added may as well stand behind the others.
pub fn tables()
    ensures room { (weights : List ℕ) (values table : List ℤ) (value : ℤ) → AreValues values
        → IsTable weights values table → (value +ℤ total_value values) <ℤ pos (2 ^ 127) → HasRoom value table }
    ensures front { (weights : List ℕ) (values table : List ℤ) (places : ℕ) → IsTable weights values table
        → IsTable weights values (take places table) }
    ensures last { (weights : List ℕ) (values table : List ℤ) (weight : ℕ) (value : ℤ)
        → length values ≡ length weights → IsTable (weight ∷ weights) (value ∷ values) table
        → IsTable (weights ++ weight ∷ []) (values ++ value ∷ []) table }
{}

/// Each set is within a capacity or above it, and not both. There is a cover exactly where all items together weigh
/// enough. There is one pick at most, and no cover costs less.
pub fn covers()
    ensures either { (weights : List ℕ) (cap : ℕ) (z : List Bool) → length z ≡ length weights
        → IsWithin weights cap z ⊎ IsCover weights (cap + 1) z }
    ensures not_both { (weights : List ℕ) (cap : ℕ) (z : List Bool) → IsWithin weights cap z
        → ¬ IsCover weights (cap + 1) z }
    ensures some { (weights : List ℕ) (need : ℕ)
        → ((z : List Bool) × IsCover weights need z) ↔ (need ≤ total_weight weights) }
    ensures one { (weights : List ℕ) (costs : List ℤ) (need : ℕ) (pick other : List Bool)
        → IsPick weights costs need pick → IsPick weights costs need other → pick ≡ other }
    ensures cost { (weights : List ℕ) (costs : List ℤ) (need : ℕ) (pick z : List Bool)
        → IsPick weights costs need pick → IsCover weights need z → value_of costs pick ≤ℤ value_of costs z }
{}
