//! Known items, tables and covers.

ghost use Rattle.std.specs.Prelude.{ℕ, ℤ, pos, Bool, true, false, List, [], ◌∷◌, map};
ghost use Rattle.cgl_knap.specs.Greatest.{IsBound, IsGreatest, IsTable};
ghost use Rattle.cgl_knap.specs.Cover.{IsPick};

/// Greatest values, and numbers that are none. Of items of the weights 10, 20 and 30 the two heavier ones are best
/// within 50, though the lighter ones are worth more for their weight. From `2a + 2b + 2c + 4d <= 5` it follows that
/// `a + b + c + 2d <= 2`, and not that `a + b + c + 3d <= 2`.
pub fn known_values()
    ensures no_items { IsGreatest [] [] 0 (pos 0) }
    ensures too_heavy { IsGreatest (2 ∷ 2 ∷ 2 ∷ []) (map pos (1 ∷ 1 ∷ 1 ∷ [])) 1 (pos 0) }
    ensures two { IsGreatest (2 ∷ 2 ∷ 2 ∷ []) (map pos (1 ∷ 1 ∷ 1 ∷ [])) 5 (pos 2) }
    ensures all { IsGreatest (2 ∷ 2 ∷ 2 ∷ []) (map pos (1 ∷ 1 ∷ 1 ∷ [])) 6 (pos 3) }
    ensures no_weight { IsGreatest (0 ∷ 1 ∷ []) (map pos (5 ∷ 7 ∷ [])) 0 (pos 5) }
    ensures heavier { IsGreatest (10 ∷ 20 ∷ 30 ∷ []) (map pos (60 ∷ 100 ∷ 120 ∷ [])) 50 (pos 220) }
    ensures not_lighter { ¬ IsGreatest (10 ∷ 20 ∷ 30 ∷ []) (map pos (60 ∷ 100 ∷ 120 ∷ [])) 50 (pos 160) }
    ensures not_less { ¬ IsGreatest (2 ∷ 2 ∷ 2 ∷ []) (map pos (1 ∷ 1 ∷ 1 ∷ [])) 5 (pos 1) }
    ensures not_more { ¬ IsGreatest (2 ∷ 2 ∷ 2 ∷ []) (map pos (1 ∷ 1 ∷ 1 ∷ [])) 5 (pos 3) }
    ensures bound { IsBound (2 ∷ 2 ∷ 2 ∷ 4 ∷ []) (map pos (1 ∷ 1 ∷ 1 ∷ 2 ∷ [])) 5 (pos 2) }
    ensures no_bound { ¬ IsBound (2 ∷ 2 ∷ 2 ∷ 4 ∷ []) (map pos (1 ∷ 1 ∷ 1 ∷ 3 ∷ [])) 5 (pos 2) }
{}

/// Tables, and lists of numbers that are none: one that takes an item twice, one that takes it a place too early, and
/// one whose places are a capacity off.
pub fn known_tables()
    ensures none { IsTable [] [] (map pos (0 ∷ 0 ∷ 0 ∷ [])) }
    ensures one { IsTable (2 ∷ []) (map pos (3 ∷ [])) (map pos (0 ∷ 0 ∷ 3 ∷ 3 ∷ [])) }
    ensures two { IsTable (1 ∷ 2 ∷ []) (map pos (2 ∷ 3 ∷ [])) (map pos (0 ∷ 2 ∷ 3 ∷ 5 ∷ [])) }
    ensures twice { ¬ IsTable (1 ∷ []) (map pos (2 ∷ [])) (map pos (0 ∷ 2 ∷ 4 ∷ [])) }
    ensures early { ¬ IsTable (2 ∷ []) (map pos (3 ∷ [])) (map pos (0 ∷ 3 ∷ 3 ∷ 3 ∷ [])) }
    ensures shifted { ¬ IsTable (1 ∷ 2 ∷ []) (map pos (2 ∷ 3 ∷ [])) (map pos (2 ∷ 3 ∷ 5 ∷ [])) }
{}

/// Picks, and sets that are none: one that comes later at the same cost, one that costs more, and one that is too
/// light. Of items of the weights 9, 5 and 5 the two lighter ones are the pick above 9, though the heavy one costs less
/// for its weight.
pub fn known_covers()
    ensures first { IsPick (3 ∷ 4 ∷ 5 ∷ []) (map pos (0 ∷ 0 ∷ 4 ∷ [])) 9 (false ∷ true ∷ true ∷ []) }
    ensures light { IsPick (2 ∷ 2 ∷ 2 ∷ 4 ∷ []) (map pos (1 ∷ 1 ∷ 1 ∷ 6 ∷ [])) 6 (true ∷ true ∷ true ∷ false ∷ []) }
    ensures lighter { IsPick (9 ∷ 5 ∷ 5 ∷ []) (map pos (3 ∷ 2 ∷ 2 ∷ [])) 10 (false ∷ true ∷ true ∷ []) }
    ensures alike { IsPick (2 ∷ 2 ∷ []) (map pos (1 ∷ 1 ∷ [])) 2 (false ∷ true ∷ []) }
    ensures nothing { IsPick (1 ∷ 2 ∷ []) (map pos (0 ∷ 0 ∷ [])) 0 (false ∷ false ∷ []) }
    ensures later { ¬ IsPick (3 ∷ 4 ∷ 5 ∷ []) (map pos (0 ∷ 0 ∷ 4 ∷ [])) 9 (true ∷ true ∷ true ∷ []) }
    ensures alike_later { ¬ IsPick (2 ∷ 2 ∷ []) (map pos (1 ∷ 1 ∷ [])) 2 (true ∷ false ∷ []) }
    ensures dear { ¬ IsPick (9 ∷ 5 ∷ 5 ∷ []) (map pos (3 ∷ 2 ∷ 2 ∷ [])) 10 (true ∷ false ∷ true ∷ []) }
    ensures too_light { ¬ IsPick (2 ∷ 2 ∷ 2 ∷ 4 ∷ []) (map pos (1 ∷ 1 ∷ 1 ∷ 6 ∷ [])) 6
        (true ∷ true ∷ false ∷ false ∷ []) }
    ensures none { (pick : List Bool) → ¬ IsPick (1 ∷ 2 ∷ []) (map pos (0 ∷ 0 ∷ [])) 4 pick }
{}
