//! The least cost of a set of items above a capacity, with the set.

ghost use Rattle.std.specs.Prelude.{◌≡◌, ℕ, ◌+◌, ◌-◌, ◌*◌, ◌≤◌, ◌<◌, ℤ, pos, ◌+ℤ◌, ◌≤ℤ◌, ◌<ℤ◌, ◌^◌, List, [], ◌∷◌, length, slice_index_or, cond, IfNone, IfSome};
ghost use Rattle.cgl_knap.specs.Subset.{AreValues, total_value, total_weight, value_of};
ghost use Rattle.cgl_knap.specs.Greatest.{HasRoom};
ghost use Rattle.cgl_knap.specs.Cover.{IsPick};
ghost use Rattle.cgl_knap.specs.LeastCost.{AreAllChoices, IsChoices, IsLeastTable, lesser, picks, takes, with_cost};

/// A cost and that of the rest, or below 0 where there is no rest.
fn with_cost(cost: i128, rest: i128) -> i128
    requires low { pos 0 ≤ℤ cost }
    requires room { (cost +ℤ rest) <ℤ pos (2 ^ 127) }
    ensures { result ≡ with_cost cost rest }
{
    if rest < 0 { -1 } else { cost + rest }
}

/// Whether there is a set with the item, and it costs less than the one without it.
fn takes(out: i128, taken: i128) -> bool
    ensures { result ≡ takes out taken }
{
    taken >= 0 && (out < 0 || taken < out)
}

/// The cost of the one that is chosen.
fn lesser(out: i128, taken: i128) -> i128
    ensures { result ≡ lesser out taken }
{
    if takes(out, taken) { taken } else { out }
}

/// Makes the table of least costs one of an item more, and writes where the item is taken.
fn add_choice(table: &mut [i128], choice: &mut [bool], weight: usize, cost: i128)
    requires size { length choice.old ≡ length table.old }
    requires low { pos 0 ≤ℤ cost }
    requires room { HasRoom cost table.old }
    ensures size { length choice.new ≡ length table.old }
    ensures table { (weights : List ℕ) (costs : List ℤ) → IsLeastTable weights costs table.old
        → IsLeastTable (weight ∷ weights) (cost ∷ costs) table.new }
    ensures choice { (weights : List ℕ) (costs : List ℤ) → IsLeastTable weights costs table.old
        → IsChoices (weight ∷ weights) (cost ∷ costs) choice.new }
{
    for need in (0..table.len()).rev() {
        let taken = with_cost(cost, table[need.saturating_sub(weight)]);
        let chosen = lesser(table[need], taken);
        choice[need] = takes(table[need], taken);
        table[need] = chosen;
    }
}

/// Makes the table one of no items.
fn clear(table: &mut [i128])
    ensures { IsLeastTable [] [] table.new }
{
    for (need, place) in table.iter_mut().enumerate() {
        *place = if need == 0 { 0 } else { -1 };
    }
}

/// Makes the table one of all items, and the choices a row for each of them.
fn fill(weights: &[u64], costs: &[i128], table: &mut [i128], choice: &mut [bool])
    requires size { length costs.now ≡ length weights.now }
    requires costs { AreValues costs.now }
    requires sum { total_value costs.now <ℤ pos (2 ^ 127) }
    requires choices { length choice.old ≡ length weights.now * length table.old }
    ensures table { IsLeastTable weights.now costs.now table.new }
    ensures choice { AreAllChoices weights.now costs.now (length table.old) choice.new }
{
    clear(table);
    let places = table.len();
    for item in (0..weights.len()).rev() {
        let start = item * places;
        add_choice(
            table,
            &mut choice[start..start + places],
            weights[item] as usize,
            costs[item],
        );
    }
}

/// What is still to be reached behind an item.
fn left(need: usize, weight: u64, is_taken: bool) -> usize
    ensures { result ≡ cond is_taken (need - weight) need }
{
    if is_taken {
        need.saturating_sub(weight as usize)
    } else {
        need
    }
}

/// Follows the choices from the first item on.
fn walk(weights: &[u64], places: usize, choice: &[bool], pick: &mut [bool])
    requires size { length pick.old ≡ length weights.now }
    requires some { 0 < places }
    requires choices { length choice.now ≡ length weights.now * places }
    ensures { (costs : List ℤ) → length costs ≡ length weights.now → AreAllChoices weights.now costs places choice.now
        → pick.new ≡ picks weights.now costs (places - 1) }
{
    let mut need = places - 1;
    for item in 0..weights.len() {
        let is_taken = choice[item * places + need];
        pick[item] = is_taken;
        need = left(need, weights[item], is_taken);
    }
}

/// The least cost of a set of items that weighs more than `cap`. None comes exactly where all items together weigh at
/// most `cap`. There are as many costs as weights, none of them below 0 and all together below 2^127.
///
/// `pick`, of a place for each item, is then the set: of those of least cost the first one in the order of lists, false
/// before true. On None it is as before. The table, of `cap + 2` places, and the choices, of as many for each item, are
/// there to work on, whatever they hold.
pub fn best_cover(
    weights: &[u64],
    costs: &[i128],
    cap: u64,
    table: &mut [i128],
    choice: &mut [bool],
    pick: &mut [bool],
) -> Option<i128>
    requires size { length costs.now ≡ length weights.now }
    requires costs { AreValues costs.now }
    requires sum { total_value costs.now <ℤ pos (2 ^ 127) }
    requires places { length table.old ≡ cap + 2 }
    requires choices { length choice.old ≡ length weights.now * (cap + 2) }
    requires picks { length pick.old ≡ length weights.now }
    ensures none { IfNone result (total_weight weights.now ≤ cap) }
    ensures some { IfSome result (λ cost. cap < total_weight weights.now) }
    ensures pick { IfSome result (λ cost. IsPick weights.now costs.now (cap + 1) pick.new) }
    ensures cost { IfSome result (λ cost. value_of costs.now pick.new ≡ cost) }
    ensures untouched { IfNone result (pick.new ≡ pick.old) }
{
    fill(weights, costs, table, choice);
    let cost = table[cap as usize + 1];
    if cost < 0 {
        return None;
    }
    walk(weights, table.len(), choice, pick);
    Some(cost)
}
