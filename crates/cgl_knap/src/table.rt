//! Greatest values of sets of items within a capacity, in place over one table.

ghost use Rattle.std.specs.Prelude.{◌≡◌, ℕ, ◌+◌, ◌-◌, ◌<◌, ℤ, pos, ◌≤ℤ◌, ◌<ℤ◌, ◌^◌, List, [], ◌∷◌, length, take, drop};
ghost use Rattle.cgl_knap.specs.Subset.{AreValues, total_value};
ghost use Rattle.cgl_knap.specs.Greatest.{HasRoom, IsGreatest, IsTable};

/// Makes the table one of no items: the greatest value is 0 at each capacity.
pub fn clear(table: &mut [i128])
    ensures { IsTable [] [] table.new }
{
    for place in table.iter_mut() {
        *place = 0;
    }
}

/// Makes the table one of an item more, which stands before the others. The place k of a table is for the capacity k,
/// from 0 on. The value is not below 0, and with the greatest value of the others it is below 2^127. One step for each
/// place at most.
pub fn add_item(table: &mut [i128], weight: u64, value: i128)
    requires value { pos 0 ≤ℤ value }
    requires room { HasRoom value table.old }
    ensures { (weights : List ℕ) (values : List ℤ) → IsTable weights values table.old
        → IsTable (weight ∷ weights) (value ∷ values) table.new }
{
    let weight = weight as usize;
    for cap in (weight..table.len()).rev() {
        table[cap] = table[cap].max(value + table[cap - weight]);
    }
}

/// Makes the table one of all items.
fn fill(weights: &[u64], values: &[i128], table: &mut [i128])
    requires size { length values.now ≡ length weights.now }
    requires values { AreValues values.now }
    requires sum { total_value values.now <ℤ pos (2 ^ 127) }
    ensures { IsTable weights.now values.now table.new }
{
    clear(table);
    for item in (0..weights.len()).rev() {
        add_item(table, weights[item], values[item]);
    }
}

/// The greatest value of a set of items that weighs at most `cap`. There are as many values as weights, none of them
/// below 0 and all together below 2^127.
///
/// The table, of `cap + 1` places at least, is there to work on, whatever it holds. Its first `cap + 1` places are then
/// the greatest values for the capacities from 0 to `cap`, and the others are as before.
pub fn best_value(weights: &[u64], values: &[i128], cap: u64, table: &mut [i128]) -> i128
    requires size { length values.now ≡ length weights.now }
    requires values { AreValues values.now }
    requires sum { total_value values.now <ℤ pos (2 ^ 127) }
    requires places { cap < length table.old }
    ensures value { IsGreatest weights.now values.now cap result }
    ensures table { IsTable weights.now values.now (take (cap + 1) table.new) }
    ensures rest { drop (cap + 1) table.new ≡ drop (cap + 1) table.old }
{
    let cap = cap as usize;
    fill(weights, values, &mut table[..cap + 1]);
    table[cap]
}
