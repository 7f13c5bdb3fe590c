ghost use Rattle.std.specs.Prelude.{◌≡◌};
ghost use Rattle.cgl_pool.specs.Listed.{IsListing, key_cmp, sorted_by};

use crate::Kept;
use crate::compare::{compare_kept, is_same_cut};

/// Each inequality once, under its least key, in the order of inequalities.
pub fn listing(mut cuts: Vec<Kept>) -> Vec<Kept>
    ensures { IsListing cuts.items result.items }
{
    cuts.sort_unstable_by(|a, b| compare_kept(a, b));
    cuts.dedup_by(|later, kept| is_same_cut(later, kept));
    cuts
}

/// Each key once, rising.
pub fn rising(mut keys: Vec<(u32, u64)>) -> Vec<(u32, u64)>
    ensures { result.items ≡ sorted_by key_cmp keys.items }
{
    keys.sort_unstable();
    keys.dedup();
    keys
}
