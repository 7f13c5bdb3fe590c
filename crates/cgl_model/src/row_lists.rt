ghost use Rattle.std.specs.Prelude.{◌≡◌, ℕ, ◌++◌, ◌∷◌, [], ◌<◌, ◌≤◌, ◌^◌, length, slice_index_or, IfOk, OnOk, if◌then◌else◌};
ghost use Rattle.cgl_model.specs.RowEntries.{ends_in_column, entry_at, onto_entries, row_entries, AreEntriesBelow};

use crate::{Entries, Model};
use cgl_num::{Dec, Memory};
use std::alloc::Global;

/// Appends an entry to a row that has none of this column yet.
fn add_entry(list: &mut Entries, column: u32, coefficient: Dec) -> Result<(), Memory>
    ensures { OnOk result (list.new ≡ (if ends_in_column column list.old then list.old else list.old ++ (column, coefficient) ∷ [])) }
{
    if let Some(last) = list.as_slice().last() {
        if last.0 == column {
            return Ok(());
        }
    }
    list.push((column, coefficient))
}

/// Appends a column's entries to the rows that they name.
fn add_column(lists: &mut [Entries], column: u32, entries: &[(u32, Dec)]) -> Result<(), Memory>
    requires { (r : ℕ) → r < length lists.old → AreEntriesBelow column (slice_index_or lists.old r []) }
    ensures { OnOk result ((r : ℕ) → r < length lists.new → slice_index_or lists.new r [] ≡ slice_index_or lists.old r [] ++ onto_entries column (entry_at r entries.now) []) }
{
    for entry in entries {
        let row = entry.0 as usize;
        if row < lists.len() {
            add_entry(&mut lists[row], column, entry.1)?;
        }
    }
    Ok(())
}

fn empty_lists(alloc: Global, count: usize) -> Result<Vec<Entries>, Memory>
    ensures length { IfOk result (λ lists. length lists.items ≡ count) }
    ensures none { IfOk result (λ lists. (r : ℕ) → r < length lists.items → slice_index_or lists.items r [] ≡ []) }
{
    let mut lists = Vec::new(alloc);
    while lists.len() < count {
        let Ok(()) = lists.push(Entries::new(alloc)) else {
            return Err(Memory);
        };
    }
    Ok(lists)
}

/// The entries of each row, by columns.
pub fn entries_of_rows(alloc: Global, m: &Model) -> Result<Vec<Entries>, Memory>
    requires { length m.now.cols ≤ 2 ^ 20 }
    ensures length { IfOk result (λ lists. length lists.items ≡ length m.now.rows) }
    ensures rows { IfOk result (λ lists. (r : ℕ) → r < length lists.items → slice_index_or lists.items r [] ≡ row_entries m.now r) }
{
    let mut lists = empty_lists(alloc, m.rows.as_slice().len())?;
    for (j, column) in m.cols.as_slice().iter().enumerate() {
        add_column(lists.as_mut_slice(), j as u32, column.entries.as_slice())?;
    }
    Ok(lists)
}
