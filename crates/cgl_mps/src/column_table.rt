//! The columns of the lines so far, by their numbers.

ghost use Rattle.std.specs.Prelude.{◌≡◌, ◌∷◌, ◌++◌, ◌-◌, [], ℕ, Bool, false, IfOk, IsSome, List, OnOk, Some, bytes_eq, length, option_map, position, slice_get, slice_set, unwrap_or};
ghost use Rattle.cgl_num.specs.Decimal.{Decimal};
ghost use Rattle.cgl_num.specs.NumberText.{Word, number};
ghost use Rattle.cgl_text.specs.Text.{is_one_of};
ghost use Rattle.cgl_text.specs.Seen.{word};
ghost use Rattle.cgl_decode.specs.Sections.{Pair, entry_pairs, is_marker};
ghost use Rattle.cgl_mps.specs.Carried.{ReadColumns, after_line, after_marker, after_more, all_of, begun, names_of, no_columns};
ghost use Rattle.cgl_mps.specs.Tables.{AreColumns, AreKnown, IsKnown, IsNext, is_marked_row, resolved, resolved_all};
ghost use Rattle.cgl_mps.specs.State.{has_ended, is_current};

use crate::record::{Record, field};
use crate::resolve::Resolved;
use crate::sections::is_marker;
use cgl_model::Entries;
use cgl_num::{Dec, Memory};
use cgl_text::{NameTable, same_bytes};
use std::alloc::Global;
use std::marker::Model;

/// A column: whether a marker makes it integer, and its entries.
#[derive(Drop)]
pub(crate) struct ReadColumn {
    pub(crate) marked: bool,
    pub(crate) entries: Entries,
}

impl Model for ReadColumn {
    ghost use Rattle.std.specs.Prelude.{ℕ, Bool, List};
    ghost use Rattle.cgl_num.specs.Decimal.{Decimal};

    ghost Value = { Bool × List (ℕ × Decimal) };

    ghost view = { λ it. (it.marked, it.entries) };
}

/// The columns of the lines so far with their names, whether the last of them goes on, and whether the last marker
/// makes the next ones integer. The mark of a row is the number of the last column that has an entry in it, from 1, or
/// 0, so that a row that comes twice in a column is found without a walk.
#[derive(Drop)]
pub(crate) struct ColumnTable {
    names: NameTable,
    columns: Vec<ReadColumn>,
    goes_on: bool,
    marked: bool,
    count: usize,
    marks: Vec<u32>,
}

impl Model for ColumnTable {
    ghost use Rattle.cgl_mps.specs.Tables.{ColumnTable as Table};

    ghost Value = { Table };

    ghost view = { λ it. record { names = it.names; columns = it.columns.items; goes_on = it.goes_on; marked = it.marked; count = it.count; marks = it.marks.items } };
}

/// The last of the names.
fn last_of(names: &NameTable) -> Option<&[u8]>
    ensures { option_map word result ≡ slice_get names.now (length names.now - 1) }
{
    names.get(names.len().saturating_sub(1))
}

/// Appends an entry to the last column, if there is one.
fn push_entry(columns: &mut Vec<ReadColumn>, entry: (u32, Dec)) -> Result<(), Memory>
    ensures { OnOk result
        ((before : List (Bool × List (ℕ × Decimal))) (marked : Bool) (entries : List (ℕ × Decimal))
        → columns.old.items ≡ before ++ (marked, entries) ∷ []
        → columns.new.items ≡ before ++ (marked, entries ++ entry ∷ []) ∷ []) }
{
    let Some(last) = columns.len().checked_sub(1) else {
        return Ok(());
    };
    let column = &mut columns[last];
    column.entries.push(entry)
}

/// Gives back the memory that the last column, which has ended, does not take.
fn shrink_last(columns: &mut Vec<ReadColumn>)
    ensures { columns.new.items ≡ columns.old.items }
{
    if let Some(last) = columns.last_mut() {
        last.entries.shrink_to_fit();
    }
}

/// No entries, with memory for as many as the last column has: most columns of a deck are alike.
fn entries_like_last(alloc: Global, columns: &[ReadColumn]) -> Result<Entries, Memory>
    ensures { IfOk result (λ entries. entries ≡ []) }
{
    match columns.last() {
        Some(last) => Entries::with_capacity(alloc, last.entries.as_slice().len()),
        None => Ok(Entries::new(alloc)),
    }
}

/// The mark at this place, and 0 where there is none.
fn mark_at(marks: &[u32], place: usize) -> u32
    ensures { result ≡ unwrap_or (slice_get marks.now place) 0 }
{
    marks.get(place).copied().unwrap_or(0)
}

/// Sets the mark at this place, if there is one.
fn set_mark(marks: &mut Vec<u32>, place: usize, mark: u32)
    ensures { marks.new.items ≡ slice_set marks.old.items place mark }
{
    if let Some(old) = marks.get_mut(place) {
        *old = mark;
    }
}

impl ColumnTable {
    /// No columns, of no rows.
    pub(crate) fn new(alloc: Global) -> ColumnTable
        ensures { AreColumns [] no_columns result }
    {
        ColumnTable {
            names: NameTable::new(alloc),
            columns: Vec::new(alloc),
            goes_on: false,
            marked: false,
            count: 0,
            marks: Vec::new(alloc),
        }
    }

    /// Takes in that there is one row more, in which no column has an entry.
    pub(crate) fn add_row(&mut self) -> Result<(), Memory>
        ensures names { OnOk result (self.new.names ≡ self.old.names) }
        ensures row { OnOk result
            ((rows : List Word) (read : ReadColumns) (name : Word)
            → AreColumns rows read self.old → AreColumns (rows ++ name ∷ []) read self.new) }
    {
        let Ok(()) = self.marks.push(0) else {
            return Err(Memory);
        };
        Ok(())
    }

    /// Whether the column of this name goes on.
    pub(crate) fn is_current(&self, name: &[u8]) -> bool
        ensures { result ≡ is_current self.now name.now }
    {
        if !self.goes_on {
            return false;
        }
        match last_of(&self.names) {
            Some(last) => same_bytes(name, last),
            None => false,
        }
    }

    /// Whether a column has the name.
    pub(crate) fn has(&self, name: &[u8]) -> bool
        ensures { result ≡ is_one_of self.now.names name.now }
    {
        self.names.has(name)
    }

    /// Whether the column of this name has ended.
    pub(crate) fn has_ended(&self, name: &[u8]) -> bool
        ensures { result ≡ has_ended self.now name.now }
    {
        // a column that goes on has not ended, and most lines go on
        !self.is_current(name) && self.names.has(name)
    }

    /// Whether the column that goes on has an entry in the row at this place.
    pub(crate) fn has_entry(&self, place: usize) -> bool
        ensures { result ≡ is_marked_row self.now place }
    {
        self.goes_on && mark_at(&self.marks, place) as usize == self.names.len()
    }

    /// The count of the columns, with the one that goes on.
    pub(crate) fn len(&self) -> usize
        ensures { result ≡ length self.now.names }
    {
        self.names.len()
    }

    /// The count of the entries.
    pub(crate) fn count(&self) -> usize
        ensures { result ≡ self.now.count }
    {
        self.count
    }

    /// The names of the columns.
    pub(crate) fn names(&self) -> &NameTable
        ensures { result.now ≡ self.now.names }
    {
        &self.names
    }

    /// Ends the column that goes on, at a marker with this word.
    fn end_current(&mut self, word: &[u8])
        ensures { (rows : List Word) (read : ReadColumns)
            → AreColumns rows read self.old → AreColumns rows (after_marker read word.now) self.new }
    {
        self.goes_on = false;
        self.marked = same_bytes(word, b"'INTORG'");
    }

    /// Begins a column of a new name, and ends the one before.
    fn begin(&mut self, alloc: Global, name: &[u8]) -> Result<(), Memory>
        ensures { OnOk result
            ((rows : List Word) (read : ReadColumns)
            → AreColumns rows read self.old → is_one_of (names_of (all_of read)) name.now ≡ false
            → AreColumns rows (begun read name.now) self.new) }
    {
        let entries = entries_like_last(alloc, self.columns.as_slice())?;
        shrink_last(&mut self.columns);
        self.names.find_or_push(name)?;
        let Ok(()) = self.columns.push(ReadColumn {
            marked: self.marked,
            entries,
        })
        else {
            return Err(Memory);
        };
        self.goes_on = true;
        Ok(())
    }

    /// Takes an entry in the row at this place into the column that goes on.
    fn add_entry(&mut self, place: usize, value: Dec) -> Result<(), Memory>
        ensures { OnOk result
            ((rows : List Word) (read : ReadColumns) (pair : Pair)
            → AreColumns rows read self.old → IsSome read.current
            → position (bytes_eq pair.0) rows ≡ Some place → number pair.1 ≡ Some value
            → AreColumns rows (after_more read (pair ∷ [])) self.new) }
    {
        let (Ok(row), Ok(column)) = (u32::try_from(place), u32::try_from(self.names.len())) else {
            return Err(Memory);
        };
        let Some(count) = self.count.checked_add(1) else {
            return Err(Memory);
        };
        push_entry(&mut self.columns, (row, value))?;
        set_mark(&mut self.marks, place, column);
        self.count = count;
        Ok(())
    }

    /// Takes a pair into the column that goes on, where it has a row and a number.
    fn push_pair(&mut self, found: Resolved) -> Result<(), Memory>
        ensures { OnOk result
            ((rows : List Word) (read : ReadColumns) (pair : Pair)
            → AreColumns rows read self.old → IsSome read.current → IsKnown rows pair → found ≡ resolved rows pair
            → AreColumns rows (after_more read (pair ∷ [])) self.new) }
    {
        let Some(place) = found.row else {
            return Ok(());
        };
        let Some(value) = found.value else {
            return Ok(());
        };
        self.add_entry(place, value)
    }

    /// Takes the pairs into the column that goes on.
    fn push_pairs(&mut self, found: &[Resolved]) -> Result<(), Memory>
        ensures { OnOk result
            ((rows : List Word) (read : ReadColumns) (pairs : List Pair)
            → AreColumns rows read self.old → IsSome read.current → AreKnown rows pairs → found.now ≡ resolved_all rows pairs
            → AreColumns rows (after_more read pairs) self.new) }
    {
        match found {
            [first, others @ ..] => {
                self.push_pair(*first)?;
                self.push_pairs(others)
            }
            [] => Ok(()),
        }
    }

    /// Takes in one more data line of COLUMNS, with its pairs.
    pub(crate) fn add(
        &mut self,
        alloc: Global,
        r: &Record,
        found: &[Resolved],
    ) -> Result<(), Memory>
        ensures { OnOk result
            ((rows : List Word) (read : ReadColumns)
            → AreColumns rows read self.old → found.now ≡ resolved_all rows (entry_pairs r.now)
            → (is_marker r.now ≡ false → IsNext rows read r.now)
            → AreColumns rows (after_line read r.now) self.new) }
    {
        if is_marker(r) {
            self.end_current(field(r, 2));
            return Ok(());
        }
        let name = field(r, 0);
        if self.is_current(name) {
            return self.push_pairs(found);
        }
        self.begin(alloc, name)?;
        self.push_pairs(found)
    }

    /// The names, and the columns in the order of their names.
    pub(crate) fn into_parts(self) -> (NameTable, Vec<ReadColumn>)
        ensures names { result.0 ≡ self.names }
        ensures columns { result.1.items ≡ self.columns }
    {
        let ColumnTable {
            names,
            columns,
            goes_on: _,
            marked: _,
            count: _,
            marks: _,
        } = self;
        (names, columns)
    }
}
