ghost use Rattle.std.specs.Prelude.{◌≡◌, ℕ, ◌+◌, ◌<◌, ◌≤◌, ◌^◌, [], ◌∷◌, ◌++◌, ◌⊎◌, None, Some, is_some, length, map, position, sum_by, not, pos, nat_lt, nat_le, zip, IfOk, IsErrOf, MatchOption, IsSome, IsTrue, OnErr, OnOk};
ghost use Rattle.std.specs.List.{list_all};
ghost use Rattle.cgl_num.specs.Decimal.{decimal_of};
ghost use Rattle.cgl_model.specs.Rising.{IsRising};
ghost use Rattle.cgl_deck.specs.CutNames.{cut_names};
ghost use Rattle.cgl_deck.specs.Extended.{AreRising, IsTooMany, cut_row, decimal_or_zero, extended, extended_columns_from, is_decimal, is_known, is_within_sizes, term_count, with_rows};

use crate::names::{copied_name, cut_names};
use cgl_model::{Column, Entries, Ineq, MOST_ENTRIES, MOST_ROWS, Model, Name, Row, RowKind, Seq};
use cgl_num::{Dec, Memory};
use std::alloc::Global;

/// Why there is no model with these cuts as rows. Of several causes the one that stands first here is told.
#[derive(Clone, Copy, Debug, PartialEq, Eq)]
pub enum ExtendError {
    /// The first cut, counted from 0, that names a column beyond the model.
    Unknown { cut: u32 },
    /// The first cut, counted from 0, with an integer that is no decimal within the limits.
    NotDec { cut: u32 },
    /// More than 2^20 rows or 2^22 entries.
    TooMany,
    /// Want of memory.
    Memory,
}

// ---- refusals

fn names_known_columns(model: &Model, cut: &Ineq) -> bool
    ensures { result ≡ is_known model.now cut.now }
{
    let columns = model.cols.as_slice().len();
    for term in cut.terms.as_slice() {
        if term.0 as usize >= columns {
            return false;
        }
    }
    true
}

fn is_decimal_term(term: &(u32, i128)) -> bool
    ensures { result ≡ is_some (decimal_of term.now.1) }
{
    Dec::whole(term.1).is_some()
}

fn has_decimals(cut: &Ineq) -> bool
    ensures { result ≡ is_decimal cut.now }
{
    for term in cut.terms.as_slice() {
        if !is_decimal_term(term) {
            return false;
        }
    }
    Dec::whole(cut.rhs).is_some()
}

/// The first cut that names a column beyond the model.
fn first_unknown(model: &Model, cuts: &[Ineq]) -> Option<usize>
    ensures { MatchOption result (IsTrue (list_all (is_known model.now) cuts.now)) (λ k. position (λ c. not (is_known model.now c)) cuts.now ≡ Some k) }
{
    for k in 0..cuts.len() {
        if !names_known_columns(model, &cuts[k]) {
            return Some(k);
        }
    }
    None
}

/// The first cut with an integer that is no decimal within the limits.
fn first_not_decimal(cuts: &[Ineq]) -> Option<usize>
    ensures { MatchOption result (IsTrue (list_all is_decimal cuts.now)) (λ k. position (λ c. not (is_decimal c)) cuts.now ≡ Some k) }
{
    for k in 0..cuts.len() {
        if !has_decimals(&cuts[k]) {
            return Some(k);
        }
    }
    None
}

/// Whether the entries of the columns and the terms of the cuts are at most 2^22 together.
fn entries_fit(columns: &[Column], cuts: &[Ineq]) -> bool
    ensures { result ≡ nat_le (sum_by (λ c. length c.entries) columns.now + term_count cuts.now) (2 ^ 22) }
{
    let mut left = MOST_ENTRIES;
    for column in columns {
        let entries = column.entries.as_slice().len();
        if left < entries {
            return false;
        }
        left -= entries;
    }
    for cut in cuts {
        let terms = cut.terms.as_slice().len();
        if left < terms {
            return false;
        }
        left -= terms;
    }
    true
}

fn fits(model: &Model, cuts: &[Ineq]) -> bool
    requires { length cuts.now < 2 ^ 32 }
    ensures { result ≡ is_within_sizes model.now cuts.now }
{
    model.rows.as_slice().len() + cuts.len() <= MOST_ROWS
        && entries_fit(model.cols.as_slice(), cuts)
}

// ---- copies

fn copied_entries(alloc: Global, entries: &[(u32, Dec)]) -> Result<Entries, Memory>
    ensures { IfOk result (λ copy. copy ≡ entries.now) }
{
    let mut copy = Entries::new(alloc);
    for entry in entries {
        copy.push(*entry)?;
    }
    Ok(copy)
}

// ---- rows

fn right_side(cut: &Ineq) -> Dec
    requires { IsTrue (is_decimal cut.now) }
    ensures { result ≡ decimal_or_zero cut.now.rhs }
{
    Dec::whole(cut.rhs).unwrap()
}

fn add_row(
    alloc: Global,
    rows: &mut Seq<Row>,
    name: &[u8],
    kind: RowKind,
    rhs: Dec,
    range: Option<Dec>,
) -> Result<(), Memory>
    ensures { OnOk result (rows.new ≡ rows.old ++ record { name = name.now; kind = kind; rhs = rhs; range = range } ∷ []) }
{
    let name = copied_name(alloc, name)?;
    rows.push(Row {
        name,
        kind,
        rhs,
        range,
    })
}

fn add_row_copies(alloc: Global, copies: &mut Seq<Row>, rows: &[Row]) -> Result<(), Memory>
    ensures { OnOk result (copies.new ≡ copies.old ++ rows.now) }
{
    for row in rows {
        let name = row.name.as_slice();
        add_row(alloc, copies, name, row.kind, row.rhs, row.range)?;
    }
    Ok(())
}

fn add_cut_rows(
    alloc: Global,
    rows: &mut Seq<Row>,
    names: &[Name],
    cuts: &[Ineq],
) -> Result<(), Memory>
    requires { IsTrue (list_all is_decimal cuts.now) }
    ensures { OnOk result (rows.new ≡ rows.old ++ map cut_row (zip names.now cuts.now)) }
{
    for k in 0..names.len().min(cuts.len()) {
        let name = names[k].as_slice();
        let rhs = right_side(&cuts[k]);
        add_row(alloc, rows, name, RowKind::G, rhs, None)?;
    }
    Ok(())
}

/// The model's rows, and one for each cut behind them.
fn all_rows(alloc: Global, model: &Model, cuts: &[Ineq]) -> Result<Seq<Row>, Memory>
    requires decimal { IsTrue (list_all is_decimal cuts.now) }
    requires few { length cuts.now < 2 ^ 32 }
    ensures { IfOk result (λ rows. rows ≡ model.now.rows ++ map cut_row (zip (cut_names model.now (length cuts.now)) cuts.now)) }
{
    let names = cut_names(alloc, model, cuts.len() as u32)?;
    let mut rows = Seq::new(alloc);
    add_row_copies(alloc, &mut rows, model.rows.as_slice())?;
    add_cut_rows(alloc, &mut rows, names.as_slice(), cuts)?;
    Ok(rows)
}

// ---- columns

fn add_column_copy(alloc: Global, copies: &mut Seq<Column>, column: &Column) -> Result<(), Memory>
    ensures { OnOk result (copies.new ≡ copies.old ++ column.now ∷ []) }
{
    let entries = copied_entries(alloc, column.entries.as_slice())?;
    let name = copied_name(alloc, column.name.as_slice())?;
    copies.push(Column {
        name,
        integer: column.integer,
        lo: column.lo,
        up: column.up,
        entries,
    })
}

fn copied_columns(alloc: Global, columns: &[Column]) -> Result<Seq<Column>, Memory>
    ensures { IfOk result (λ copies. copies ≡ columns.now) }
{
    let mut copies = Seq::new(alloc);
    for column in columns {
        add_column_copy(alloc, &mut copies, column)?;
    }
    Ok(copies)
}

/// Adds a term of the cut that has this row to its column.
fn add_term(columns: &mut [Column], row: u32, term: &(u32, i128)) -> Result<(), Memory>
    requires known { term.now.0 < length columns.old }
    requires decimal { IsSome (decimal_of term.now.1) }
    ensures { OnOk result (columns.new ≡ extended_columns_from row 0 (record { terms = term.now ∷ []; rhs = pos 0 } ∷ []) columns.old) }
{
    let number = Dec::whole(term.1).unwrap();
    columns[term.0 as usize].entries.push((row, number))
}

/// Adds the terms of a cut, which has this row, to their columns.
fn add_terms(columns: &mut [Column], row: u32, cut: &Ineq) -> Result<(), Memory>
    requires known { IsTrue (list_all (λ t. nat_lt t.0 (length columns.old)) cut.now.terms) }
    requires decimal { IsTrue (is_decimal cut.now) }
    ensures columns { OnOk result (columns.new ≡ extended_columns_from row 0 (cut.now ∷ []) columns.old) }
    ensures rising { IsRising cut.now.terms }
{
    for term in cut.terms.as_slice() {
        add_term(columns, row, term)?;
    }
    Ok(())
}

/// Adds the terms of the cuts, whose rows are numbered from `first` on, to their columns.
fn add_cuts(columns: &mut [Column], first: u32, cuts: &[Ineq]) -> Result<(), Memory>
    requires known { IsTrue (list_all (λ c. list_all (λ t. nat_lt t.0 (length columns.old)) c.terms) cuts.now) }
    requires decimal { IsTrue (list_all is_decimal cuts.now) }
    requires rows { first + length cuts.now ≤ 2 ^ 20 }
    ensures columns { OnOk result (columns.new ≡ extended_columns_from first 0 cuts.now columns.old) }
    ensures rising { OnOk result (AreRising cuts.now) }
{
    for k in 0..cuts.len() {
        add_terms(columns, first + k as u32, &cuts[k])?;
    }
    Ok(())
}

/// The model's columns, and the terms of the cuts behind their entries.
fn longer_columns(
    alloc: Global,
    model: &Model,
    first: u32,
    cuts: &[Ineq],
) -> Result<Seq<Column>, Memory>
    requires known { IsTrue (list_all (is_known model.now) cuts.now) }
    requires decimal { IsTrue (list_all is_decimal cuts.now) }
    requires rows { first + length cuts.now ≤ 2 ^ 20 }
    ensures columns { IfOk result (λ columns. columns ≡ extended_columns_from first 0 cuts.now model.now.cols) }
    ensures rising { OnOk result (AreRising cuts.now) }
{
    let mut columns = copied_columns(alloc, model.cols.as_slice())?.into_vec();
    add_cuts(&mut columns, first, cuts)?;
    Ok(Seq::from_vec(columns))
}

// ---- all

/// The model with the rows and columns of its extension.
fn extend(alloc: Global, model: &Model, cuts: &[Ineq]) -> Result<Model, Memory>
    requires known { IsTrue (list_all (is_known model.now) cuts.now) }
    requires decimal { IsTrue (list_all is_decimal cuts.now) }
    requires sizes { IsTrue (is_within_sizes model.now cuts.now) }
    ensures model { IfOk result (λ n. n ≡ with_rows model.now cuts.now) }
    ensures rising { OnOk result (AreRising cuts.now) }
{
    let first = model.rows.as_slice().len() as u32;
    let name = copied_name(alloc, model.name.as_slice())?;
    let rows = all_rows(alloc, model, cuts)?;
    let cols = longer_columns(alloc, model, first, cuts)?;
    Ok(Model {
        name,
        maximise: model.maximise,
        rows,
        cols,
    })
}

/// The model with a G row behind its rows for each cut, in the order of the cuts. The rows have the names that
/// `cut_names` gives, the right sides of the cuts and no range; the coefficients stand behind the columns' entries.
/// The cuts are fewer than 2^32.
///
/// # Errors
///
/// `Unknown` exactly where a cut names a column beyond the model: the first such cut, counted from 0.
/// `NotDec` exactly where no cut does, but an integer of a cut is no decimal within the limits: the first such cut.
/// `TooMany` exactly where neither stands, but there would be more than 2^20 rows or 2^22 entries.
/// `Memory` only where none of these stands: they are found before any memory is taken.
pub fn with_cuts(alloc: Global, model: &Model, cuts: &[Ineq]) -> Result<Model, ExtendError>
    requires { length cuts.now < 2 ^ 32 }
    ensures ok { IfOk result (λ n. extended model.now cuts.now ≡ Some n) }
    ensures rising { OnOk result (AreRising cuts.now) }
    ensures unknown { (k : ℕ) → IsErrOf result (ExtendError.Unknown k) → position (λ c. not (is_known model.now c)) cuts.now ≡ Some k }
    ensures known { (k : ℕ) → IsErrOf result (ExtendError.NotDec k) → IsTrue (list_all (is_known model.now) cuts.now) }
    ensures not_decimal { (k : ℕ) → IsErrOf result (ExtendError.NotDec k) → position (λ c. not (is_decimal c)) cuts.now ≡ Some k }
    ensures too_many { IsErrOf result ExtendError.TooMany → IsTooMany model.now cuts.now }
    ensures refused { OnErr result (IsErrOf result ExtendError.Memory ⊎ (extended model.now cuts.now ≡ None)) }
    // so each cause that stands is answered by its own error
    ensures memory { IsErrOf result ExtendError.Memory → IsSome (extended model.now cuts.now) }
{
    if let Some(cut) = first_unknown(model, cuts) {
        return Err(ExtendError::Unknown { cut: cut as u32 });
    }
    if let Some(cut) = first_not_decimal(cuts) {
        return Err(ExtendError::NotDec { cut: cut as u32 });
    }
    if !fits(model, cuts) {
        return Err(ExtendError::TooMany);
    }
    let Ok(extended) = extend(alloc, model, cuts) else {
        return Err(ExtendError::Memory);
    };
    Ok(extended)
}
