//! The rows and the columns of the model that is made of what is carried.

ghost use Rattle.std.specs.Prelude.{◌≡◌, [], IfOk, drop, false, slice_get, unwrap_or};
ghost use Rattle.cgl_model.specs.declared.mip.RowKind.TheVariants.{N};
ghost use Rattle.cgl_mps.specs.Made.{column_with, head_or, made_columns, made_rows, row_at};

use crate::bound_table::{BoundTable, ColumnBounds};
use crate::bounds::zero;
use crate::column_table::{ColumnTable, ReadColumn};
use crate::pair_table::PairTable;
use cgl_model::{Column, Entries, Row, RowKind, Seq};
use cgl_num::Memory;
use cgl_text::NameTable;
use std::alloc::Global;
use std::vec::IntoIter;

/// The kind at the place, and N where there is none.
fn kind_at(kinds: &[RowKind], place: usize) -> RowKind
    ensures { result ≡ unwrap_or (slice_get kinds.now place) N }
{
    kinds.get(place).copied().unwrap_or(RowKind::N)
}

/// The row of this name at the place.
fn row_at(
    name: Vec<u8>,
    kinds: &[RowKind],
    rhs: &PairTable,
    ranges: &PairTable,
    place: usize,
) -> Row
    ensures { result ≡ row_at name.items kinds.now rhs.now.values ranges.now.values place }
{
    Row {
        name: Seq::from_vec(name),
        kind: kind_at(kinds, place),
        rhs: rhs.value(place).unwrap_or(zero()),
        range: ranges.value(place),
    }
}

/// The rows of these names and kinds, with their right sides and ranges.
pub(crate) fn rows_of(
    alloc: Global,
    names: NameTable,
    kinds: &[RowKind],
    rhs: &PairTable,
    ranges: &PairTable,
) -> Result<Seq<Row>, Memory>
    ensures { IfOk result (λ rows. rows ≡ made_rows names kinds.now rhs.now.values ranges.now.values) }
{
    let names = names.into_names(alloc)?;
    let Ok(mut rows) = Vec::with_capacity(alloc, names.len()) else {
        return Err(Memory);
    };
    for name in names {
        let place = rows.len();
        let Ok(()) = rows.push(row_at(name, kinds, rhs, ranges, place)) else {
            return Err(Memory);
        };
    }
    Ok(Seq::from_vec(rows))
}

/// The next column, and one without entries where there is none.
fn next_column(alloc: Global, columns: &mut IntoIter<ReadColumn>) -> ReadColumn
    ensures first { result ≡ head_or (false, []) columns.old.rest.items }
    ensures rest { columns.new.rest.items ≡ drop 1 columns.old.rest.items }
{
    match columns.next() {
        Some(column) => column,
        None => ReadColumn {
            marked: false,
            entries: Entries::new(alloc),
        },
    }
}

fn column_with(name: Vec<u8>, column: ReadColumn, own: ColumnBounds) -> Column
    ensures { result ≡ column_with name.items column own }
{
    let ReadColumn { marked, entries } = column;
    Column {
        name: Seq::from_vec(name),
        integer: marked || own.integer,
        lo: own.lower,
        up: own.upper,
        entries,
    }
}

/// The columns of the table, with their bounds.
pub(crate) fn columns_of(
    alloc: Global,
    table: ColumnTable,
    bounds: &BoundTable,
) -> Result<Seq<Column>, Memory>
    ensures { IfOk result (λ columns. columns ≡ made_columns table.names table.columns bounds.now.columns) }
{
    let (names, columns) = table.into_parts();
    let names = names.into_names(alloc)?;
    let Ok(mut made) = Vec::with_capacity(alloc, names.len()) else {
        return Err(Memory);
    };
    let mut columns = columns.into_iter();
    for name in names {
        let own = bounds.at(made.len());
        let column = column_with(name, next_column(alloc, &mut columns), own);
        let Ok(()) = made.push(column) else {
            return Err(Memory);
        };
    }
    Ok(Seq::from_vec(made))
}
