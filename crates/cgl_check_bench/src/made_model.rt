ghost use Rattle.std.specs.Prelude.{◌≤◌, ◌^◌, length, IfSome};

use cgl_model::{Column, Entries, Model, Row, RowKind, Seq};
use cgl_num::Dec;
use std::alloc::Global;

/// The columns, all binary.
pub const COLUMNS: u32 = 10_000;

/// The rows: each has the next four columns.
pub const ROWS: u32 = COLUMNS / 4;

fn row(alloc: Global) -> Option<Row> {
    Some(Row {
        name: Seq::new(alloc),
        kind: RowKind::L,
        rhs: Dec::whole(5)?,
        range: None,
    })
}

fn column(alloc: Global, row: u32) -> Option<Column> {
    let mut entries = Entries::new(alloc);
    entries.push((row, Dec::whole(3)?)).ok()?;
    Some(Column {
        name: Seq::new(alloc),
        integer: true,
        lo: Some(Dec::whole(0)?),
        up: Some(Dec::whole(1)?),
        entries,
    })
}

fn rows(alloc: Global) -> Option<Vec<Row>>
    ensures { IfSome result (λ rows. length rows.items ≤ 2 ^ 20) }
{
    let mut rows = Vec::new(alloc);
    for _ in 0..ROWS {
        rows.push(row(alloc)?).ok()?;
    }
    Some(rows)
}

fn columns(alloc: Global) -> Option<Vec<Column>>
    ensures { IfSome result (λ columns. length columns.items ≤ 2 ^ 20) }
{
    let mut columns = Vec::new(alloc);
    for at in 0..COLUMNS {
        columns.push(column(alloc, at / 4)?).ok()?;
    }
    Some(columns)
}

/// The rows are `3a + 3b + 3c + 3d <= 5` over four binary columns each.
pub fn model(alloc: Global) -> Option<Model>
    ensures rows { IfSome result (λ m. length m.rows ≤ 2 ^ 20) }
    ensures columns { IfSome result (λ m. length m.cols ≤ 2 ^ 20) }
{
    Some(Model {
        name: Seq::new(alloc),
        maximise: false,
        rows: Seq::from_vec(rows(alloc)?),
        cols: Seq::from_vec(columns(alloc)?),
    })
}
