//! Whether two models are the same.

ghost use Rattle.std.specs.Prelude.{◌≡◌};
ghost use Rattle.std.specs.Cmp.Lexicographic.{pointwise};
ghost use Rattle.cgl_app.specs.SameModel.{same_column, same_entry, same_flag, same_kind, same_limit, same_model, same_row};

use cgl_model::{Column, Model, Row, RowKind};
use cgl_num::Dec;

fn same_kind(a: RowKind, b: RowKind) -> bool
    ensures { result ≡ same_kind a b }
{
    a == b
}

fn same_flag(a: bool, b: bool) -> bool
    ensures { result ≡ same_flag a b }
{
    a == b
}

fn same_limit(a: Option<Dec>, b: Option<Dec>) -> bool
    ensures { result ≡ same_limit a b }
{
    match (a, b) {
        (None, None) => true,
        (Some(a), Some(b)) => a == b,
        _ => false,
    }
}

#[tactic(auto, unfolding(crate::specs::SameModel::same_row))]
fn same_row(a: &Row, b: &Row) -> bool
    ensures { result ≡ same_row a.now b.now }
{
    a.name.as_slice() == b.name.as_slice()
        && same_kind(a.kind, b.kind)
        && a.rhs == b.rhs
        && same_limit(a.range, b.range)
}

fn same_rows(a: &[Row], b: &[Row]) -> bool
    ensures { result ≡ pointwise same_row a.now b.now }
{
    if a.len() != b.len() {
        return false;
    }
    for (k, row) in a.iter().enumerate() {
        if !same_row(row, &b[k]) {
            return false;
        }
    }
    true
}

fn same_entries(a: &[(u32, Dec)], b: &[(u32, Dec)]) -> bool
    ensures { result ≡ pointwise same_entry a.now b.now }
{
    a == b
}

#[tactic(auto, unfolding(crate::specs::SameModel::same_column))]
fn same_column(a: &Column, b: &Column) -> bool
    ensures { result ≡ same_column a.now b.now }
{
    a.name.as_slice() == b.name.as_slice()
        && same_flag(a.integer, b.integer)
        && same_limit(a.lo, b.lo)
        && same_limit(a.up, b.up)
        && same_entries(a.entries.as_slice(), b.entries.as_slice())
}

fn same_columns(a: &[Column], b: &[Column]) -> bool
    ensures { result ≡ pointwise same_column a.now b.now }
{
    if a.len() != b.len() {
        return false;
    }
    for (k, column) in a.iter().enumerate() {
        if !same_column(column, &b[k]) {
            return false;
        }
    }
    true
}

#[tactic(auto, unfolding(crate::specs::SameModel::same_model))]
pub fn same_model(a: &Model, b: &Model) -> bool
    ensures { result ≡ same_model a.now b.now }
{
    a.name.as_slice() == b.name.as_slice()
        && same_flag(a.maximise, b.maximise)
        && same_rows(a.rows.as_slice(), b.rows.as_slice())
        && same_columns(a.cols.as_slice(), b.cols.as_slice())
}
