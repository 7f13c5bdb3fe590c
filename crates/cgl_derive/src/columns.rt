ghost use Rattle.std.specs.Prelude.{◌≡◌, ◌↔◌, IsTrue, length, nat_lt};
ghost use Rattle.std.specs.List.{list_all};
ghost use Rattle.cgl_derive.specs.Binary.{AreBinary, IsBinary, IsBinaryAt};
ghost use Rattle.cgl_derive.specs.Derives.{AreColumns, AreIntegers, is_integer};

use cgl_model::{Column, Model};
use cgl_num::Dec;
use sqlite_items::at;

/// Whether the column is an integer one of the model; not so where there is no such column.
pub fn is_integer(model: &Model, column: u32) -> bool
    ensures { result ≡ is_integer model.now column }
{
    match at(model.cols.as_slice(), column as usize) {
        Some(column) => column.integer,
        None => false,
    }
}

/// Whether each column of the terms is an integer one of the model.
pub fn are_integers(model: &Model, terms: &[(u32, i128)]) -> bool
    ensures test { result ≡ list_all (λ t. is_integer model.now t.0) terms.now }
    ensures integers { IsTrue result ↔ AreIntegers model.now terms.now }
{
    terms.iter().all(|term| is_integer(model, term.0))
}

/// Whether the column is integer, with the bounds 0 and 1.
#[tactic(auto, unfolding(cgl_num::specs::Decimal::decimal_of))]
fn has_bits(column: &Column) -> bool
    ensures { IsTrue result ↔ IsBinary column.now }
{
    column.integer && column.lo == Dec::whole(0) && column.up == Dec::whole(1)
}

/// Whether the column is a binary one of the model, which is an integer one with the bounds 0 and 1; not so where there
/// is no such column.
pub fn is_binary(model: &Model, column: u32) -> bool
    ensures { IsTrue result ↔ IsBinaryAt model.now column }
{
    match at(model.cols.as_slice(), column as usize) {
        Some(column) => has_bits(column),
        None => false,
    }
}

/// Whether each column of the terms is a binary one of the model.
pub fn are_binary(model: &Model, terms: &[(u32, i128)]) -> bool
    ensures { IsTrue result ↔ AreBinary model.now terms.now }
{
    for term in terms {
        if !is_binary(model, term.0) {
            return false;
        }
    }
    true
}

/// Whether each column of the terms is one of the model.
pub fn are_columns(model: &Model, terms: &[(u32, i128)]) -> bool
    ensures test { result ≡ list_all (λ t. nat_lt t.0 (length model.now.cols)) terms.now }
    ensures columns { IsTrue result ↔ AreColumns model.now terms.now }
{
    let count = model.cols.as_slice().len();
    terms.iter().all(|term| (term.0 as usize) < count)
}
