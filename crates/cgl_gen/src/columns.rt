ghost use Rattle.std.specs.Prelude.{◌≡◌};
ghost use Rattle.std.specs.List.{list_all};
ghost use Rattle.cgl_derive.specs.Derives.{is_integer};

use cgl_model::Model;

fn is_integer(model: &Model, column: u32) -> bool
    ensures { result ≡ is_integer model.now column }
{
    match model.cols.as_slice().get(column as usize) {
        Some(column) => column.integer,
        None => false,
    }
}

/// Whether each column of the terms is an integer one.
pub fn are_integer(model: &Model, terms: &[(u32, i128)]) -> bool
    ensures { result ≡ list_all (λ t. is_integer model.now t.0) terms.now }
{
    terms.iter().all(|term| is_integer(model, term.0))
}
