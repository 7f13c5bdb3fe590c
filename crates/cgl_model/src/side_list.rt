ghost use Rattle.std.specs.Prelude.{◌≡◌, ◌++◌, ◌∷◌, [], ◌≤◌, ◌^◌, length, IfOk, OnOk};
ghost use Rattle.cgl_model.specs.IntegerForm.{IsNarrowShape, column_sides, column_sides_from, negated, row_sides};
ghost use Rattle.cgl_model.specs.Rising.{IsCoefficient};

use crate::scaling::bound_of;
use crate::{Column, End, Ineq, Place, RowShape, Seq, Side, Terms};
use cgl_num::Memory;
use std::alloc::Global;

fn negated_copy(alloc: Global, terms: &Terms) -> Result<Terms, Memory>
    ensures { IfOk result (λ copy. copy ≡ negated terms.now) }
{
    let mut copy = Terms::new(alloc);
    for term in terms.as_slice() {
        copy.push((term.0, -term.1))?;
    }
    Ok(copy)
}

/// Appends the sides of a row.
pub fn add_row_sides(
    alloc: Global,
    sides: &mut Seq<Side>,
    row: u32,
    shape: &RowShape,
) -> Result<(), Memory>
    requires { IsNarrowShape shape.now }
    ensures { OnOk result (sides.new ≡ sides.old ++ row_sides row shape.now) }
{
    let RowShape::Form(form) = shape else {
        return Ok(());
    };
    if let Some(rhs) = form.lo {
        let place = Place::Row(row, End::Lower);
        let terms = form.coeffs.copy(alloc)?;
        sides.push(Side {
            place,
            ineq: Ineq { terms, rhs },
        })?;
    }
    if let Some(end) = form.up {
        let place = Place::Row(row, End::Upper);
        let terms = negated_copy(alloc, &form.coeffs)?;
        sides.push(Side {
            place,
            ineq: Ineq { terms, rhs: -end },
        })?;
    }
    Ok(())
}

/// Appends a side of one term.
fn add_bound(
    alloc: Global,
    sides: &mut Seq<Side>,
    place: Place,
    term: (u32, i128),
    rhs: i128,
) -> Result<(), Memory>
    requires { IsCoefficient term.1 }
    ensures { OnOk result (sides.new ≡ sides.old ++ record { place = place; ineq = record { terms = term ∷ []; rhs = rhs } } ∷ []) }
{
    let mut terms = Terms::new(alloc);
    terms.push(term)?;
    sides.push(Side {
        place,
        ineq: Ineq { terms, rhs },
    })
}

/// Appends the sides of a column's bounds.
fn add_bounds(alloc: Global, sides: &mut Seq<Side>, j: u32, column: &Column) -> Result<(), Memory>
    ensures { OnOk result (sides.new ≡ sides.old ++ column_sides j column.now) }
{
    if let Some(limit) = column.lo {
        let place = Place::Bound(j, End::Lower);
        let bound = bound_of(limit);
        add_bound(alloc, sides, place, (j, bound.den()), bound.num())?;
    }
    if let Some(limit) = column.up {
        let place = Place::Bound(j, End::Upper);
        let bound = bound_of(limit);
        add_bound(alloc, sides, place, (j, -bound.den()), -bound.num())?;
    }
    Ok(())
}

/// Appends the sides of all columns' bounds.
pub fn add_column_sides(
    alloc: Global,
    sides: &mut Seq<Side>,
    columns: &[Column],
) -> Result<(), Memory>
    requires { length columns.now ≤ 2 ^ 20 }
    ensures { OnOk result (sides.new ≡ sides.old ++ column_sides_from 0 columns.now) }
{
    for (j, column) in columns.iter().enumerate() {
        add_bounds(alloc, sides, j as u32, column)?;
    }
    Ok(())
}
