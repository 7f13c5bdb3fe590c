ghost use Rattle.std.specs.Prelude.{◌≡◌, ℕ, ◌<◌, ◌≤◌, ◌^◌, [], None, Some, length, slice_index_or, IfNone, IfOk, IfSome, MatchOption, OnOk};
ghost use Rattle.cgl_model.specs.Absent.{IsNowhere, IsSideAt};
ghost use Rattle.cgl_model.specs.FormList.{form_at, is_wide_at, side_number};
ghost use Rattle.cgl_model.specs.HasDecimals.{HasDecimals};
ghost use Rattle.cgl_model.specs.IntegerForm.{forms_of, row_shapes, row_sides_from};
ghost use Rattle.cgl_model.specs.PlaceOrder.{end_rank, rank, IsSideList, RanksRise};

use crate::row_lists::entries_of_rows;
use crate::row_shape::shape_of_row;
use crate::side_list::{add_column_sides, add_row_sides};
use crate::{End, Place, Seq, Side, Terms};
use cgl_num::Memory;
use std::alloc::Global;

/// A row that is not N in whole numbers, divided by the gcd of its coefficients, its right side and its range: the
/// coefficients by columns, those that are 0 left out, the right side and the two ends. An end that is `None` is
/// infinite.
#[derive(Drop)]
pub struct RowForm {
    pub coeffs: Terms,
    pub rhs: i128,
    pub lo: Option<i128>,
    pub up: Option<i128>,
}

/// The integer form of a row: `Free` for an N row, and `Wide` where a number of it, or an end, reaches 2^100 before it
/// is divided.
#[derive(Drop)]
pub enum RowShape {
    Free,
    Wide,
    Form(RowForm),
}

/// The integer forms of a model's rows, and each finite end as an inequality in whole numbers. Sides are numbered from
/// 0 in the order of their places: for each row its lower and then its upper side, and then for each column those of
/// its bounds. N rows and wide rows have none.
#[derive(Drop)]
pub struct Forms {
    rows: Seq<RowShape>,
    sides: Seq<Side>,
}

impl std::marker::Model for Forms {
    ghost use Rattle.cgl_model.specs.FormList.{FormList};
    ghost use Rattle.cgl_model.specs.PlaceOrder.{IsSideList};

    ghost Value = { FormList };

    ghost view = { λ it. record { rows = it.rows; sides = it.sides } };

    ghost invariant = { λ it. IsSideList it.sides };
}

/// Fills empty lists with the forms of all rows, and their sides.
fn add_rows(
    alloc: Global,
    shapes: &mut Seq<RowShape>,
    sides: &mut Seq<Side>,
    m: &crate::Model,
) -> Result<(), Memory>
    requires shapes { shapes.old ≡ [] }
    requires sides { sides.old ≡ [] }
    requires rows { length m.now.rows ≤ 2 ^ 20 }
    requires columns { length m.now.cols ≤ 2 ^ 20 }
    ensures shapes { OnOk result (shapes.new ≡ row_shapes m.now) }
    ensures sides { OnOk result (sides.new ≡ row_sides_from 0 (row_shapes m.now)) }
{
    let lists = entries_of_rows(alloc, m)?;
    let entries = lists.as_slice();
    let rows = m.rows.as_slice();
    for (r, row) in rows.iter().enumerate() {
        let shape = shape_of_row(alloc, entries[r].as_slice(), row)?;
        add_row_sides(alloc, sides, r as u32, &shape)?;
        shapes.push(shape)?;
    }
    Ok(())
}

impl Forms {
    /// Prepares the integer forms of all rows, and all sides, of a model of at most 2^20 rows and 2^20 columns.
    ///
    /// # Errors
    ///
    /// `Memory` where memory is refused, and for no other cause.
    pub fn build(alloc: Global, m: &crate::Model) -> Result<Forms, Memory>
        requires rows { length m.now.rows ≤ 2 ^ 20 }
        requires columns { length m.now.cols ≤ 2 ^ 20 }
        ensures value { IfOk result (λ forms. forms ≡ forms_of m.now) }
        ensures decimals { HasDecimals m.now }
    {
        m.has_decimals();
        let mut rows = Seq::new(alloc);
        let mut sides = Seq::new(alloc);
        add_rows(alloc, &mut rows, &mut sides, m)?;
        add_column_sides(alloc, &mut sides, m.cols.as_slice())?;
        Ok(Forms { rows, sides })
    }

    /// All sides, in rising order of their places, each place at most once.
    pub fn sides(&self) -> &[Side]
        ensures { result.now ≡ self.now.sides }
    {
        self.sides.as_slice()
    }

    /// The number, from 0, of the one side that stands at this place; `None` exactly where no side does. In the forms
    /// of a model that is where the end is infinite, the row is N or wide, or there is no such row or column. Takes no
    /// memory, and about as many steps as the number of sides has binary digits.
    #[tactic(auto, using(crate::proofs::AbsentLaws::found_in, crate::proofs::AbsentLaws::nowhere_in))]
    pub fn find(&self, place: Place) -> Option<u32>
        ensures number { result ≡ side_number place self.now.sides }
        ensures none { IfNone result (IsNowhere place self.now.sides) }
        ensures found { IfSome result (IsSideAt place self.now.sides) }
        ensures order { IsSideList self.now.sides }
    {
        number_in(self.sides.as_slice(), place)
    }

    /// The integer form of a row; `None` exactly where it is N or wide, or where there is no such row.
    pub fn row_form(&self, row: u32) -> Option<&RowForm>
        ensures { MatchOption result (form_at self.now.rows row ≡ None) (λ form. form_at self.now.rows row ≡ Some form.now) }
    {
        let RowShape::Form(form) = self.rows.as_slice().get(row as usize)? else {
            return None;
        };
        Some(form)
    }

    /// Whether a number of the row, or an end of it, is too large for an integer form: in whole numbers it reaches
    /// 2^100. Not so for an N row, nor where there is no such row.
    pub fn wide(&self, row: u32) -> bool
        ensures { result ≡ is_wide_at self.now.rows row }
    {
        match self.rows.as_slice().get(row as usize) {
            Some(RowShape::Wide) => true,
            Some(RowShape::Free) => false,
            Some(RowShape::Form(_)) => false,
            None => false,
        }
    }
}

fn end_order(end: End) -> u64
    ensures { result ≡ end_rank end }
{
    match end {
        End::Lower => 0,
        End::Upper => 1,
    }
}

/// The order of the places of sides.
fn order(place: Place) -> u64
    ensures { result ≡ rank place }
{
    match place {
        Place::Row(row, end) => 2 * row as u64 + end_order(end),
        Place::Bound(column, end) => (1 << 33) + (2 * column as u64 + end_order(end)),
    }
}

/// How many sides stand before this place.
fn sides_before(sides: &[Side], place: Place) -> usize
    requires { RanksRise 0 sides.now }
    ensures within { result ≤ length sides.now }
    ensures before { (k : ℕ) (d : Side) → k < result → rank (slice_index_or sides.now k d).place < rank place }
    ensures after { (k : ℕ) (d : Side) → result ≤ k → k < length sides.now → rank place ≤ rank (slice_index_or sides.now k d).place }
{
    let target = order(place);
    let mut low = 0;
    let mut high = sides.len();
    while low < high {
        let middle = low + (high - low) / 2;
        if order(sides[middle].place) < target {
            low = middle + 1;
        } else {
            high = middle;
        }
    }
    low
}

/// The number of the side at this place.
fn number_in(sides: &[Side], place: Place) -> Option<u32>
    requires size { length sides.now ≤ 2 ^ 22 }
    requires order { RanksRise 0 sides.now }
    ensures { result ≡ side_number place sides.now }
{
    let number = sides_before(sides, place);
    if number == sides.len() {
        return None;
    }
    let side = &sides[number];
    if place == side.place {
        Some(number as u32)
    } else {
        None
    }
}
