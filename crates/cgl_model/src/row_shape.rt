ghost use Rattle.std.specs.Prelude.{◌≡◌, ◌≤ℤ◌, ◌<◌, ◌^◌, false, map, option_map, option_to_list, pos, unsigned_abs, IfOk};
ghost use Rattle.std.specs.List.{All, filter, list_any};
ghost use Rattle.std.specs.Option.{IfSome};
ghost use Rattle.cgl_num.specs.Gcd.{gcd_of};
ghost use Rattle.cgl_model.specs.Ends.{lower_end as lower, upper_end as upper};
ghost use Rattle.cgl_model.specs.IntegerForm.{IsNarrowShape, divided, divided_row, form_of, is_nonzero_term, is_wide_number, row_numbers, row_shape, shape_of_numbers};
ghost use Rattle.cgl_model.specs.RowEntries.{RiseFrom};

use crate::row_numbers::{Refusal, RowNumbers, scale_row};
use crate::scaling::{WIDE, places_of_row};
use crate::{Row, RowForm, RowKind, RowShape, Terms};
use cgl_num::{Dec, Memory};
use std::alloc::Global;

fn lower_end(kind: RowKind, rhs: i128, range: Option<i128>) -> Option<i128>
    requires rhs { unsigned_abs rhs < 2 ^ 100 }
    requires range { IfSome range (λ r. unsigned_abs r < 2 ^ 100) }
    ensures { result ≡ lower kind rhs range }
{
    match kind {
        RowKind::N => None,
        RowKind::L => match range {
            Some(range) => Some(rhs - range.unsigned_abs() as i128),
            None => None,
        },
        RowKind::G => Some(rhs),
        RowKind::E => Some(rhs + range.unwrap_or(0).min(0)),
    }
}

fn upper_end(kind: RowKind, rhs: i128, range: Option<i128>) -> Option<i128>
    requires rhs { unsigned_abs rhs < 2 ^ 100 }
    requires range { IfSome range (λ r. unsigned_abs r < 2 ^ 100) }
    ensures value { result ≡ upper kind rhs range }
    ensures narrow { IfSome result (λ e. unsigned_abs e < 2 ^ 127) }
{
    match kind {
        RowKind::N => None,
        RowKind::L => Some(rhs),
        RowKind::G => match range {
            Some(range) => Some(rhs + range.unsigned_abs() as i128),
            None => None,
        },
        RowKind::E => Some(rhs + range.unwrap_or(0).max(0)),
    }
}

fn is_wide(end: Option<i128>) -> bool
    ensures { result ≡ list_any is_wide_number (option_to_list end) }
{
    match end {
        Some(number) => number.unsigned_abs() >= WIDE,
        None => false,
    }
}

/// The number divided, where the divisor is not 0.
fn divide(number: i128, divisor: i128) -> i128
    requires divisor { pos 0 ≤ℤ divisor }
    requires narrow { unsigned_abs number < 2 ^ 100 }
    ensures value { result ≡ divided (unsigned_abs divisor) number }
    ensures narrow { unsigned_abs result < 2 ^ 100 }
{
    if divisor == 0 {
        return number;
    }
    number / divisor
}

fn divide_range(range: Option<i128>, divisor: i128) -> Option<i128>
    requires divisor { pos 0 ≤ℤ divisor }
    requires narrow { IfSome range (λ r. unsigned_abs r < 2 ^ 100) }
    ensures value { result ≡ option_map (divided (unsigned_abs divisor)) range }
    ensures narrow { IfSome result (λ r. unsigned_abs r < 2 ^ 100) }
{
    match range {
        Some(range) => Some(divide(range, divisor)),
        None => None,
    }
}

fn divide_terms(alloc: Global, coeffs: &[(u32, i128)], divisor: i128) -> Result<Terms, Memory>
    requires divisor { pos 0 ≤ℤ divisor }
    requires narrow { All (λ t. unsigned_abs t.1 < 2 ^ 100) coeffs.now }
    requires rising { RiseFrom 0 coeffs.now }
    ensures { IfOk result (λ terms. terms ≡ filter is_nonzero_term (map (λ t. (t.0, divided (unsigned_abs divisor) t.1)) coeffs.now)) }
{
    let mut terms = Terms::new(alloc);
    for term in coeffs {
        let coefficient = divide(term.1, divisor);
        if coefficient != 0 {
            terms.push((term.0, coefficient))?;
        }
    }
    Ok(terms)
}

/// The integer form of a row from its scaled numbers.
fn form_of_numbers(alloc: Global, kind: RowKind, numbers: &RowNumbers) -> Result<RowForm, Memory>
    requires narrow { list_any is_wide_number (row_numbers numbers.now) ≡ false }
    requires rising { RiseFrom 0 numbers.now.coeffs }
    ensures value { IfOk result (λ f. f ≡ form_of kind (divided_row (gcd_of (row_numbers numbers.now)) numbers.now)) }
    ensures narrow { IfOk result (λ f. IfSome f.up (λ e. unsigned_abs e < 2 ^ 127)) }
{
    let divisor = numbers.divisor();
    let coeffs = divide_terms(alloc, numbers.coeffs.as_slice(), divisor)?;
    let rhs = divide(numbers.rhs, divisor);
    let range = divide_range(numbers.range, divisor);
    Ok(RowForm {
        coeffs,
        rhs,
        lo: lower_end(kind, rhs, range),
        up: upper_end(kind, rhs, range),
    })
}

fn shape_of(alloc: Global, kind: RowKind, numbers: &RowNumbers) -> Result<RowShape, Memory>
    requires narrow { list_any is_wide_number (row_numbers numbers.now) ≡ false }
    requires rising { RiseFrom 0 numbers.now.coeffs }
    ensures value { IfOk result (λ s. s ≡ shape_of_numbers kind numbers.now) }
    ensures narrow { IfOk result IsNarrowShape }
{
    let lo = lower_end(kind, numbers.rhs, numbers.range);
    let up = upper_end(kind, numbers.rhs, numbers.range);
    if is_wide(lo) || is_wide(up) {
        return Ok(RowShape::Wide);
    }
    Ok(RowShape::Form(form_of_numbers(alloc, kind, numbers)?))
}

/// The integer form of a row with these entries, whose columns rise.
pub fn shape_of_row(alloc: Global, entries: &[(u32, Dec)], row: &Row) -> Result<RowShape, Memory>
    requires { RiseFrom 0 entries.now }
    ensures value { IfOk result (λ s. s ≡ row_shape entries.now row.now) }
    ensures narrow { IfOk result IsNarrowShape }
{
    if let RowKind::N = row.kind {
        return Ok(RowShape::Free);
    }
    let k = places_of_row(entries, row);
    match scale_row(alloc, k, entries, row) {
        Ok(numbers) => shape_of(alloc, row.kind, &numbers),
        Err(Refusal::Wide) => Ok(RowShape::Wide),
        Err(Refusal::Memory) => Err(Memory),
    }
}
