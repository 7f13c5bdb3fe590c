//! Fields that hold one value.

ghost use Rattle.std.specs.Prelude.{◌≡◌, ℕ, option_map};
ghost use Rattle.cgl_prooftext.specs.LineResult.{count_in, field_by, fits_integer, fits_number, integer_in, natural_in, ref_in, rhs_in};
ghost use Rattle.cgl_prooftext.specs.Readings.{IsRead, fields_left, fits_ref, sized};

use crate::fields::Fields;
use crate::names::reference;
use crate::numbers::{integer, number};
use crate::record::LineFault;
use cgl_derive::Ref;

/// How many there are.
pub(crate) fn count(fields: &mut Fields) -> Result<u32, LineFault>
    ensures { IsRead result (fields_left fields.new.rest) (count_in (fields_left fields.old.rest)) }
{
    let Some(field) = fields.take() else {
        return Err(LineFault::Form);
    };
    match number(field) {
        None => Err(LineFault::Form),
        Some(None) => Err(LineFault::Large),
        Some(Some(n)) => Ok(n),
    }
}

/// An integer: none where it is too large.
pub(crate) fn integer_field(fields: &mut Fields) -> Result<Option<i128>, LineFault>
    ensures { IsRead result (fields_left fields.new.rest) (sized fits_integer (field_by integer_in (fields_left fields.old.rest))) }
{
    let Some(field) = fields.take() else {
        return Err(LineFault::Form);
    };
    let Some(n) = integer(field) else {
        return Err(LineFault::Form);
    };
    Ok(n)
}

/// `>=` and the right side.
pub(crate) fn rhs(fields: &mut Fields) -> Result<Option<i128>, LineFault>
    ensures { IsRead result (fields_left fields.new.rest) (sized fits_integer (rhs_in (fields_left fields.old.rest))) }
{
    let Some(field) = fields.take() else {
        return Err(LineFault::Form);
    };
    if field != b">=".as_slice() {
        return Err(LineFault::Form);
    }
    integer_field(fields)
}

/// A reference: none where its number is too large.
pub(crate) fn reference_field(fields: &mut Fields, lemmas: bool) -> Result<Option<Ref>, LineFault>
    ensures { IsRead result (fields_left fields.new.rest) (sized fits_ref (field_by (ref_in lemmas) (fields_left fields.old.rest))) }
{
    let Some(field) = fields.take() else {
        return Err(LineFault::Form);
    };
    let Some(reference) = reference(field, lemmas) else {
        return Err(LineFault::Form);
    };
    Ok(reference)
}
