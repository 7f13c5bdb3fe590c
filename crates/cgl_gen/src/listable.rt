ghost use Rattle.std.specs.Prelude.{◌≡◌, ◌||◌, true, false, if◌then◌else◌, Some, None, length, IfOk, IfErr};
ghost use Rattle.std.specs.List.{list_any};
ghost use Rattle.cgl_model.specs.Inequality.{AreColumnsBelow, violation};
ghost use Rattle.cgl_gen.specs.Listable.{is_large, is_large_cut, is_violated, is_wide_at};

use cgl_model::{Ineq, Point, Wide};
use cgl_num::Frac;

/// A number of a listed cut is below this in magnitude: 10^24.
const LARGE: u128 = 1_000_000_000_000_000_000_000_000;

fn is_large(number: i128) -> bool
    ensures { result ≡ is_large number }
{
    LARGE <= number.unsigned_abs()
}

fn has_large(terms: &[(u32, i128)]) -> bool
    ensures { result ≡ list_any (λ t. is_large t.1) terms.now }
{
    terms.iter().any(|term| is_large(term.1))
}

/// Whether a number of the cut is too large for a list of cuts.
fn is_large_cut(cut: &Ineq) -> bool
    ensures { result ≡ is_large_cut cut.now }
{
    has_large(cut.terms.as_slice()) || is_large(cut.rhs)
}

/// By how much the point, which has a number for each column of the cut, violates the cut; `None` where it meets it.
///
/// # Errors
///
/// `Wide` exactly where a number of the cut reaches 10^24 in magnitude, or where the violation does not fit.
pub fn violation_at(point: &Point, cut: &Ineq) -> Result<Option<Frac>, Wide>
    requires columns { AreColumnsBelow (length point.now.p) cut.now.terms }
    ensures fits { IfOk result (λ violated. (is_large_cut cut.now || is_wide_at cut.now point.now) ≡ false) }
    ensures value { IfOk result (λ violated. violated ≡ (if is_violated cut.now point.now then Some (violation cut.now point.now) else None)) }
    ensures wide { IfErr result (λ e. (is_large_cut cut.now || is_wide_at cut.now point.now) ≡ true) }
{
    if is_large_cut(cut) {
        return Err(Wide);
    }
    let violation = cut.violation(point)?;
    if violation.num() <= 0 {
        return Ok(None);
    }
    Ok(Some(violation))
}
