ghost use Rattle.std.specs.Prelude.{◌≡◌, length, IfOk};
ghost use Rattle.cgl_model.specs.Inequality.{AreColumnsBelow};
ghost use Rattle.cgl_derive.specs.declared.answer.Answer.TheVariants.{Cut};
ghost use Rattle.cgl_gen.specs.RoundMember.{answer_with, round_from, round_member};

use crate::columns::are_integer;
use crate::listable::violation_at;
use cgl_derive::{
    Answer, Candidate, Derivation, Ref, Round, Step, divides, divisor_of, divisors, rounded,
};
use cgl_model::{Ineq, Model, Place, Point, Side};
use cgl_num::{Frac, Memory};
use sqlite_items::Items;
use std::alloc::Global;

fn copied(alloc: Global, ineq: &Ineq) -> Result<Ineq, Memory>
    ensures { IfOk result (λ copy. copy ≡ ineq.now) }
{
    let terms = ineq.terms.copy(alloc)?;
    Ok(Ineq {
        terms,
        rhs: ineq.rhs,
    })
}

/// One rounding step from an end.
fn derivation(alloc: Global, place: Place, divisor: i128, claim: Ineq) -> Result<Derivation, Memory>
    ensures { IfOk result (λ derivation. derivation ≡ round_from place divisor claim) }
{
    let mut steps = Items::new(alloc);
    let step = Step::Round(Round {
        from: Ref::Side(place),
        g: divisor,
        claim,
    });
    let Ok(()) = steps.push(step) else {
        return Err(Memory);
    };
    Ok(Derivation { steps })
}

/// The cut as an answer, with its derivation.
fn derived(
    alloc: Global,
    place: Place,
    divisor: i128,
    cut: Ineq,
    violation: Frac,
) -> Result<Answer, Memory>
    ensures { IfOk result (λ answer. answer ≡ Cut (record { cut = cut; derivation = round_from place divisor cut; violation = violation })) }
{
    let claim = copied(alloc, &cut)?;
    let derivation = derivation(alloc, place, divisor, claim)?;
    Ok(Answer::Cut(Candidate {
        cut,
        derivation,
        violation,
    }))
}

/// The answer with the cut that the divisor gives.
fn answer(
    alloc: Global,
    point: &Point,
    side: &Side,
    divisor: i128,
    cut: Ineq,
) -> Result<Answer, Memory>
    requires columns { AreColumnsBelow (length point.now.p) cut.terms }
    ensures { IfOk result (λ answer. answer ≡ answer_with side.now point.now divisor cut) }
{
    match violation_at(point, &cut) {
        Err(_) => Ok(Answer::Wide),
        Ok(None) => Ok(Answer::Nothing),
        Ok(Some(violation)) => derived(alloc, side.place, divisor, cut, violation),
    }
}

/// What simple rounding says of a side of the model at a point, which has a number for each column of the side.
///
/// `Nothing` comes where the side has no terms or a column that is not integer, where the gcd of its coefficients
/// divides the right side, and where the point meets the cut. `Wide` comes where a number of the cut reaches 10^24 in
/// magnitude, or where its violation does not fit. Otherwise the cut comes with its derivation, one rounding step, and
/// its violation.
pub fn round(alloc: Global, model: &Model, point: &Point, side: &Side) -> Result<Answer, Memory>
    requires columns { AreColumnsBelow (length point.now.p) side.now.ineq.terms }
    ensures { IfOk result (λ answer. answer ≡ round_member model.now point.now side.now) }
{
    let terms = side.ineq.terms.as_slice();
    if terms.is_empty() {
        return Ok(Answer::Nothing);
    }
    if !are_integer(model, terms) {
        return Ok(Answer::Nothing);
    }
    divisors();
    let divisor = divisor_of(&side.ineq);
    if divides(divisor, side.ineq.rhs) {
        return Ok(Answer::Nothing);
    }
    let cut = rounded(alloc, &side.ineq, divisor)?;
    answer(alloc, point, side, divisor, cut)
}
