ghost use Rattle.std.specs.Prelude.{◌≡◌, ◌<◌, length, IfOk, slice_get};
ghost use Rattle.cgl_model.specs.IntegerForm.{forms_of};
ghost use Rattle.cgl_gen.specs.RoundMember.{answer_at};

use crate::rounding::round;
use crate::{Generator, Site};
use cgl_derive::Answer;
use cgl_num::Memory;
use std::alloc::Global;

/// What simple rounding says of the side with this number.
fn round_side(alloc: Global, site: &Site<'_>, number: usize) -> Result<Answer, Memory>
    ensures { IfOk result (λ answer. answer ≡ answer_at site.now.model site.now.point (slice_get (forms_of site.now.model).sides number)) }
{
    match site.forms().sides().get(number) {
        None => Ok(Answer::Nothing),
        Some(side) => round(alloc, site.model(), site.point(), side),
    }
}

/// Simple rounding: divides a side over integer columns by the gcd of its coefficients, and rounds its right side up.
/// Each side of the model is an item, by its number.
#[derive(Clone, Copy, Debug, PartialEq, Eq)]
pub struct Rounder;

impl Generator for Rounder {
    ghost use Rattle.cgl_gen.specs.RoundMember.{round_count, round_says};
    ghost use Rattle.cgl_gen.specs.RoundLaws.{round_lawful};

    ghost count = { λ g s. round_count s };

    ghost says = { λ g s item. round_says s item };

    ghost lawful = { λ g s item c valid below said. round_lawful s item c valid said };

    #[tactic(auto, unfolding(crate::specs::RoundMember::round_count))]
    fn items(&self, _alloc: Global, site: &Site<'_>) -> Result<u64, Memory> {
        Ok(site.forms().sides().len() as u64)
    }

    #[tactic(auto, unfolding(crate::specs::RoundMember::round_says))]
    fn give(&self, alloc: Global, site: &Site<'_>, item: u64) -> Result<Answer, Memory> {
        round_side(alloc, site, item as usize)
    }
}
