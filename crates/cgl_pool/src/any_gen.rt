use crate::Numbered;
use cgl_derive::Answer;
use cgl_gen::{Generator, Rounder, Site};
use cgl_num::Memory;
use std::alloc::Global;

/// One of the generators.
#[derive(Clone, Copy, Debug, PartialEq, Eq)]
pub enum AnyGen {
    Rounder(Rounder),
}

impl Generator for AnyGen {
    ghost use Rattle.cgl_pool.specs.Generators.{any_lawful, count_of, says_of};

    ghost count = { λ g s. count_of g s };

    ghost says = { λ g s item. says_of g s item };

    ghost lawful = { λ g s item c valid below said. any_lawful g s item c valid below said };

    #[tactic(auto, unfolding(crate::specs::Generators::count_of))]
    fn items(&self, alloc: Global, site: &Site<'_>) -> Result<u64, Memory> {
        match self {
            AnyGen::Rounder(generator) => generator.items(alloc, site),
        }
    }

    #[tactic(auto, unfolding(crate::specs::Generators::count_of, crate::specs::Generators::says_of))]
    fn give(&self, alloc: Global, site: &Site<'_>, item: u64) -> Result<Answer, Memory> {
        match self {
            AnyGen::Rounder(generator) => generator.give(alloc, site, item),
        }
    }
}

impl Numbered for AnyGen {
    ghost use Rattle.cgl_pool.specs.Generators.{number_of};

    ghost number_of = { λ g. number_of g };

    #[tactic(auto, unfolding(crate::specs::Generators::number_of))]
    fn number(&self) -> u32 {
        match self {
            AnyGen::Rounder(_) => 0,
        }
    }
}
